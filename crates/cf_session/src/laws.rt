//! Laws over every list of right events of a session: each is the contract of a function that does nothing.
ghost use Rattle.cf_session.specs.Laws.{EachSessionHasATick, EventsAreFixed, FewerPartsAreEnough, FirstCopiesAreTaken, HasOneStream};
ghost use Rattle.cf_session.specs.Laws.{SegmentsCarryOneStream, SendsWhatIsLetIn, WorkIsOfTheTaken};
ghost use Rattle.cf_session.specs.Stands.{AreQuietBeforeDue};

use cf_lane::{has_one_judgement, streams_go_on};
use cf_leg::{
    clocks_are_quiet_before_due, events_fix_what_is_sent, segments_carry_one_stream, speeches_reach,
};

/// Isolation: what is given to a session, its packets and their moments, fixes all its events, so all that it sends and logs,
/// whatever else the box does.
pub fn events_are_fixed()
    ensures { EventsAreFixed }
{
    events_fix_what_is_sent();
    has_one_judgement();
}

/// A session that was not cut and has not expired has a first half of its next event, at whatever moment its timers are looked at.
pub fn each_session_has_a_tick()
    ensures { EachSessionHasATick }
{}

/// Before a session is due the first half of an event sends and logs nothing, and the session as it is stands for the longer list
/// of events.
pub fn sessions_are_quiet_before_due()
    ensures { AreQuietBeforeDue }
{
    clocks_are_quiet_before_due();
}

/// What was taken of each side of a session, after whatever events, is what is taken of the letters that its segments offered, each by
/// its first copy.
#[tactic(auto, using(crate::proofs::Over::all_taken))]
pub fn first_copies_are_taken()
    ensures { FirstCopiesAreTaken }
{}

/// The streams, the log and the counts of a session are what a lane makes of all letters that were taken of both sides so far.
#[tactic(auto, using(crate::proofs::OneStream::works_of))]
pub fn work_is_of_what_was_taken()
    ensures { WorkIsOfTheTaken }
{}

/// Letter by letter: each segment of a session to its controller has at each of its places the letter of one stream, which the
/// session's stream to it begins with; and so has each to its client.
pub fn segments_carry_to_both_sides()
    ensures { SegmentsCarryOneStream }
{
    has_one_judgement();
    segments_carry_one_stream();
    streams_go_on();
}

/// One stream: after each event, whatever copies of letters the controller takes of all segments that were sent to it, it gets
/// a beginning of the session's stream to it; and so does the client.
pub fn has_one_stream()
    ensures { HasOneStream }
{
    segments_carry_to_both_sides();
}

/// How far: between two events of a session that was not cut, each open end has sent as many letters as its stream has below the
/// greatest edge that its peer showed.
pub fn sessions_send_what_is_let_in()
    ensures { SendsWhatIsLetIn }
{
    has_one_judgement();
    speeches_reach();
    streams_go_on();
}

/// What a receiver puts together of some segments it also puts together of these and more. So amid an event, where fewer segments
/// were sent, it gets a beginning of the same stream.
#[tactic(auto, using(crate::proofs::Fewer::fewer_parts))]
pub fn fewer_segments_are_enough()
    ensures { FewerPartsAreEnough }
{}
