//! Laws of judgements, of what goes to a controller, and of what a run sends, as a judge reads it: each is the contract of a function that
//! does nothing.
ghost use Rattle.cf_unobjected.specs.Allowed.{FlowsGoOn, UnobjectedAreAllowed};
ghost use Rattle.cf_unobjected.specs.OneJudgement.{FlowsAreJudged, FlowsAreOne, JudgementsAreOne, RecordsHaveOneJudgement};
ghost use Rattle.cf_unobjected.specs.OneReading.{ReadingsAreOne};
ghost use Rattle.cf_unobjected.specs.Rows.{RowsHold};
ghost use Rattle.cf_unobjected.specs.RunRows.{RunRowsHold};
ghost use Rattle.cf_unobjected.specs.SelfJudged.{RunsAreUnobjected, WatchedRunsAreUnobjected};
ghost use Rattle.cf_unobjected.specs.ShortestFront.{FrontsAreJudged, ObjectionsAreOfShortestFronts};
ghost use Rattle.cf_unobjected.specs.Unobjected.{BeginningsAreUnobjected};

use cf_decode::stream_decodes;
use cf_dnplink::user_octets_come_back;
use cf_dnptrans::first_segments_make_the_first_fragments;
use cf_isolation::runs_are_read_back;
use cf_modbus::each_pdu_has_an_answer;
use cf_records::octets_have_one_list_of_records;
use cf_run::sessions_are_right;
use cf_session::{segments_carry_to_both_sides, work_is_of_what_was_taken};
use cf_stream::{letters_stand_in_order, taken_letters_are_copies};
use cf_watch::one_stream_is_seen;

/// Of any beginning of the stream to a controller a judge reads whole units and a proper prefix of one, and nothing is wrong with any
/// of them, whatever records the octets came with.
pub fn beginnings_are_unobjected()
    ensures { BeginningsAreUnobjected }
{
    stream_decodes();
    first_segments_make_the_first_fragments();
    user_octets_come_back();
}

/// The octets of a flow are read in one way.
pub fn readings_are_one()
    ensures { ReadingsAreOne }
{}

/// What is watched in the records of a capture is one list of flows, and these have one judgement: one number of commands, and one
/// objection, or none.
pub fn judgements_are_one()
    ensures flows { FlowsAreOne }
    ensures judgements { JudgementsAreOne }
    ensures records { RecordsHaveOneJudgement }
{}

/// Flows to assets of a policy, whose bytes are octets, have a judgement.
pub fn flows_are_judged()
    ensures { FlowsAreJudged }
{
    each_pdu_has_an_answer();
}

/// The flows of a capture stay in their places, whatever records follow, and each goes on.
pub fn flows_go_on()
    ensures { FlowsGoOn }
{}

/// Where a judge objects to nothing in a capture, all that a receiver may put together of a flow, after whichever record and of
/// whichever copies, is a beginning of one stream, and that stream is units which the policy lets through, and then a proper prefix of
/// another.
pub fn unobjected_are_allowed()
    ensures { UnobjectedAreAllowed }
{
    letters_stand_in_order();
    taken_letters_are_copies();
}

/// The objection of a capture is that of its shortest front of records that has one.
pub fn objections_are_of_shortest_fronts()
    ensures fronts { FrontsAreJudged }
    ensures shortest { ObjectionsAreOfShortestFronts }
{}

/// Whatever a run of a policy over records in time sends, every judgement of the flows of its output capture under that policy has no
/// objection; so it is of the flows that a watcher tells of a file that holds it.
pub fn runs_are_unobjected()
    ensures records { RunsAreUnobjected }
    ensures watched { WatchedRunsAreUnobjected }
{
    segments_carry_to_both_sides();
    work_is_of_what_was_taken();
    one_stream_is_seen();
    beginnings_are_unobjected();
    sessions_are_right();
    runs_are_read_back();
    octets_have_one_list_of_records();
}

/// Flows worked by hand: of one with a conflict a receiver may have taken either octet, and of one out of order both; of two with a
/// read each a judge objects to the one that no rule allows; of reads of two stations behind one address and port to the one that the
/// second station's own rules do not allow, under its name; and of a capture each session is watched as one flow, of its own packets
/// alone.
pub fn rows_hold()
    ensures flows { RowsHold }
    ensures run { RunRowsHold }
{
    judgements_are_one();
}
