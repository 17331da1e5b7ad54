//! Laws of a run: each is the contract of a function that does nothing.
ghost use Rattle.cf_run.specs.Fixed.{RecordsFixEvents, RecordsFixRuns};
ghost use Rattle.cf_run.specs.Headline.{RunsHaveHeadline};
ghost use Rattle.cf_run.specs.Isolation.{RunsIsolateSessions};
ghost use Rattle.cf_run.specs.Logged.{RunsAreLogged};
ghost use Rattle.cf_run.specs.Selected.{SelectsByMoment};
ghost use Rattle.cf_run.specs.Sessions.{SessionsAreIsolated, SessionsAreRight, SessionsHaveOneStream};
ghost use Rattle.cf_run.specs.SiteOf.{SessionsHaveSites};

use cf_decode::{fragments_decode, stations_decode};
use cf_lane::{has_one_judgement, rates_hold};
use cf_policy::sites_are_whole;
use cf_session::{
    events_are_fixed, first_copies_are_taken, has_one_stream, sessions_send_what_is_let_in,
    work_is_of_what_was_taken,
};

/// The packets that an event sent in each of its halves are those of all that the run sent which have the moment of that half.
pub fn selects_by_moment()
    ensures { SelectsByMoment }
{}

/// The records fix a run: two lists of right events over the same records are the same, and so are what two runs over them write
/// and count.
pub fn records_fix_runs()
    ensures events { RecordsFixEvents }
    ensures runs { RecordsFixRuns }
{
    events_are_fixed();
}

/// In a run every session, those that left the table too, has right events: each reads the session's own earlier ones, its flow
/// and the moments alone.
#[tactic(auto, using(crate::proofs::Sessions::sessions_right))]
pub fn sessions_are_right()
    ensures { SessionsAreRight }
{}

/// In a run, whatever copies of letters a controller takes in a session of all segments that were sent to it, it gets a beginning
/// of the session's stream to it; and so does the client.
#[tactic(auto, using(crate::proofs::Isolation::one_stream))]
pub fn sessions_have_one_stream()
    ensures { SessionsHaveOneStream }
{
    has_one_stream();
}

/// A session of one run and one of another that have one flow and are given the same packets at the same moments are the same in
/// all that they send and log, whatever else the two captures hold.
#[tactic(auto, using(crate::proofs::Isolation::isolated))]
pub fn sessions_are_isolated()
    ensures { SessionsAreIsolated }
{
    events_are_fixed();
}

/// Isolation: a session of one run and one of another run of the same policy with equal moments, which have one client and site
/// and began in the same event by the same packet, send the same records at the same moments and log the same lines, over the
/// events in which the same packets are matched to them, whatever else the two captures hold.
pub fn runs_isolate_sessions()
    ensures { RunsIsolateSessions }
{
    events_are_fixed();
}

/// Each session of a run under a policy that was read is with assets of one address and port that are in form: no two of them have one
/// station.
#[tactic(auto, using(crate::proofs::SiteOf::have_sites))]
pub fn sessions_have_sites()
    ensures { SessionsHaveSites }
{
    sites_are_whole();
}

/// The headline: after each event of a run, whatever copies of letters a controller takes in a session of all segments that were
/// sent to it, it puts together a beginning of one stream, and that decodes to the first of the items that the policy let through
/// of the client's stream of first copies, in order, and then to a proper prefix of the next; of its units those with the station of an
/// asset decode to the first of what that asset's rules admit; what was taken of both sides is so by first copies; each open end of a
/// session that was not cut has sent as many letters as its stream has below the greatest edge shown; and no rule let more commands of a session
/// through than its rate.
#[tactic(auto, using(crate::proofs::Headline::has_headline))]
pub fn runs_have_headline()
    ensures { RunsHaveHeadline }
{
    has_one_stream();
    first_copies_are_taken();
    work_is_of_what_was_taken();
    fragments_decode();
    stations_decode();
    rates_hold();
    sessions_send_what_is_let_in();
}

/// After each event of a run the streams, the lines and the counts of each session, and why it is cut, are those of the judged items of
/// all that was taken of both sides.
#[tactic(auto, using(crate::proofs::Headline::are_logged))]
pub fn runs_are_logged()
    ensures { RunsAreLogged }
{
    has_one_judgement();
    work_is_of_what_was_taken();
}
