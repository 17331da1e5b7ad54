//! Laws of a run's files: each is the contract of a function that does nothing.
//! All sessions of one client and site are told apart by their time alone, so the laws on lines ask for assets with distinct
//! names.
ghost use Rattle.cf_isolation.specs.FileRows.{FileRowsHold};
ghost use Rattle.cf_isolation.specs.Isolated.{CapturesAreIsolated, CapturesHoldSessions, CapturesHoldToTheNext};
ghost use Rattle.cf_isolation.specs.Lives.{AlikeInLines, AlikeInRecords, EachHasALife, EachHasRecords, EachLogged};
ghost use Rattle.cf_isolation.specs.Logged.{LogsAreIsolated, LogsHoldSessions, LogsHoldToTheNext};
ghost use Rattle.cf_isolation.specs.ReadBack.{RunsAreReadBack};
ghost use Rattle.cf_isolation.specs.Rows.{RowsHold};

use cf_records::octets_have_one_list_of_records;
use cf_run::{runs_isolate_sessions, sessions_are_right};
use cf_session::{events_are_fixed, work_is_of_what_was_taken};

/// The output capture of a run is read as the packets that the run sent, at their moments, up to its end.
pub fn runs_are_read_back()
    ensures { RunsAreReadBack }
{
    sessions_are_right();
}

/// The records of the output capture between the two endpoints of a session are those of what the session's own events sent, in their
/// order: in its time up to any record before the one in which the next session of its client and site begins, up to the packet of that
/// one, and over its whole life. So they are the same in two runs of the same policy with equal moments, of sessions of one client and
/// site that began in the same event by the same packet and are matched the same packets; and over whole lives, of sessions of one flow
/// that are given the same packets at the same moments, whatever else the captures hold.
pub fn captures_hold_sessions()
    ensures records { CapturesHoldSessions }
    ensures records_to_the_next { CapturesHoldToTheNext }
    ensures isolated { CapturesAreIsolated }
    ensures lives { EachHasALife }
    ensures owned { EachHasRecords }
    ensures alike { AlikeInRecords }
{
    sessions_are_right();
    events_are_fixed();
    runs_isolate_sessions();
    runs_are_read_back();
    octets_have_one_list_of_records();
}

/// The lines of the log that name a session's client and an asset of its site are those that the session's own events logged, in these
/// times and over its whole life; and they are the same in two runs as above.
pub fn logs_hold_sessions()
    ensures lines { LogsHoldSessions }
    ensures lines_to_the_next { LogsHoldToTheNext }
    ensures isolated { LogsAreIsolated }
    ensures owned { EachLogged }
    ensures alike { AlikeInLines }
{
    sessions_are_right();
    events_are_fixed();
    runs_isolate_sessions();
    work_is_of_what_was_taken();
}

/// Of a run that was worked out by hand each session has its own packets and lines in the two files, and no other's; and a worked capture
/// of two sessions is what is written of their packets, and is read as these and no others.
pub fn rows_hold()
    ensures sessions { RowsHold }
    ensures file { FileRowsHold }
{
    octets_have_one_list_of_records();
}
