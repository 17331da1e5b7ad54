//! How a session of a service ends.
//! Of a silent or lost one the last line has the greatest moment that it told, 0 before its first; the lines of a client that
//! took the last place, of a controller that was not reached, of one whose client came again and of want of memory have the round's.

use cf_audit::CutReason;

/// How a session ended. This project's own.
#[derive(Clone, Copy)]
pub enum SessionEnd {
    /// Both sides have ended, and were given all that was for them.
    Closed,
    /// An item, or the limit of a stream, cut it.
    Cut(CutReason),
    /// Nothing moved for as long as the words allow.
    Silent,
    /// A connection failed, or was reset.
    Lost,
    /// The controller took no connection.
    Unreached,
    /// The client had gone before the controller was reached.
    Gone,
    /// The client came again, at a site that has rates.
    Again,
    /// Memory was wanting as the controller was reached, or room for what is kept of the client.
    NoMemory,
}
