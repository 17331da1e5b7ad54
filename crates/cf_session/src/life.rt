//! How a session stands after a call.

use cf_audit::CutReason;

/// How a session stands. After `Expired` and `Cut` it is dropped.
///
/// ```text
///   a SYN of the client comes, and the box sends its own to the controller
///     |
///     v      both Ends taken, both streams acknowledged            a tick sixty seconds later
///   Live ----------------------------------------------> Closed ----------------------------> Expired
///     |                                                    |
///     |  an end is reset or gives up,                      |  a new SYN of its flow: it gives way
///     |  an item cuts, or a stream is full                 v
///     v                                                  (a new session, Live)
///   Cut
/// ```
///
/// A closed session still answers packets, as RFC 9293, section 3.3.2, has it of TIME-WAIT; nothing cuts it. The states are
/// this project's own.
#[derive(Clone, Copy)]
pub enum Life {
    /// It goes on: a side has not ended, or something is not acknowledged.
    Live,
    /// Both sides have ended, and both ends are acknowledged.
    Closed,
    /// Sixty seconds have passed since it closed.
    Expired,
    /// It was cut, for this reason: both peers have an RST, and the log has its line.
    Cut(CutReason),
}
