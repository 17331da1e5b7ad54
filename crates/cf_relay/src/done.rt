//! What a relay did.

use cf_audit::CutReason;
use thiserror::Error;

/// What a relay did.
#[derive(Clone, Copy, PartialEq, Eq, Debug)]
pub struct RelayDone {
    /// How it ended.
    pub end: RelayEnd,
    /// How many commands were admitted.
    pub admitted: u64,
    /// How many commands were refused.
    pub refused: u64,
}

/// How a relay ended that no fault stopped.
#[derive(Clone, Copy, PartialEq, Eq, Debug)]
pub enum RelayEnd {
    /// Both sides have ended, were given all that was for them, and were closed.
    Done,
    /// An item cut the session, or a stream of as many letters as the limit. Nothing more was given.
    Cut(CutReason),
    /// As many answers `Idle` came, with no other between them that moves a letter, as the caller allowed.
    IdleEnd,
}

/// Why a relay stopped otherwise.
#[derive(Clone, Copy, PartialEq, Eq, Debug, Error)]
pub enum RelayFault {
    /// Memory was wanting: before the log was created, or for the client that was met.
    #[error("out of memory")]
    NoMemory,
    /// A call on the pair failed.
    #[error("a call on the pair failed")]
    Link,
    /// The log could not be created, or not be appended to.
    #[error("a creation or an append failed")]
    Write,
}
