//! Why a service stops.

use thiserror::Error;

/// Why a service stopped.
#[derive(Clone, Copy, PartialEq, Eq, Debug, Error)]
pub enum ServeFault {
    /// Memory was wanting, before anything was asked of the links.
    #[error("out of memory")]
    NoMemory,
    /// The log could not be gone on with, or a line could not be appended.
    #[error("a line of the log failed")]
    Write,
    /// A place cannot be listened at, or the wait failed.
    #[error("a place cannot be listened at, or the wait failed")]
    Loop,
}
