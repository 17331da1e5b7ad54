//! The end of the moments that records have.

/// The moment from which on no record is taken, in microseconds: 2^32 seconds. This project's own.
pub const MOMENT_LIMIT: u64 = 4_294_967_296_000_000;
