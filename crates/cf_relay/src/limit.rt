//! How much one call moves.

/// How many bytes are taken of a side, or given to it, in one call at most. This project's own.
pub const MOST_BYTES: usize = 4_096;
