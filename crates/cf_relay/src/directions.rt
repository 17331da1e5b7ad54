//! How the two directions of a session hang together. This project's own.

/// Whether one direction of a session waits for the other: when a side that has not ended is read.
#[derive(Clone, Copy, PartialEq, Eq, Debug)]
pub enum Directions {
    /// Where both queues are small, as `relay` has it: where one side takes nothing, neither is read.
    Together,
    /// Where the queue that its bytes go to is small, and the other one has room for what may come of them, as `serve` has it: a
    /// side that takes nothing is read all the same.
    Separate,
}
