//! What drives a lane: a piece of a side fed behind what is left of it, the end of a side, the test of the lengths, a queue
//! that is taken from its front, whether queues are small, and the line of what happens to a session.
#![tactic(auto)]

mod heard;
mod lengths;
mod line;
mod queue;

pub use heard::Heard;
pub use lengths::length_cut;
pub use line::log_line;
pub use queue::{are_small, front, pop};
