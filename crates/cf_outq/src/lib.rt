//! The send queue of one TCP end: what is to be sent, what was sent, and what was acknowledged.
#![tactic(auto)]

mod laws;
mod outq;
mod piece;

pub use laws::{every_queue_run, pushes_join};
pub use outq::Outq;
pub use piece::Piece;
