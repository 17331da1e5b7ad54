//! The send and receive numbers of an IEC 60870-5-104 session whose two legs carry different frames.
#![tactic(auto)]

mod answer;
mod laws;
mod mark;
mod marks;
mod number;
mod numbers;

pub use answer::{NumberRefusal, RefusedStamp, Stamp};
pub use laws::{covers_the_most, every_numbers_run, one_count, one_count_in_every_run};
pub use numbers::Numbers;
