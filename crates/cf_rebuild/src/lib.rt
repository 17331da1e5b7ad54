//! The receive window of one TCP end: the first copy of each letter, in order.
#![tactic(auto)]

mod cells;
mod laws;
mod marks;
mod rebuild;
mod ring;

pub use laws::every_window_run;
pub use rebuild::Rebuild;
