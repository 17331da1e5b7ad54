//! The words that the program takes, the command that they are, and the statuses that it ends with.
#![tactic(auto)]

mod captures;
mod command;
mod files;
mod names;
mod relay;
mod run;
mod sift;
pub mod status;
mod world;

pub use captures::MOST_CAPTURES;
pub use command::{Command, read_words};
pub use names::{are_names, printed_number_in};
