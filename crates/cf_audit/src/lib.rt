//! The lines of the log: what happened to whom, as one line of text each.
#![tactic(auto)]

mod line;
mod write;

pub use line::{CutReason, Line, NAME_LIMIT, What, Why};
pub use write::{break_word, push_cut, reason_word, why_word, write_line};
