//! The files of a run: what was sent is read again, and what they hold between a session's endpoints is what the session sent.
#![tactic(auto)]

mod laws;

pub use laws::{captures_hold_sessions, logs_hold_sessions, rows_hold, runs_are_read_back};
