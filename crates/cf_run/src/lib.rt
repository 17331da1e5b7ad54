//! The run over a capture: both halves of an event over the table of sessions, and the desk that writes the two output files.
#![tactic(auto)]

mod engine;
mod entry;
mod file_desk;
mod first_half;
mod fitting;
mod laws;
mod matching;
mod run;
mod second_half;
mod summary;

pub use engine::{Engine, StepFault};
pub use entry::{Entry, Table};
pub use file_desk::{FileDesk, append_packet};
pub use first_half::tick_all;
pub use laws::{
    records_fix_runs, runs_are_logged, runs_have_headline, runs_isolate_sessions,
    selects_by_moment, sessions_are_isolated, sessions_are_right, sessions_have_one_stream,
    sessions_have_sites,
};
pub use matching::{Match, TABLE_SIZE, match_packet};
pub use run::{RunFault, RunNames, RunRefusal, run_capture};
pub use second_half::{Outcome, receive};
pub use summary::{Happened, Summary};
