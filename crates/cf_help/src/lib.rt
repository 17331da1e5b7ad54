//! What the program says of itself, and on standard error beside what its work prints.
#![tactic(auto)]

mod compared;
mod help;
mod remark;
mod say;
mod service;
mod source;
mod why;

pub use help::{Asked, print_help, print_topic, print_version, question_of};
pub use service::{announce_service, expect_service_files, explain_service};
pub use why::{expect_files, explain};
