//! The program: what it does for each command, and the status that it ends with.
#![tactic(auto)]

mod check;
mod compare;
mod draft;
mod judge;
mod laws;
mod learn;
mod limits;
mod migrate;
mod numbers;
mod packets;
mod policy_file;
mod recording;
mod relay;
mod review;
mod run;
mod serve;
mod service;
mod sift;
mod top;
mod watching;
mod world;

pub use cf_sift::{SiftDone, SiftFault, SiftNames, sift_stream};
pub use serve::serve_main;
pub use top::box_main;
