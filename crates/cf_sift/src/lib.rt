//! The filter of a stored stream: it is read in pieces, each is handed to a lane, and what goes to each side is moved into a
//! file.
#![tactic(auto)]

mod laws;
mod log;
mod names;
mod outputs;
mod queue_file;
mod sift;
mod sifting;
mod stream;

pub use laws::has_one_cut;
pub use names::SiftNames;
pub use sift::{SiftDone, SiftFault, sift_stream};
