//! The outside as the machine has it: a writer as a sink, and streams over TCP; and its files, which have a crate of their own.
#![tactic(auto)]

mod link;
mod links;
mod peer;
mod sink;
mod standard;
mod streams;

pub use cf_files::{Fault, Gather, RealFiles, Twins, Withheld};
pub use link::{LinkFault, LinkPair, Part};
pub use links::{Announcement, RealLinks, Supervisor};
pub use sink::{Printing, RealSink};
pub use standard::{fill_descriptors, takes_lines};
