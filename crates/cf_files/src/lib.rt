//! The files of the machine, each failure counted: in a crate of their own, since no edit turns them, and a crate with edits is proved twice.
#![tactic(auto)]

mod files;

pub use files::{Fault, Gather, RealFiles, Twins, Withheld};
