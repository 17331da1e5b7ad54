//! The streams of many sessions, each a client and its controller: what the calls on them tell, and the part of it that is one
//! session's.
#![tactic(auto)]

mod laws;
mod links;
mod memory_links;
mod service;

pub use laws::sessions_are_apart;
pub use links::{Links, ReachAnswer};
pub use memory_links::{LinksTold, MemoryClient, MemoryLinks};
pub use service::{ArriveAnswer, Service};
