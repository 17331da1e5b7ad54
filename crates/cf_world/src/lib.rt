//! A large valid input from a number: a policy of three assets, and a capture that hosts of all three protocols made against
//! the engine.
#![tactic(auto)]

mod making;
mod record;
mod world;

pub use world::{RECORD_LIMIT, WorldFault, WorldNames, make_world};
