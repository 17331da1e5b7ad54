//! A policy that allows exactly what the flows of a capture show.
#![tactic(auto)]

mod assets;
mod gathering;
mod laws;
mod learning;
mod limit;
mod polls;
mod reading;
mod runs;
mod seen;

pub use assets::{LearnFault, learn, learned_asset, site_place};
pub use laws::shows_own_units;
pub use learning::{RulesFault, learned_rules};
pub use reading::{push_front, seen_in};
pub use seen::{Kind, Seen};
