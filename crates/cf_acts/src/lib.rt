//! The acts that commands of each protocol can have, as far as a policy can name them.
#![tactic(auto)]

mod acts;
mod laws;

pub use acts::{Groups, Kind, kinds};
pub use laws::{acts_are_within, tables_have_acts_of_commands, values_are_settled};
