//! What a draft proposes: rules as a person would have written, with their notes, as a text.
//! Nothing is proved of it but that it ends: who takes a proposal reads it again and holds it against what was shown.
#![tactic(auto)]

mod cover;
mod merging;
mod notes;
mod proposal;
mod repeats;
mod spans;
mod spelling;
mod writer;

pub use merging::FEW_RULES;
pub use notes::Moment;
pub use proposal::{Proposal, propose};
