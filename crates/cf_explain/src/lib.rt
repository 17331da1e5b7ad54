//! What the program says to people: why a policy, a capture or the words were refused, which rules no command meets, why one
//! policy is not included in another, and what stands in the outputs after a fault. Each call makes one text, whatever it is
//! given, or ends for want of memory.
#![tactic(auto)]

mod allowed;
mod block;
mod capture;
mod code_words;
mod commands;
mod difference;
mod differences;
mod entries;
mod foreign;
mod found;
mod gathered;
mod kept;
mod kinds;
mod link;
mod naming;
mod nearest;
mod outputs;
mod page;
mod place;
mod policy;
mod quote;
mod report;
mod seat;
mod sets;
mod unknown;
mod unlogged;
mod unmet;
mod warnings;
mod words;
mod wrong;

pub use capture::capture_message;
pub use difference::{PolicyFile, asset_named, inclusion_message};
pub use differences::differences_text;
pub use found::{What, findings, sound_rules_have_reads};
pub use kept::kept_text;
pub use outputs::{asset_message, outputs_message, own_endpoint_message, same_site_message};
pub use policy::policy_message;
pub use unmet::{Unmet, why_unmet};
pub use warnings::policy_warnings;
pub use words::words_message;
