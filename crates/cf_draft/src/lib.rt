//! A first policy that allows what captures show, as a person would have written it.
//! The rules, their order and their comments are proposed by `cf_plan`, of which nothing is proved but that it ends. What it proposes is
//! read again and held against what was shown, and the policy that allows exactly that is written in its place where it does not keep to
//! it.
#![tactic(auto)]

mod drafting;
mod parts;
mod shown;

pub use drafting::{Draft, draft_policy};
pub use parts::{Parts, read_parts};
