//! The language of policies: what the bytes of a policy's text mean, or why they mean none.
#![tactic(auto)]

mod assets;
mod documents;
mod earlier;
mod fields;
mod laws;
mod lists;
mod logs;
mod migrate;
mod names;
mod numbers;
mod printing;
mod rates;
mod refusal;
mod rules;
mod sets;
mod sites;
mod spelling;

pub use documents::{LONGEST_TEXT, read_policy};
pub use laws::lone_assets_are_read_alone;
pub use migrate::migrated_text;
pub use names::{code_name, code_named, group_named};
pub use numbers::address;
pub use printing::document_text;
pub use refusal::{Cause, Key, PolicyFault, PolicyRefusal, push_refusal};
