//! Whether the rules before a rule decide all that it has: every act that a command can have and that is the rule's; and whether one
//! of them does by its lists alone. Beside it the points that such acts have, an end of a rule's codes, and numbers of rules that are
//! likely slips.
#![tactic(auto)]

mod answer;
mod codes;
mod common;
mod including;
mod outline;
mod points;
mod regions;
mod search;
mod slips;
mod spans;

pub use answer::{Cover, cover_of};
pub use codes::code_end;
pub use common::{have_common, some_overlap};
pub use including::{Earlier, covering};
pub use outline::{Outline, outlines};
pub use points::highest_point;
pub use slips::{Slip, likely_slip};
