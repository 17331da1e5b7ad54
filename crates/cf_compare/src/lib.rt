//! Whether one policy allows only what another allows, and else an act that shows the difference.
#![tactic(auto)]

mod answer;
mod axis;
mod corners;
mod count;
mod rows;
mod rules;
mod search;

pub use answer::{CompareFault, Compared, compare, first_difference, partner_of};
pub use count::{MOST_CELLS, cells};
