//! The review of a recording: all that a policy objects to in its flows, as lines of the log.
#![tactic(auto)]

mod counting;
mod first_unit;
mod following;
mod laws;
mod lines;
mod remark;
mod reviewer;
mod reviewing;
mod spelling;
mod stamps;

pub use counting::{Counts, count};
pub use first_unit::first_place;
pub use laws::{
    bytes_come_in_order, judge_tells_the_first, records_come_first, stamps_tell,
    syn_flows_are_watched,
};
pub use lines::write_lines;
pub use remark::{Matter, Remark, SHOWN};
pub use reviewer::Reviewer;
pub use reviewing::Reviewed;
pub use stamps::Stamps;
