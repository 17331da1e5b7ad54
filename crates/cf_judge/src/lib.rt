//! The judge of what clients sent to the assets of a policy: whether each flow carries one letter at each position, and nothing but
//! what the policy allows.
#![tactic(auto)]

mod dnp3;
mod front;
mod iec104;
mod judging;
mod laws;
mod modbus;
mod ruling;

pub use front::{Front, Reader};
pub use judging::{Judged, Objection, judge};
pub use laws::each_asset_is_judged_alone;
pub use ruling::{Complaint, Ruling};
