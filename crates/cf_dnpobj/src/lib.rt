//! The application layer of DNP3: requests of one fragment, their object headers, what they do, and replies to refused ones.
#![tactic(auto)]

mod acts;
mod fragment;
mod function;
mod header;
mod marks;
mod object;
mod reply;

pub use acts::{act_at, act_count};
pub use fragment::{Fragment, FragmentRefusal, read_fragment, requests_are_spelled};
pub use function::CONFIRM;
pub use marks::{Mark, act_by, marks_of};
pub use reply::{reply_for, wants_reply};
