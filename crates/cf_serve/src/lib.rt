//! A service: many clients and their controllers over one loop, each session a relay of its own.
#![tactic(auto)]

mod debt;
mod door;
mod end;
mod fault;
mod kept;
mod laws;
mod lending;
mod minute;
mod session;
mod table;
mod top;

pub use end::SessionEnd;
pub use fault::ServeFault;
pub use laws::{
    floods_are_bounded, rates_last_over_sessions, sessions_are_isolated, strangers_are_refused,
};
pub use table::Place;
pub use top::{serve, serve_desk};
