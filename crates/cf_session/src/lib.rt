//! One session: two ends of TCP connections, and the lane between them.
#![tactic(auto)]

mod clock;
mod cutting;
mod deciding;
mod handing;
mod hearing;
mod laws;
mod life;
mod misfit;
mod packet;
mod session;
mod speaking;

pub use laws::{
    each_session_has_a_tick, events_are_fixed, fewer_segments_are_enough, first_copies_are_taken,
    has_one_stream, segments_carry_to_both_sides, sessions_are_quiet_before_due,
    sessions_send_what_is_let_in, work_is_of_what_was_taken,
};
pub use life::Life;
pub use misfit::Misfit;
pub use session::{BeginFault, Session};
