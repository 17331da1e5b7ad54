//! One end of a TCP connection: opening, the receive window, the speech and the retransmission timer.
#![tactic(auto)]

mod ends;
mod heard;
mod laws;
mod leg;
mod runs;
mod send;

pub use ends::{Advertised, ClockAnswer, EndState, Ends, LegAnswer, Phase, Role, Way};
pub use laws::{
    active_legs_open_by_a_syn_ack, base_counts_the_taken, clocks_are_quiet_before_due,
    events_begin, open_legs_have_greeted, pieces_are_read, sends_are_fixed, speeches_reach,
};
pub use leg::Leg;
pub use runs::{
    edges_never_move_back, events_fix_what_is_sent, nothing_passes_the_edge,
    one_empty_segment_where_owed, repeats_carry_what_was_carried, segments_carry_one_stream,
};
