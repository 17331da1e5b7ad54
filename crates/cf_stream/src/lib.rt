//! The streams of TCP connections: their letters, the first copies of what was offered, and positions.
#![tactic(auto)]

mod laws;

pub use laws::{
    first_copies_stay, letters_stand_in_order, letters_stay, parts_carry, positions_ahead,
    positions_behind, positions_by_hand, positions_near, streams_go_on, taken_exists, taken_is_one,
    taken_letters_are_copies, taken_only_grows,
};
