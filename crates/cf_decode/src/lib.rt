//! What the stream to a controller decodes to, and what is told of refused commands and of admitted ones: laws over the definitions of
//! the lane.
#![tactic(auto)]

mod laws;

pub use laws::{
    admits_what_is_allowed, fragments_decode, refused_commands_are_told, rows_hold,
    shown_commands_are_told, stations_decode, stream_decodes,
};
