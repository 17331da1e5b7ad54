//! The ASDUs of IEC 60870-5-104 that command: their reader, what they do, and the mirrors that refuse them.
#![tactic(auto)]

mod acts;
mod asdu;
mod element;
mod reply;

pub use acts::{act_at, act_count};
pub use asdu::{Asdu, AsduRefusal, SHORTEST, no_octets_are_two_asdus, read_asdu, station_of};
pub use reply::mirror;
