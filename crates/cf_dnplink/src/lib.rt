//! The data link layer of DNP3: frames in a stream, their CRCs, and frames written.
#![tactic(auto)]

mod check;
mod frame;
mod user;
mod write;

pub use check::crc;
pub use frame::{Frame, each_stream_has_frames, next_frame, no_frame_begins_another};
pub use user::{copy_user, lent_user, user_len, user_octets_come_back};
pub use write::write_frame;
