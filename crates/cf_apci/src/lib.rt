//! The APDUs of IEC 60870-5-104: their framing in a stream, and their writer.
#![tactic(auto)]

mod apdu;
mod write;

pub use apdu::{Apdu, each_stream_has_apdus, next_apdu, no_apdu_begins_another};
pub use write::write_apdu;
