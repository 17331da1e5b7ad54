//! How a command ends: what it did or why it stopped, the text that is printed of it, and the status; and the line of a packet.
#![tactic(auto)]

mod denial;
mod ending;
mod objection;
mod packet_line;
mod spell;

pub use denial::{AssetName, Denial};
pub use ending::{CaptureRefusal, Done, EndText, Stop, put_text, report};
pub use objection::{Ground, Objected};
pub use packet_line::{LONGEST_LINE, RecordLine, spell_line};
