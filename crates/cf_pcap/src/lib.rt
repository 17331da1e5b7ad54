//! Capture files in the classic pcap format: their header and their records, read and written.
#![tactic(auto)]

mod header;
mod record;
mod write;

pub use header::{Header, HeaderRefusal, MICROSECONDS, NANOSECONDS, read_header, u16_at, u32_at};
pub use record::{CAPTURED_LIMIT, RecordAnswer, read_record};
pub use write::{write_header, write_record_head};
