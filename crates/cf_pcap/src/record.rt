//! The records of a capture file.
ghost use Rattle.std.specs.Prelude.{◌≡◌, ◌≤◌, length};
ghost use Rattle.cf_pcap.specs.Record.{IsInside, record_answer_value, record_of, stamp_at};

use crate::header::{Header, u32_at};
use cf_view::View;

/// The captured octets that a record has at most. This project's own.
pub const CAPTURED_LIMIT: u32 = 262_144;

/// What octets of a file say about the record that they begin. draft-ietf-opsawg-pcap, section 5.
#[derive(Drop)]
pub enum RecordAnswer<'a> {
    /// A record.
    Whole {
        /// Its moment in microseconds since the epoch.
        stamp: u64,
        /// The captured octets.
        body: &'a [u8],
        /// How many octets it takes, its head included.
        used: usize,
    },
    /// The record goes on after the octets. It takes so many in all: 16 while its head is not whole.
    Need(usize),
    /// The captured length is above `CAPTURED_LIMIT`.
    TooLong,
}

/// The record that begins the octets, in a file with this header. draft-ietf-opsawg-pcap, section 5; the original
/// length is not used.
pub fn read_record<'a>(header: &Header, bytes: &'a [u8]) -> RecordAnswer<'a>
    ensures value { record_answer_value result ≡ record_of header.now bytes.now }
    ensures inside { IsInside (record_answer_value result) (length bytes.now) }
{
    if bytes.len() < 16 {
        return RecordAnswer::Need(16);
    }
    let head = View::one(bytes);
    let captured = u32_at(&head, 8, header.big_endian);
    if captured > CAPTURED_LIMIT {
        return RecordAnswer::TooLong;
    }
    let used = 16 + captured as usize;
    if bytes.len() < used {
        return RecordAnswer::Need(used);
    }
    RecordAnswer::Whole {
        stamp: stamp(header, &head),
        body: &bytes[16..used],
        used,
    }
}

/// The stamp in a record's head, in microseconds.
fn stamp(header: &Header, head: &View<'_>) -> u64
    requires { 16 ≤ length head.now.bytes }
    ensures { result ≡ stamp_at header.now head.now.bytes }
{
    let seconds = u32_at(head, 0, header.big_endian);
    let fraction = u32_at(head, 4, header.big_endian);
    let micros = if header.nanos {
        fraction / 1000
    } else {
        fraction
    };
    u64::from(seconds) * 1_000_000 + u64::from(micros)
}
