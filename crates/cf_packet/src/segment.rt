//! The header of a TCP segment. RFC 9293, section 3.1.
ghost use Rattle.std.specs.Prelude.{◌≡◌, ◌+◌, ◌/◌, ◌%◌, ◌≤◌, ◌^◌, IfOk, false, length};
ghost use Rattle.cf_packet.specs.Checksum.{total, words};
ghost use Rattle.cf_packet.specs.Packet.{fields_of, packet_answer, packet_value, segment_in};
ghost use Rattle.cf_packet.specs.Recorded.{is_partial_segment, recorded_segment};
ghost use Rattle.cf_packet.specs.Tcp.{is_bad, is_right_segment, pseudo_header};

use crate::checksum::{folded, gathered};
use crate::options::mss_in;
use crate::packet::{Packet, PacketRefusal};
use cf_view::{Endpoint, View};

/// The segment between two addresses, or the first test that it fails.
pub(crate) fn read_segment<'a>(
    source: u32,
    dest: u32,
    segment: &'a [u8],
) -> Result<Packet<'a>, PacketRefusal>
    requires { length segment.now ≤ 65535 }
    ensures answer { packet_answer result ≡ segment_in source dest segment.now }
    ensures text { IfOk result (λ packet. length packet.text.now ≤ length segment.now) }
{
    if is_bad(&View::one(segment)) {
        return Err(PacketRefusal::BadTcp);
    }
    if !is_right_segment(source, dest, segment) {
        return Err(PacketRefusal::BadTcpSum);
    }
    Ok(fields(source, dest, segment))
}

/// The segment between two addresses, its checksum right or partial, or the first test that it fails.
pub(crate) fn recorded_segment<'a>(
    source: u32,
    dest: u32,
    segment: &'a [u8],
) -> Result<Packet<'a>, PacketRefusal>
    requires { length segment.now ≤ 65535 }
    ensures answer { packet_answer result ≡ recorded_segment source dest segment.now }
    ensures text { IfOk result (λ packet. length packet.text.now ≤ length segment.now) }
{
    if is_bad(&View::one(segment)) {
        return Err(PacketRefusal::BadTcp);
    }
    if !is_right_segment(source, dest, segment) && !is_partial_segment(source, dest, segment) {
        return Err(PacketRefusal::BadTcpSum);
    }
    Ok(fields(source, dest, segment))
}

/// What a segment says whose header is whole.
fn fields<'a>(source: u32, dest: u32, segment: &'a [u8]) -> Packet<'a>
    requires { is_bad segment.now ≡ false }
    ensures value { packet_value result ≡ fields_of source dest segment.now }
    ensures text { length result.text.now ≤ length segment.now }
{
    let fields = View::one(segment);
    let text_at = usize::from(fields.at(12) / 16) * 4;
    Packet {
        source: Endpoint {
            address: source,
            port: fields.u16_be(0),
        },
        dest: Endpoint {
            address: dest,
            port: fields.u16_be(2),
        },
        seq: fields.u32_be(4),
        ack: fields.u32_be(8),
        flags: fields.at(13) % 64,
        window: fields.u16_be(14),
        mss: mss_in(&segment[20..text_at]),
        text: &segment[text_at..],
    }
}

fn is_bad(segment: &View<'_>) -> bool
    ensures { result ≡ is_bad segment.now.bytes }
{
    if segment.len() < 20 {
        return true;
    }
    let offset = usize::from(segment.at(12) / 16);
    offset < 5 || segment.len() < offset * 4
}

/// Whether the sum over the pseudo-header and the segment is right.
fn is_right_segment(source: u32, dest: u32, segment: &[u8]) -> bool
    requires { length segment.now ≤ 65535 }
    ensures { result ≡ is_right_segment source dest segment.now }
{
    let pseudo = pseudo_sum(source, dest, segment.len() as u64);
    folded(pseudo + gathered(segment)) == 0xFFFF
}

/// Whether the checksum field has the sum of the pseudo-header alone.
fn is_partial_segment(source: u32, dest: u32, segment: &[u8]) -> bool
    requires whole { 20 ≤ length segment.now }
    requires short { length segment.now ≤ 65535 }
    ensures { result ≡ is_partial_segment source dest segment.now }
{
    let pseudo = pseudo_sum(source, dest, segment.len() as u64);
    View::one(segment).u16_be(16) == folded(pseudo)
}

/// The sum of the words of the pseudo-header of a segment of this length.
pub(crate) fn pseudo_sum(source: u32, dest: u32, length: u64) -> u64
    requires { length ≤ 65535 }
    ensures value { result ≡ total (words (pseudo_header source dest length)) }
    ensures small { result ≤ 2 ^ 20 }
{
    words_of(source) + words_of(dest) + 6 + length
}

/// The sum of the two words of a number.
pub(crate) fn words_of(n: u32) -> u64
    ensures { result ≡ n / 65536 + n % 65536 }
{
    u64::from(n / 65_536) + u64::from(n % 65_536)
}
