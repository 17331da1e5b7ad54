//! Packets read from the octets of a record that a sending host may have made.
ghost use Rattle.std.specs.Prelude.{◌≡◌, ◌≤◌, IfOk, Some, length};
ghost use Rattle.cf_packet.specs.Packet.{packet_answer};
ghost use Rattle.cf_packet.specs.Recorded.{read_recorded, recorded_payload};

use crate::header::{header_length, header_refusal, total_length};
use crate::packet::{Packet, PacketRefusal};
use crate::read::payload;
use crate::segment::recorded_segment;
use cf_view::{LinkKind, View};

/// The TCP segment in the IPv4 packet that the octets of a record hold, or the first test that it fails. The tests are those of
/// `read_packet`, but that a partial checksum is right besides: the sum of the pseudo-header alone, not complemented, as a sending host's
/// recorder leaves it where the network card adds the rest. RFC 9293, section 3.1, and RFC 1071; that it is taken is this project's own.
pub fn read_recorded<'a>(link: &LinkKind, bytes: &'a [u8]) -> Result<Packet<'a>, PacketRefusal>
    ensures answer { packet_answer result ≡ read_recorded link.now bytes.now }
    ensures text { IfOk result (λ packet. length packet.text.now ≤ 65535) }
{
    match payload(link, bytes) {
        Some(packet) => recorded_ipv4(packet),
        None => Err(PacketRefusal::NotIpv4),
    }
}

fn recorded_ipv4<'a>(packet: &'a [u8]) -> Result<Packet<'a>, PacketRefusal>
    ensures answer { packet_answer result ≡ recorded_payload (Some packet.now) }
    ensures text { IfOk result (λ packet. length packet.text.now ≤ 65535) }
{
    if let Some(refusal) = header_refusal(packet) {
        return Err(refusal);
    }
    let fields = View::one(packet);
    let segment = &packet[header_length(&fields)..total_length(&fields)];
    recorded_segment(fields.u32_be(12), fields.u32_be(16), segment)
}
