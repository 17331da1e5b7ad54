//! Packets read from the octets of a record.
//! An empty record of raw IP is short, and so is an Ethernet header with nothing behind it: what is not there has no version.
ghost use Rattle.std.specs.Prelude.{◌≡◌, ◌+◌, ◌≤◌, IfOk, length, option_copied};
ghost use Rattle.cf_packet.specs.Ipv4.{payload, typed_payload};
ghost use Rattle.cf_packet.specs.Packet.{read_ipv4, packet_answer, read_record};

use crate::header::{header_length, header_refusal, total_length};
use crate::packet::{Packet, PacketRefusal};
use crate::segment::read_segment;
use cf_view::{LinkKind, View};

/// The TCP segment in the IPv4 packet that the octets of a record hold, or the first test that it fails. Octets past
/// the packet's total length are padding. RFC 791, RFC 9293 and, for Ethernet, RFC 894; for Linux cooked captures tcpdump.org's list of link
/// types. The order of the tests is this project's own.
pub fn read_packet<'a>(link: &LinkKind, bytes: &'a [u8]) -> Result<Packet<'a>, PacketRefusal>
    ensures answer { packet_answer result ≡ read_record link.now bytes.now }
    ensures text { IfOk result (λ packet. length packet.text.now ≤ 65535) }
{
    match payload(link, bytes) {
        Some(packet) => read_ipv4(packet),
        None => Err(PacketRefusal::NotIpv4),
    }
}

/// What stands after the link header of a record, if its type is that of IPv4.
pub(crate) fn payload<'a>(link: &LinkKind, octets: &'a [u8]) -> Option<&'a [u8]>
    ensures { option_copied result ≡ payload link.now octets.now }
{
    match link {
        LinkKind::Ethernet => typed_payload(octets, 12, 14),
        LinkKind::RawIp => Some(octets),
        LinkKind::LinuxCooked => typed_payload(octets, 14, 16),
        LinkKind::LinuxCooked2 => typed_payload(octets, 0, 20),
    }
}

/// What stands after a header of so many octets, if the type at this place of it is that of IPv4.
fn typed_payload(octets: &[u8], type_at: usize, size: usize) -> Option<&[u8]>
    requires inside { type_at + 2 ≤ size }
    ensures { option_copied result ≡ typed_payload type_at size octets.now }
{
    if octets.len() < size || View::one(octets).u16_be(type_at) != 0x0800 {
        return None;
    }
    Some(&octets[size..])
}

fn read_ipv4<'a>(packet: &'a [u8]) -> Result<Packet<'a>, PacketRefusal>
    ensures answer { packet_answer result ≡ read_ipv4 packet.now }
    ensures text { IfOk result (λ packet. length packet.text.now ≤ 65535) }
{
    if let Some(refusal) = header_refusal(packet) {
        return Err(refusal);
    }
    let fields = View::one(packet);
    let source = fields.u32_be(12);
    let dest = fields.u32_be(16);
    let segment = &packet[header_length(&fields)..total_length(&fields)];
    read_segment(source, dest, segment)
}
