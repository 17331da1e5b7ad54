//! The header of an IPv4 packet. RFC 791, section 3.1.
ghost use Rattle.std.specs.Prelude.{◌≡◌, ◌≤◌, IfNone, length};
ghost use Rattle.cf_packet.specs.Ipv4.{header_length, header_refusal, is_bad_header, is_fragment, is_other_version, is_short};
ghost use Rattle.cf_packet.specs.Ipv4.{total_length};

use crate::checksum::is_right;
use crate::packet::PacketRefusal;
use cf_view::View;

/// The first test that the header of a packet fails, if it fails one.
pub(crate) fn header_refusal(packet: &[u8]) -> Option<PacketRefusal>
    ensures refusal { result ≡ header_refusal packet.now }
    ensures header { IfNone result (20 ≤ header_length packet.now) }
    ensures inside { IfNone result (total_length packet.now ≤ length packet.now) }
    ensures ordered { IfNone result (header_length packet.now ≤ total_length packet.now) }
{
    let fields = View::one(packet);
    if is_other_version(&fields) {
        return Some(PacketRefusal::NotIpv4);
    }
    if is_short(&fields) {
        return Some(PacketRefusal::Short);
    }
    if is_bad_header(&fields) {
        return Some(PacketRefusal::BadHeader);
    }
    if !is_right(&packet[..header_length(&fields)]) {
        return Some(PacketRefusal::BadHeaderSum);
    }
    if is_fragment(&fields) {
        return Some(PacketRefusal::Fragment);
    }
    if fields.at(9) != 6 {
        return Some(PacketRefusal::NotTcp);
    }
    None
}

/// The length of the header in octets.
pub(crate) fn header_length(packet: &View<'_>) -> usize
    requires { 20 ≤ length packet.now.bytes }
    ensures value { result ≡ header_length packet.now.bytes }
    ensures small { result ≤ 60 }
{
    usize::from(packet.at(0) % 16) * 4
}

/// The total length in octets.
pub(crate) fn total_length(packet: &View<'_>) -> usize
    requires { 20 ≤ length packet.now.bytes }
    ensures value { result ≡ total_length packet.now.bytes }
    ensures small { result ≤ 65535 }
{
    usize::from(packet.u16_be(2))
}

fn is_other_version(packet: &View<'_>) -> bool
    ensures { result ≡ is_other_version packet.now.bytes }
{
    packet.len() > 0 && packet.at(0) / 16 != 4
}

fn is_short(packet: &View<'_>) -> bool
    ensures { result ≡ is_short packet.now.bytes }
{
    packet.len() < 20 || packet.len() < header_length(packet) || packet.len() < total_length(packet)
}

fn is_bad_header(packet: &View<'_>) -> bool
    requires { 20 ≤ length packet.now.bytes }
    ensures { result ≡ is_bad_header packet.now.bytes }
{
    packet.at(0) % 16 < 5 || total_length(packet) < header_length(packet)
}

/// Whether more fragments follow, or the offset is not 0.
fn is_fragment(packet: &View<'_>) -> bool
    requires { 20 ≤ length packet.now.bytes }
    ensures { result ≡ is_fragment packet.now.bytes }
{
    let word = packet.u16_be(6);
    word / 8192 % 2 != 0 || word % 8192 != 0
}
