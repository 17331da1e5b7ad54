//! The destination of a packet, without its checksums.
ghost use Rattle.std.specs.Prelude.{◌≡◌, None, Ok, Some, false};
ghost use Rattle.cf_packet.specs.Ipv4.{data_octets, destination_address, header_refusal};
ghost use Rattle.cf_packet.specs.Packet.{PacketValue, read_record};
ghost use Rattle.cf_packet.specs.Recorded.{read_recorded};
ghost use Rattle.cf_packet.specs.Tcp.{destination_port, is_bad};

use crate::header::header_length;
use crate::read::payload;
use cf_view::{Endpoint, LinkKind, View};

/// Where the packet goes that `read_packet` or `read_recorded` reads in the octets of a record. It looks at the fields alone that lead to
/// the destination address and port, and tests nothing else: octets that neither reads as a packet may have an answer too, which means
/// nothing. RFC 791, section 3.1, and RFC 9293, section 3.1.
pub fn destination(link: &LinkKind, bytes: &[u8]) -> Option<Endpoint>
    ensures read { (p : PacketValue) → read_record link.now bytes.now ≡ Ok p → result ≡ Some p.dest }
    ensures recorded { (p : PacketValue) → read_recorded link.now bytes.now ≡ Ok p → result ≡ Some p.dest }
{
    match payload(link, bytes) {
        Some(packet) => destination_in(packet),
        None => None,
    }
}

/// The endpoint that an IPv4 packet goes to.
fn destination_in(packet: &[u8]) -> Option<Endpoint>
    ensures { header_refusal packet.now ≡ None → is_bad (data_octets packet.now) ≡ false
        → result ≡ Some (record { address = destination_address packet.now; port = destination_port (data_octets packet.now) }) }
{
    if packet.len() < 20 {
        return None;
    }
    let fields = View::one(packet);
    let segment_at = header_length(&fields);
    if packet.len() < segment_at + 4 {
        return None;
    }
    Some(Endpoint {
        address: fields.u32_be(16),
        port: fields.u16_be(segment_at + 2),
    })
}
