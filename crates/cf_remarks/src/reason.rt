//! Why a record holds no packet that the box reads.

use cf_packet::PacketRefusal;
use cf_view::{LinkKind, View};

/// Why the octets of a record are no TCP segment in an IPv4 packet: the first test that they fail, and of those that are no IPv4
/// what they are.
#[derive(Clone, Copy)]
pub enum DropReason {
    /// An IPv6 packet. RFC 8200, section 3.
    Ipv6,
    /// A frame with a tag of IEEE 802.1Q.
    Tag,
    /// A frame with a service tag of IEEE 802.1ad.
    ServiceTag,
    /// An ARP packet. RFC 826.
    Arp,
    /// Another frame, or one whose header is cut.
    NotIpv4,
    Short,
    BadHeader,
    BadHeaderSum,
    Fragment,
    NotTcp,
    BadTcp,
    BadTcpSum,
}

/// How many reasons there are.
pub(crate) const REASONS: usize = 12;

/// Why octets were refused.
pub(crate) fn reason_of(link: &LinkKind, body: &[u8], refusal: PacketRefusal) -> DropReason {
    match refusal {
        PacketRefusal::NotIpv4 => content_of(link, body),
        PacketRefusal::Short => DropReason::Short,
        PacketRefusal::BadHeader => DropReason::BadHeader,
        PacketRefusal::BadHeaderSum => DropReason::BadHeaderSum,
        PacketRefusal::Fragment => DropReason::Fragment,
        PacketRefusal::NotTcp => DropReason::NotTcp,
        PacketRefusal::BadTcp => DropReason::BadTcp,
        PacketRefusal::BadTcpSum => DropReason::BadTcpSum,
    }
}

/// What octets hold that are no IPv4 packet: a frame by its Ethernet type. IANA, IEEE 802 Numbers.
fn content_of(link: &LinkKind, body: &[u8]) -> DropReason {
    match link {
        LinkKind::Ethernet if body.len() >= 14 => typed(View::one(body).u16_be(12)),
        LinkKind::LinuxCooked if body.len() >= 16 => typed(View::one(body).u16_be(14)),
        LinkKind::LinuxCooked2 if body.len() >= 20 => typed(View::one(body).u16_be(0)),
        LinkKind::RawIp if !body.is_empty() && body[0] / 16 == 6 => DropReason::Ipv6,
        _ => DropReason::NotIpv4,
    }
}

/// What a frame of this Ethernet type is.
fn typed(number: u16) -> DropReason {
    match number {
        0x86DD => DropReason::Ipv6,
        0x8100 => DropReason::Tag,
        0x88A8 => DropReason::ServiceTag,
        0x0806 => DropReason::Arp,
        _ => DropReason::NotIpv4,
    }
}
