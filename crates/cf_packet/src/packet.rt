//! What a TCP segment in an IPv4 packet says, and why octets are none.

use cf_view::Endpoint;

/// No more data from the sender. RFC 9293, section 3.1, as the other five.
pub const FIN: u8 = 0x01;
/// Synchronize sequence numbers. RFC 9293, section 3.1.
pub const SYN: u8 = 0x02;
/// Reset the connection. RFC 9293, section 3.1.
pub const RST: u8 = 0x04;
/// Push function. RFC 9293, section 3.1.
pub const PSH: u8 = 0x08;
/// The acknowledgment field is significant. RFC 9293, section 3.1.
pub const ACK: u8 = 0x10;
/// The urgent pointer field is significant. RFC 9293, section 3.1.
pub const URG: u8 = 0x20;

/// A TCP segment with the addresses of its IPv4 packet. RFC 791, section 3.1, and RFC 9293, section 3.1. Fields that
/// are not here are not used.
#[derive(Drop)]
pub struct Packet<'a> {
    /// Who sent it.
    pub source: Endpoint,
    /// Whom it is for.
    pub dest: Endpoint,
    /// The sequence number.
    pub seq: u32,
    /// The acknowledgment number.
    pub ack: u32,
    /// The six flags FIN, SYN, RST, PSH, ACK and URG; no other bit.
    pub flags: u8,
    /// The window in octets; it is not scaled.
    pub window: u16,
    /// The maximum segment size option in octets, if it is there.
    pub mss: Option<u16>,
    /// The octets of data.
    pub text: &'a [u8],
}

/// Why the octets of a record are no TCP segment in an IPv4 packet. They are tested in this order.
/// The order is this project's own.
#[derive(Clone, Copy)]
pub enum PacketRefusal {
    /// An Ethernet header is cut or its type is not 0800, or the version is not 4.
    NotIpv4,
    /// There are fewer octets than 20, than the header's length or than the total length.
    Short,
    /// The header's length is below 20, or the total length is below it.
    BadHeader,
    /// The sum over the header is wrong.
    BadHeaderSum,
    /// It is a fragment of a datagram.
    Fragment,
    /// The protocol is not 6.
    NotTcp,
    /// There are fewer than 20 octets of segment, the data offset is below 5, or it lies past the segment.
    BadTcp,
    /// The sum over the pseudo-header and the segment is wrong.
    BadTcpSum,
}
