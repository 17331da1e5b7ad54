//! Control bits of packets.

use cf_packet::{ACK, FIN, Packet, RST, SYN};

/// Whether one of these flags is set.
pub(crate) fn has(packet: &Packet<'_>, flags: u8) -> bool {
    packet.flags & flags != 0
}

/// Whether a packet has SYN without ACK, RST and FIN.
pub(crate) fn is_opening(packet: &Packet<'_>) -> bool {
    has(packet, SYN) && !has(packet, ACK | RST | FIN)
}
