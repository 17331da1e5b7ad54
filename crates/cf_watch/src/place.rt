//! Places of the letters of a packet.
//! A packet without letters, or whose text stands wholly below position 0, leaves the place near which numbers are read; an octet
//! below position 0 is none of the first bytes of its flow.
ghost use Rattle.std.specs.Prelude.{◌≡◌, ◌==◌, ◌+◌, ◌^◌, ◌<◌, ◌≤◌, ◌/◌, ◌%◌, ◌≤ℤ◌, ◌<ℤ◌, ◌-ℤ◌, pos, max};
ghost use Rattle.cf_packet.specs.Packet.{packet_value};
ghost use Rattle.cf_leg.specs.Segment.{has_fin, is_opening};
ghost use Rattle.cf_stream.specs.Position.{position};
ghost use Rattle.cf_watch.specs.Carried.{end_after};
ghost use Rattle.cf_watch.specs.Watched.{text_place};

use cf_packet::{ACK, FIN, Packet, RST, SYN};

/// Whether a flag is set, which is one bit.
pub(crate) fn has(packet: &Packet<'_>, flag: u8) -> bool
    requires { 0 < flag }
    ensures { result ≡ (packet.now.flags / flag % 2 == 1) }
{
    packet.flags / flag % 2 == 1
}

/// Whether a packet has FIN.
pub(crate) fn has_fin(packet: &Packet<'_>) -> bool
    ensures { result ≡ has_fin (packet_value packet.now) }
{
    has(packet, FIN)
}

/// Whether a packet has SYN without ACK, RST and FIN.
pub(crate) fn is_opening(packet: &Packet<'_>) -> bool
    ensures { result ≡ is_opening (packet_value packet.now) }
{
    has(packet, SYN) && !(has(packet, ACK) || has(packet, RST) || has(packet, FIN))
}

/// The place that has a sequence number, from 2^31 before the base to 2^31 - 1 past it. A watched flow has no limit of its letters,
/// so the base may be higher than one of a TCP end.
fn position(seq: u32, origin: u32, base: u64) -> i64
    requires { base ≤ 2 ^ 60 }
    ensures value { result ≡ position seq origin base }
    ensures from { (pos base -ℤ pos (2 ^ 31)) ≤ℤ result }
    ensures to { result <ℤ pos (base + 2 ^ 31) }
{
    let here = ((u64::from(origin) + 1 + base) % (1 << 32)) as u32;
    let distance = seq.wrapping_sub(here);
    if distance < 1 << 31 {
        base as i64 + i64::from(distance)
    } else {
        base as i64 + i64::from(distance) - (1 << 32)
    }
}

/// Where the text of a packet begins: after the number of a SYN.
pub(crate) fn text_place(packet: &Packet<'_>, origin: u32, top: u64) -> i64
    requires { top ≤ 2 ^ 60 }
    ensures value { result ≡ text_place origin top (packet_value packet.now) }
    ensures from { (pos top -ℤ pos (2 ^ 31)) ≤ℤ result }
    ensures to { result ≤ℤ pos (top + 2 ^ 31) }
{
    let at = position(packet.seq, origin, top);
    if has(packet, SYN) { at + 1 } else { at }
}

/// One more than the greatest place that is carried, with so many letters from a place on.
pub(crate) fn top_after(top: u64, at: i64, count: u64) -> u64
    requires high { at ≤ℤ pos (2 ^ 62) }
    requires few { count ≤ 2 ^ 17 }
    ensures { result ≡ max top (end_after at count) }
{
    if count == 0 {
        return top;
    }
    let end = at + count as i64;
    if end <= 0 { top } else { top.max(end as u64) }
}
