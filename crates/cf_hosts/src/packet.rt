//! The packets of the hosts.
ghost use Rattle.std.specs.Prelude.{◌≡◌, ◌≤◌, OnSome, length};
ghost use Rattle.cf_hosts.specs.Segments.{IsPacketOf};

use crate::segment::{Purpose, Segment};
use arrayvec::ArrayVec;
use cf_packet::{Packet, write_packet};
use cf_view::Endpoint;

/// The window of the hosts, in octets.
const WINDOW: u16 = 64_240;

/// The maximum segment size that they state, in octets.
const MSS: u16 = 1_460;

/// Writes the packet of a segment between two endpoints in place of what `out` held.
pub(crate) fn write_segment(
    source: Endpoint,
    dest: Endpoint,
    segment: &Segment,
    out: &mut ArrayVec<u8, 1500>,
)
    ensures packet { IsPacketOf source dest segment.now.purpose segment.now.seq out.new.items }
    ensures short { length out.new.items ≤ 1500 }
{
    let packet = Packet {
        source,
        dest,
        seq: segment.seq,
        ack: segment.ack,
        flags: segment.purpose.flags(),
        window: WINDOW,
        mss: stated_mss(segment.purpose, &segment.text),
        text: &segment.text,
    };
    write_packet(&packet, out);
}

/// The maximum segment size that a segment states: that of a SYN, which has no text.
fn stated_mss(purpose: Purpose, text: &[u8]) -> Option<u16>
    ensures { OnSome result (length text.now ≡ 0) }
{
    match purpose {
        Purpose::Syn | Purpose::SynAck if text.is_empty() => Some(MSS),
        _ => None,
    }
}
