//! Fragments cut anew into data frames.
ghost use Rattle.std.specs.Prelude.{◌≡◌, ◌+◌, ◌%◌, ◌<◌, ◌≤◌, false, length};
ghost use Rattle.cf_dnptrans.specs.Segments.{count_of, segment_of};
ghost use Rattle.cf_outq.specs.SendQueue.{after_push};
ghost use Rattle.cf_lane.specs.Dnp3.{data_octets, frames_at};
ghost use Rattle.cf_lane.specs.Handled.{HasRoom};

use arrayvec::ArrayVec;
use cf_dnplink::write_frame;
use cf_dnptrans::{segment_count, segment_octet};
use cf_outq::Outq;
use cf_policy::Asset;
use cf_view::{Side, View};

/// The control octet of data towards the controller: DIR, PRM and code 4.
const TO_CONTROLLER: u8 = 0xc4;
/// That of data towards the client: PRM and code 4.
const TO_CLIENT: u8 = 0x44;
/// The most application octets of a segment. IEEE 1815-2012, section 8.2.
const OCTETS: usize = 249;
/// Transport sequences count modulo 64.
const MODULUS: u8 = 64;

/// Puts a fragment of at most 2,056 octets, which is one piece, into the queue to a side, in frames of at most 249 application
/// octets. The first
/// has this transport sequence; the answer is the one that follows the last. IEEE 1815-2012, section 8.2.
pub(crate) fn push_fragment(
    asset: &Asset,
    to: Side,
    octets: &View<'_>,
    sequence: u8,
    queue: &mut Outq,
) -> u8
    requires size { length octets.now.bytes ≤ 2056 }
    requires one { octets.now.split ≡ length octets.now.bytes }
    requires sequence { sequence < 64 }
    requires open { queue.old.ended ≡ false }
    requires room { HasRoom (length (frames_at asset.now to sequence octets.now.bytes)) queue.old }
    ensures queue { queue.new ≡ after_push queue.old (frames_at asset.now to sequence octets.now.bytes) }
    ensures sequence { result ≡ (sequence + count_of (length octets.now.bytes)) % 64 }
{
    let (whole, _) = octets.pieces();
    let count = segment_count(octets.len());
    let mut frame = ArrayVec::<u8, 292>::new();
    for i in 0..count {
        push_segment(asset, to, whole, i, sequence, &mut frame, queue);
    }
    (sequence + count as u8) % MODULUS
}

/// Puts segment `i` of a fragment, whose first one has this transport sequence, into the queue to a side. Its frame replaces what
/// `frame` held.
fn push_segment(
    asset: &Asset,
    to: Side,
    octets: &[u8],
    i: usize,
    sequence: u8,
    frame: &mut ArrayVec<u8, 292>,
    queue: &mut Outq,
)
    requires size { length octets.now ≤ 2056 }
    requires inside { i < count_of (length octets.now) }
    requires sequence { sequence < 64 }
    requires open { queue.old.ended ≡ false }
    requires room { HasRoom (length (data_octets asset.now to (segment_of octets.now sequence i))) queue.old }
    ensures { queue.new ≡ after_push queue.old (data_octets asset.now to (segment_of octets.now sequence i)) }
{
    write_segment(asset, to, octets, i, sequence, frame);
    queue.push(frame.as_slice());
}

/// Replaces the contents of `out` by the frame of segment `i` of a fragment.
fn write_segment(
    asset: &Asset,
    to: Side,
    octets: &[u8],
    i: usize,
    sequence: u8,
    out: &mut ArrayVec<u8, 292>,
)
    requires size { length octets.now ≤ 2056 }
    requires inside { i < count_of (length octets.now) }
    requires sequence { sequence < 64 }
    ensures { out.new.items ≡ data_octets asset.now to (segment_of octets.now sequence i) }
{
    let len = octets.len();
    let from = OCTETS * i;
    let head = [segment_octet(len, i, (sequence + i as u8) % MODULUS)];
    let part = &octets[from..(from + OCTETS).min(len)];
    write_data(asset, to, &View::two(&head, part), out);
}

/// Replaces the contents of `out` by a data frame towards a side.
fn write_data(asset: &Asset, to: Side, user: &View<'_>, out: &mut ArrayVec<u8, 292>)
    requires { length user.now.bytes ≤ 250 }
    ensures { out.new.items ≡ data_octets asset.now to user.now.bytes }
{
    match to {
        Side::Controller => write_frame(TO_CONTROLLER, asset.station, asset.master, user, out),
        Side::Client => write_frame(TO_CLIENT, asset.master, asset.station, user, out),
    }
}
