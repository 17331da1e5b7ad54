//! Segments that go out.
//! An empty segment goes out where no piece was sent and an acknowledgement is owed, or what is to be told differs from what was
//! told. The End of a piece goes only where the shown edge is past it.
ghost use Rattle.std.specs.Prelude.{◌≡◌, ◌+◌, ◌-◌, ◌^◌, ◌<◌, ◌≤◌, min, max, not, nat_lt, ◌&&◌, if◌then◌else◌};
ghost use Rattle.std.specs.Prelude.{true, false, List, ℕ, [], ◌∷◌, ◌++◌, drop, length, take, IfOk, OnErr, OnOk, pos, ◌≤ℤ◌};
ghost use Rattle.cf_outside.specs.Desk.{DeskValue};
ghost use Rattle.cf_outside.specs.Frames.{OnlyEmits};
ghost use Rattle.std.specs.Result.{is_err};
ghost use Rattle.cf_outq.specs.SendQueue.{IsQueue, IsUnacked, carried, queue_length};
ghost use Rattle.cf_outq.specs.SendQueue.{IsQueueOf};
ghost use Rattle.cf_packet.specs.Packet.{PacketValue, packet_value};
ghost use Rattle.cf_packet.specs.Written.{IsWritable, packet_octets};
ghost use Rattle.cf_stream.specs.Position.{place_or_zero, sequence_number};
ghost use Rattle.cf_stream.specs.Stream.{Stream, no_letters};
ghost use Rattle.cf_leg.specs.Emits.{piece};
ghost use Rattle.cf_leg.specs.Emitted.{GetsSegments};
ghost use Rattle.cf_leg.specs.Segment.{flags_with, segment};
ghost use Rattle.cf_leg.specs.Calls.{SaysTo, SendsNew, SendsPiece};
ghost use Rattle.cf_view.specs.Moment.{moment_limit};

use crate::ends::{Advertised, Way};
use arrayvec::ArrayVec;
use cf_outq::{Outq, Piece};
use cf_outside::{Desk, WriteAnswer};
use cf_packet::{ACK, FIN, PSH, Packet, headers, sequence_number, write_packet};
use cf_view::WriteFault;

/// How many octets stand before the text of a segment that a piece goes out in.
const HEADERS: usize = 40;
/// The most octets of a packet.
const PACKET: usize = 1_500;
/// The most octets of a packet that is written in a small room, which costs less to clear. Units of the protocols have at most 292 octets.
const SHORT: usize = 332;

/// Emits the octets of a packet.
#[tactic(auto, unfolding(crate::specs::Emitted::spelled))]
fn emit<D: Desk>(moment: u64, octets: &[u8], desk: &mut D) -> Result<(), WriteFault>
    requires whole { DeskValue.whole (D.value desk.old) ≡ true }
    requires moment { moment < moment_limit }
    requires length { length octets.now ≤ 1500 }
    ensures gets { (p : PacketValue) → octets.now ≡ packet_octets p
        → GetsSegments (is_err result) moment (p ∷ []) (D.value desk.old) (D.value desk.new) }
    ensures frame { OnlyEmits (D.value desk.old) (D.value desk.new) (is_err result) }
{
    match desk.emit(moment, octets) {
        WriteAnswer::Done => Ok(()),
        WriteAnswer::Failed => Err(WriteFault),
    }
}

/// Emits a packet.
pub(crate) fn send<D: Desk>(
    moment: u64,
    packet: &Packet<'_>,
    desk: &mut D,
) -> Result<(), WriteFault>
    requires whole { DeskValue.whole (D.value desk.old) ≡ true }
    requires moment { moment < moment_limit }
    requires writable { IsWritable (packet_value packet.now) }
    ensures gets { GetsSegments (is_err result) moment (packet_value packet.now ∷ []) (D.value desk.old) (D.value desk.new) }
    ensures frame { OnlyEmits (D.value desk.old) (D.value desk.new) (is_err result) }
{
    let mut octets = ArrayVec::new();
    write_packet(packet, &mut octets);
    emit(moment, octets.as_slice(), desk)
}

/// The flags of a segment with these letters.
fn flags_with(text: &[u8], end: bool) -> u8
    ensures value { result ≡ flags_with (record { bytes = text.now; ended = end }) }
    ensures small { result < 64 }
{
    let push = if text.is_empty() { 0 } else { PSH };
    let fin = if end { FIN } else { 0 };
    ACK + push + fin
}

/// The segment with a sequence number and these letters.
fn segment<'a>(way: Way, told: Advertised, number: u32, text: &'a [u8], end: bool) -> Packet<'a>
    requires told { (told.base ≤ told.edge) × (told.edge - told.base < 65536) × (told.base ≤ 2 ^ 31) }
    ensures { packet_value result ≡ segment way told number (record { bytes = text.now; ended = end }) }
{
    Packet {
        source: way.source,
        dest: way.dest,
        seq: number,
        ack: sequence_number(way.other, told.base),
        flags: flags_with(text, end),
        window: (told.edge - told.base) as u16,
        mss: None,
        text,
    }
}

/// Sends a segment without letters.
pub(crate) fn send_empty<D: Desk>(
    way: Way,
    moment: u64,
    told: Advertised,
    number: u32,
    desk: &mut D,
) -> Result<(), WriteFault>
    requires told { (told.base ≤ told.edge) × (told.edge - told.base < 65536) × (told.base ≤ 2 ^ 31) }
    requires whole { DeskValue.whole (D.value desk.old) ≡ true }
    requires moment { moment < moment_limit }
    ensures gets { GetsSegments (is_err result) moment (segment way told number no_letters ∷ []) (D.value desk.old) (D.value desk.new) }
    ensures frame { OnlyEmits (D.value desk.old) (D.value desk.new) (is_err result) }
{
    // It is its headers, and nothing stands behind them.
    let headers = headers(&segment(way, told, number, &[], false));
    emit(moment, headers.as_slice(), desk)
}

/// A place as a number.
pub(crate) fn place_or_zero(place: i64) -> u64
    requires { pos 0 ≤ℤ place }
    ensures { result ≡ place_or_zero place }
{
    place as u64
}

/// The place of a piece.
fn place_of(piece: Piece) -> u64
    requires { pos 0 ≤ℤ piece.at }
    ensures { result ≡ place_or_zero piece.at }
{
    place_or_zero(piece.at)
}

/// Writes the packet with the letters of a piece to the front of a buffer, and answers how many octets it has. The letters are
/// copied once, into their place in it.
fn write_piece(way: Way, told: Advertised, piece: Piece, queue: &Outq, out: &mut [u8]) -> usize
    requires told { (told.base ≤ told.edge) × (told.edge - told.base < 65536) × (told.base ≤ 2 ^ 31) }
    requires unacked { IsUnacked queue.now piece }
    requires small { piece.len ≤ 1460 }
    requires room { 40 + piece.len ≤ length out.old }
    requires place { place_or_zero piece.at ≤ 2 ^ 31 }
    ensures size { result ≡ 40 + piece.len }
    ensures octets { (text : List ℕ) × ((whole : Stream) → IsQueueOf queue.now whole → text ≡ (carried whole piece).bytes)
        × (take result out.new ≡ packet_octets (segment way told (sequence_number way.own (place_or_zero piece.at))
        (record { bytes = text; ended = piece.end }))) }
{
    let size = HEADERS + piece.len;
    queue.copy(piece, &mut out[HEADERS..size]);
    let number = sequence_number(way.own, place_of(piece));
    let headers = headers(&segment(way, told, number, &out[HEADERS..size], piece.end));
    put_front(out, headers.as_slice());
    size
}

/// Replaces the first octets of a buffer.
fn put_front(out: &mut [u8], octets: &[u8])
    requires { length octets.now ≤ length out.old }
    ensures { out.new ≡ octets.now ++ drop (length octets.now) out.old }
{
    out[..octets.len()].copy_from_slice(octets);
}

/// Sends the letters of a piece, by a room as large as it needs.
pub(crate) fn send_piece<D: Desk>(
    way: Way,
    moment: u64,
    told: Advertised,
    piece: Piece,
    queue: &Outq,
    desk: &mut D,
) -> Result<(), WriteFault>
    requires told { (told.base ≤ told.edge) × (told.edge - told.base < 65536) × (told.base ≤ 2 ^ 31) }
    requires unacked { IsUnacked queue.now piece }
    requires small { piece.len ≤ 1460 }
    requires place { place_or_zero piece.at ≤ 2 ^ 31 }
    requires whole { DeskValue.whole (D.value desk.old) ≡ true }
    requires moment { moment < moment_limit }
    ensures sends { SendsPiece way told queue.now piece moment (D.value desk.old) (D.value desk.new) (is_err result) }
    ensures frame { OnlyEmits (D.value desk.old) (D.value desk.new) (is_err result) }
{
    if piece.len + HEADERS <= SHORT {
        send_piece_by(way, moment, told, piece, queue, &mut [0; SHORT], desk)
    } else {
        send_piece_by(way, moment, told, piece, queue, &mut [0; PACKET], desk)
    }
}

/// Sends the letters of a piece, whose packet is written to the front of a buffer.
fn send_piece_by<D: Desk>(
    way: Way,
    moment: u64,
    told: Advertised,
    piece: Piece,
    queue: &Outq,
    octets: &mut [u8],
    desk: &mut D,
) -> Result<(), WriteFault>
    requires told { (told.base ≤ told.edge) × (told.edge - told.base < 65536) × (told.base ≤ 2 ^ 31) }
    requires unacked { IsUnacked queue.now piece }
    requires small { piece.len ≤ 1460 }
    requires room { 40 + piece.len ≤ length octets.old }
    requires place { place_or_zero piece.at ≤ 2 ^ 31 }
    requires whole { DeskValue.whole (D.value desk.old) ≡ true }
    requires moment { moment < moment_limit }
    ensures sends { SendsPiece way told queue.now piece moment (D.value desk.old) (D.value desk.new) (is_err result) }
    ensures frame { OnlyEmits (D.value desk.old) (D.value desk.new) (is_err result) }
{
    let size = write_piece(way, told, piece, queue, octets);
    emit(moment, &octets[..size], desk)
}

/// Sends every letter that was not sent and that the peer lets in. Answers whether there was one.
pub(crate) fn send_new<D: Desk>(
    way: Way,
    moment: u64,
    told: Advertised,
    mss: usize,
    queue: &mut Outq,
    desk: &mut D,
) -> Result<bool, WriteFault>
    requires told { (told.base ≤ told.edge) × (told.edge - told.base < 65536) × (told.base ≤ 2 ^ 31) }
    requires mss { (0 < mss) × (mss ≤ 1460) }
    requires whole { DeskValue.whole (D.value desk.old) ≡ true }
    requires moment { moment < moment_limit }
    ensures some { IfOk result (λ some. some ≡ nat_lt queue.old.sent (min queue.old.shown (queue_length queue.old))) }
    ensures pieces { OnOk result (SendsNew way told mss queue.old moment (D.value desk.old) (D.value desk.new) false) }
    ensures new { OnOk result (queue.new ≡ record queue.old { sent = max queue.old.sent (min queue.old.shown (queue_length queue.old)) }) }
    ensures stands { (whole : Stream) → IsQueueOf queue.old whole → IsQueueOf queue.new whole }
    ensures broken { OnErr result (SendsNew way told mss queue.old moment (D.value desk.old) (D.value desk.new) true) }
    ensures frame { OnlyEmits (D.value desk.old) (D.value desk.new) (is_err result) }
{
    let mut some = false;
    // The fact: the place of a piece is one of the queue's, which are at most 2^31.
    let _sent = queue.sent();
    while let Some(piece) = queue.next_piece(mss) {
        send_piece(way, moment, told, piece, queue, desk)?;
        some = true;
    }
    Ok(some)
}

/// Sends a segment without letters, or nothing.
fn acknowledge<D: Desk>(
    way: Way,
    moment: u64,
    told: Advertised,
    number: u32,
    is_due: bool,
    desk: &mut D,
) -> Result<(), WriteFault>
    requires told { (told.base ≤ told.edge) × (told.edge - told.base < 65536) × (told.base ≤ 2 ^ 31) }
    requires whole { DeskValue.whole (D.value desk.old) ≡ true }
    requires moment { moment < moment_limit }
    ensures gets { GetsSegments (is_err result) moment (if is_due then segment way told number no_letters ∷ [] else []) (D.value desk.old)
        (D.value desk.new) }
    ensures frame { OnlyEmits (D.value desk.old) (D.value desk.new) (is_err result) }
{
    if is_due {
        send_empty(way, moment, told, number, desk)
    } else {
        Ok(())
    }
}

/// Whether an acknowledgment is due that no segment carried.
fn is_left(is_due: bool, some: bool) -> bool
    ensures { result ≡ (is_due && not some) }
{
    is_due && !some
}

/// How many letters were acknowledged.
pub(crate) fn acked_of(queue: &Outq) -> u64
    ensures value { result ≡ queue.now.acked }
    ensures bounds { IsQueue queue.now }
{
    place_or_zero(queue.length() - queue.unacked())
}

/// The sequence number of the next new letter.
pub(crate) fn next_number(own: u32, queue: &Outq) -> u32
    ensures { result ≡ sequence_number own queue.now.sent }
{
    sequence_number(own, place_or_zero(queue.sent()))
}

/// What an open end says to its peer: every new letter that it lets in, or, if there is none, an acknowledgment where one
/// is due.
pub(crate) fn say<D: Desk>(
    way: Way,
    moment: u64,
    told: Advertised,
    mss: usize,
    is_due: bool,
    queue: &mut Outq,
    desk: &mut D,
) -> Result<(), WriteFault>
    requires told { (told.base ≤ told.edge) × (told.edge - told.base < 65536) × (told.base ≤ 2 ^ 31) }
    requires mss { (0 < mss) × (mss ≤ 1460) }
    requires whole { DeskValue.whole (D.value desk.old) ≡ true }
    requires moment { moment < moment_limit }
    ensures says { OnOk result (SaysTo way told mss is_due queue.old moment (D.value desk.old) (D.value desk.new) false) }
    ensures new { OnOk result (queue.new ≡ record queue.old { sent = max queue.old.sent (min queue.old.shown (queue_length queue.old)) }) }
    ensures stands { (whole : Stream) → IsQueueOf queue.old whole → IsQueueOf queue.new whole }
    ensures broken { OnErr result (SaysTo way told mss is_due queue.old moment (D.value desk.old) (D.value desk.new) true) }
    ensures frame { OnlyEmits (D.value desk.old) (D.value desk.new) (is_err result) }
{
    let number = next_number(way.own, queue);
    let some = send_new(way, moment, told, mss, queue, desk)?;
    let is_empty = is_left(is_due, some);
    acknowledge(way, moment, told, number, is_empty, desk)?;
    Ok(())
}
