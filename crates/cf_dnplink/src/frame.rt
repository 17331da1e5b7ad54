//! Data link frames in a stream.
ghost use Rattle.std.specs.Prelude.{◌≡◌, ℕ, ◌+◌, ◌<◌, ◌≤◌, MatchOption, false, List, length, min, max, take, slice_index};
ghost use Rattle.cf_view.specs.Framing.{Begins, IsPartial, BreaksAt, Frames, HasFront, framed_value, IsPrefixFree};
ghost use Rattle.cf_view.specs.Octets.{IsOctets};
ghost use Rattle.cf_view.specs.Units.{HasUnits, IsUnitsThenBreak, IsUnitsThenRest};
ghost use Rattle.cf_view.specs.Places.{EachFollows};
ghost use Rattle.cf_dnplink.specs.LinkFrame.{FrameValue, frame_value, SpellsFrame, frame_break};
ghost use Rattle.cf_dnplink.specs.FramePlaces.{SpellsByPlaces, IsBlock, IsFirstWrong, follows, size_of};

use crate::check::crc;
use cf_view::{Break, Framed, View};

/// The header of a frame, its CRC included.
const HEADER: usize = 10;
/// The user octets of a whole block, and those with their CRC.
const BLOCK: usize = 16;

const BLOCK_WITH_CRC: usize = 18;
/// What LENGTH counts beside the user octets: control and addresses.
const LEAST_LENGTH: u8 = 5;

/// A data link frame of DNP3. IEEE 1815-2012, section 9.2.
#[derive(Drop)]
pub struct Frame<'a> {
    /// The control octet: DIR 80, PRM 40, two bits of the flow, and the link function code in its low four bits.
    pub control: u8,
    /// The address of the station that the frame is for.
    pub dest: u16,
    /// The address of the station that sent it.
    pub source: u16,
    /// The user octets in blocks of 16, the last one shorter, each with its CRC after it: 0 to 282 octets.
    pub blocks: View<'a>,
}

/// The frame at the front of a stream, with the number of bytes that it takes (10 to 292).
///
/// `Broken(Start)` is told at the first or second octet, `Broken(FrameLength)` at a LENGTH below 5, `Broken(HeaderCrc)` and
/// `Broken(BlockCrc)` at the first wrong octet of a CRC: no later octet is waited for. IEEE 1815-2012, section 9.2.
pub fn next_frame<'a>(bytes: View<'a>) -> Framed<Frame<'a>>
    ensures true_answer { Frames SpellsFrame frame_break frame_value result bytes.entry.bytes }
    ensures unit { (f : FrameValue) (n : ℕ) → Begins SpellsFrame bytes.entry.bytes f n
        → framed_value frame_value result ≡ Framed.Unit f n }
    ensures more { IsPartial SpellsFrame bytes.entry.bytes → result ≡ Framed.More }
    ensures broken { (place : ℕ) → BreaksAt SpellsFrame bytes.entry.bytes place
        → result ≡ Framed.Broken (frame_break place) }
{
    framed_frame(bytes)
}

/// A law: no frame's octets begin those of another, and no octets are of two frames. The call does nothing.
pub fn no_frame_begins_another()
    ensures { IsPrefixFree SpellsFrame }
{}

/// A law: each list of octets begins with a frame, is a proper prefix of one, or breaks; so each is frames and then one of
/// these, in one way. The call does nothing.
pub fn each_stream_has_frames()
    ensures front { (bytes : List ℕ) → IsOctets bytes → HasFront SpellsFrame bytes }
    ensures units { (bytes : List ℕ) → IsOctets bytes → HasUnits SpellsFrame bytes }
    ensures one_rest { (frames others : List FrameValue) (bytes rest other : List ℕ)
        → IsUnitsThenRest SpellsFrame frames bytes rest → IsUnitsThenRest SpellsFrame others bytes other
        → (frames ≡ others) × (rest ≡ other) }
    ensures one_break { (frames others : List FrameValue) (bytes : List ℕ) (place other : ℕ)
        → IsUnitsThenBreak SpellsFrame frames bytes place → IsUnitsThenBreak SpellsFrame others bytes other
        → (frames ≡ others) × (place ≡ other) }
    ensures either { (frames others : List FrameValue) (bytes rest : List ℕ) (place : ℕ)
        → IsUnitsThenRest SpellsFrame frames bytes rest → IsUnitsThenBreak SpellsFrame others bytes place → ⊥ }
{}

/// What `next_frame` answers, by places.
fn framed_frame<'a>(bytes: View<'a>) -> Framed<Frame<'a>>
    ensures { Frames SpellsByPlaces frame_break frame_value result bytes.entry.bytes }
{
    let len = bytes.len();
    let size = size(&bytes);
    if let Some(place) = first_wrong(&bytes, len.min(size)) {
        return Framed::Broken(break_at(place));
    }
    if len < size {
        return Framed::More;
    }
    Framed::Unit {
        unit: Frame {
            control: bytes.at(3),
            dest: bytes.u16_le(4),
            source: bytes.u16_le(6),
            blocks: bytes.sub(HEADER, size),
        },
        used: size,
    }
}

/// The size of the frame that the octets begin; the least one where they do not tell it.
fn size(bytes: &View<'_>) -> usize
    ensures value { result ≡ size_of bytes.now.bytes }
    ensures least { (10 ≤ result) × (result ≤ 300) }
{
    if bytes.len() < 3 {
        return HEADER;
    }
    let user = (bytes.at(2) as usize).saturating_sub(5);
    HEADER + user + 2 * ((user + 15) / BLOCK)
}

/// The first of the first `end` octets that may not follow those before it, where no more than the frame's are looked at: the start,
/// the LENGTH, and then block by block the two octets of its CRC, as no other octet is tested.
fn first_wrong(bytes: &View<'_>, end: usize) -> Option<usize>
    requires inside { end ≤ length bytes.now.bytes }
    requires size { end ≤ size_of bytes.now.bytes }
    requires most { end ≤ 300 }
    ensures { MatchOption result (EachFollows follows bytes.now.bytes end)
        (λ p. (p < end) × EachFollows follows bytes.now.bytes p
        × (follows (take p bytes.now.bytes) (slice_index bytes.now.bytes p) ≡ false)) }
{
    if let Some(place) = wrong_start(bytes, end) {
        return Some(place);
    }
    if end <= 3 {
        return None;
    }
    if let Some(place) = wrong_sum(bytes, 0, 8, end) {
        return Some(place);
    }
    let user = (bytes.at(2) as usize).saturating_sub(5);
    let mut block = 0;
    'blocks: while HEADER + block * BLOCK_WITH_CRC < end {
        let start = HEADER + block * BLOCK_WITH_CRC;
        let len = user.saturating_sub(block * BLOCK).min(BLOCK);
        if let Some(place) = wrong_sum(bytes, start, start + len, end) {
            return Some(place);
        }
        block += 1;
    }
    None
}

/// The first of the first three octets, of those before `end`, that may not stand there.
fn wrong_start(bytes: &View<'_>, end: usize) -> Option<usize>
    requires inside { end ≤ length bytes.now.bytes }
    ensures { IsFirstWrong bytes.now.bytes end 3 result }
{
    if end > 0 && bytes.at(0) != 0x05 {
        return Some(0);
    }
    if end > 1 && bytes.at(1) != 0x64 {
        return Some(1);
    }
    if end > 2 && bytes.at(2) < LEAST_LENGTH {
        return Some(2);
    }
    None
}

/// The first of the two octets of the CRC of the block from `start` to `stop` that is wrong, of those before `end`.
fn wrong_sum(bytes: &View<'_>, start: usize, stop: usize, end: usize) -> Option<usize>
    requires inside { end ≤ length bytes.now.bytes }
    requires past { (3 ≤ stop) × (3 ≤ end) }
    requires ordered { start ≤ stop }
    requires block { IsBlock (slice_index bytes.now.bytes 2) start stop }
    requires before { EachFollows follows bytes.now.bytes (min end (max 3 start)) }
    ensures { IsFirstWrong bytes.now.bytes end (stop + 2) result }
{
    if end <= stop {
        return None;
    }
    let sum = crc(bytes.sub(start, stop));
    if bytes.at(stop) != (sum % 256) as u8 {
        return Some(stop);
    }
    if end == stop + 1 {
        return None;
    }
    if bytes.at(stop + 1) != (sum / 256) as u8 {
        return Some(stop + 1);
    }
    None
}

/// The break of an octet at a place.
fn break_at(place: usize) -> Break
    ensures { result ≡ frame_break place }
{
    match place {
        0..=1 => Break::Start,
        2 => Break::FrameLength,
        3..=9 => Break::HeaderCrc,
        _ => Break::BlockCrc,
    }
}
