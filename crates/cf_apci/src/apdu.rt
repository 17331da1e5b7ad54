//! APDUs in a stream.
//! Whether an I frame commands is for the reader above.
ghost use Rattle.std.specs.Prelude.{◌≡◌, ℕ, ◌<◌, ◌≤◌, MatchOption, false, List, length, take, slice_index};
ghost use Rattle.cf_view.specs.Framing.{Begins, IsPartial, BreaksAt, Frames, HasFront, framed_value, IsPrefixFree};
ghost use Rattle.cf_view.specs.Octets.{IsOctets};
ghost use Rattle.cf_view.specs.Places.{EachFollows};
ghost use Rattle.cf_view.specs.Units.{HasUnits, IsUnitsThenRest, IsUnitsThenBreak};
ghost use Rattle.cf_apci.specs.Apdu.{ApduValue, apdu_value, SpellsApdu, apdu_break, is_control};
ghost use Rattle.cf_apci.specs.Places.{size_of, is_right, follows, fields_of, is_format, is_third};

use cf_view::{Break, Framed, View};

/// The first octet of an APDU. IEC 60870-5-104, section 5.
pub const START: u8 = 0x68;

/// The octets of an APDU that are tested: start, length and control field. IEC 60870-5-104, section 5.
const TESTED: usize = 6;

/// An APDU of IEC 60870-5-104, section 5.
#[derive(Drop)]
pub enum Apdu<'a> {
    /// Format I: the send and the receive sequence number, each below 32,768, and an ASDU of at most 249 octets.
    Info {
        send: u16,
        receive: u16,
        asdu: View<'a>,
    },
    /// Format S: the receive sequence number, below 32,768.
    Ack {
        receive: u16,
    },
    /// Format U: one of the control octets 07 and 0B (STARTDT act and con), 13 and 23 (STOPDT), 43 and 83 (TESTFR).
    Control(u8),
}

/// The APDU at the front of a stream, with the number of octets that it takes: `Unit` where one begins the octets, `More` where
/// they are a proper prefix of one, and `Broken` at the first octet that no APDU has in its place, with that place's break:
/// `ApduStart` at the first octet, `ApduLength` at the second, `Control` at the four after it.
pub fn next_apdu<'a>(bytes: View<'a>) -> Framed<Apdu<'a>>
    ensures true_answer { Frames SpellsApdu apdu_break apdu_value result bytes.entry.bytes }
    ensures unit { (a : ApduValue) (n : ℕ) → Begins SpellsApdu bytes.entry.bytes a n → framed_value apdu_value result ≡ Framed.Unit a n }
    ensures more { IsPartial SpellsApdu bytes.entry.bytes → result ≡ Framed.More }
    ensures broken { (place : ℕ) → BreaksAt SpellsApdu bytes.entry.bytes place → result ≡ Framed.Broken (apdu_break place) }
{
    front(bytes)
}

/// No APDU's octets begin those of another.
pub fn no_apdu_begins_another()
    ensures { IsPrefixFree SpellsApdu }
{}

/// A law: octets begin with an APDU, are a proper prefix of one, or break. So a stream is APDUs and then one of these two, and
/// it is so in one way.
pub fn each_stream_has_apdus()
    ensures front { (bytes : List ℕ) → IsOctets bytes → HasFront SpellsApdu bytes }
    ensures units { (bytes : List ℕ) → IsOctets bytes → HasUnits SpellsApdu bytes }
    ensures one_rest { (apdus others : List ApduValue) (bytes rest left : List ℕ) →
        IsUnitsThenRest SpellsApdu apdus bytes rest → IsUnitsThenRest SpellsApdu others bytes left →
        (apdus ≡ others) × (rest ≡ left) }
    ensures one_break { (apdus others : List ApduValue) (bytes : List ℕ) (place other : ℕ) →
        IsUnitsThenBreak SpellsApdu apdus bytes place → IsUnitsThenBreak SpellsApdu others bytes other →
        (apdus ≡ others) × (place ≡ other) }
    ensures rest_or_break { (apdus others : List ApduValue) (bytes rest : List ℕ) (place : ℕ) →
        IsUnitsThenRest SpellsApdu apdus bytes rest → IsUnitsThenBreak SpellsApdu others bytes place → ⊥ }
{}

fn front<'a>(bytes: View<'a>) -> Framed<Apdu<'a>>
    ensures { Frames SpellsApdu apdu_break apdu_value result bytes.entry.bytes }
{
    let len = bytes.len();
    let size = size(&bytes);
    if let Some(place) = first_wrong(&bytes, len.min(size)) {
        return Framed::Broken(break_at(place));
    }
    if len < size {
        return Framed::More;
    }
    Framed::Unit {
        unit: unit_of(&bytes, size),
        used: size,
    }
}

/// The size of the APDU that the octets begin.
fn size(bytes: &View<'_>) -> usize
    ensures value { result ≡ size_of bytes.now.bytes }
    ensures least { 6 ≤ result }
{
    if bytes.len() < 2 {
        return 6;
    }
    (bytes.at(1) as usize + 2).max(6)
}

/// The APDU of the first octets.
fn unit_of<'a>(bytes: &View<'a>, size: usize) -> Apdu<'a>
    requires least { 6 ≤ size }
    requires inside { size ≤ length bytes.now.bytes }
    ensures { apdu_value result ≡ fields_of (take size bytes.now.bytes) }
{
    let format = bytes.at(2);
    if format % 2 == 0 {
        return Apdu::Info {
            send: bytes.u16_le(2) / 2,
            receive: bytes.u16_le(4) / 2,
            asdu: bytes.sub(6, size),
        };
    }
    if format == 1 {
        return Apdu::Ack {
            receive: bytes.u16_le(4) / 2,
        };
    }
    Apdu::Control(format)
}

/// The first of the first `end` octets that may not follow those before it.
fn first_wrong(bytes: &View<'_>, end: usize) -> Option<usize>
    requires { end ≤ length bytes.now.bytes }
    ensures { MatchOption result (EachFollows follows bytes.now.bytes end) (λ p. (p < end) × EachFollows follows bytes.now.bytes p
        × (follows (take p bytes.now.bytes) (slice_index bytes.now.bytes p) ≡ false)) }
{
    // Behind the control field any octet may stand.
    for place in 0..end.min(TESTED) {
        if !may_follow(bytes, place) {
            return Some(place);
        }
    }
    None
}

/// Whether the octet at a place may follow those before it.
fn may_follow(bytes: &View<'_>, place: usize) -> bool
    requires { place < length bytes.now.bytes }
    ensures { result ≡ is_right bytes.now.bytes place (slice_index bytes.now.bytes place) }
{
    let octet = bytes.at(place);
    if place == 0 {
        return octet == START;
    }
    if place == 1 {
        return octet >= 4 && octet <= 253;
    }
    if place == 2 {
        return is_format(bytes.at(1), octet);
    }
    if place > 5 {
        return true;
    }
    let format = bytes.at(2);
    if place == 3 {
        return format % 2 == 0 || octet == 0;
    }
    if place == 4 {
        return is_third(format, octet);
    }
    format % 2 == 0 || format == 1 || octet == 0
}

fn is_format(len: u8, octet: u8) -> bool
    ensures { result ≡ is_format len octet }
{
    octet % 2 == 0 || len == 4 && (octet == 1 || is_control(octet))
}

fn is_third(format: u8, octet: u8) -> bool
    ensures { result ≡ is_third format octet }
{
    if format % 2 == 0 || format == 1 {
        octet % 2 == 0
    } else {
        octet == 0
    }
}

/// STARTDT, STOPDT and TESTFR, each as act and con.
fn is_control(octet: u8) -> bool
    ensures { result ≡ is_control octet }
{
    octet == 0x07
        || octet == 0x0b
        || octet == 0x13
        || octet == 0x23
        || octet == 0x43
        || octet == 0x83
}

fn break_at(place: usize) -> Break
    ensures { result ≡ apdu_break place }
{
    if place < 1 {
        return Break::ApduStart;
    }
    if place < 2 {
        return Break::ApduLength;
    }
    Break::Control
}
