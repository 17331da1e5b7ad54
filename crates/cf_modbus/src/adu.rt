//! Application data units: their framing in a stream, by the MBAP header.
//! A length whose high octet is not 0 breaks at that octet, before the low one is there.
ghost use Rattle.std.specs.Prelude.{◌≡◌, ℕ, ◌<◌, ◌≤◌, ◌↔◌, ◌++◌, IfSome, IsTrue, List, length, slice_index};
ghost use Rattle.cf_view.specs.Octets.{IsOctets};
ghost use Rattle.cf_view.specs.Units.{HasUnits, IsUnitsThenBreak, IsUnitsThenRest};
ghost use Rattle.cf_view.specs.Framing.{Begins, IsPartial, BreaksAt, Frames, HasFront, framed_value, IsPrefixFree};
ghost use Rattle.cf_modbus.specs.Adu.{AduValue, adu_value, SpellsAdu, mbap_break, IsHeaderOctet};

use cf_view::{Break, Framed, View};

/// The place after the length, which counts the octets from here on.
const AFTER_LENGTH: usize = 6;

/// One application data unit of Modbus TCP. MODBUS Messaging on TCP/IP Implementation Guide V1.0b, section 3.1.3.
#[derive(Drop)]
pub struct Adu<'a> {
    /// The transaction identifier: a reply has that of its request.
    pub transaction: u16,
    /// The unit identifier: the station.
    pub unit: u8,
    /// The function code and what follows it, 1 to 253 octets.
    pub pdu: View<'a>,
}

/// The ADU at the front of a stream, with the number of bytes that it takes (8 to 260).
///
/// `Broken(Protocol)` is told at the first octet of the protocol identifier that is not 0, `Broken(Length)` at the
/// first octet of the length that no length from 2 to 254 has: no later octet is waited for.
#[inline(always)]
pub fn next_adu<'a>(bytes: View<'a>) -> Framed<Adu<'a>>
    ensures true_answer { Frames SpellsAdu mbap_break adu_value result bytes.entry.bytes }
    ensures unit { (a : AduValue) (n : ℕ) → Begins SpellsAdu bytes.entry.bytes a n
        → framed_value adu_value result ≡ Framed.Unit a n }
    ensures more { IsPartial SpellsAdu bytes.entry.bytes → result ≡ Framed.More }
    ensures broken { (place : ℕ) → BreaksAt SpellsAdu bytes.entry.bytes place
        → result ≡ Framed.Broken (mbap_break place) }
{
    framed_adu(bytes)
}

/// A law: no ADU's octets begin those of another, and no octets are of two ADUs. The call does nothing.
pub fn no_adu_begins_another()
    ensures { IsPrefixFree SpellsAdu }
{}

/// A law: each list of octets begins with an ADU, is a proper prefix of one, or breaks. So each is ADUs and then one of
/// these two, and in one way: no other ADUs, no other rest, no other place of a break, and not both.
pub fn each_stream_has_adus()
    ensures front { (bytes : List ℕ) → IsOctets bytes → HasFront SpellsAdu bytes }
    ensures units { (bytes : List ℕ) → IsOctets bytes → HasUnits SpellsAdu bytes }
    ensures one_rest { (adus others : List AduValue) (stream rest other : List ℕ)
        → IsUnitsThenRest SpellsAdu adus stream rest → IsUnitsThenRest SpellsAdu others stream other
        → (adus ≡ others) × (rest ≡ other) }
    ensures one_break { (adus others : List AduValue) (stream : List ℕ) (place other : ℕ)
        → IsUnitsThenBreak SpellsAdu adus stream place → IsUnitsThenBreak SpellsAdu others stream other
        → (adus ≡ others) × (place ≡ other) }
    ensures either { (adus others : List AduValue) (stream rest : List ℕ) (place : ℕ)
        → IsUnitsThenRest SpellsAdu adus stream rest → IsUnitsThenBreak SpellsAdu others stream place → ⊥ }
{}

/// What `next_adu` answers. Most ADUs stand whole in one piece, and are read there.
#[inline(always)]
fn framed_adu<'a>(bytes: View<'a>) -> Framed<Adu<'a>>
    ensures { Frames SpellsAdu mbap_break adu_value result bytes.entry.bytes }
{
    match adu_in(front_piece(&bytes)) {
        Some((unit, used)) => Framed::Unit { unit, used },
        None => framed_by_octet(bytes),
    }
}

/// The first piece that has octets, if one has.
#[inline(always)]
fn front_piece<'a>(bytes: &View<'a>) -> &'a [u8]
    ensures { (rest : List ℕ) × (bytes.now.bytes ≡ result.now ++ rest) }
{
    let (first, second) = bytes.pieces();
    if first.is_empty() { second } else { first }
}

/// The ADU at the front of these octets with its length, if it stands there whole.
#[inline(always)]
fn adu_in<'a>(octets: &'a [u8]) -> Option<(Adu<'a>, usize)>
    ensures { IfSome result (λ p. Begins SpellsAdu octets.now (adu_value p.0) p.1) }
{
    if octets.len() < AFTER_LENGTH || !has_header(octets) {
        return None;
    }
    let used = AFTER_LENGTH + usize::from(octets[5]);
    if octets.len() < used {
        return None;
    }
    let unit = Adu {
        transaction: u16::from(octets[0]) * 256 + u16::from(octets[1]),
        unit: octets[6],
        pdu: View::one(&octets[7..used]),
    };
    Some((unit, used))
}

/// Whether each of the first six octets is one that some ADU has in its place.
fn has_header(octets: &[u8]) -> bool
    requires { 6 ≤ length octets.now }
    ensures { IsTrue result → (k : ℕ) → k < 6 → IsHeaderOctet k (slice_index octets.now k) }
{
    octets[2] == 0 && octets[3] == 0 && octets[4] == 0 && 2 <= octets[5] && octets[5] <= 254
}

/// What `next_adu` answers, found octet by octet.
#[tactic(auto, using(crate::proofs::Framing::short_header, crate::proofs::Framing::short_pdu, crate::proofs::Framing::whole_adu))]
#[inline(always)]
fn framed_by_octet<'a>(bytes: View<'a>) -> Framed<Adu<'a>>
    ensures { Frames SpellsAdu mbap_break adu_value result bytes.entry.bytes }
{
    let len = bytes.len();
    for place in 0..len.min(AFTER_LENGTH) {
        if !is_header_octet(place, bytes.at(place)) {
            return Framed::Broken(break_at(place));
        }
    }
    if len < AFTER_LENGTH {
        return Framed::More;
    }
    // The high octet of the length is 0.
    let used = AFTER_LENGTH + usize::from(bytes.at(5));
    if len < used {
        return Framed::More;
    }
    Framed::Unit {
        unit: Adu {
            transaction: bytes.u16_be(0),
            unit: bytes.at(6),
            pdu: bytes.sub(7, used),
        },
        used,
    }
}

/// Whether some ADU has this octet at this place of its first six.
fn is_header_octet(place: usize, octet: u8) -> bool
    ensures { IsTrue result ↔ IsHeaderOctet place octet }
{
    match place {
        2..=4 => octet == 0,
        5 => 2 <= octet && octet <= 254,
        _ => true,
    }
}

/// The break of an octet at a place of the first six.
fn break_at(place: usize) -> Break
    ensures { result ≡ mbap_break place }
{
    if place < 4 {
        Break::Protocol
    } else {
        Break::Length
    }
}
