//! The ASDU of a command.
//! A cause is kept as it came, so that an ASDU and its octets tell each other.
ghost use Rattle.std.specs.Prelude.{◌≡◌, ℕ, ◌≤◌, List, length, Result};
ghost use Rattle.cf_asdu.specs.Asdu.{AsduValue, asdu_value, SpellsAsdu, Reads, asdu_answer, has_objects, is_command_cause};
ghost use Rattle.cf_asdu.specs.Asdu.{refusal_reason};
ghost use Rattle.cf_asdu.specs.Asdu as asdus;

use crate::element::{Element, element_of};
use cf_view::{Reason, View};

/// The fewest octets of an ASDU with an information object. IEC 60870-5-101, section 7.2, in the sizes of IEC 60870-5-104.
pub const SHORTEST: usize = 9;

/// SQ, in the octet of the number: the objects follow each other from one address on.
const SEQUENCE: u8 = 0x80;

/// The bits of the cause in the octet that it shares with P/N (40) and T (80).
const CAUSE: u8 = 0x40;

/// The ASDU of a command. IEC 60870-5-101, section 7.2, in the sizes of IEC 60870-5-104.
#[derive(Drop)]
pub struct Asdu<'a> {
    /// The type identification.
    pub kind: u8,
    /// The number of information objects, 1 to 127 where `read_asdu` gave it.
    pub number: u8,
    /// The cause of transmission as it came: the cause in the low six bits, P/N (40) and T (80).
    pub cause: u8,
    /// The originator address.
    pub origin: u8,
    /// The common address.
    pub station: u16,
    /// The information objects, each an address of three octets and its element.
    pub objects: View<'a>,
}

/// Why octets are no command that is served. They are tested in this order. The order is this project's own.
#[derive(Clone, Copy)]
pub enum AsduRefusal {
    /// They are fewer than nine.
    Short,
    /// The type is none of those served.
    Kind,
    /// SQ is set, the number of objects is 0, or the length is not that of so many objects.
    Shape,
    /// The cause is none of 5 (request), 6 (activation) and 8 (deactivation).
    Cause,
}

impl AsduRefusal {
    /// What about the command was refused. This project's own division.
    pub fn reason(&self) -> Reason
        ensures { result ≡ refusal_reason self.now }
    {
        match self {
            AsduRefusal::Short | AsduRefusal::Shape => Reason::Value,
            AsduRefusal::Kind | AsduRefusal::Cause => Reason::Function,
        }
    }
}

/// The command that octets spell. Whether it is for this station is not tested here. IEC 60870-5-101, section 7.2, and
/// IEC 60870-5-104, section 8; which types and causes are served is this project's own choice.
pub fn read_asdu<'a>(octets: View<'a>) -> Result<Asdu<'a>, AsduRefusal>
    ensures true_answer { Reads (asdu_answer result) octets.entry.bytes }
    // No other answer is true.
    ensures only { (answer : Result AsduValue AsduRefusal) → Reads answer octets.entry.bytes
        → asdu_answer result ≡ answer }
{
    asdu_in(&octets)
}

/// A law: no octets spell two ASDUs. The call does nothing.
pub fn no_octets_are_two_asdus()
    ensures { (a b : AsduValue) (octets : List ℕ) → SpellsAsdu a octets → SpellsAsdu b octets → a ≡ b }
{}

/// The common address of the ASDU that at least six octets begin, whatever else they are.
pub fn station_of(octets: View<'_>) -> u16
    requires { 6 ≤ length octets.bytes }
    ensures { result ≡ asdus.station_of octets.entry.bytes }
{
    octets.u16_le(4)
}

/// What `read_asdu` answers about octets.
fn asdu_in<'a>(octets: &View<'a>) -> Result<Asdu<'a>, AsduRefusal>
    ensures { Reads (asdu_answer result) octets.now.bytes }
{
    if octets.len() < SHORTEST {
        return Err(AsduRefusal::Short);
    }
    let asdu = fields_of(octets);
    let Some(element) = element_of(asdu.kind) else {
        return Err(AsduRefusal::Kind);
    };
    if !has_objects(&asdu, element) {
        return Err(AsduRefusal::Shape);
    }
    if !is_command_cause(asdu.cause) {
        return Err(AsduRefusal::Cause);
    }
    Ok(asdu)
}

/// The fields of an ASDU that at least six octets spell.
fn fields_of<'a>(octets: &View<'a>) -> Asdu<'a>
    requires { 6 ≤ length octets.now.bytes }
    ensures { SpellsAsdu (asdu_value result) octets.now.bytes }
{
    Asdu {
        kind: octets.at(0),
        number: octets.at(1),
        cause: octets.at(2),
        origin: octets.at(3),
        station: octets.u16_le(4),
        objects: octets.sub(6, octets.len()),
    }
}

/// Whether the objects are as many as the number says, each an address and an element, with SQ not set.
fn has_objects(asdu: &Asdu<'_>, element: Element) -> bool
    ensures { result ≡ has_objects (Some element) (asdu_value asdu.now) }
{
    let object = 3 + usize::from(element.octets);
    asdu.number >= 1
        && asdu.number < SEQUENCE
        && asdu.objects.len() == usize::from(asdu.number) * object
}

/// Whether a cause is that of a command.
fn is_command_cause(cause: u8) -> bool
    ensures { result ≡ is_command_cause cause }
{
    matches!(cause % CAUSE, 5 | 6 | 8)
}
