//! The mirror of a refused command.
ghost use Rattle.std.specs.Prelude.{◌≡◌, ◌<◌, ◌≤◌, length};
ghost use Rattle.cf_asdu.specs.Asdu.{AsduValue, SpellsAsdu};
ghost use Rattle.cf_asdu.specs.Mirror.{mirror_cause, mirror_octet, mirror_of, mirrored};

use crate::element::element_of;
use arrayvec::ArrayVec;
use cf_view::{View, push_view};

/// Replaces the contents of `out` by the mirror of a refused ASDU of 9 to 249 octets: P/N is set, T kept, and the cause is 44
/// where the type is not served, else 7 for 6, 9 for 8 and 45 for every other. All else is unchanged. This project's own
/// choice, in the causes of IEC 60870-5-101, section 7.2.3.
#[tactic(auto, using(crate::proofs::Mirrors::mirror_spelled))]
pub fn mirror(octets: View<'_>, out: &mut ArrayVec<u8, 249>)
    requires at_least { 9 ≤ length octets.bytes }
    requires at_most { length octets.bytes ≤ 249 }
    ensures octets { out.new.items ≡ mirrored octets.entry.bytes }
    ensures spelled { (a : AsduValue) → SpellsAsdu a octets.entry.bytes → SpellsAsdu (mirror_of a) out.new.items }
{
    out.clear();
    push_view(out, &octets.sub(0, 2));
    out.push(mirror_octet(octets.at(0), octets.at(2)));
    push_view(out, &octets.sub(3, octets.len()));
}

/// The octet of the cause of the mirror of an ASDU of this type, by the octet that it has.
fn mirror_octet(kind: u8, octet: u8) -> u8
    ensures { result ≡ mirror_octet kind octet }
{
    octet / 128 * 128 + 64 + mirror_cause(kind, octet % 64)
}

fn mirror_cause(kind: u8, cause: u8) -> u8
    ensures value { result ≡ mirror_cause kind cause }
    ensures six_bits { result < 64 }
{
    if element_of(kind).is_none() {
        return 44;
    }
    match cause {
        6 => 7,
        8 => 9,
        _ => 45,
    }
}
