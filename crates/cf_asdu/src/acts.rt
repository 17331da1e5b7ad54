//! What a command does: one act for each information object.
ghost use Rattle.std.specs.Prelude.{◌≡◌, ◌<◌, ◌≤◌, length, slice_get, Some};
ghost use Rattle.cf_asdu.specs.Asdu.{asdu_value, IsRead};
ghost use Rattle.cf_asdu.specs.Acts.{acts};

use crate::asdu::Asdu;
use crate::element::{element_of, number_at};
use cf_view::Act;

/// How many acts an ASDU that `read_asdu` gave has: one for each information object, 1 to 127.
#[tactic(auto, using(crate::proofs::ActList::count_of_acts, crate::proofs::ActList::count_limits))]
pub fn act_count(asdu: &Asdu<'_>) -> u32
    requires { IsRead (asdu_value asdu.now) }
    ensures count { result ≡ length (acts (asdu_value asdu.now)) }
    ensures at_least { 1 ≤ result }
    ensures at_most { result ≤ 127 }
{
    u32::from(asdu.number)
}

/// The act of number `i`, counted from 0, of an ASDU that `read_asdu` gave: its type, its cause without P/N and T, the
/// address of the information object, and the number that its element writes.
#[tactic(auto, using(crate::proofs::ActList::no_element))]
pub fn act_at(asdu: &Asdu<'_>, i: u32) -> Act
    requires read { IsRead (asdu_value asdu.now) }
    requires inside { i < length (acts (asdu_value asdu.now)) }
    ensures { slice_get (acts (asdu_value asdu.now)) i ≡ Some result }
{
    let Some(element) = element_of(asdu.kind) else {
        unreachable!()
    };
    let place = i as usize * (3 + usize::from(element.octets));
    Act {
        code: u16::from(asdu.kind),
        group: u16::from(asdu.cause % 64),
        point: asdu.objects.u24_le(place),
        value: number_at(element.number, &asdu.objects, place + 3),
    }
}
