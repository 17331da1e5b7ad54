//! From which byte on a flow is read.
ghost use Rattle.std.specs.Prelude.{◌≡◌, ◌≤◌, ℕ, true, false, length};
ghost use Rattle.cf_apci.specs.Apdu.{ApduValue, SpellsApdu};
ghost use Rattle.cf_dnplink.specs.LinkFrame.{FrameValue, SpellsFrame};
ghost use Rattle.cf_modbus.specs.Adu.{AduValue, SpellsAdu};
ghost use Rattle.cf_view.specs.Framing.{Begins};
ghost use Rattle.cf_watch.specs.FlowValue.{flow_value};
ghost use Rattle.cf_review.specs.FirstUnit.{IsReadFrom, IsReadPart, UnitBegins, from_place};

use cf_apci::next_apdu;
use cf_dnplink::next_frame;
use cf_modbus::next_adu;
use cf_policy::Protocol;
use cf_view::{Framed, View};
use cf_watch::Flow;

/// The byte of a flow, counted from 0, from which on it is read: the first one, and of a flow that begins amid its stream the first at
/// which a unit of the protocol begins, if there is one.
pub fn first_place(protocol: &Protocol, flow: &Flow) -> usize
    ensures part { IsReadPart protocol.now (flow_value flow.now) (from_place result (flow_value flow.now)) }
    ensures inside { result ≤ length flow.now.bytes.items }
{
    match flow.midstream {
        None => 0,
        Some(_) => first_unit(protocol, flow.bytes.as_slice()),
    }
}

/// The first place at which a unit begins, or 0.
fn first_unit(protocol: &Protocol, bytes: &[u8]) -> usize
    ensures place { IsReadFrom protocol.now bytes.now result }
    ensures inside { result ≤ length bytes.now }
{
    for place in 0..bytes.len() {
        if unit_begins(protocol, View::one(&bytes[place..])) {
            return place;
        }
    }
    0
}

/// Whether a unit of a protocol begins octets.
pub(crate) fn unit_begins(protocol: &Protocol, bytes: View<'_>) -> bool
    ensures unit { result ≡ true → UnitBegins protocol.now bytes.entry.bytes }
    ensures none { result ≡ false → UnitBegins protocol.now bytes.entry.bytes → ⊥ }
{
    match protocol {
        Protocol::Modbus => adu_begins(bytes),
        Protocol::Dnp3 => frame_begins(bytes),
        Protocol::Iec104 => apdu_begins(bytes),
    }
}

fn adu_begins(bytes: View<'_>) -> bool
    ensures unit { result ≡ true → (a : AduValue) × (n : ℕ) × Begins SpellsAdu bytes.entry.bytes a n }
    ensures none { result ≡ false → (a : AduValue) (n : ℕ) → Begins SpellsAdu bytes.entry.bytes a n → ⊥ }
{
    match next_adu(bytes) {
        Framed::Unit { .. } => true,
        Framed::More | Framed::Broken(_) => false,
    }
}

fn frame_begins(bytes: View<'_>) -> bool
    ensures unit { result ≡ true → (f : FrameValue) × (n : ℕ) × Begins SpellsFrame bytes.entry.bytes f n }
    ensures none { result ≡ false → (f : FrameValue) (n : ℕ) → Begins SpellsFrame bytes.entry.bytes f n → ⊥ }
{
    match next_frame(bytes) {
        Framed::Unit { .. } => true,
        Framed::More | Framed::Broken(_) => false,
    }
}

fn apdu_begins(bytes: View<'_>) -> bool
    ensures unit { result ≡ true → (a : ApduValue) × (n : ℕ) × Begins SpellsApdu bytes.entry.bytes a n }
    ensures none { result ≡ false → (a : ApduValue) (n : ℕ) → Begins SpellsApdu bytes.entry.bytes a n → ⊥ }
{
    match next_apdu(bytes) {
        Framed::Unit { .. } => true,
        Framed::More | Framed::Broken(_) => false,
    }
}
