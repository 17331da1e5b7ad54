//! APDUs written.
ghost use Rattle.std.specs.Prelude.{◌≡◌, ℕ, List, ◌++◌};
ghost use Rattle.arrayvec.specs.ArrayVec.{array_vec_len};
ghost use Rattle.cf_view.specs.Framing.{Begins};
ghost use Rattle.cf_apci.specs.Apdu.{apdu_value, Fits, SpellsApdu, spelling};

use crate::apdu::{Apdu, START};
use arrayvec::ArrayVec;
use cf_view::{push_u16_le, push_view};

/// Replaces the contents of `out` by an APDU with numbers below 32,768, an ASDU of at most 249 octets and one of the six
/// control octets.
pub fn write_apdu(apdu: &Apdu<'_>, out: &mut ArrayVec<u8, 255>)
    requires { Fits (apdu_value apdu.now) }
    ensures written { out.new.items ≡ spelling (apdu_value apdu.now) }
    ensures spelled { SpellsApdu (apdu_value apdu.now) out.new.items }
    ensures again { (rest : List ℕ) → Begins SpellsApdu (out.new.items ++ rest) (apdu_value apdu.now) (array_vec_len out.new) }
{
    out.clear();
    out.push(START);
    match apdu {
        Apdu::Info {
            send,
            receive,
            asdu,
        } => {
            out.push(asdu.len() as u8 + 4);
            push_u16_le(out, *send * 2);
            push_u16_le(out, *receive * 2);
            push_view(out, asdu);
        }
        Apdu::Ack { receive } => {
            out.push(4);
            push_u16_le(out, 1);
            push_u16_le(out, *receive * 2);
        }
        Apdu::Control(code) => {
            out.push(4);
            push_u16_le(out, u16::from(*code));
            push_u16_le(out, 0);
        }
    }
}
