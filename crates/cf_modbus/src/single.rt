//! Requests that write one coil or one register.
ghost use Rattle.std.specs.Prelude.{◌≡◌, ◌+◌, ◌≤◌, IfSome, length, slice_index};
ghost use Rattle.cf_view.specs.Octets.{IsOctets, u16_be_at};
ghost use Rattle.cf_modbus.specs.Acts.{IsRequestOf};

use crate::adu::Adu;
use cf_view::Act;

/// Write Single Coil. MODBUS Application Protocol Specification V1.1b3, section 6.5.
const WRITE_COIL: u8 = 5;

/// Write Single Register, section 6.6.
const WRITE_REGISTER: u8 = 6;

/// The one act of an ADU whose PDU, which is not empty, is a request of function code 5 or 6. It is what `read_request` and
/// `act_at` tell, in one step, as plants send nothing else so often. Nothing for other codes, where the PDU is no request, and
/// where it lies in two pieces.
#[inline(always)]
pub fn single_write(adu: &Adu<'_>) -> Option<Act>
    requires { 1 ≤ length adu.now.pdu.bytes }
    ensures { IfSome result (λ act. IsRequestOf adu.now.pdu.bytes act) }
{
    let (pdu, rest) = adu.pdu.pieces();
    if pdu.len() != 5 || !rest.is_empty() {
        return None;
    }
    single_act(pdu)
}

#[inline(always)]
fn single_act(pdu: &[u8]) -> Option<Act>
    requires { length pdu.now ≡ 5 }
    ensures { IfSome result (λ act. IsRequestOf pdu.now act) }
{
    match pdu[0] {
        WRITE_COIL => coil_act(pdu),
        WRITE_REGISTER => Some(register_act(pdu)),
        _ => None,
    }
}

#[inline(always)]
fn coil_act(pdu: &[u8]) -> Option<Act>
    requires size { length pdu.now ≡ 5 }
    requires code { slice_index pdu.now 0 ≡ 5 }
    ensures { IfSome result (λ act. IsRequestOf pdu.now act) }
{
    let value = match number_at(pdu, 3) {
        0x0000 => 0,
        0xFF00 => 1,
        _ => return None,
    };
    Some(Act {
        code: u16::from(WRITE_COIL),
        group: 0,
        point: u32::from(number_at(pdu, 1)),
        value: Some(value),
    })
}

#[inline(always)]
fn register_act(pdu: &[u8]) -> Act
    requires size { length pdu.now ≡ 5 }
    requires code { slice_index pdu.now 0 ≡ 6 }
    ensures { IsRequestOf pdu.now result }
{
    Act {
        code: u16::from(WRITE_REGISTER),
        group: 0,
        point: u32::from(number_at(pdu, 1)),
        value: Some(i64::from(number_at(pdu, 3))),
    }
}

/// The number of the two octets at place `i`, the high one first.
#[inline(always)]
fn number_at(octets: &[u8], i: usize) -> u16
    requires { i + 2 ≤ length octets.now }
    ensures value { result ≡ u16_be_at octets.now i }
    ensures octets { IsOctets octets.now }
{
    u16::from(octets[i]) * 256 + u16::from(octets[i + 1])
}
