//! Modbus: ADUs, requests and exceptions.

use crate::acts::{break_words, put_act, reason_of};
use crate::sheet::Sheet;
use arrayvec::ArrayVec;
use cf_modbus::{
    Adu, RequestRefusal, act_at, act_count, exception, next_adu, read_request, write_adu,
};
use cf_view::{Framed, View};

/// The ADU at the front: its transaction, its unit, the length of its PDU, and how many octets it takes, which is the answer.
pub fn tell_adu(sheet: &mut Sheet, first: &[u8], second: &[u8]) -> usize {
    match next_adu(View::two(first, second)) {
        Framed::Unit { unit, used } => {
            sheet.put_number("ADU ", u64::from(unit.transaction));
            sheet.put_number(" ", u64::from(unit.unit));
            sheet.put_number(" ", unit.pdu.len() as u64);
            sheet.put_number(", ", used as u64);
            let mut written = ArrayVec::new();
            write_adu(&unit, &mut written);
            if !View::two(first, second)
                .sub(0, used)
                .equals(written.as_slice())
            {
                sheet.put(", written otherwise");
            }
            used
        }
        Framed::More => {
            sheet.put("more");
            0
        }
        Framed::Broken(broken) => {
            sheet.put(break_words(&broken));
            0
        }
    }
}

/// How many acts the request of a PDU has, and the last of them, so many as are wanted; or why it is refused.
pub fn tell_request(sheet: &mut Sheet, shown: u32, first: &[u8], second: &[u8]) {
    let pdu = View::two(first, second);
    if pdu.is_empty() {
        return sheet.put("no PDU");
    }
    let adu = Adu {
        transaction: 0x1234,
        unit: 0x56,
        pdu,
    };
    match read_request(&adu) {
        Err(refusal) => sheet.put(refusal_word(&refusal)),
        Ok(request) => {
            let count = act_count(&request);
            sheet.put_number("", u64::from(count));
            sheet.put(":");
            for i in count.saturating_sub(shown)..count {
                put_act(sheet, &act_at(&request, i));
            }
        }
    }
}

fn refusal_word(refusal: &RequestRefusal) -> &'static str {
    match refusal {
        RequestRefusal::Function => "function",
        RequestRefusal::Address => "address",
        RequestRefusal::Value => "value",
    }
}

/// The exception to the ADU at the front, which is refused for a reason.
pub fn tell_exception(sheet: &mut Sheet, word: &str, first: &[u8], second: &[u8]) {
    match (next_adu(View::two(first, second)), reason_of(word)) {
        (Framed::Unit { unit, .. }, Some(reason)) => {
            let mut out = ArrayVec::new();
            exception(&unit, &reason, &mut out);
            sheet.put_octets(out.as_slice());
        }
        _ => sheet.put("no ADU, or no reason"),
    }
}
