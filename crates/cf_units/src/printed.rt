//! Views, numbers as octets, and what is printed.
ghost use Rattle.std.specs.Prelude.{◌≤◌, length};
ghost use Rattle.arrayvec.specs.ArrayVec.{array_vec_len};

use crate::pairs::endpoint;
use crate::sheet::{Sheet, parted};
use arrayvec::{ArrayString, ArrayVec};
use cf_view::{
    View, push_bytes, push_endpoint, push_hex, push_moment, push_number, push_signed, push_u16,
    push_u24_le, push_u32_be, push_u32_le, push_view,
};

/// Of six octets in two parts: their split; whether they are those octets and no others; the numbers of two octets at place 1, of three and
/// of four at place 2, the high octet first in the first one and the last one; and the split of the octets from place 1 up to place 5
/// beside a copy of them.
pub fn tell_view(sheet: &mut Sheet, given: &str) {
    let (first, second) = given.split_once('|').unwrap_or((given, ""));
    let first = sheet.octets(first);
    let second = sheet.octets(second);
    let view = View::two(first.as_slice(), second.as_slice());
    if view.len() != 6 {
        return sheet.put("not six octets");
    }
    sheet.put_number("", view.split() as u64);
    sheet.put(equal_word(&view));
    sheet.put_digits(" ", u32::from(view.u16_be(1)));
    sheet.put_digits(" ", u32::from(view.u16_le(1)));
    sheet.put_digits(" ", view.u24_le(2));
    sheet.put_digits(" ", view.u32_le(2));
    sheet.put_digits(" ", view.u32_be(2));
    let middle = view.sub(1, 5);
    sheet.put_number(" ", middle.split() as u64);
    let mut copy = [0; 4];
    middle.copy_to(&mut copy);
    sheet.put(" ");
    sheet.put_octets(&copy);
}

/// Whether a view is the octets 1 to 6, and not those but the first.
fn equal_word(view: &View<'_>) -> &'static str {
    let octets = [1, 2, 3, 4, 5, 6];
    if view.equals(&octets) && !view.equals(&octets[1..]) && !view.is_empty() {
        " equal"
    } else {
        " unequal"
    }
}

/// The octets of numbers, views and octets that are put one behind the other.
pub fn tell_put(sheet: &mut Sheet, given: &str) {
    let mut out = ArrayVec::<u8, 64>::new();
    for part in given.split(", ") {
        let (what, spelled) = parted(part);
        let octets = sheet.octets(spelled);
        if octets.len() > 8 || out.len() > 48 {
            return sheet.put("too many octets");
        }
        push_part(sheet, what, octets.as_slice(), &mut out);
    }
    sheet.put_octets(out.as_slice());
}

/// Puts up to eight octets, or the number that they are, the high octet first.
fn push_part(sheet: &mut Sheet, what: &str, octets: &[u8], out: &mut ArrayVec<u8, 64>)
    requires few { length octets.now ≤ 8 }
    requires room { array_vec_len out.old ≤ 48 }
{
    let mut number = 0_u32;
    for octet in octets {
        number = (number << 8) | u32::from(*octet);
    }
    let (first, second) = octets.split_at(octets.len() / 2);
    match what {
        "u24-little" => push_u24_le(out, number & 0x00FF_FFFF),
        "u32-little" => push_u32_le(out, number),
        "u32-big" => push_u32_be(out, number),
        "view" => push_view(out, &View::two(first, second)),
        "octets" => push_bytes(out, octets),
        _ => sheet.put("no part of that name"),
    }
}

/// The text of moments in microseconds, endpoints as the octets of address and port, numbers and octets, one behind the other.
pub fn tell_printed(sheet: &mut Sheet, given: &str) {
    for part in given.split(", ") {
        let (what, value) = parted(part);
        let mut out = ArrayString::<64>::new();
        match what {
            "moment" => push_moment(&mut out, sheet.number(value)),
            "number" => push_number(&mut out, sheet.number(value)),
            "signed" => push_signed(&mut out, sheet.place(value)),
            "u16" => push_u16(&mut out, sheet.word(value)),
            "octets" => push_hex(&mut out, &View::one(sheet.octets(value).as_slice())),
            "endpoint" => push_endpoint(&mut out, &endpoint(sheet, value)),
            _ => sheet.put("no part of that name"),
        }
        sheet.put(out.as_str());
    }
}
