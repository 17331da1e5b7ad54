//! Octets, wherever they lie in two parts.

use crate::sheet::Sheet;
use crate::{fragments, frames, requests, stations};

/// The most octets that are parted at each place.
const PARTED: usize = 300;

/// What comes of octets, and of the word behind a comma. It is the same wherever they are parted in two, and before the end of the unit at
/// their front there is more to come; else that is said.
pub fn tell_parted(sheet: &mut Sheet, unit: &str, given: &str) {
    let (spelled, word) = given.split_once(", ").unwrap_or((given, ""));
    let octets = sheet.octets(spelled);
    let used = tell_octets(sheet, unit, word, octets.as_slice(), b"");
    if octets.len() > PARTED {
        return;
    }
    let whole = sheet.take();
    for place in 0..=octets.len() {
        let (first, second) = octets.as_slice().split_at(place);
        tell_octets(sheet, unit, word, first, second);
        if !sheet.takes(&whole) {
            return sheet.put_number(", parted at ", place as u64);
        }
        if place < used {
            tell_octets(sheet, unit, word, first, b"");
            if !sheet.takes("more") {
                return sheet.put_number(", cut at ", place as u64);
            }
        }
    }
    sheet.put(&whole);
}

/// What comes of octets in two parts, and how many the unit at their front takes; none where no unit is looked for.
fn tell_octets(sheet: &mut Sheet, unit: &str, word: &str, first: &[u8], second: &[u8]) -> usize {
    match unit {
        "ADU" => return requests::tell_adu(sheet, first, second),
        "APDU" => return stations::tell_apdu(sheet, first, second),
        "link frame" => return frames::tell_frame(sheet, first, second),
        "request" => requests::tell_request(sheet, 1, first, second),
        "request with all acts" => requests::tell_request(sheet, u32::MAX, first, second),
        "exception" => requests::tell_exception(sheet, word, first, second),
        "ASDU" => stations::tell_asdu(sheet, first, second),
        "mirror" => stations::tell_mirror(sheet, first, second),
        "station" => stations::tell_station(sheet, first, second),
        "CRC" => frames::tell_crc(sheet, first, second),
        "fragment" => fragments::tell_fragment(sheet, 1, first, second),
        "fragment with all acts" => fragments::tell_fragment(sheet, u32::MAX, first, second),
        "response" => fragments::tell_response(sheet, word, first, second),
        "codes without response" => fragments::tell_unanswered(sheet, first, second),
        _ => sheet.put("no unit of that name"),
    }
    0
}
