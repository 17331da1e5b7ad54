//! DNP3: transport segments and what they are put together to.

use crate::sheet::Sheet;
use cf_dnptrans::{Assembly, DropReason, SegmentAnswer, segment_count, segment_octet};
use cf_view::View;

/// The answers to segments one after the other, each fragment that is completed, and whether one is unfinished in the end.
pub fn tell(sheet: &mut Sheet, given: &str) {
    let Ok(mut assembly) = Assembly::new(sheet.alloc()) else {
        return sheet.refuse("memory ran out");
    };
    let mut is_first = true;
    for spelled in given.split(", ") {
        sheet.put(if is_first { "" } else { ", " });
        is_first = false;
        let segment = sheet.octets(spelled);
        put_answer(sheet, &mut assembly, segment.as_slice());
    }
    if assembly.unfinished() {
        sheet.put(", unfinished");
    }
}

fn put_answer(sheet: &mut Sheet, assembly: &mut Assembly, segment: &[u8]) {
    let word = match assembly.segment(View::one(segment)) {
        SegmentAnswer::Whole => {
            sheet.put("whole [");
            sheet.put_spelled(&assembly.fragment());
            "]"
        }
        SegmentAnswer::More => "more",
        SegmentAnswer::Dropped(DropReason::Empty) => "empty",
        SegmentAnswer::Dropped(DropReason::NoFirst) => "no first",
        SegmentAnswer::Dropped(DropReason::Order) => "out of order",
        SegmentAnswer::Dropped(DropReason::TooLong) => "too long",
    };
    sheet.put(word);
}

/// The first octets of all segments of a fragment, given its length in two octets and the sequence of the first one.
pub fn tell_first_octets(sheet: &mut Sheet, given: &str) {
    let octets = sheet.octets(given);
    let fields = View::one(octets.as_slice());
    if fields.len() != 3 {
        return sheet.put("no length and sequence");
    }
    let len = usize::from(fields.u16_be(0));
    let first = fields.at(2);
    if len > 2056 || first > 63 {
        return sheet.put("no length and sequence");
    }
    for i in 0..segment_count(len) {
        let sequence = (first + i as u8) % 64;
        sheet.put_octets(&[segment_octet(len, i, sequence)]);
    }
}
