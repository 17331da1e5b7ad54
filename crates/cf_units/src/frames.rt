//! DNP3: link frames and their CRCs.
ghost use Rattle.cf_dnplink.specs.LinkFrame.{IsFrame, frame_value};

use crate::acts::break_words;
use crate::sheet::Sheet;
use arrayvec::ArrayVec;
use cf_dnplink::{Frame, copy_user, crc, next_frame, user_len, write_frame};
use cf_view::{Framed, View};

/// The CRC of octets.
pub fn tell_crc(sheet: &mut Sheet, first: &[u8], second: &[u8]) {
    sheet.put_octets(&crc(View::two(first, second)).to_be_bytes());
}

/// The frame at the front: its control octet, its destination, its source, its user octets, and how many octets it takes, which is the
/// answer.
pub fn tell_frame(sheet: &mut Sheet, first: &[u8], second: &[u8]) -> usize {
    match next_frame(View::two(first, second)) {
        Framed::Unit { unit, used } => {
            let octets = View::two(first, second).sub(0, used);
            put_frame(sheet, &unit, &octets);
            sheet.put_number(", ", used as u64);
            used
        }
        Framed::More => {
            sheet.put("more");
            0
        }
        Framed::Broken(broken) => {
            sheet.put(break_words(&broken));
            0
        }
    }
}

/// Puts the fields of a frame, and where other octets than these are written of it.
fn put_frame(sheet: &mut Sheet, frame: &Frame<'_>, octets: &View<'_>)
    requires { IsFrame (frame_value frame.now) }
{
    let mut user = [0; 250];
    let len = user_len(frame);
    copy_user(frame, &mut user[..len]);
    sheet.put_octets(&[frame.control]);
    sheet.put_number(" ", u64::from(frame.dest));
    sheet.put_number(" ", u64::from(frame.source));
    sheet.put(" [");
    sheet.put_octets(&user[..len]);
    sheet.put("]");
    let mut written = ArrayVec::new();
    write_frame(
        frame.control,
        frame.dest,
        frame.source,
        &View::one(&user[..len]),
        &mut written,
    );
    if !octets.equals(written.as_slice()) {
        sheet.put(", written otherwise");
    }
}

/// Of control octet, destination and source, the high octet first, and user octets: the size of the frame, and its last four octets.
pub fn tell_written(sheet: &mut Sheet, given: &str) {
    let octets = sheet.octets(given);
    let fields = View::one(octets.as_slice());
    if fields.len() < 5 || fields.len() > 255 {
        return sheet.put("no fields of a frame");
    }
    let mut written = ArrayVec::new();
    let user = fields.sub(5, fields.len());
    write_frame(
        fields.at(0),
        fields.u16_be(1),
        fields.u16_be(3),
        &user,
        &mut written,
    );
    let frame = written.as_slice();
    sheet.put_number("", frame.len() as u64);
    sheet.put(" ");
    sheet.put_octets(frame.get(frame.len().saturating_sub(4)..).unwrap_or(b""));
    if front(frame) != "frame" {
        sheet.put(", no frame");
    }
}

/// What stands at the front of a stream.
fn front(bytes: &[u8]) -> &'static str {
    match next_frame(View::one(bytes)) {
        Framed::Unit { used, .. } => {
            if used == bytes.len() {
                "frame"
            } else {
                "frame and more"
            }
        }
        Framed::More => "more",
        Framed::Broken(broken) => break_words(&broken),
    }
}

/// After how many octets it is known what stands at the front of a stream, and what.
pub fn tell_known(sheet: &mut Sheet, given: &str) {
    let octets = sheet.octets(given);
    let whole = front(octets.as_slice());
    let len = known_after(octets.as_slice());
    let known = front(octets.get(..len).unwrap_or(b""));
    sheet.put_number("", len as u64);
    sheet.put(" ");
    sheet.put(known);
    if known != whole {
        sheet.put(", in the end ");
        sheet.put(whole);
    }
}

/// After how many octets it is known what stands at the front of a stream.
fn known_after(bytes: &[u8]) -> usize {
    for len in 0..bytes.len() {
        if front(&bytes[..len]) != "more" {
            return len;
        }
    }
    bytes.len()
}
