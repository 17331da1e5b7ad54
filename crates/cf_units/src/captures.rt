//! Headers and records of captures.

use crate::sheet::{Sheet, parted};
use cf_pcap::{
    Header, HeaderRefusal, RecordAnswer, read_header, read_record, write_header, write_record_head,
};
use cf_view::{LinkKind, LinkSet};

/// What a header says, or the first test that it fails; without octets how one is written.
pub fn tell_header(sheet: &mut Sheet, given: &str) {
    if given == "written" {
        let mut header = [0; 24];
        write_header(&mut header);
        return sheet.put_octets(&header);
    }
    let octets = sheet.octets(given);
    match read_header(LinkSet::Plain, octets.as_slice()) {
        Ok(header) => {
            sheet.put(if header.big_endian { "big" } else { "little" });
            sheet.put(if header.nanos {
                " nanoseconds "
            } else {
                " microseconds "
            });
            sheet.put(link_word(&header.link));
        }
        Err(refusal) => sheet.put(refusal_words(&refusal)),
    }
}

fn refusal_words(refusal: &HeaderRefusal) -> &'static str {
    match refusal {
        HeaderRefusal::Short => "short",
        HeaderRefusal::Magic => "magic",
        HeaderRefusal::Version => "version",
        HeaderRefusal::LinkType => "link type",
    }
}

/// The word for a link kind.
pub fn link_word(link: &LinkKind) -> &'static str {
    match link {
        LinkKind::Ethernet => "ethernet",
        LinkKind::RawIp => "raw",
        LinkKind::LinuxCooked => "cooked",
        LinkKind::LinuxCooked2 => "cooked2",
    }
}

/// The record that begins octets of a file of a byte order, `little` or `big`, or `nanos`, with the high octet first and fractions in
/// nanoseconds: its stamp, the length of its body and its own; or how many octets are needed.
pub fn tell_record(sheet: &mut Sheet, given: &str) {
    let (order, spelled) = parted(given);
    let octets = sheet.octets(spelled);
    let nanos = order == "nanos";
    let header = Header {
        big_endian: nanos || order == "big",
        nanos,
        link: LinkKind::RawIp,
    };
    match read_record(&header, octets.as_slice()) {
        RecordAnswer::Whole { stamp, body, used } => {
            sheet.put_number("", stamp);
            sheet.put_number(" ", body.len() as u64);
            sheet.put_number(" ", used as u64);
        }
        RecordAnswer::Need(size) => sheet.put_number("need ", size as u64),
        RecordAnswer::TooLong => sheet.put("too long"),
    }
}

/// The head of a record with a moment in microseconds and so many octets.
pub fn tell_written(sheet: &mut Sheet, given: &str) {
    let (moment, len) = parted(given);
    let moment = sheet.number(moment);
    let len = sheet.number(len);
    if moment >= 4_294_967_296_000_000 || len > 262_144 {
        return sheet.put("no moment and length");
    }
    let mut head = [0; 16];
    write_record_head(moment, len as u32, &mut head);
    sheet.put_octets(&head);
}
