//! What a command left beside what a row says.

use crate::book::Book;
use crate::fault::Fault;
use crate::left::{Left, is_service};
use crate::packets::wrong_packet;
use crate::reader::Reader;
use crate::row::Row;
use crate::service::wrong_session;
use cf_outside::Told;
use cf_pcap::{RecordAnswer, read_header, read_record};
use cf_view::{LinkSet, Side};
use std::alloc::Global;

/// More records than a row has.
const RECORDS: u32 = 1_000_000;

/// What differs first, if anything does.
pub fn difference(
    reader: &mut Reader<'_>,
    row: &Row,
    words: &str,
    left: &Left,
) -> Result<Option<String>, Fault> {
    let alloc = reader.alloc;
    let status = reader.size(row.field("status:").unwrap_or("0"));
    if usize::from(left.status) != status {
        return Ok(Some(format!(in alloc; "status {}", left.status)?));
    }
    if !is_printed(reader, row, left.out.bytes.as_slice()) {
        return printed(alloc, left.out.bytes.as_slice());
    }
    let wrong = match wrong_output(reader, row, words, left) {
        Some(what) => Some(what),
        None => wrong_pair(reader, row, words, left),
    };
    match wrong {
        Some(what) => Ok(Some(format!(in alloc; "other than {what}")?)),
        None => Ok(None),
    }
}

/// What was printed, where that is not as the row says.
fn printed(alloc: Global, seen: &[u8]) -> Result<Option<String>, Fault> {
    let seen = String::from_utf8_lossy(alloc, seen)?;
    Ok(Some(format!(in alloc; "printed {seen:?}")?))
}

/// Whether this is what a row says that is printed: all of it, or what stands after the number of records.
fn is_printed(reader: &mut Reader<'_>, row: &Row, printed: &[u8]) -> bool {
    if !row.has("counted:") {
        return printed == row.text(reader, "printed:").as_slice();
    }
    let mut left = printed.strip_prefix(b"records ").unwrap_or(b"");
    for _ in 0..left.len() {
        match left {
            [b'0'..=b'9', behind @ ..] => left = behind,
            _ => break,
        }
    }
    let counted = row.text(reader, "counted:");
    left.strip_prefix(b"\n").unwrap_or(b"no line") == counted.as_slice()
}

/// Whether a file is not as these octets, where it is wanted, or there where it is not.
fn is_wrong(left: &Left, name: &str, is_wanted: bool, wanted: &[u8]) -> bool {
    match left.file(name) {
        Some(found) => !is_wanted || found != wanted,
        None => is_wanted,
    }
}

/// The first of the outputs that is not as the row says, or what else was written.
fn wrong_output<'a>(
    reader: &mut Reader<'_>,
    row: &'a Row,
    words: &str,
    left: &Left,
) -> Option<&'a str> {
    if row.has("counted:") {
        return wrong_world(reader.book, left);
    }
    let runs = words.starts_with("run ") && !row.has("outputs: none");
    let has_log = row.has("LOG:") || runs || row.has("log");
    let has_out = row.has("OUT:") || runs;
    let named = usize::from(has_log) + usize::from(has_out) + usize::from(row.has("REPLIES:"));
    if left.files.files.len() != files_before(reader.book).saturating_add(named) {
        return Some("the files that are there");
    }
    if runs && !row.has("OUT:") {
        let wrong = match left.file("o") {
            Some(out) => wrong_packet(reader, row, out),
            None => Some("the capture of what goes out"),
        };
        if wrong.is_some() {
            return wrong;
        }
    } else if is_wrong(left, "o", has_out, &row.octets(reader, "OUT:")) {
        return Some("OUT");
    }
    let has_replies = row.has("REPLIES:");
    if is_wrong(left, "r", has_replies, &row.octets(reader, "REPLIES:")) {
        return Some("REPLIES");
    }
    if is_wrong(left, "l", has_log, &log_of(reader, row)) {
        return Some("the log");
    }
    None
}

/// How many files are there before a command: the policies, the stream and the capture.
fn files_before(book: &Book) -> usize {
    book.policies.len().saturating_add(2)
}

/// What a world `w x o l` left otherwise than its four files.
fn wrong_world<'a>(book: &Book, left: &Left) -> Option<&'a str> {
    if left.files.files.len() != book.policies.len().saturating_add(6) {
        return Some("the files that are there");
    }
    for name in ["x", "o"] {
        if !is_capture(left.file(name).unwrap_or(b"")) {
            return Some("a whole capture");
        }
    }
    None
}

/// Whether octets are the header of a capture and whole records.
pub fn is_capture(octets: &[u8]) -> bool {
    let Ok(header) = read_header(LinkSet::Plain, octets) else {
        return false;
    };
    let mut left = octets.get(24..).unwrap_or(b"");
    for _ in 0..RECORDS {
        match read_record(&header, left) {
            RecordAnswer::Whole { used, .. } => left = left.get(used..).unwrap_or(b""),
            _ => break,
        }
    }
    left.is_empty()
}

/// The text of the log, where there is one.
fn log_of(reader: &mut Reader<'_>, row: &Row) -> Vec<u8> {
    let mut log = row.text(reader, "LOG:");
    for line in row.all("log").iter() {
        reader.puts(line.as_bytes(), &mut log);
        reader.puts(b"\n", &mut log);
    }
    log
}

/// What of the pair, or of a service's links, is not as the row says: nothing is asked of the pair but by a relay.
fn wrong_pair<'a>(
    reader: &mut Reader<'_>,
    row: &'a Row,
    words: &str,
    left: &Left,
) -> Option<&'a str> {
    if row.has("arrives:") {
        return wrong_session(reader, row, left);
    }
    let answers = reader.size(row.field("answers:").unwrap_or("0"));
    let is_relay = words.starts_with("relay ");
    if is_service(words) && left.links.told.len() != answers
        || is_relay && left.pair.told.len() != answers
    {
        return Some("the number of answers");
    }
    if !is_relay {
        if is_service(words) || left.pair.calls == 0 {
            return None;
        }
        return Some("no call of the pair");
    }
    if !is_all_given(reader, row, "CONTROLLER:", left, Side::Controller) {
        return Some("CONTROLLER:");
    }
    if !is_all_given(reader, row, "CLIENT:", left, Side::Client) {
        return Some("CLIENT:");
    }
    None
}

/// Whether a side was given what the lines of a key spell.
fn is_all_given(reader: &mut Reader<'_>, row: &Row, key: &str, left: &Left, side: Side) -> bool {
    let wanted = row.octets(reader, key);
    given(reader, left, side).as_slice() == wanted.as_slice()
}

/// What a side was given.
pub fn given(reader: &mut Reader<'_>, left: &Left, side: Side) -> Vec<u8> {
    let mut bytes = Vec::new(reader.alloc);
    for told in left.pair.told.iter() {
        if let Told::Took(to, piece) = told {
            if *to == side {
                reader.puts(piece, &mut bytes);
            }
        }
    }
    bytes
}
