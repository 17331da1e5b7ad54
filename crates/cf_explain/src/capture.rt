//! Why a capture was refused or cut, and what to do.
ghost use Rattle.std.specs.Prelude.{◌≤◌, ◌^◌};

use crate::block::push_refused;
use crate::foreign::is_of_text;
use crate::link::{link_hint, link_name};
use crate::page::Page;
use cf_outside::{Files, ReadAnswer};
use cf_pcap::{CAPTURED_LIMIT, u32_at};
use cf_pcapng::is_section;
use cf_records::{FormRefusal, MOMENT_LIMIT, NextRecord, OpenFault, RecordReader};
use cf_view::{LinkSet, View};
use std::alloc::{AllocError, Global};

/// The first octets of a file that gzip made. RFC 1952, section 2.3.1.
const GZIP: [u8; 2] = [0x1F, 0x8B];

/// The octets of the header of a classic capture. draft-ietf-opsawg-pcap, section 4.
const HEADER_OCTETS: usize = 24;

/// What ended the records of a capture.
#[derive(Clone, Copy)]
enum Last {
    /// This stands after them.
    Found(NextRecord),
    /// One comes at a moment that no capture can have.
    TooLate,
}

/// Why the capture in a file is refused by a command that reads these link types, or where it is cut, and what to do. It is read again,
/// record by record. A command that gives each record a moment refuses one that comes too late (`has_moments`). Nothing where the records
/// end with the file, and where it cannot be read again, as a pipe.
pub fn capture_message<F: Files>(
    alloc: Global,
    kinds: LinkSet,
    file: &str,
    has_moments: bool,
    files: &mut F,
) -> Result<Option<String>, AllocError> {
    let mut out = Page::new(alloc);
    out.push_all(&[file, ": "]);
    let is_told = push_why(&mut out, kinds, file, has_moments, files);
    let text = out.finish()?;
    Ok(is_told.then_some(text))
}

/// Says why a capture is refused or where it is cut, if it is, and whether it did.
fn push_why<F: Files>(
    out: &mut Page,
    kinds: LinkSet,
    file: &str,
    has_moments: bool,
    files: &mut F,
) -> bool {
    let first = first_octets(file, files);
    match RecordReader::open_in(out.alloc, kinds, file, files) {
        Err(OpenFault::Refused(refusal)) => {
            push_header(out, refusal, &first);
            true
        }
        Err(OpenFault::Read | OpenFault::NoMemory) => false,
        Ok(mut reader) => push_records(out, file, has_moments, files, &first, &mut reader),
    }
}

/// Says where the records of a capture end before the file, if they do, and whether it did.
fn push_records<F: Files>(
    out: &mut Page,
    file: &str,
    has_moments: bool,
    files: &mut F,
    first: &[u8; HEADER_OCTETS],
    reader: &mut RecordReader,
) -> bool
    requires near { reader.old.place ≤ 2 ^ 40 }
{
    let (number, place, last) = last_record(reader, file, has_moments, files);
    match last {
        Last::Found(NextRecord::Refused(refusal)) => {
            push_block(out, number, place);
            push_refused(out, reader, file, refusal, files);
            push_before(out, number);
            true
        }
        _ => push_record(out, is_section(first), number, place, last),
    }
}

/// The first octets of a file; zeros where it cannot be read again.
fn first_octets<F: Files>(file: &str, files: &mut F) -> [u8; HEADER_OCTETS] {
    let mut first = [0u8; HEADER_OCTETS];
    match files.read_at(file, 0, &mut first) {
        ReadAnswer::Got(_) => first,
        ReadAnswer::End | ReadAnswer::Failed => [0; HEADER_OCTETS],
    }
}

/// Says why a header is refused.
fn push_header(out: &mut Page, refusal: FormRefusal, first: &[u8; HEADER_OCTETS]) {
    match refusal {
        FormRefusal::LinkType => push_link(out, first),
        FormRefusal::Short => out.push(if is_section(first) {
            "it has fewer than 28 bytes, and so is no pcapng capture"
        } else {
            "it has fewer than 24 bytes, and so is no capture"
        }),
        FormRefusal::Magic => out.push(magic(first)),
        FormRefusal::Version => out.push(
            "its version is not 2.4\n  'editcap -F pcap IN OUT' writes a capture of this version",
        ),
        FormRefusal::Section => out.push(
            "it begins as a pcapng capture, but the byte order of its section header is not known, or its version is not 1",
        ),
    }
}

/// What a file is that does not begin as a capture.
fn magic(first: &[u8; HEADER_OCTETS]) -> &'static str {
    if first.starts_with(&GZIP) {
        "it is compressed\n  'gunzip' writes it as it was"
    } else if first.iter().all(is_of_text) {
        "it begins as a text does, and not as a capture\n  \
         in the words of a command CAPTURE stands behind POLICY, as cmdwall judge POLICY CAPTURE"
    } else {
        "it does not begin as a pcap file\n  'editcap -F pcap IN OUT' writes other captures as pcap"
    }
}

/// Says which link type a header has: in the byte order in which its magic stands.
fn push_link(out: &mut Page, first: &[u8; HEADER_OCTETS]) {
    let link = u32_at(&View::one(first), 20, first[0] == 0xA1);
    out.push_number_after("its link type is ", u64::from(link));
    out.push_all(&[
        link_name(link),
        ", and only 1 (Ethernet) and 101 (raw IP) are read",
        link_hint(link),
    ]);
}

/// What ended the records of a capture, with the number from 1 that a record there has, and its place. Where a record comes too late, it
/// is the place of the record, or of a pcapng file the place where its block ends.
fn last_record<F: Files>(
    reader: &mut RecordReader,
    file: &str,
    has_moments: bool,
    files: &mut F,
) -> (u64, u64, Last)
    requires near { reader.old.place ≤ 2 ^ 40 }
{
    let has_blocks = reader.place() == 0;
    let mut number = 1u64;
    let mut least = 2u64;
    'records: loop {
        let place = reader.place();
        match reader.next(file, files) {
            NextRecord::Whole(stamp) => {
                let moment = stamp.max(least);
                if has_moments && moment >= MOMENT_LIMIT {
                    let place = if has_blocks { reader.place() } else { place };
                    return (number, place, Last::TooLate);
                }
                least = moment.saturating_add(2);
                number = number.saturating_add(1);
            }
            found => return (number, reader.place(), Last::Found(found)),
        }
    }
}

/// Says what is wrong with the record or the block at a place, if something is, and whether it did.
fn push_record(out: &mut Page, has_blocks: bool, number: u64, place: u64, last: Last) -> bool {
    match last {
        Last::Found(NextRecord::Cut) => {
            out.push("the file ends inside ");
            push_placed(out, has_blocks, number, place);
        }
        Last::Found(NextRecord::TooLong) => {
            push_placed(out, has_blocks, number, place);
            out.push_number_after(", has more than ", u64::from(CAPTURED_LIMIT));
            out.push(" bytes");
        }
        Last::Found(NextRecord::Large) => {
            push_placed(out, has_blocks, number, place);
            out.push(", goes past the first 2^40 bytes of the file");
        }
        Last::TooLate => {
            push_late(out, has_blocks, number, place);
            return true;
        }
        Last::Found(_) => return false,
    }
    push_before(out, number);
    true
}

/// A record with its number and its place, or a block.
fn push_placed(out: &mut Page, has_blocks: bool, number: u64, place: u64) {
    if has_blocks {
        push_block(out, number, place);
    } else {
        push_numbers(out, "record ", number, ", which begins at byte ", place);
    }
}

/// A block with its place and how many records stand before it.
fn push_block(out: &mut Page, number: u64, place: u64) {
    let before = number.saturating_sub(1);
    push_numbers(out, "the block at byte ", place, ", behind ", before);
    out.push(if before == 1 { " record" } else { " records" });
}

/// Says that a record comes too late.
fn push_late(out: &mut Page, has_blocks: bool, number: u64, place: u64) {
    let that = if has_blocks {
        ", whose block ends at byte "
    } else {
        ", which begins at byte "
    };
    push_numbers(out, "record ", number, that, place);
    out.push(
        ", comes at a moment past 4294967295.999999, the last that a capture can have\n  \
         'editcap -F pcap -t -SECONDS IN OUT' sets the moments of all records back",
    );
}

fn push_numbers(out: &mut Page, before: &str, first: u64, between: &str, second: u64) {
    out.push_number_after(before, first);
    out.push_number_after(between, second);
}

/// Says what writes the records that stand before.
fn push_before(out: &mut Page, number: u64) {
    if number > 1 {
        out.push("\n  'editcap -F pcap IN OUT' writes the records before it");
    }
}
