//! Rows are blocks of lines without an empty one between; the first line of a block names its row. `docs/DEVELOPING.md`,
//! section Rows, says how packets, lines of the log and octets are written. Each player says at its head what stands beside
//! these.

mod captures;
mod ends;
mod lanes;
mod packets;
mod remarked;
mod sessions;

use crate::tests::packets::number;
use cf_outside::MemoryDesk;
use cf_samples::rows::octets;
use cf_samples::{WRITE, rows};
use std::alloc::Global;
use std::process::Abort;
use std::test::Fail;

/// The line of a row that is played.
#[derive(Clone, Copy)]
struct Place<'a> {
    row: &'a str,
    line: &'a str,
}

/// The line says what was found.
fn same(rt: &impl Abort, place: &Place<'_>, found: &str, wanted: &str) {
    assert!(rt; found == wanted, "{}, {}: {}", place.row, place.line, found);
}

/// The name of a row, and what stands after it.
fn named(block: &str) -> (&str, &str) {
    block.trim().split_once('\n').unwrap_or((block, ""))
}

/// What stands after a word, in the first line that begins with it.
fn field<'a>(lines: &'a str, word: &str) -> Option<&'a str> {
    for line in lines.lines() {
        if let Some(behind) = line.strip_prefix(word) {
            return Some(behind);
        }
    }
    None
}

/// The octets of `W`, the write of the samples; of a part of the octets 00 to fa over and over, as `COUNT@3..36`; or of digits.
fn text(rt: &impl Abort, alloc: Global, spelled: &str) -> Vec<u8> {
    let spelled = spelled.trim();
    if spelled == "W" {
        return WRITE.to_vec(alloc).expect(rt, "memory");
    }
    match spelled.strip_prefix("COUNT@") {
        Some(part) => counting(rt, alloc, part),
        None => octets(alloc, spelled).expect(rt, spelled),
    }
}

/// The octets from a place to another of 00 to fa over and over.
fn counting(rt: &impl Abort, alloc: Global, part: &str) -> Vec<u8> {
    let (from, to) = part.split_once("..").expect(rt, part);
    let (from, to) = (number(rt, from), number(rt, to));
    let mut octets = Vec::new(alloc);
    for place in from..to {
        octets.push((place % 251) as u8).expect(rt, "memory");
    }
    octets
}

/// Octets in digits.
fn digits(rt: &impl Abort, alloc: Global, octets: &[u8]) -> String {
    rows::hex(alloc, octets).expect(rt, "memory")
}

/// The next line of a log.
fn logs(rt: &impl Abort, desk: &mut MemoryDesk, place: &Place<'_>, wanted: &str) {
    assert!(rt; !desk.lines.is_empty(), "{}, {}", place.row, place.line);
    let line = desk.lines.remove(0);
    same(rt, place, line.trim_end(), wanted);
}

/// Nothing is left that no line says.
fn is_over(rt: &impl Abort, desk: &MemoryDesk, place: &Place<'_>) {
    assert!(rt;
        desk.packets.is_empty() && desk.lines.is_empty(),
        "{}: more than the row says",
        place.row
    );
}

#[test]
fn ends_open_close_receive_send_and_repeat(rt: HostRuntime) -> Result<(), Fail> {
    for rows in ends::ROWS {
        for block in rows.split("\n\n") {
            ends::plays(&rt, rt.alloc(), block);
        }
    }
    Ok(())
}

#[test]
fn lanes_decide(rt: HostRuntime) -> Result<(), Fail> {
    for block in lanes::ROWS.split("\n\n") {
        lanes::plays(&rt, rt.alloc(), block);
    }
    Ok(())
}

#[test]
fn sessions_go_on(rt: HostRuntime) -> Result<(), Fail> {
    for block in sessions::ROWS.split("\n\n") {
        sessions::plays(&rt, rt.alloc(), block);
    }
    Ok(())
}

#[test]
fn captures_are_run_over(rt: HostRuntime) -> Result<(), Fail> {
    for block in captures::ROWS.split("\n\n") {
        captures::plays(&rt, rt.alloc(), block);
    }
    Ok(())
}

#[test]
fn runs_are_remarked_on(rt: HostRuntime) -> Result<(), Fail> {
    for block in remarked::ROWS.split("\n\n") {
        remarked::plays(&rt, rt.alloc(), block);
    }
    Ok(())
}
