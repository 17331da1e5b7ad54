//! Files in memory by their script, and what is read and written through them.

use crate::sheet::{Sheet, call_in, parted};
use cf_outside::{Fail, Files, MemoryFiles, ReadAnswer, WriteAnswer, append_all, fill, read_whole};
use cf_view::View;

/// Plays calls over new files, with a buffer of seven octets that holds `......-`.
pub fn play(sheet: &mut Sheet, lines: &str) {
    let mut files = MemoryFiles::new(sheet.alloc());
    let mut buf = *b"......-";
    for line in lines.lines() {
        let (given, _) = call_in(line);
        let (call, rest) = parted(given);
        let (name, rest) = parted(rest);
        match call {
            "fill" => tell_fill(sheet, &mut files, name, rest, &mut buf),
            "fails" => files.fails = script(sheet, given),
            _ => tell(sheet, &mut files, call, name, rest),
        }
        sheet.see(line);
    }
}

/// The failing calls that a text tells behind its first word, each as `CALL:LEFT`.
pub fn script(sheet: &mut Sheet, given: &str) -> Vec<Fail> {
    let mut fails = Vec::new(sheet.alloc());
    for word in given.split_whitespace().skip(1) {
        let (call, left) = word.split_once(':').unwrap_or((word, "0"));
        let fail = Fail {
            call: sheet.number(call),
            left: sheet.size(left),
        };
        if fails.push(fail).is_err() {
            sheet.refuse("memory ran out");
        }
    }
    fails
}

/// The word for the answer of a write.
pub fn write_word(answer: WriteAnswer) -> &'static str {
    match answer {
        WriteAnswer::Done => "done",
        WriteAnswer::Failed => "failed",
    }
}

/// Makes a call: `append` is one call, `append-all` in pieces, `read` of up to eight octets from a place on into a buffer of zeros, `whole` up
/// to a limit. `counts` are the calls, the failed reads, the failed writes, the lacks of memory and the failures of the script.
fn tell(sheet: &mut Sheet, files: &mut MemoryFiles, call: &str, name: &str, rest: &str) {
    match call {
        "create" => sheet.put(write_word(files.create(name))),
        "append" => {
            let octets = sheet.octets(rest);
            sheet.put(write_word(files.append(name, octets.as_slice())));
        }
        "append-all" => {
            let octets = sheet.octets(rest);
            let answer = append_all(name, octets.as_slice(), files);
            sheet.put(if answer.is_ok() { "done" } else { "failed" });
        }
        "read" => tell_read(sheet, files, name, rest),
        "whole" => tell_whole(sheet, files, name, rest),
        "counts" => {
            sheet.put_number("", files.calls);
            sheet.put_number(" ", files.read_faults);
            sheet.put_number(" ", files.write_faults);
            sheet.put_number(" ", files.lacks);
            sheet.put_number(" ", files.fails.len() as u64);
        }
        _ => sheet.put("no call of that name"),
    }
}

fn tell_read(sheet: &mut Sheet, files: &mut MemoryFiles, name: &str, place: &str) {
    let place = sheet.number(place);
    let mut buf = [0; 8];
    match files.read_at(name, place, &mut buf) {
        ReadAnswer::Got(count) => sheet.put_number("got ", count as u64),
        ReadAnswer::End => sheet.put("end"),
        ReadAnswer::Failed => sheet.put("failed"),
    }
    sheet.put(" ");
    sheet.put_octets(&buf);
}

fn tell_whole(sheet: &mut Sheet, files: &mut MemoryFiles, name: &str, limit: &str) {
    let limit = sheet.number(limit);
    match read_whole(sheet.alloc(), name, limit, files) {
        Ok(octets) => sheet.put_spelled(&View::one(octets.as_slice())),
        Err(fault) => match format!(in sheet.alloc(); "{fault}") {
            Ok(text) => sheet.put(&text),
            Err(_) => sheet.refuse("memory ran out"),
        },
    }
}

/// How many octets stand in a buffer of seven, and what it holds, where so many are wanted of a file from a place on.
#[tactic(auto, using(cf_outside::proofs::Pieces::none_read))]
fn tell_fill(
    sheet: &mut Sheet,
    files: &mut MemoryFiles,
    name: &str,
    rest: &str,
    buf: &mut [u8; 7],
) {
    let (place, size) = parted(rest);
    let place = sheet.number(place);
    let size = sheet.size(size);
    if place > 1000 || size == 0 || size > 7 {
        return sheet.put("no place and size");
    }
    match fill(name, place, 0, size, buf, files) {
        Some(have) => sheet.put_number("", have as u64),
        None => sheet.put("failed"),
    }
    sheet.put(" ");
    sheet.put_octets(buf.as_slice());
}
