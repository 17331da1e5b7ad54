//! The sink and the desks in memory by their scripts.
ghost use Rattle.std.specs.Prelude.{◌≡◌, true};
ghost use Rattle.cf_outside.specs.Desk.{DeskValue, PutsLine};
ghost use Rattle.cf_outside.specs.Lines.{is_line};

use crate::files::{script, write_word};
use crate::sheet::{Sheet, call_in, parted};
use cf_outside::{Desk, Files, LineDesk, MemoryDesk, MemoryFiles, MemorySink, Sink, WriteAnswer};

/// Plays calls over a new sink: `put`, what it `holds`, and its `counts` of calls, faults and lacks of memory.
pub fn play_sink(sheet: &mut Sheet, lines: &str) {
    let mut sink = MemorySink::new(sheet.alloc());
    for line in lines.lines() {
        let (given, _) = call_in(line);
        let (call, spelled) = parted(given);
        match call {
            "fails" => sink.fails = script(sheet, given),
            "put" => {
                let octets = sheet.octets(spelled);
                sheet.put(write_word(sink.put(octets.as_slice())));
            }
            "holds" => sheet.put_octets(sink.bytes.as_slice()),
            "counts" => put_counts(sheet, sink.calls, sink.faults, sink.lacks),
            _ => sheet.put("no call of that name"),
        }
        sheet.see(line);
    }
}

fn put_counts(sheet: &mut Sheet, calls: u64, faults: u64, lacks: u64) {
    sheet.put_number("", calls);
    sheet.put_number(" ", faults);
    sheet.put_number(" ", lacks);
}

/// Plays calls over a new desk, none behind the first that fails: `emit` of a moment and octets, the lines `open` and `close`, and what it has
/// then.
pub fn play_desk(sheet: &mut Sheet, lines: &str) {
    let mut desk = MemoryDesk::new(sheet.alloc());
    for line in lines.lines() {
        let (given, _) = call_in(line);
        let (call, rest) = parted(given);
        match call {
            "fails" => desk.fails = script(sheet, given),
            "packets" => put_packets(sheet, &desk),
            "lines" => put_lines(sheet, &desk),
            "counts" => put_counts(sheet, desk.calls, desk.faults, desk.lacks),
            _ if desk.faults > 0 => sheet.put("a desk that failed"),
            _ => tell(sheet, &mut desk, call, rest),
        }
        sheet.see(line);
    }
}

fn tell(sheet: &mut Sheet, desk: &mut MemoryDesk, call: &str, rest: &str)
    requires { desk.old.faults ≡ 0 }
{
    match call {
        "emit" => {
            let (moment, spelled) = parted(rest);
            let moment = sheet.number(moment);
            let octets = sheet.octets(spelled);
            if moment >= 4_294_967_296_000_000 || octets.len() > 1500 {
                return sheet.put("no moment and packet");
            }
            sheet.put(write_word(desk.emit(moment, octets.as_slice())));
        }
        "open" => sheet.put(write_word(put_line(desk, "open\n"))),
        "close" => sheet.put(write_word(put_line(desk, "close\n"))),
        _ => sheet.put("no call of that name"),
    }
}

fn put_packets(sheet: &mut Sheet, desk: &MemoryDesk) {
    let mut between = "";
    for packet in desk.packets.iter() {
        sheet.put_number(between, packet.moment);
        sheet.put(" ");
        sheet.put_octets(packet.bytes.as_slice());
        between = ", ";
    }
}

fn put_lines(sheet: &mut Sheet, desk: &MemoryDesk) {
    for line in desk.lines.iter() {
        sheet.put_octets(line.as_bytes());
    }
}

/// Puts a line as a caller does that knows no more than the bound.
fn put_line<D: Desk>(desk: &mut D, text: &str) -> WriteAnswer
    requires whole { DeskValue.whole (D.value desk.old) ≡ true }
    requires line { is_line text.now ≡ true }
    ensures { PutsLine text.now (D.value desk.old) (D.value desk.new) result }
{
    desk.line(text)
}

/// What a desk that writes a log alone answers to a packet and to the lines `open` and `close`, up to the first that fails, over files whose
/// calls fail as the text says; then its log, and how many files and calls there are.
pub fn tell_line_desk(sheet: &mut Sheet, given: &str) {
    let mut files = MemoryFiles::new(sheet.alloc());
    files.fails = script(sheet, given);
    if files.create("log") == WriteAnswer::Failed {
        return sheet.put("no log");
    }
    let mut desk = LineDesk {
        files: &mut files,
        log: "log",
        failed: false,
    };
    sheet.put(write_word(desk.emit(0, b"pq")));
    let mut answer = put_line(&mut desk, "open\n");
    sheet.put(if answer == WriteAnswer::Done {
        ", done"
    } else {
        ", failed"
    });
    if answer == WriteAnswer::Done {
        answer = put_line(&mut desk, "close\n");
        sheet.put(if answer == WriteAnswer::Done {
            ", done"
        } else {
            ", failed"
        });
    }
    sheet.put(if desk.failed {
        ", no longer whole: "
    } else {
        ", whole: "
    });
    put_log(sheet, &files);
}

fn put_log(sheet: &mut Sheet, files: &MemoryFiles) {
    if let Some(log) = files.files.get("log") {
        sheet.put_octets(log.as_slice());
    }
    sheet.put_number(", files ", files.files.len() as u64);
    sheet.put_number(", calls ", files.calls);
}
