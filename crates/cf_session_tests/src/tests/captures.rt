//! Runs over captures in memory. `capture:` has the octets of one, line by line. What a run leaves is its answer; how many
//! octets its capture of packets has, and the first 84 of them, or `none` where no file was created; and its log.

use super::sessions::policy;
use super::{Place, digits, named, same};
use cf_outside::MemoryFiles;
use cf_run::{RunFault, RunNames, Summary, run_capture};
use cf_samples::rows::octets;
use std::alloc::Global;
use std::process::Abort;

/// A capture is one of libpcap, version 2.4; what a run counts is this project's own.
pub const ROWS: &str = "\
row: a header alone
capture: d4c3b2a1020004000000000000000000 0000040065000000
leaves:
Ok(Summary { records: 0, dropped: 0, outside: 0, full: 0, sessions: 0, admitted: 0, refused: 0, cuts: 0, foreign: 0, closed: 0, above: 0, beyond: 0 })
24 d4c3b2a10200040000000000000000000000040065000000

row: a write of 100 to register 40, and its echo: SYN, SYN ACK, ACK, the write and the echo, 10 milliseconds apart
capture: d4c3b2a1020004000000000000000000 0000040065000000
capture: 01000000 00000000 2c000000 2c000000
capture: 4500002c00004000400626bf0a0000050a000009c00001f6000003e8000000006002ffffbe3a0000020405b4
capture: 01000000 10270000 2c000000 2c000000
capture: 4500002c00004000400626bf0a0000090a00000501f6c00000001388000003e96012ffffaaa10000020405b4
capture: 01000000 204e0000 28000000 28000000
capture: 4500002800004000400626c30a0000050a000009c00001f6000003e9000013895010ffffc25e0000
capture: 01000000 30750000 34000000 34000000
capture: 4500003400004000400626b70a0000050a000009c00001f6000003e9000013895018ffffc0b10000 000100000006010600280064
capture: 01000000 409c0000 34000000 34000000
capture: 4500003400004000400626b70a0000090a00000501f6c00000001389000003f55018ffffc0a50000 000100000006010600280064
leaves:
Ok(Summary { records: 5, dropped: 0, outside: 0, full: 0, sessions: 1, admitted: 1, refused: 0, cuts: 0, foreign: 0, closed: 0, above: 0, beyond: 0 })
448 d4c3b2a1020004000000000000000000000004006500000001000000000000002c0000002c000000\
4500002c00004000400626bf0a0000050a000009c00001f6000003e800000000600240007e3a0000020405b4
1.000000 10.0.0.5:49152 pump open

row: the same without its last octet
capture: d4c3b2a1020004000000000000000000 0000040065000000
capture: 01000000 00000000 2c000000 2c000000
capture: 4500002c00004000400626bf0a0000050a000009c00001f6000003e8000000006002ffffbe3a0000020405b4
capture: 01000000 10270000 2c000000 2c000000
capture: 4500002c00004000400626bf0a0000090a00000501f6c00000001388000003e96012ffffaaa10000020405b4
capture: 01000000 204e0000 28000000 28000000
capture: 4500002800004000400626c30a0000050a000009c00001f6000003e9000013895010ffffc25e0000
capture: 01000000 30750000 34000000 34000000
capture: 4500003400004000400626b70a0000050a000009c00001f6000003e9000013895018ffffc0b10000 000100000006010600280064
capture: 01000000 409c0000 34000000 34000000
capture: 4500003400004000400626b70a0000090a00000501f6c00000001389000003f55018ffffc0a500000001000000060106002800
leaves:
Err(Cut { at: 268, summary: Summary { records: 4, dropped: 0, outside: 0, full: 0, sessions: 1, admitted: 1, refused: 0, cuts: 0, foreign: 0, closed: 0, above: 0, beyond: 0 } })
324 d4c3b2a1020004000000000000000000000004006500000001000000000000002c0000002c000000\
4500002c00004000400626bf0a0000050a000009c00001f6000003e800000000600240007e3a0000020405b4
1.000000 10.0.0.5:49152 pump open

row: the last microsecond below 2^32 seconds twice, of which the second one has no moment
capture: d4c3b2a1020004000000000000000000 0000040065000000
capture: ffffffff 3f420f00 00000000 00000000
capture: ffffffff 3f420f00 00000000 00000000
leaves:
Err(Refused(Clock))
24 d4c3b2a10200040000000000000000000000040065000000

row: no octet, so that nothing is created
capture:
leaves:
Err(Refused(Header(Short)))
none

row: a record of two octets at 1.000000, and the head of a second
capture: d4c3b2a1020004000000000000000000 0000040065000000
capture: 01000000 00000000 02000000 02000000
capture: 6162
capture: 02000000 00000000 02000000 02000000
leaves:
Err(Cut { at: 42, summary: Summary { records: 1, dropped: 1, outside: 0, full: 0, sessions: 0, admitted: 0, refused: 0, cuts: 0, foreign: 0, closed: 0, above: 0, beyond: 0 } })
24 d4c3b2a10200040000000000000000000000040065000000
";

/// The octets of all lines `capture:`.
fn capture(rt: &impl Abort, alloc: Global, lines: &str) -> Vec<u8> {
    let mut all = Vec::new(alloc);
    for line in lines.lines() {
        if let Some(spelled) = line.strip_prefix("capture:") {
            let octets = octets(alloc, spelled).expect(rt, line);
            all.extend_from_slice(&octets).expect(rt, "memory");
        }
    }
    all
}

/// What a run answered, and the files after it.
fn left(
    rt: &impl Abort,
    alloc: Global,
    answer: &Result<Summary, RunFault>,
    files: &MemoryFiles,
) -> String {
    match (files.files.get("o"), files.files.get("l")) {
        (Some(out), Some(log)) => {
            let front = digits(rt, alloc, &out[..out.len().min(84)]);
            let log = str::from_utf8(log).expect(rt, "log");
            format!(in alloc; "{answer:?}\n{} {front}\n{log}", out.len()).expect(rt, "memory")
        }
        _ => format!(in alloc; "{answer:?}\nnone\n").expect(rt, "memory"),
    }
}

/// A run over the capture of a row.
pub fn plays(rt: &impl Abort, alloc: Global, block: &str) {
    let (name, lines) = named(block);
    let (given, wanted) = lines.split_once("\nleaves:\n").expect(rt, name);
    let policy = policy(alloc).expect(rt, "memory");
    let mut files = MemoryFiles::new(alloc);
    let octets = capture(rt, alloc, given);
    let key = String::from_str(alloc, "c").expect(rt, "memory");
    let inserted: Result<_, _> = files.files.insert(key, octets);
    assert!(rt; inserted.is_ok());
    let names = RunNames {
        capture: "c",
        out: "o",
        log: "l",
    };
    let answer: Result<_, _> = run_capture(alloc, &policy, &names, &mut files);
    let found = left(rt, alloc, &answer, &files);
    let found = found
        .strip_suffix('\n')
        .unwrap_or("no end of the last line");
    same(
        rt,
        &Place {
            row: name,
            line: "leaves",
        },
        found,
        wanted,
    );
}
