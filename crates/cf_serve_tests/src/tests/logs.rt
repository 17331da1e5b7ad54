//! What becomes of a log that was there before, where nobody comes.
use crate::tests::{Run, field, files_of, links_of, number, policy, put, same, serve_three};
use cf_outside::{Fail as Scripted, MemoryFiles};
use std::alloc::Global;
use std::process::Abort;

/// A row has the log before, in which `/` stands for a line feed, where there is one; and whether it can be gone on with. After `gives`
/// stand the answer, how many answers the links told, and the log, or `none`; `L` stands for the lines of three places.
const ROWS: &str = "no log
gives
Err(Loop) 3
L

an empty log
log: ''
gives
Err(Loop) 3
L

a log that ends with a line feed
log: abc/de/
gives
Err(Loop) 3
abc/de/L

a log whose last line has none
log: abc/de
gives
Err(Loop) 3
abc/de/L

a log of one line feed
log: /
gives
Err(Loop) 3
/L

a log that cannot be gone on with
log: abc/de
fails: 1
gives
Err(Write) 0
abc/de

a log that cannot be made
fails: 1
gives
Err(Write) 0
none";

const LISTENS: &str =
    "7.000000 10.0.0.1:5020 pump listen\n7.000000 10.0.0.1:5021 rtu listen\n7.000000 10.0.0.1:5022 sub listen\n";

/// A text in which `/` stands for a line feed, and `L` for the lines of the places; `''` is nothing.
fn spelled(rt: &impl Abort, alloc: Global, text: &str) -> String {
    let mut spelled = String::new(alloc);
    for letter in text.chars() {
        match letter {
            '/' => put(rt, &mut spelled, &["\n"]),
            '\'' => {}
            'L' => put(rt, &mut spelled, &[LISTENS]),
            _ => spelled.push(letter).expect(rt, "memory"),
        }
    }
    spelled
}

/// The files before.
fn before(rt: &impl Abort, alloc: Global, row: &str) -> MemoryFiles {
    let call = number(row, "fails:");
    let mut files = files_of(rt, alloc, Some(Scripted { call, left: 0 }));
    let log = field(row, "log:");
    if !log.is_empty() {
        let log = spelled(rt, alloc, log);
        let log = log.as_bytes().to_vec(alloc).expect(rt, "memory");
        let name = String::from_str(alloc, "l").expect(rt, "memory");
        let _ = files.files.insert(name, log);
    }
    files
}

/// The answer, how many answers the links told, and the log.
fn found(rt: &impl Abort, alloc: Global, run: &Run) -> String {
    let answer = &run.answer;
    let told = run.links.told.len();
    let log = if run.files.files.contains_key("l") {
        run.log()
    } else {
        "none"
    };
    format!(in alloc; "{answer:?} {told}\n{log}").expect(rt, "memory")
}

#[test]
fn logs_are_gone_on_with(rt: HostRuntime) {
    let alloc = rt.alloc();
    let policy = policy(&rt, alloc);
    for row in ROWS.split("\n\n") {
        let (given, wanted) = row.split_once("\ngives\n").unwrap_or((row, ""));
        let (answer, log) = wanted.split_once('\n').unwrap_or((wanted, ""));
        let links = links_of(alloc, Vec::new(alloc), 0, None);
        let run = serve_three(&rt, alloc, &policy, links, before(&rt, alloc, given));
        let mut wanted = spelled(&rt, alloc, log);
        wanted.insert_str(0, "\n").expect(&rt, "memory");
        wanted.insert_str(0, answer).expect(&rt, "memory");
        same(&rt, given, &found(&rt, alloc, &run), &wanted);
    }
}
