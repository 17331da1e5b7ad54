//! Worlds that are made and run.
use crate::tests::same;
use cf_box::box_main;
use cf_outside::{MemoryFiles, MemoryPair, MemorySink};
use cf_world::{WorldNames, make_world};
use std::alloc::Global;
use std::test::Fail;

/// A row: the seed and the sessions of a world, and what is printed of its run after the number of records, ` / ` between its lines: of a
/// session's fifteen commands ten are admitted and five are refused, and nothing else happens.
const ROWS: &str =
    "7 1 => dropped 0 / outside 0 / full 0 / sessions 1 / admitted 10 / refused 5 / cuts 0
0 2 => dropped 0 / outside 0 / full 0 / sessions 2 / admitted 20 / refused 10 / cuts 0
7 2 => dropped 0 / outside 0 / full 0 / sessions 2 / admitted 20 / refused 10 / cuts 0
18446744073709551615 3 => dropped 0 / outside 0 / full 0 / sessions 3 / admitted 30 / refused 15 / cuts 0
7 30 => dropped 0 / outside 0 / full 0 / sessions 30 / admitted 300 / refused 150 / cuts 0";

/// Runs words over files, and gives what is printed.
fn printed(alloc: Global, words: &str, files: &mut MemoryFiles) -> Result<String, Fail> {
    let mut spelled = Vec::new(alloc);
    for word in words.split(' ') {
        spelled.push(String::from_str(alloc, word)?)?;
    }
    let mut out = MemorySink::new(alloc);
    let mut pair = MemoryPair::new(alloc);
    match box_main(alloc, &spelled, files, &mut out, &mut pair, &mut None) {
        0 => Ok(String::from_utf8_lossy(alloc, out.bytes.as_slice())?),
        _ => Err("the status is not 0".into()),
    }
}

/// The files that `make_world` makes of a seed and a number of sessions.
fn made(alloc: Global, given: &str) -> Result<MemoryFiles, Fail> {
    let (seed, sessions) = given.split_once(' ').unwrap_or((given, ""));
    let sessions = sessions.parse::<u32>()?;
    let names = WorldNames {
        policy: "w",
        capture: "c",
    };
    let mut files = MemoryFiles::new(alloc);
    if sessions < 1 || sessions > 200 {
        return Err("no number of sessions".into());
    }
    make_world(alloc, seed.parse::<u64>()?, sessions, &names, &mut files)?;
    Ok(files)
}

/// What is printed of a world, if it is made again with the same files, and what `make_world` makes of its numbers is run with them too.
fn counted(alloc: Global, given: &str) -> Result<String, Fail> {
    let words = format!(in alloc; "world {given} w c o l")?;
    let mut first = MemoryFiles::new(alloc);
    let text = printed(alloc, &words, &mut first)?;
    let mut again = MemoryFiles::new(alloc);
    let same_text = printed(alloc, &words, &mut again)?;
    if same_text.as_str() != text.as_str() || again.files != first.files {
        return Err("made again, it is another world".into());
    }
    let mut made = made(alloc, given)?;
    let same_text = printed(alloc, "run w c o l", &mut made)?;
    if same_text.as_str() != text.as_str() || made.files != first.files {
        return Err("made and run, it is another world".into());
    }
    let (_, counts) = text.split_once('\n').unwrap_or(("", ""));
    Ok(counts.trim_end().replace(alloc, "\n", " / ")?)
}

#[test]
fn worlds_are_made_and_run(rt: HostRuntime) -> Result<(), Fail> {
    for row in ROWS.lines() {
        let (given, wanted) = row.split_once(" => ").unwrap_or((row, ""));
        same(&rt, row, &counted(rt.alloc(), given)?, wanted);
    }
    Ok(())
}
