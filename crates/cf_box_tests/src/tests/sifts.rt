//! Stored streams that are sifted over files in memory.
use crate::tests::{field, same};
use cf_outside::{Fail as Scripted, MemoryFiles};
use cf_policy::Site;
use cf_samples::pump;
use cf_samples::rows::{hex, octets};
use cf_sift::{SiftNames, sift_stream};
use std::alloc::Global;
use std::fmt::Write;
use std::test::Fail;

/// A row has the stream, the output as it was before, and the call of the files that fails; after `gives` stand the answer, the output,
/// the replies, and the log.
const ROWS: &str = "what came before a break is written, and then its line
stream: 000100000006010600320064 000100000006010600280064 00020001
gives
Ok(SiftDone { cut: Some(Framing(Client, Protocol)), admitted: 1, refused: 1 })
output 000100000006010600280064
replies 000100000003018602
log
0.000000 10.0.0.5:0 pump refuse default point code 6 group 0 point 50 value 100 replied 000100000006010600320064
0.000000 10.0.0.5:0 pump cut client protocol

a read fails, behind which the output is empty
stream: 000100000006010600320064 000100000006010600280064 00020001
before: 000100000006010600280064
fails: 4
gives
Err(Read)
output
replies
log";

const NAMES: SiftNames<'static> = SiftNames {
    stream: "s",
    out: "o",
    replies: "r",
    log: "l",
};

fn files_of(alloc: Global, row: &str) -> Result<MemoryFiles, Fail> {
    let mut files = MemoryFiles::new(alloc);
    for (name, word) in [("s", "stream:"), ("o", "before:")] {
        let spelled = field(row, word);
        if !spelled.is_empty() {
            let name = String::from_str(alloc, name)?;
            files.files.insert(name, octets(alloc, spelled)?)?;
        }
    }
    if let Ok(call) = field(row, "fails:").parse::<u64>() {
        files.fails.push(Scripted { call, left: 0 })?;
    }
    Ok(files)
}

/// What a sift answers and leaves, of an asset that has its endpoint for itself.
#[tactic(auto, using(crate::proofs::Alone::alone_within))]
fn sifted(alloc: Global, row: &str) -> Result<String, Fail> {
    let mut files = files_of(alloc, row)?;
    let asset = pump(alloc)?;
    let done = sift_stream(alloc, &Site::alone(&asset), 0x0A00_0005, &NAMES, &mut files);
    let mut text = format!(in alloc; "{done:?}\n")?;
    for (name, word) in [("o", "output"), ("r", "replies")] {
        let octets = files.files.get(name).ok_or("no file")?;
        let octets = hex(alloc, octets.as_slice())?;
        write!(&mut text, "{word} {octets}\n")?;
    }
    let log = files.files.get("l").ok_or("no log")?;
    text.push_str("log\n")?;
    text.push_str(&String::from_utf8_lossy(alloc, log.as_slice())?)?;
    Ok(text)
}

#[test]
fn sifts(rt: HostRuntime) -> Result<(), Fail> {
    let alloc = rt.alloc();
    for row in ROWS.split("\n\n") {
        let (given, wanted) = row.split_once("\ngives\n").unwrap_or((row, ""));
        let found = sifted(alloc, given)?.replace(alloc, " \n", "\n")?;
        same(&rt, given, &found, &format!(in alloc; "{wanted}\n")?);
    }
    Ok(())
}
