//! One failing call after the other.

use crate::compare::{difference, given, is_capture};
use crate::fault::{Fault, Wanted};
use crate::left::{Left, Script, play};
use crate::reader::Reader;
use crate::row::Row;
use cf_outside::Fail;
use cf_view::Side;
use std::alloc::Global;

/// The most calls that a sweep has fail.
const CALLS: u64 = 10_000;

/// The octets of the header of a capture.
const HEADER: usize = 24;

/// Of which object a call fails.
#[derive(Clone, Copy)]
pub enum Fake {
    Files,
    Sink,
    Pair,
}

impl Fake {
    /// The script in which its call of a number fails and leaves so many bytes.
    fn script(self, call: u64, left: usize) -> Script {
        let fail = Some(Fail { call, left });
        let (file, put, pair) = match self {
            Fake::Files => (fail, None, None),
            Fake::Sink => (None, fail, None),
            Fake::Pair => (None, None, fail),
        };
        Script { file, put, pair }
    }
}

/// Whose calls fail in a row, if it is a sweep, and how many bytes they leave.
pub fn sweep_of(reader: &mut Reader<'_>, row: &Row) -> Option<(Fake, usize)> {
    let spelled = row.field("sweep:")?;
    let (fake, left) = spelled.split_once(' ').unwrap_or((spelled, "0"));
    let fake = match fake {
        "files" => Fake::Files,
        "sink" => Fake::Sink,
        "pair" => Fake::Pair,
        _ => {
            reader.wants(Wanted::Object);
            Fake::Pair
        }
    };
    Some((fake, reader.size(left)))
}

/// A sweep: what it leaves where no call fails, and how many runs stopped where the row says it.
#[derive(Clone, Copy)]
struct Swept<'a> {
    row: &'a Row,
    words: &'a str,
    whole: &'a Left,
    stops: u8,
}

/// Has one call after the other fail, from the first on, until none does: then the row stands as it is. Each run before
/// ends as its failed call says, and leaves a beginning of what the row leaves. Where the row names a length of OUT, one
/// run with status 4 stops there.
pub fn sweep(
    reader: &mut Reader<'_>,
    row: &Row,
    words: &str,
    fake: Fake,
    bytes: usize,
) -> Result<Option<String>, Fault> {
    let whole = play(reader, row, words, &fake.script(0, 0));
    let mut swept = Swept {
        row,
        words,
        whole: &whole,
        stops: 0,
    };
    for call in 1..CALLS {
        if let Some(found) = swept.plays(reader, call, &fake.script(call, bytes)) {
            return found;
        }
    }
    Ok(Some(reader.text("every run failed")))
}

/// What is said of a call behind which a run did not end as it says.
fn failed(alloc: Global, call: u64, status: u8) -> Result<Option<String>, Fault> {
    Ok(Some(format!(in alloc; "call {call}: status {status}")?))
}

impl Swept<'_> {
    /// Has a call fail, and gives what is found, where the sweep is over.
    fn plays(
        &mut self,
        reader: &mut Reader<'_>,
        call: u64,
        script: &Script,
    ) -> Option<Result<Option<String>, Fault>> {
        let left = play(reader, self.row, self.words, script);
        if status_of(&left) == 0 {
            Some(self.ends(reader, &left))
        } else if self.takes(reader, &left) {
            None
        } else {
            Some(failed(reader.alloc, call, left.status))
        }
    }

    /// Whether a run in which a call failed ended as it says; it is counted where it stopped where the row says it.
    fn takes(&mut self, reader: &mut Reader<'_>, left: &Left) -> bool {
        if let (Some(once), Some(out)) = (self.row.field("once:"), left.file("o")) {
            if left.status == 4 && reader.size(once) == out.len() {
                self.stops = self.stops.saturating_add(1);
            }
        }
        is_beginning(reader, left, self.whole)
    }

    /// What is wrong of the run in which no call failed, or of how many stopped.
    fn ends(&self, reader: &mut Reader<'_>, left: &Left) -> Result<Option<String>, Fault> {
        if self.row.has("once:") && self.stops != 1 {
            let stops = self.stops;
            let alloc = reader.alloc;
            return Ok(Some(format!(in alloc; "{stops} runs stop there")?));
        }
        difference(reader, self.row, self.words, left)
    }
}

/// The status that the call that failed gives.
fn status_of(left: &Left) -> u8 {
    if left.files.read_faults > 0 {
        3
    } else if left.files.write_faults > 0 || left.out.faults > 0 {
        4
    } else if left.pair.faults > 0 {
        8
    } else {
        0
    }
}

/// Whether a run ended as its failed call says, and left a beginning of what another one left.
fn is_beginning(reader: &mut Reader<'_>, left: &Left, whole: &Left) -> bool {
    left.status == status_of(left)
        && begins_printing(left, whole)
        && begins_files(left, whole)
        && begins_giving(reader, left, whole, Side::Client)
        && begins_giving(reader, left, whole, Side::Controller)
        && is_made_in_order(left, whole)
        && is_whole_where_read(left)
}

/// Whether what is printed is what the failed call says.
fn begins_printing(left: &Left, whole: &Left) -> bool {
    let printed = left.out.bytes.as_slice();
    if left.out.faults > 0 {
        return whole.out.bytes.starts_with(printed);
    }
    match left.status {
        3 => printed == b"read fault\n".as_slice(),
        8 => printed == b"link fault\n".as_slice(),
        _ => printed.is_empty(),
    }
}

/// Whether the outputs are beginnings. Where one is not there, nothing but a header stands in those before it.
fn begins_files(left: &Left, whole: &Left) -> bool {
    let mut begins = true;
    let mut all_there = true;
    for name in ["l", "r", "o"] {
        let Some(wanted) = whole.file(name) else {
            continue;
        };
        match left.file(name) {
            Some(bytes) => {
                begins &= wanted.starts_with(bytes) && (all_there || bytes.len() <= HEADER);
            }
            None => all_there = false,
        }
    }
    begins
}

/// Whether a side was given a beginning.
fn begins_giving(reader: &mut Reader<'_>, left: &Left, whole: &Left, side: Side) -> bool {
    let wanted = given(reader, whole, side);
    wanted.starts_with(&given(reader, left, side))
}

/// Whether the policy and the capture of a world are beginnings, each of which is whole where the file after it is there.
fn is_made_in_order(left: &Left, whole: &Left) -> bool {
    let mut right = true;
    let mut later = left.file("o").is_some();
    for name in ["x", "w"] {
        let Some(wanted) = whole.file(name) else {
            continue;
        };
        match left.file(name) {
            Some(bytes) => {
                right &= wanted.starts_with(bytes) && (!later || bytes.len() == wanted.len());
                later = true;
            }
            None => right &= !later,
        }
    }
    right
}

/// Whether what a run over a capture, or a world, left after a failed read are whole records and whole lines.
fn is_whole_where_read(left: &Left) -> bool {
    if left.status != 3 || left.file("r").is_some() {
        return true;
    }
    match (left.file("o"), left.file("l")) {
        (Some(out), Some(log)) => (log.is_empty() || log.ends_with(b"\n")) && is_capture(out),
        _ => true,
    }
}
