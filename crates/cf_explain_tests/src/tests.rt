//! What policies mean, what they say about acts, how two compare, how one is written anew, what is learned of flows, what the log says, and
//! what is said of typical mistakes: rows of text.
mod changes;
mod compare;
mod learned;
mod lines;
mod policies;
mod refused;
mod rewritten;
mod told;
mod verdicts;
mod warned;

use std::alloc::Global;
use std::process::Abort;
use std::test::Fail;

/// What a row is about.
#[derive(Clone, Copy)]
enum Subject {
    /// What a policy's text means.
    Meaning,
    /// The message about a policy that is refused.
    Message,
    /// The warnings about a policy that is read.
    Warnings,
    /// What is said of words.
    Words,
    /// What is said of a capture.
    Capture,
    /// What stands in outputs.
    Outputs,
    /// What is meant by the name of no asset.
    Asset,
    /// What is said of a place that is a controller.
    Place,
    /// What decides about an act.
    Verdict,
    /// The index of a client.
    Index,
    /// A line of the log.
    Line,
    /// What the comparison of two policies says.
    Comparison,
    /// How many cells the first assets of two policies have.
    Cells,
    /// Why one policy is not included in another.
    Reason,
    /// The rules of two policies whose rates or logs differ.
    Kept,
    /// Where else one policy is not included in another.
    Differences,
    /// What a policy is written as.
    Rewritten,
    /// What is learned of flows.
    Learned,
}

/// What is found of what a row gives.
fn found(alloc: Global, subject: Subject, given: &str) -> Result<String, Fail> {
    match subject {
        Subject::Meaning => policies::meaning(alloc, given),
        Subject::Message => refused::message(alloc, given),
        Subject::Warnings => warned::warnings(alloc, given),
        Subject::Words => told::words(alloc, given),
        Subject::Capture => told::capture(alloc, given),
        Subject::Outputs => told::outputs(alloc, given),
        Subject::Asset => told::asset(alloc, given),
        Subject::Place => told::place(alloc, given),
        Subject::Verdict => verdicts::decided(alloc, given),
        Subject::Index => verdicts::indexed(alloc, given),
        Subject::Line => lines::line(alloc, given),
        Subject::Comparison => compare::compared(alloc, given),
        Subject::Cells => compare::counted(alloc, given),
        Subject::Reason => compare::said(alloc, given, compare::Telling::Reason),
        Subject::Kept => compare::said(alloc, given, compare::Telling::Kept),
        Subject::Differences => compare::said(alloc, given, compare::Telling::Differences),
        Subject::Rewritten => rewritten::rewritten(alloc, given),
        Subject::Learned => learned::learned(alloc, given),
    }
}

/// Plays a row.
fn play(
    rt: &impl Abort,
    alloc: Global,
    subject: Subject,
    given: &str,
    wanted: &str,
) -> Result<(), Fail> {
    let found = found(alloc, subject, given)?;
    assert!(rt; found.as_str() == wanted, "{given}\nfound\n{found}");
    Ok(())
}

/// Plays rows of one line, `GIVEN => WANTED`.
fn play_lines(rt: &impl Abort, alloc: Global, subject: Subject, rows: &str) -> Result<(), Fail> {
    for row in rows.lines() {
        let (given, wanted) = row.split_once(" => ").unwrap_or((row, ""));
        play(rt, alloc, subject, given, wanted)?;
    }
    Ok(())
}

/// Plays rows of several lines, apart by an empty one: a line that gives, and those that are wanted. A line that begins with four
/// spaces goes on with the one before it.
fn play_blocks(rt: &impl Abort, alloc: Global, subject: Subject, rows: &str) -> Result<(), Fail> {
    let rows = rows.replace(alloc, "\n    ", " ")?;
    for row in rows.split("\n\n") {
        let (given, wanted) = row.split_once("\n").unwrap_or((row, ""));
        play(rt, alloc, subject, given, wanted)?;
    }
    Ok(())
}

#[test]
fn policies_mean_what_they_say(rt: HostRuntime) -> Result<(), Fail> {
    let alloc = rt.alloc();
    for rows in [
        policies::DOCUMENTS,
        policies::ASSETS,
        policies::RULES,
        policies::ORDER,
        policies::LIMITS,
        policies::SETS,
        policies::SITES,
    ] {
        play_lines(&rt, alloc, Subject::Meaning, rows)?;
    }
    Ok(())
}

#[test]
fn rules_decide(rt: HostRuntime) -> Result<(), Fail> {
    let alloc = rt.alloc();
    play_lines(&rt, alloc, Subject::Verdict, verdicts::ACTS)?;
    play_lines(&rt, alloc, Subject::Index, verdicts::INDEXES)
}

#[test]
fn policies_are_compared(rt: HostRuntime) -> Result<(), Fail> {
    let alloc = rt.alloc();
    let rows = compare::COMPARISONS.replace(alloc, "\n    ", " ")?;
    play_lines(&rt, alloc, Subject::Comparison, &rows)?;
    let rows = compare::CELLS.replace(alloc, "\n    ", " ")?;
    play_lines(&rt, alloc, Subject::Cells, &rows)?;
    play_blocks(&rt, alloc, Subject::Reason, compare::REASONS)?;
    play_blocks(&rt, alloc, Subject::Differences, compare::DIFFERENCES)?;
    play_blocks(&rt, alloc, Subject::Kept, compare::KEPT)
}

#[test]
fn policies_are_written_anew(rt: HostRuntime) -> Result<(), Fail> {
    let alloc = rt.alloc();
    let rows = rewritten::ROWS.replace(alloc, "\n    ", " ")?;
    play_lines(&rt, alloc, Subject::Rewritten, &rows)
}

#[test]
fn policies_are_learned(rt: HostRuntime) -> Result<(), Fail> {
    let alloc = rt.alloc();
    let rows = learned::ROWS.replace(alloc, "\n    ", " ")?;
    play_lines(&rt, alloc, Subject::Learned, &rows)
}

#[test]
fn the_log_says_what_happened(rt: HostRuntime) -> Result<(), Fail> {
    play_blocks(&rt, rt.alloc(), Subject::Line, lines::ROWS)
}

#[test]
fn messages_say_what_is_wrong(rt: HostRuntime) -> Result<(), Fail> {
    let alloc = rt.alloc();
    play_blocks(&rt, alloc, Subject::Message, refused::ROWS)?;
    play_blocks(&rt, alloc, Subject::Warnings, warned::ROWS)?;
    play_blocks(&rt, alloc, Subject::Words, told::WORDS)?;
    play_blocks(&rt, alloc, Subject::Capture, told::CAPTURES)
}

#[test]
fn messages_say_what_stands_and_what_is_meant(rt: HostRuntime) -> Result<(), Fail> {
    let alloc = rt.alloc();
    play_blocks(&rt, alloc, Subject::Outputs, told::OUTPUTS)?;
    play_blocks(&rt, alloc, Subject::Asset, told::ASSETS)?;
    play_blocks(&rt, alloc, Subject::Place, told::PLACES)
}
