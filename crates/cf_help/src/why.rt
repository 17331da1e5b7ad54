//! What standard error says beside what standard output has. A line that cannot be said changes nothing.
ghost use Rattle.std.specs.Prelude.{IfSome};
ghost use Rattle.cf_policy.specs.Within.{IsWithin};

use crate::compared::explain_comparison;
use crate::remark::{remark, remark_on_objected};
use crate::say::{print_lines, say, say_of};
use cf_ending::{Denial, Done, Stop};
use cf_explain::{asset_message, capture_message, outputs_message, policy_message, words_message};
use cf_machine::{LinkFault, Part, RealFiles, Withheld};
use cf_outside::{Files, ReadAnswer};
use cf_policy::Policy;
use cf_policylang::{LONGEST_TEXT, PolicyFault, PolicyRefusal, read_policy};
use cf_view::LinkSet;
use cf_watch::CAPTURE_LIMIT;
use cf_words::status::{CAPTURE_CUT, CAPTURE_REFUSED, WRITE_FAULT};
use cf_words::{Command, read_words};
use std::alloc::AllocError;
use std::io;
use std::rt::Files as FileSystem;

/// How many octets are kept of what is read of a policy: one more than it may have, so that it is seen where it has more.
const MOST_KEPT: usize = LONGEST_TEXT + 1;

/// The files that a command reads, but for the captures of a recording; an empty name stands for none.
fn inputs_of<'a>(command: &Command<'a>) -> [&'a str; 2] {
    match command {
        Command::Check { policy }
        | Command::Migrate { policy, .. }
        | Command::Relay { policy, .. } => [*policy, ""],
        Command::Compare { policy, other } => [*policy, *other],
        Command::Judge { policy, capture }
        | Command::Learn {
            policy,
            capture,
            ..
        } => [*policy, *capture],
        Command::Draft { policy, .. } | Command::Review { policy, .. } => [*policy, ""],
        Command::Packets { capture } => [*capture, ""],
        Command::Run { policy, names } => [*policy, names.capture],
        Command::Sift { policy, names, .. } => [*policy, names.stream],
        Command::World { .. } => ["", ""],
    }
}

/// The captures that a command reads as one recording.
fn captures_of<'a>(command: &Command<'a>) -> &'a [String] {
    match command {
        Command::Draft { captures, .. } | Command::Review { captures, .. } => *captures,
        _ => &[],
    }
}

/// The files that a command makes; an empty name stands for none.
fn outputs_of<'a>(command: &Command<'a>) -> [&'a str; 4] {
    match command {
        Command::Check { .. }
        | Command::Compare { .. }
        | Command::Judge { .. }
        | Command::Packets { .. } => [""; 4],
        Command::Draft { out, .. } | Command::Learn { out, .. } | Command::Migrate { out, .. } => [
            *out, "", "", "",
        ],
        Command::Relay { log, .. } | Command::Review { log, .. } => [*log, "", "", ""],
        Command::Run { names, .. } => [names.out, names.log, "", ""],
        Command::Sift { names, .. } => [names.out, names.replies, names.log, ""],
        Command::World { policy, names, .. } => [*policy, names.capture, names.out, names.log],
    }
}

/// Notes which files the names of a command stand for, and that what is read of its policies is kept.
pub fn expect_files<R: FileSystem>(
    command: &Command<'_>,
    files: &mut RealFiles<'_, R>,
) -> io::Result<()> {
    for name in inputs_of(command) {
        if !name.is_empty() {
            files.expect(name)?;
        }
    }
    for name in captures_of(command) {
        files.expect(name.as_str())?;
    }
    for name in outputs_of(command) {
        if !name.is_empty() {
            files.expect_output(name)?;
        }
    }
    for name in policies_of(command) {
        if !name.is_empty() {
            expect_policy(name, files)?;
        }
    }
    Ok(())
}

/// Notes that what is read of a policy is kept.
pub(crate) fn expect_policy<R: FileSystem>(
    name: &str,
    files: &mut RealFiles<'_, R>,
) -> io::Result<()> {
    files.keep_text(name, MOST_KEPT)
}

/// Says why the work ended so, of a policy that was checked what is to be warned of, and what a run cannot know. `told` is how it ended,
/// nothing where the words have no form; the status is that of it, or that of a write fault behind it.
pub fn explain<R: FileSystem + Eprint + AllocGlobal>(
    rt: &R,
    words: &[String],
    told: Option<&Result<Done, Stop>>,
    status: u8,
    files: &mut RealFiles<'_, R>,
    link: Option<&LinkFault>,
) {
    let _ = match (read_words(words), told) {
        (Some(command), Some(_)) if status == WRITE_FAULT => {
            explain_unwritten(rt, &command, files)
        }
        (Some(command), Some(Ok(done))) => remark(rt, &command, done, files),
        (Some(command), Some(Err(stop))) => explain_stop(rt, &command, stop, files, link),
        _ => explain_words(rt, words),
    };
}

/// Which word is wrong, and how the words have to be.
pub(crate) fn explain_words<R: Eprint + AllocGlobal>(rt: &R, words: &[String]) -> io::Result<()> {
    say(rt, words_message(rt.alloc(), words))
}

/// Why the work stopped.
fn explain_stop<R: FileSystem + Eprint + AllocGlobal>(
    rt: &R,
    command: &Command<'_>,
    stop: &Stop,
    files: &mut RealFiles<'_, R>,
    link: Option<&LinkFault>,
) -> io::Result<()> {
    match stop {
        Stop::ReadFault => explain_fault(rt, files),
        Stop::WriteFault => explain_unwritten(rt, command, files),
        Stop::PolicyRefused(refusal) => explain_refused(rt, command, refusal, files),
        Stop::CaptureRefused(_) => explain_bad_capture(rt, command, CAPTURE_REFUSED, files),
        Stop::CaptureCut(_) | Stop::RunCut(..) => {
            explain_bad_capture(rt, command, CAPTURE_CUT, files)
        }
        Stop::LinkFault => explain_link(rt, link),
        Stop::UnknownAsset => explain_asset(rt, command, files),
        Stop::NoMemory => explain_lack(rt, command, files),
        Stop::Denied(Denial::Objects(_) | Denial::Remarks(_)) => {
            remark_on_objected(rt, command, stop, files)
        }
        Stop::Denied(_) | Stop::TooManyCells(_) => {
            explain_comparison(rt, policies_of(command), Some(stop), files)
        }
        Stop::IdleEnd | Stop::Cut(_) | Stop::TooManyRules(_) => explain_words_of(rt, stop),
    }
}

/// What a stop says by itself.
fn explain_words_of<R: Eprint>(rt: &R, stop: &Stop) -> io::Result<()> {
    let words = match stop {
        Stop::IdleEnd =>
            "nothing came for so long that the relay ended; the log has what came before",
        Stop::Cut(_) => "the stream is cut; the outputs have what came before the cut",
        Stop::TooManyRules(_) =>
            "the asset would have more than 1,024 rules; a capture of fewer clients and acts has fewer",
        _ => return Ok(()),
    };
    print_lines(rt, words)
}

/// That memory ran out, and what stands in the files that the command makes.
fn explain_lack<R: FileSystem + Eprint + AllocGlobal>(
    rt: &R,
    command: &Command<'_>,
    files: &RealFiles<'_, R>,
) -> io::Result<()> {
    print_lines(rt, "memory ran out")?;
    explain_outputs(rt, command, files)
}

/// Which file could not be written, and what stands in those that the command makes.
fn explain_unwritten<R: FileSystem + Eprint + AllocGlobal>(
    rt: &R,
    command: &Command<'_>,
    files: &RealFiles<'_, R>,
) -> io::Result<()> {
    explain_fault(rt, files)?;
    explain_outputs(rt, command, files)
}

/// The policy that is refused, and why. The second of two was read only where the first means one.
fn explain_refused<R: FileSystem + Eprint + AllocGlobal>(
    rt: &R,
    command: &Command<'_>,
    refusal: &PolicyRefusal,
    files: &RealFiles<'_, R>,
) -> io::Result<()> {
    let [policy, other] = policies_of(command);
    let name = match files.text_of(other) {
        Some(_) => other,
        None => policy,
    };
    say_refused(rt, name, files.text_of(name).unwrap_or(&[]), refusal)
}

/// Why a capture is refused, or where it is cut.
fn explain_bad_capture<R: FileSystem + Eprint + AllocGlobal>(
    rt: &R,
    command: &Command<'_>,
    status: u8,
    files: &mut RealFiles<'_, R>,
) -> io::Result<()> {
    match command {
        Command::Run { names, .. } | Command::World { names, .. } => {
            explain_capture(rt, LinkSet::Plain, names.capture, true, files)
        }
        Command::Judge { capture, .. } | Command::Learn { capture, .. }
            if status == CAPTURE_REFUSED => explain_watched(rt, capture, files),
        Command::Draft { captures, .. } | Command::Review { captures, .. } => {
            explain_captures(rt, captures, files)
        }
        Command::Judge { capture, .. }
        | Command::Learn { capture, .. }
        | Command::Packets { capture } => {
            explain_capture(rt, LinkSet::Plain, capture, false, files)
        }
        _ => Ok(()),
    }
}

/// Why an output was withheld, or the file that failed and what the system said.
pub(crate) fn explain_fault<R: FileSystem + Eprint>(
    rt: &R,
    files: &RealFiles<'_, R>,
) -> io::Result<()> {
    if let Some(withheld) = files.withheld() {
        return explain_withheld(rt, withheld);
    }
    match files.fault() {
        Some(fault) => {
            let name = fault.name.as_str();
            let error = &fault.error;
            eprintln!(rt; "cmdwall: {name}: {error}")
        }
        None => print_lines(rt, "standard output could not be written"),
    }
}

fn explain_withheld<R: Eprint>(rt: &R, withheld: &Withheld) -> io::Result<()> {
    match withheld {
        Withheld::Twins(twins) => {
            let name = twins.name.as_str();
            let other = twins.other.as_str();
            eprintln!(rt; "cmdwall: {name} and {other} are one file; it was left as it is")
        }
        Withheld::Dash => print_lines(rt, "'-' is no output; a file of this name is ./-"),
        Withheld::Printed(name) => say_of(
            rt,
            "",
            name.as_str(),
            " is where standard output goes, which has the result; name a file or a pipe of its own",
        ),
    }
}

/// Which of the two streams failed, and what the system said.
fn explain_link<R: Eprint>(rt: &R, link: Option<&LinkFault>) -> io::Result<()> {
    let Some(fault) = link else {
        return Ok(());
    };
    let part = match fault.part {
        Part::Port => "the port and its client",
        Part::Client => "the client",
        Part::Controller => "the controller",
        Part::Clock => "the clock, or the wait for both sides",
    };
    let error = &fault.error;
    eprintln!(rt; "cmdwall: {part}: {error}; the log has what came before")
}

/// What stands in the files that a command makes.
fn explain_outputs<R: FileSystem + Eprint + AllocGlobal>(
    rt: &R,
    command: &Command<'_>,
    files: &RealFiles<'_, R>,
) -> io::Result<()> {
    let begun = outputs_that(rt, command, true, files)?;
    explain_rest(rt, command, begun.as_slice(), files)
}

fn explain_rest<R: FileSystem + Eprint + AllocGlobal>(
    rt: &R,
    command: &Command<'_>,
    begun: &[&str],
    files: &RealFiles<'_, R>,
) -> io::Result<()> {
    let left = outputs_that(rt, command, false, files)?;
    say(rt, outputs_message(rt.alloc(), begun, left.as_slice()))
}

/// The files of a command that were made anew, or those that were not.
fn outputs_that<'a, R: FileSystem + AllocGlobal>(
    rt: &R,
    command: &Command<'a>,
    are_begun: bool,
    files: &RealFiles<'_, R>,
) -> Result<Vec<&'a str>, AllocError> {
    let mut found = Vec::new(rt.alloc());
    for name in outputs_of(command) {
        if !name.is_empty() && files.is_begun(name) == are_begun {
            found.push(name)?;
        }
    }
    Ok(found)
}

/// The policies that a command reads; an empty name stands for none.
pub(crate) fn policies_of<'a>(command: &Command<'a>) -> [&'a str; 2] {
    match command {
        Command::Packets { .. } | Command::World { .. } => ["", ""],
        Command::Compare { policy, other } => [*policy, *other],
        Command::Check { policy }
        | Command::Draft { policy, .. }
        | Command::Judge { policy, .. }
        | Command::Learn { policy, .. }
        | Command::Migrate { policy, .. }
        | Command::Review { policy, .. }
        | Command::Run { policy, .. }
        | Command::Relay { policy, .. }
        | Command::Sift { policy, .. } => [*policy, ""],
    }
}

/// Why the policy that was read of a file is refused, if it is.
pub(crate) fn explain_policy<R: FileSystem + Eprint + AllocGlobal>(
    rt: &R,
    name: &str,
    files: &RealFiles<'_, R>,
) -> io::Result<()> {
    let Some(text) = files.text_of(name) else {
        return Ok(());
    };
    match read_policy(rt.alloc(), text) {
        Err(PolicyFault::Refused(refusal)) => say_refused(rt, name, text, &refusal),
        _ => Ok(()),
    }
}

fn say_refused<R: Eprint + AllocGlobal>(
    rt: &R,
    name: &str,
    text: &[u8],
    refusal: &PolicyRefusal,
) -> io::Result<()> {
    say(rt, policy_message(rt.alloc(), name, text, refusal))
}

/// The policy that was read of a file, read of its text once more; nothing where none was.
pub(crate) fn policy_again<R: FileSystem + AllocGlobal>(
    rt: &R,
    name: &str,
    files: &RealFiles<'_, R>,
) -> Option<Policy>
    ensures { IfSome result (λ p. IsWithin p) }
{
    read_policy(rt.alloc(), files.text_of(name)?).ok()
}

/// The first of the captures of a recording that is refused or cut, and why; where there are several, with its number among them. Of a
/// pipe, which cannot be read a second time, no more is said.
fn explain_captures<R: FileSystem + Eprint + AllocGlobal>(
    rt: &R,
    captures: &[String],
    files: &mut RealFiles<'_, R>,
) -> io::Result<()> {
    for (place, capture) in captures.iter().enumerate() {
        let name = capture.as_str();
        let message = capture_message(rt.alloc(), LinkSet::Recorded, name, false, files)?;
        if let Some(message) = message {
            if captures.len() > 1 {
                let number = place.saturating_add(1);
                eprintln!(rt;
                    "cmdwall: capture {number} of the words, {name}, is at fault; nothing was written"
                )?;
            }
            return say(rt, Ok(message));
        }
    }
    Ok(())
}

/// Which assets a policy has that has none of the name that the command gives.
fn explain_asset<R: FileSystem + Eprint + AllocGlobal>(
    rt: &R,
    command: &Command<'_>,
    files: &RealFiles<'_, R>,
) -> io::Result<()> {
    let (name, asset) = match command {
        Command::Sift { policy, asset, .. } | Command::Relay { policy, asset, .. } => {
            (*policy, *asset)
        }
        _ => return Ok(()),
    };
    match policy_again(rt, name, files) {
        Some(policy) => say(rt, asset_message(rt.alloc(), name, &policy, asset)),
        None => Ok(()),
    }
}

/// Why a capture is refused that is watched: it is too long, or its octets are at fault. A pipe cannot be read a second time.
fn explain_watched<R: FileSystem + Eprint + AllocGlobal>(
    rt: &R,
    name: &str,
    files: &mut RealFiles<'_, R>,
) -> io::Result<()> {
    let mut octet = [0u8; 1];
    match files.read_at(name, CAPTURE_LIMIT, &mut octet) {
        ReadAnswer::Got(_) => say_of(
            rt,
            "",
            name,
            ": it has more than 67,108,864 bytes, and no longer capture is watched",
        ),
        ReadAnswer::End | ReadAnswer::Failed => {
            explain_capture(rt, LinkSet::Plain, name, false, files)
        }
    }
}

/// Why a capture is refused, or where it is cut. `has_moments`: the command gives each record a moment.
fn explain_capture<R: FileSystem + Eprint + AllocGlobal>(
    rt: &R,
    kinds: LinkSet,
    name: &str,
    has_moments: bool,
    files: &mut RealFiles<'_, R>,
) -> io::Result<()> {
    match capture_message(rt.alloc(), kinds, name, has_moments, files)? {
        Some(message) => say(rt, Ok(message)),
        None => Ok(()),
    }
}
