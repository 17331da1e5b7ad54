//! What standard error says after work that was done: what a run cannot know, and why a capture shows nothing.

use crate::compared::explain_comparison;
use crate::say::{print_lines, say_lines, say_of};
use crate::why::policy_again;
use cf_ending::{Denial, Done, Stop};
use cf_explain::policy_warnings;
use cf_machine::RealFiles;
use cf_policy::Asset;
use cf_remarks::{Reading, learned_text, run_text, survey_capture, survey_text};
use cf_run::Summary;
use cf_words::Command;
use std::rt::Files as FileSystem;
use std::{fs, io};

/// Says what there is to say of work that was done.
pub(crate) fn remark<R: FileSystem + Eprint + AllocGlobal>(
    rt: &R,
    command: &Command<'_>,
    done: &Done,
    files: &mut RealFiles<'_, R>,
) -> io::Result<()> {
    match (command, done) {
        (Command::Check { policy }, _) => warn(rt, policy, files),
        (Command::Compare { policy, other }, _) => {
            explain_comparison(rt, [*policy, *other], None, files)
        }
        (
            Command::Learn {
                policy,
                capture,
                out,
            },
            Done::Checked { rules, .. },
        ) => {
            remark_on_learned(rt, policy, capture, *rules, files)?;
            warn_of_learned(rt, out)
        }
        (Command::Draft { out, .. }, Done::Drafted { widened, .. }) => {
            remark_on_drafted(rt, out, *widened)?;
            warn_of_learned(rt, out)
        }
        (Command::Judge { policy, capture }, Done::Unobjected { flows, .. }) => {
            remark_on_judged(rt, policy, capture, *flows, files)
        }
        (
            Command::Review {
                policy,
                captures,
                ..
            },
            Done::Reviewed(counts),
        ) => { remark_on_reviewed(rt, policy, captures, counts.flows, files) }
        (Command::Packets { capture }, Done::Listed { dropped }) => {
            remark_on_listed(rt, capture, *dropped, files)
        }
        (Command::Run { names, .. }, Done::Ran(summary)) => {
            remark_on_run(rt, names.capture, summary, files)
        }
        _ => Ok(()),
    }
}

/// Says what there is to say where a judge or a review objects to something.
pub(crate) fn remark_on_objected<R: FileSystem + Eprint + AllocGlobal>(
    rt: &R,
    command: &Command<'_>,
    stop: &Stop,
    files: &mut RealFiles<'_, R>,
) -> io::Result<()> {
    match (command, stop) {
        (Command::Judge { policy, capture }, _) => {
            remark_on_capture(rt, policy, capture, Reading::FromSyn, files)
        }
        (
            Command::Review {
                policy,
                captures,
                ..
            },
            Stop::Denied(Denial::Remarks(counts)),
        ) => { remark_on_reviewed(rt, policy, captures, counts.flows, files) }
        _ => Ok(()),
    }
}

/// Warns of rules that decide nothing.
fn warn<R: FileSystem + Eprint + AllocGlobal>(
    rt: &R,
    name: &str,
    files: &RealFiles<'_, R>,
) -> io::Result<()> {
    match policy_again(rt, name, files) {
        Some(policy) => {
            let text = files.text_of(name).unwrap_or(&[]);
            say_lines(rt, policy_warnings(rt.alloc(), name, text, &policy))
        }
        None => Ok(()),
    }
}

/// What a learned policy is not.
fn warn_of_learned<R: Eprint>(rt: &R, out: &str) -> io::Result<()> {
    let also = " also allows what an intruder did while the capture was taken: read it before use";
    say_of(rt, "", out, also)
}

/// That a draft has assets that were widened, if it has.
fn remark_on_drafted<R: Eprint>(rt: &R, out: &str, widened: u64) -> io::Result<()> {
    if widened == 0 {
        return Ok(());
    }
    let more =
        " allows more than was recorded, of each asset that would have more than 32 rules: its comments say what was widened";
    say_of(rt, "", out, more)
}

/// Says what a run cannot know of its capture, by what it counted. CAPTURE is read again only where records were dropped, for why they
/// were.
fn remark_on_run<R: FileSystem + Eprint + AllocGlobal>(
    rt: &R,
    capture: &str,
    summary: &Summary,
    files: &mut RealFiles<'_, R>,
) -> io::Result<()> {
    if summary.dropped > 0 {
        remark_on_dropped(rt, capture, files)?;
    }
    say_lines(rt, run_text(rt.alloc(), summary))
}

/// Says why records of a capture were dropped.
fn remark_on_dropped<R: FileSystem + Eprint + AllocGlobal>(
    rt: &R,
    capture: &str,
    files: &mut RealFiles<'_, R>,
) -> io::Result<()> {
    if is_file(rt, capture) {
        remark_on_unread(rt, &[], capture, Reading::FromSyn, files)
    } else {
        say_unread(rt, capture)
    }
}

/// Says why records were dropped, where a listing has such ones.
fn remark_on_listed<R: FileSystem + Eprint + AllocGlobal>(
    rt: &R,
    capture: &str,
    dropped: u64,
    files: &mut RealFiles<'_, R>,
) -> io::Result<()> {
    if dropped == 0 {
        return Ok(());
    }
    remark_on_unread(rt, &[], capture, Reading::FromSyn, files)
}

/// Says what of a capture is not read, of connections to these assets.
fn remark_on_unread<R: FileSystem + Eprint + AllocGlobal>(
    rt: &R,
    assets: &[Asset],
    capture: &str,
    reading: Reading,
    files: &mut RealFiles<'_, R>,
) -> io::Result<()> {
    if !is_file(rt, capture) {
        return Ok(());
    }
    match survey_capture(rt.alloc(), assets, capture, reading, files) {
        Some(found) => say_lines(rt, survey_text(rt.alloc(), &found, reading)),
        None => Ok(()),
    }
}

/// The same, of connections to the assets of a policy's file.
fn remark_on_capture<R: FileSystem + Eprint + AllocGlobal>(
    rt: &R,
    policy: &str,
    capture: &str,
    reading: Reading,
    files: &mut RealFiles<'_, R>,
) -> io::Result<()> {
    match policy_again(rt, policy, files) {
        Some(read) => remark_on_unread(rt, read.assets.as_slice(), capture, reading, files),
        None => Ok(()),
    }
}

/// Says first, where nothing was judged, that a capture has no connection to an asset from its beginning on; then what of it is not
/// read.
fn remark_on_judged<R: FileSystem + Eprint + AllocGlobal>(
    rt: &R,
    policy: &str,
    capture: &str,
    flows: u64,
    files: &mut RealFiles<'_, R>,
) -> io::Result<()> {
    if flows == 0 {
        print_lines(
            rt,
            "note: no connection to an asset of POLICY begins in CAPTURE: no SYN goes to an asset's address and port",
        )?;
    }
    remark_on_capture(rt, policy, capture, Reading::FromSyn, files)
}

/// Says first, where nothing was reviewed, that the captures have no connection to an asset at all; then what of them is not read: of several
/// of each by itself, behind its name.
fn remark_on_reviewed<R: FileSystem + Eprint + AllocGlobal>(
    rt: &R,
    policy: &str,
    captures: &[String],
    flows: u64,
    files: &mut RealFiles<'_, R>,
) -> io::Result<()> {
    if flows == 0 {
        print_lines(
            rt,
            "note: no connection to an asset of POLICY is in CAPTURE: neither a SYN nor data goes to an asset's address and port",
        )?;
    }
    match policy_again(rt, policy, files) {
        Some(read) => remark_on_each(rt, read.assets.as_slice(), captures, files),
        None => Ok(()),
    }
}

/// Says what of each capture is not read.
fn remark_on_each<R: FileSystem + Eprint + AllocGlobal>(
    rt: &R,
    assets: &[Asset],
    captures: &[String],
    files: &mut RealFiles<'_, R>,
) -> io::Result<()> {
    for capture in captures {
        let name = capture.as_str();
        if let Some(text) = unread_text(rt, assets, name, files) {
            if captures.len() > 1 && !text.is_empty() {
                say_of(rt, "note: of ", name, ", read by itself:")?;
            }
            print_lines(rt, &text)?;
        }
    }
    Ok(())
}

/// What is said of what is not read of a capture of a recording, if it can be read again.
fn unread_text<R: FileSystem + AllocGlobal>(
    rt: &R,
    assets: &[Asset],
    capture: &str,
    files: &mut RealFiles<'_, R>,
) -> Option<String> {
    if !is_file(rt, capture) {
        return None;
    }
    let found = survey_capture(rt.alloc(), assets, capture, Reading::Amid, files)?;
    survey_text(rt.alloc(), &found, Reading::Amid).ok()
}

/// Says first, where nothing was learned, that a capture has no connection to an asset from its beginning on; then what of it is not
/// read, and what each client sent.
fn remark_on_learned<R: FileSystem + Eprint + AllocGlobal>(
    rt: &R,
    policy: &str,
    capture: &str,
    rules: u64,
    files: &mut RealFiles<'_, R>,
) -> io::Result<()> {
    if rules == 0 {
        print_lines(
            rt,
            "note: nothing is learned: no command that can be read goes to an asset of POLICY in a connection that begins in CAPTURE",
        )?;
    }
    remark_on_capture(rt, policy, capture, Reading::FromSyn, files)?;
    if !is_file(rt, capture) {
        return Ok(());
    }
    match policy_again(rt, policy, files) {
        Some(read) => say_lines(rt, learned_text(rt.alloc(), &read, capture, files)),
        None => Ok(()),
    }
}

/// Whether a name is that of a file that can be read again.
pub(crate) fn is_file<R: FileSystem>(rt: &R, name: &str) -> bool {
    match fs::metadata(rt, name) {
        Ok(known) => known.is_file(),
        Err(_) => false,
    }
}

fn say_unread<R: Eprint>(rt: &R, name: &str) -> io::Result<()> {
    let so = ": it cannot be read again, so it is not said why records were dropped";
    say_of(rt, "note: ", name, so)
}
