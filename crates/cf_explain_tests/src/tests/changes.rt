//! A change of a policy's text: `WORD: TEXT`, the policy with TEXT in place of the line of that word; several such with ` | ` between
//! them; after `text:` a whole text; or after `octets:` its octets. ` / ` ends a line of TEXT, and `FRONT * N PART * END` has PART N
//! times.
use cf_samples::rows::octets;
use std::alloc::{AllocError, Global};
use std::test::Fail;

/// The octets of a policy that has these lines but as the changes have it.
pub(super) fn policy_octets(alloc: Global, lines: &str, changes: &str) -> Result<Vec<u8>, Fail> {
    if let Some(spelled) = changes.strip_prefix("octets:") {
        return Ok(octets(alloc, spelled)?);
    }
    let mut text = String::new(alloc);
    if let Some(whole) = changes.strip_prefix("text:") {
        push_text(&mut text, whole.trim_start())?;
        return Ok(text.into_bytes());
    }
    for line in lines.lines() {
        let (word, own) = line.split_once(':').unwrap_or(("", line));
        push_text(&mut text, replacement(changes, word, own.trim_start()))?;
    }
    Ok(text.into_bytes())
}

/// The text that the changes have in place of the line of this word.
fn replacement<'a>(changes: &'a str, word: &str, line: &'a str) -> &'a str {
    for change in changes.split(" | ") {
        if let Some((place, text)) = change.split_once(':') {
            if place == word {
                return text.trim_start();
            }
        }
    }
    line
}

/// Adds a text, with its line ends and its repetition written out, and ends the line.
fn push_text(out: &mut String, text: &str) -> Result<(), AllocError> {
    let Some((front, rest)) = text.split_once(" * ") else {
        return push_lines(out, text);
    };
    let (count, rest) = rest.split_once(' ').unwrap_or((rest, ""));
    let (part, end) = rest.split_once(" *").unwrap_or((rest, ""));
    push_lines(out, front)?;
    out.pop();
    let count = count.parse::<u32>().unwrap_or(0);
    out.push_str(&part.repeat(*out.allocator(), count as usize)?)?;
    push_lines(out, end.trim_start())
}

fn push_lines(out: &mut String, text: &str) -> Result<(), AllocError> {
    for line in text.split(" / ") {
        out.push_str(line)?;
        out.push_str("\n")?;
    }
    Ok(())
}
