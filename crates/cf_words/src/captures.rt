//! The words of the commands that read several captures.
ghost use Rattle.std.specs.Prelude.{◌≡◌, IfSome, map, option_map, string_bytes};
ghost use Rattle.cf_words.specs.Forms.{are_few, draft_of, review_of};
ghost use Rattle.cf_words.specs.Words.{HasFitWords, command_value};

use crate::command::Command;
use crate::names::are_all_names;

/// The most captures of a command. This project's own.
pub const MOST_CAPTURES: usize = 64;

/// The words after `draft`.
pub(crate) fn read_draft(words: &[String]) -> Option<Command<'_>>
    ensures command { option_map command_value result ≡ draft_of (map string_bytes words.now) }
    ensures fit { IfSome result HasFitWords }
{
    let [policy, out, captures @ ..] = words else {
        return None;
    };
    if !are_few(captures) {
        return None;
    }
    if !are_all_names(words) {
        return None;
    }
    Some(Command::Draft {
        policy: policy.as_str(),
        out: out.as_str(),
        captures,
    })
}

/// The words after `review`.
pub(crate) fn read_review(words: &[String]) -> Option<Command<'_>>
    ensures command { option_map command_value result ≡ review_of (map string_bytes words.now) }
    ensures fit { IfSome result HasFitWords }
{
    let Some((policy, files)) = words.split_first() else {
        return None;
    };
    let Some((log, captures)) = files.split_last() else {
        return None;
    };
    if !are_few(captures) {
        return None;
    }
    if !are_all_names(words) {
        return None;
    }
    Some(Command::Review {
        policy: policy.as_str(),
        captures,
        log: log.as_str(),
    })
}

/// Whether there are one to `MOST_CAPTURES` captures.
fn are_few(captures: &[String]) -> bool
    ensures { result ≡ are_few (map string_bytes captures.now) }
{
    !captures.is_empty() && captures.len() <= MOST_CAPTURES
}
