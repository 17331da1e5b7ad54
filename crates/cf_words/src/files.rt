//! The words of the commands that name files alone.
ghost use Rattle.std.specs.Prelude.{◌≡◌, IfSome, map, option_map, string_bytes};
ghost use Rattle.cf_words.specs.Forms.{check_of, compare_of, judge_of, learn_of, migrate_of, packets_of};
ghost use Rattle.cf_words.specs.Words.{HasFitWords, command_value};

use crate::command::Command;
use crate::names::are_names;

/// The word after `check`.
pub(crate) fn read_check(words: &[String]) -> Option<Command<'_>>
    ensures command { option_map command_value result ≡ check_of (map string_bytes words.now) }
    ensures fit { IfSome result HasFitWords }
{
    let [policy] = words else {
        return None;
    };
    let policy = policy.as_str();
    if !are_names(&[policy]) {
        return None;
    }
    Some(Command::Check { policy })
}

/// The words after `compare`.
pub(crate) fn read_compare(words: &[String]) -> Option<Command<'_>>
    ensures command { option_map command_value result ≡ compare_of (map string_bytes words.now) }
    ensures fit { IfSome result HasFitWords }
{
    let [policy, other] = words else {
        return None;
    };
    let (policy, other) = (policy.as_str(), other.as_str());
    if !are_names(&[policy, other]) {
        return None;
    }
    Some(Command::Compare { policy, other })
}

/// The words after `judge`.
pub(crate) fn read_judge(words: &[String]) -> Option<Command<'_>>
    ensures command { option_map command_value result ≡ judge_of (map string_bytes words.now) }
    ensures fit { IfSome result HasFitWords }
{
    let [policy, capture] = words else {
        return None;
    };
    let (policy, capture) = (policy.as_str(), capture.as_str());
    if !are_names(&[policy, capture]) {
        return None;
    }
    Some(Command::Judge { policy, capture })
}

/// The words after `learn`.
pub(crate) fn read_learn(words: &[String]) -> Option<Command<'_>>
    ensures command { option_map command_value result ≡ learn_of (map string_bytes words.now) }
    ensures fit { IfSome result HasFitWords }
{
    let [policy, capture, out] = words else {
        return None;
    };
    let (policy, capture, out) = (policy.as_str(), capture.as_str(), out.as_str());
    if !are_names(&[policy, capture, out]) {
        return None;
    }
    Some(Command::Learn {
        policy,
        capture,
        out,
    })
}

/// The words after `migrate`.
pub(crate) fn read_migrate(words: &[String]) -> Option<Command<'_>>
    ensures command { option_map command_value result ≡ migrate_of (map string_bytes words.now) }
    ensures fit { IfSome result HasFitWords }
{
    let [policy, out] = words else {
        return None;
    };
    let (policy, out) = (policy.as_str(), out.as_str());
    if !are_names(&[policy, out]) {
        return None;
    }
    Some(Command::Migrate { policy, out })
}

/// The word after `packets`.
pub(crate) fn read_packets(words: &[String]) -> Option<Command<'_>>
    ensures command { option_map command_value result ≡ packets_of (map string_bytes words.now) }
    ensures fit { IfSome result HasFitWords }
{
    let [capture] = words else {
        return None;
    };
    let capture = capture.as_str();
    if !are_names(&[capture]) {
        return None;
    }
    Some(Command::Packets { capture })
}
