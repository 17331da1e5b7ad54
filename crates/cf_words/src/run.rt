//! The words of a run.
ghost use Rattle.std.specs.Prelude.{◌≡◌, IfSome, map, option_map, string_bytes};
ghost use Rattle.cf_words.specs.Forms.{run_command, run_of};
ghost use Rattle.cf_words.specs.Words.{HasFitWords, command_value};

use crate::command::Command;
use crate::names::are_names;
use cf_run::RunNames;

/// The words after `run`.
pub(crate) fn read_run(words: &[String]) -> Option<Command<'_>>
    ensures command { option_map command_value result ≡ run_of (map string_bytes words.now) }
    ensures fit { IfSome result HasFitWords }
{
    let [policy, capture, out, log] = words else {
        return None;
    };
    read_with_names(
        policy.as_str(),
        capture.as_str(),
        out.as_str(),
        log.as_str(),
    )
}

/// The command, where the names of the files differ.
#[tactic(auto, using(crate::proofs::FileNames::run_apart))]
fn read_with_names<'a>(
    policy: &'a str,
    capture: &'a str,
    out: &'a str,
    log: &'a str,
) -> Option<Command<'a>>
    ensures command { option_map command_value result ≡ run_command policy.now capture.now out.now log.now }
    ensures fit { IfSome result HasFitWords }
{
    if !are_names(&[policy, capture, out, log]) {
        return None;
    }
    Some(Command::Run {
        policy,
        names: RunNames { capture, out, log },
    })
}
