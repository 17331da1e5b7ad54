//! The words of a world.
ghost use Rattle.std.specs.Prelude.{◌≡◌, IfSome, map, option_map, string_bytes};
ghost use Rattle.cf_words.specs.Forms.{world_of};
ghost use Rattle.cf_words.specs.Words.{HasFitWords, command_value};

use crate::command::Command;
use crate::names::{are_names, printed_number_in};
use cf_run::RunNames;

/// The words after `world`.
#[tactic(auto, using(crate::proofs::FileNames::world_fit))]
pub(crate) fn read_world(words: &[String]) -> Option<Command<'_>>
    ensures command { option_map command_value result ≡ world_of (map string_bytes words.now) }
    ensures fit { IfSome result HasFitWords }
{
    let [seed, sessions, policy, capture, out, log] = words else {
        return None;
    };
    let (policy, capture) = (policy.as_str(), capture.as_str());
    let (out, log) = (out.as_str(), log.as_str());
    if !are_names(&[policy, capture, out, log]) {
        return None;
    }
    let seed = printed_number_in(0, u64::MAX, seed.as_str())?;
    let sessions = printed_number_in(1, 200, sessions.as_str())?;
    Some(Command::World {
        seed,
        sessions,
        policy,
        names: RunNames { capture, out, log },
    })
}
