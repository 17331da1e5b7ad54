//! The words of a relay.
ghost use Rattle.std.specs.Prelude.{◌≡◌, IfSome, map, option_map, string_bytes};
ghost use Rattle.cf_words.specs.Forms.{relay_of};
ghost use Rattle.cf_words.specs.Words.{HasFitWords, command_value};

use crate::command::Command;
use crate::names::{are_names, printed_number_in};

/// The words after `relay`.
pub(crate) fn read_relay(words: &[String]) -> Option<Command<'_>>
    ensures command { option_map command_value result ≡ relay_of (map string_bytes words.now) }
    ensures fit { IfSome result HasFitWords }
{
    let [policy, asset, port, idles, log] = words else {
        return None;
    };
    let (policy, log) = (policy.as_str(), log.as_str());
    if !are_names(&[policy, log]) {
        return None;
    }
    let port = printed_number_in(1, 65_535, port.as_str())?;
    let idles = printed_number_in(1, 1_000_000, idles.as_str())?;
    Some(Command::Relay {
        policy,
        asset: asset.as_str(),
        port,
        idles,
        log,
    })
}
