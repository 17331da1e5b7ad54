//! The words of a stored stream that is filtered.
ghost use Rattle.std.specs.Prelude.{◌≡◌, IfSome, map, option_map, string_bytes};
ghost use Rattle.cf_sift.specs.Names.{sift_names_value};
ghost use Rattle.cf_words.specs.Forms.{sift_command, sift_names_of, sift_of};
ghost use Rattle.cf_words.specs.Words.{HasFitWords, command_value};

use crate::command::Command;
use crate::names::are_names;
use cf_policylang::address;
use cf_sift::SiftNames;

/// The words after `sift`.
pub(crate) fn read_sift(words: &[String]) -> Option<Command<'_>>
    ensures command { option_map command_value result ≡ sift_of (map string_bytes words.now) }
    ensures fit { IfSome result HasFitWords }
{
    let [policy, asset, client, files @ ..] = words else {
        return None;
    };
    let names = read_names(files)?;
    read_with_names(policy.as_str(), asset.as_str(), client.as_str(), names)
}

/// `STREAM OUT REPLIES LOG`.
fn read_names(words: &[String]) -> Option<SiftNames<'_>>
    ensures { option_map sift_names_value result ≡ sift_names_of (map string_bytes words.now) }
{
    let [stream, out, replies, log] = words else {
        return None;
    };
    Some(SiftNames {
        stream: stream.as_str(),
        out: out.as_str(),
        replies: replies.as_str(),
        log: log.as_str(),
    })
}

/// The command, where the client is an address and the names of the files differ.
#[tactic(auto, using(crate::proofs::FileNames::apart_from_names))]
fn read_with_names<'a>(
    policy: &'a str,
    asset: &'a str,
    client: &'a str,
    names: SiftNames<'a>,
) -> Option<Command<'a>>
    ensures command { option_map command_value result ≡ sift_command policy.now asset.now client.now (sift_names_value names.entry) }
    ensures fit { IfSome result HasFitWords }
{
    if !are_names(&[policy, names.stream, names.out, names.replies, names.log]) {
        return None;
    }
    let client = address(client)?;
    Some(Command::Sift {
        policy,
        asset,
        client,
        names,
    })
}
