//! What standard error says of two policies that were compared.

use crate::say::{say, say_lines};
use crate::why::policy_again;
use cf_compare::{CompareFault, Compared};
use cf_ending::{Denial, Stop};
use cf_explain::{PolicyFile, asset_named, differences_text, inclusion_message, kept_text};
use cf_machine::RealFiles;
use cf_policy::Policy;
use std::io;
use std::rt::Files as FileSystem;

/// Says why the first of two policies is not included in the second, where a comparison stopped so; of one that is included, which rates
/// and logs of their rules differ.
pub(crate) fn explain_comparison<R: FileSystem + Eprint + AllocGlobal>(
    rt: &R,
    [name, other]: [&str; 2],
    stop: Option<&Stop>,
    files: &RealFiles<'_, R>,
) -> io::Result<()> {
    match policy_again(rt, name, files) {
        Some(policy) => {
            let ours = PolicyFile {
                name,
                text: files.text_of(name).unwrap_or(&[]),
                policy: &policy,
            };
            explain_beside(rt, &ours, other, stop, files)
        }
        None => Ok(()),
    }
}

/// The same, of the first policy and the file of the second.
fn explain_beside<R: FileSystem + Eprint + AllocGlobal>(
    rt: &R,
    ours: &PolicyFile<'_>,
    name: &str,
    stop: Option<&Stop>,
    files: &RealFiles<'_, R>,
) -> io::Result<()> {
    match policy_again(rt, name, files) {
        Some(policy) => {
            let other = PolicyFile {
                name,
                text: files.text_of(name).unwrap_or(&[]),
                policy: &policy,
            };
            explain_two(rt, ours, &other, stop)
        }
        None => Ok(()),
    }
}

fn explain_two<R: Eprint + AllocGlobal>(
    rt: &R,
    ours: &PolicyFile<'_>,
    other: &PolicyFile<'_>,
    stop: Option<&Stop>,
) -> io::Result<()> {
    let Some(stop) = stop else {
        return say_lines(rt, kept_text(rt.alloc(), ours, other));
    };
    let Some((place, answer)) = answer_of(stop, ours.policy) else {
        return Ok(());
    };
    say(rt, inclusion_message(rt.alloc(), ours, other, &answer))?;
    say_lines(rt, differences_text(rt.alloc(), ours, other, place))
}

/// What a comparison answered that stopped so, behind the place of its asset in the first policy.
fn answer_of(stop: &Stop, ours: &Policy) -> Option<(u32, Result<Compared, CompareFault>)> {
    let name = match stop {
        Stop::Denied(Denial::NoPartner(name) | Denial::Allows { name, .. }) => name,
        Stop::TooManyCells(name) => name,
        _ => return None,
    };
    let (asset, _) = asset_named(ours, name.as_str())?;
    let answer = match stop {
        Stop::Denied(Denial::Allows { client, act, .. }) => Ok(Compared::Shown {
            asset,
            client: *client,
            act: *act,
        }),
        Stop::TooManyCells(_) => Err(CompareFault::Cells(asset)),
        _ => Ok(Compared::Missing(asset)),
    };
    Some((asset, answer))
}
