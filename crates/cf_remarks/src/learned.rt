//! What a policy was learned from, in words.
ghost use Rattle.cf_outside.specs.Frames.{OnlyReads};
ghost use Rattle.cf_policy.specs.Within.{IsWithin};

use crate::heard::{SenderCounts, heard_in};
use crate::text::{Lines, Piece};
use Piece::{Number, Words};
use cf_outside::Files;
use cf_policy::Policy;
use std::alloc::{AllocError, Global};

/// How many clients are written out, those of each asset counted apart.
const MOST: usize = 100;

/// A line for each client of each asset with the commands that it sent and what was left out, in the order of the assets and of the
/// addresses, at most 100 of them. The text is empty where the capture cannot be read a second time. Changes no file.
pub fn learned_text<F: Files>(
    alloc: Global,
    policy: &Policy,
    capture: &str,
    files: &mut F,
) -> Result<String, AllocError>
    requires within { IsWithin policy.now }
    ensures reads { OnlyReads capture.now F.content F.read_faults F.write_faults files.old files.new ⊥ }
{
    let mut lines = Lines::new(alloc);
    let assets = policy.assets.as_slice();
    if let Some(senders) = heard_in(alloc, policy, capture, files) {
        for (sender, heard) in senders.iter().take(MOST) {
            if let Some(asset) = assets.get(sender.asset as usize) {
                put_heard(&mut lines, asset.name.as_str(), sender.address, heard);
            }
        }
        if senders.len() > MOST {
            let more = (senders.len() - MOST) as u64;
            lines.put(&[Words("and "), Number(more), Words(" clients more")]);
        }
    }
    lines.finish()
}

/// What a client sent to an asset.
fn put_heard(lines: &mut Lines, asset: &str, address: u32, heard: &SenderCounts) {
    lines.begin();
    lines.push_all(&[Words(asset), Words(": ")]);
    lines.push_address(address);
    lines.push_all(&[
        Words(" sent "),
        Number(heard.commands),
        Words(if heard.commands == 1 {
            " command in "
        } else {
            " commands in "
        }),
        Number(heard.flows),
        Words(if heard.flows == 1 {
            " connection"
        } else {
            " connections"
        }),
    ]);
    put_left(lines, heard);
    lines.end();
}

/// What was left out of it.
fn put_left(lines: &mut Lines, heard: &SenderCounts) {
    let counts = [heard.stations, heard.forms, heard.strays, heard.broken];
    let mut between = "; left out: ";
    for (place, count) in counts.iter().enumerate() {
        if *count > 0 {
            lines.push_all(&[
                Words(between),
                Number(*count),
                Words(left_words(place, *count)),
            ]);
            between = ", ";
        }
    }
}

/// What was left out so often, by its place among the counts.
fn left_words(place: usize, count: u64) -> &'static str {
    match (place, count) {
        (0, _) => " for another station",
        (1, _) => " whose form is not read",
        (2, 1) => " frame that belongs to nothing",
        (2, _) => " frames that belong to nothing",
        (_, 1) => " connection from where its bytes break",
        _ => " connections from where their bytes break",
    }
}
