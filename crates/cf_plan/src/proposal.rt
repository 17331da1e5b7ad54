//! A draft that is proposed.
ghost use Rattle.std.specs.Prelude.{◌<◌, ◌^◌, length};

use crate::merging::{Width, plan_rules, writes};
use crate::notes::{Moment, notes_of};
use crate::spelling::{put_asset, put_head, put_rule};
use crate::writer::Writer;
use cf_learn::{seen_in, site_place};
use cf_policy::Asset;
use cf_watch::Flow;
use std::alloc::{AllocError, Global};

/// A text of a policy, and how many of its assets were widened.
#[derive(Drop)]
pub struct Proposal {
    pub text: String,
    pub widened: u64,
}

/// Proposes rules for each asset of a policy by flows to their sites and when the bytes of each came. Nothing is promised of them.
/// `is_wide`: one asset more is told as widened.
pub fn propose(
    alloc: Global,
    assets: &[Asset],
    flows: &[Flow],
    moments: &[Vec<Moment>],
    is_wide: bool,
) -> Result<Proposal, AllocError>
    requires few { length assets.now < 2 ^ 32 }
{
    let mut text = Writer::new(alloc);
    let mut widened: u64 = u64::from(is_wide);
    put_head(&mut text, !assets.is_empty(), is_wide);
    for asset in assets {
        let site = site_place(assets, asset);
        let width = propose_asset(alloc, asset, site, flows, moments, &mut text)?;
        if width != Width::Nothing {
            widened = widened.saturating_add(1);
        }
    }
    Ok(Proposal {
        text: text.done()?,
        widened,
    })
}

/// Puts an asset of the site at a place with the rules that are proposed, those that write first, and of these the rare ones.
fn propose_asset(
    alloc: Global,
    asset: &Asset,
    place: u32,
    flows: &[Flow],
    moments: &[Vec<Moment>],
    text: &mut Writer,
) -> Result<Width, AllocError> {
    let seen = seen_in(alloc, asset, place, flows)?;
    let planned = plan_rules(alloc, asset.protocol, seen.as_slice())?;
    let covers = planned.covers.as_slice();
    let notes = notes_of(alloc, asset, place, flows, moments, covers)?;
    put_asset(text, asset, covers.len(), planned.width);
    let mut order = Vec::new(alloc);
    for (own, (cover, note)) in covers.iter().zip(notes.iter()).enumerate() {
        let reads = !writes(asset.protocol, cover);
        order.push((reads, note.commands, own))?;
    }
    order.sort_unstable();
    for (number, (reads, _, own)) in order.iter().enumerate() {
        if let (Some(cover), Some(note)) = (covers.get(*own), notes.get(*own)) {
            let kind = if *reads { "read" } else { "write" };
            put_rule(
                text,
                asset.protocol,
                kind,
                number.saturating_add(1),
                cover,
                note,
            );
        }
    }
    Ok(planned.width)
}
