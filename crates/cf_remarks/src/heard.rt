//! What clients sent to each asset, counted: the commands that `learn` reads, and what it leaves out.
ghost use Rattle.std.specs.Prelude.{IfSome};
ghost use Rattle.cf_outside.specs.Frames.{OnlyReads};
ghost use Rattle.cf_policy.specs.Site.{IsSiteWithin};
ghost use Rattle.cf_policy.specs.Within.{AreAssetsWithin, IsWithin};

use cf_judge::{Front, Reader, Ruling};
use cf_outside::Files;
use cf_policy::{Asset, Decider, Policy, Site, site_at_place};
use cf_view::{NoMemory, View};
use cf_watch::{Flow, watch};
use std::alloc::Global;
use std::collections::BTreeMap;

/// The place of an asset in its policy, and the address of a client.
#[derive(Clone, Copy, PartialEq, Eq, PartialOrd, Ord, Drop)]
pub(crate) struct Sender {
    pub(crate) asset: u32,
    pub(crate) address: u32,
}

/// What a client sent to an asset. A count that would pass `u64::MAX` stays there.
#[derive(Clone, Copy)]
pub(crate) struct SenderCounts {
    /// Connections with a unit for the asset, each from its SYN on; those with none for any asset count for the first of their site.
    pub(crate) flows: u64,
    /// Commands with the asset's station whose form is read.
    pub(crate) commands: u64,
    /// Commands for another station.
    pub(crate) stations: u64,
    /// Commands whose form is not read.
    pub(crate) forms: u64,
    /// Frames, segments and fragments of DNP3 that belong to nothing.
    pub(crate) strays: u64,
    /// Connections whose bytes stop to be units of the protocol.
    pub(crate) broken: u64,
}

/// What clients sent in a capture, by asset and client.
pub(crate) type Senders = BTreeMap<Sender, SenderCounts>;

impl SenderCounts {
    /// Nothing.
    fn new() -> SenderCounts {
        SenderCounts {
            flows: 0,
            commands: 0,
            stations: 0,
            forms: 0,
            strays: 0,
            broken: 0,
        }
    }

    /// The same with more.
    fn and(&self, more: &SenderCounts) -> SenderCounts {
        SenderCounts {
            flows: self.flows.saturating_add(more.flows),
            commands: self.commands.saturating_add(more.commands),
            stations: self.stations.saturating_add(more.stations),
            forms: self.forms.saturating_add(more.forms),
            strays: self.strays.saturating_add(more.strays),
            broken: self.broken.saturating_add(more.broken),
        }
    }

    /// Counts a unit.
    fn take(&mut self, ruling: &Ruling) {
        match ruling {
            Ruling::Nothing => {}
            Ruling::Allowed => add_one(&mut self.commands),
            Ruling::Refused(refusal) => self.take_refused(&refusal.decider),
            Ruling::Stray(_) => add_one(&mut self.strays),
        }
    }

    /// Counts a command that is refused: what a rule says of it plays no part.
    fn take_refused(&mut self, decider: &Decider) {
        match decider {
            Decider::Station => add_one(&mut self.stations),
            Decider::Form => add_one(&mut self.forms),
            Decider::Rule(_) | Decider::Spent(_) | Decider::Default => add_one(&mut self.commands),
        }
    }
}

fn add_one(count: &mut u64) {
    *count = count.saturating_add(1);
}

/// What clients sent to the assets of a policy in a capture. Nothing where the capture cannot be watched, or memory ran out. Changes
/// no file.
pub(crate) fn heard_in<F: Files>(
    alloc: Global,
    policy: &Policy,
    capture: &str,
    files: &mut F,
) -> Option<Senders>
    requires within { IsWithin policy.now }
    ensures reads { OnlyReads capture.now F.content F.read_faults F.write_faults files.old files.new ⊥ }
{
    let flows = watch(alloc, policy, capture, files).ok()?;
    let mut senders = BTreeMap::new(alloc);
    for flow in flows.as_slice() {
        let site = site_of(policy.assets.as_slice(), flow.asset)?;
        let heard = heard_of(alloc, &site, flow).ok()?;
        add_all(&mut senders, flow, heard.as_slice())?;
    }
    Some(senders)
}

/// The site that begins with the asset at a place.
fn site_of(assets: &[Asset], place: u32) -> Option<Site<'_>>
    requires { AreAssetsWithin assets.now }
    ensures within { IfSome result IsSiteWithin }
{
    let place = place as usize;
    if place >= assets.len() {
        return None;
    }
    Some(site_at_place(assets, place))
}

/// Adds what was sent in a connection to each asset of its site, by its place in the site.
fn add_all(senders: &mut Senders, flow: &Flow, heard: &[SenderCounts]) -> Option<()> {
    let mut asset = flow.asset;
    for more in heard {
        if more.flows > 0 {
            let sender = Sender {
                asset,
                address: flow.client.address,
            };
            let before = senders.get(&sender).copied().unwrap_or(SenderCounts::new());
            senders.insert(sender, before.and(more)).ok()?;
        }
        asset = asset.saturating_add(1);
    }
    Some(())
}

/// What a client sent in a connection to each asset of a site. What is for none of them counts for the first, and so does a break.
fn heard_of(alloc: Global, site: &Site<'_>, flow: &Flow) -> Result<Vec<SenderCounts>, NoMemory>
    requires within { IsSiteWithin site.now }
{
    let Ok(mut heard) = Vec::from_elem(alloc, SenderCounts::new(), site.len()) else {
        return Err(NoMemory);
    };
    let mut reader = Reader::new(alloc, site, flow.client.address)?;
    let mut at = 0usize;
    // A unit has an octet, so there are no more units than octets.
    for _ in 0..flow.bytes.len() {
        let Some(rest) = flow.bytes.as_slice().get(at..) else {
            break;
        };
        match reader.next(site, &View::one(rest)) {
            Front::Rest => break,
            Front::Broken { .. } => {
                count_break(heard.as_mut_slice());
                break;
            }
            Front::Took {
                ruling,
                place,
                used,
            } => {
                count_unit(heard.as_mut_slice(), place, &ruling);
                at = at.saturating_add(used);
            }
        }
    }
    count_flow(heard.as_mut_slice());
    Ok(heard)
}

/// Counts a unit for the asset of a place, and its connection.
fn count_unit(heard: &mut [SenderCounts], place: usize, ruling: &Ruling) {
    if let Some(own) = heard.get_mut(place) {
        own.flows = 1;
        own.take(ruling);
    }
}

/// Counts a break for the first asset, and its connection.
fn count_break(heard: &mut [SenderCounts]) {
    if let Some(first) = heard.get_mut(0) {
        first.flows = 1;
        first.broken = 1;
    }
}

/// Counts a connection that counts for no asset yet for the first.
fn count_flow(heard: &mut [SenderCounts]) {
    if heard.iter().all(|own| own.flows == 0) {
        if let Some(first) = heard.get_mut(0) {
            first.flows = 1;
        }
    }
}
