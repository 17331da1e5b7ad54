//! What a lane keeps for its protocol.
//! What an unfinished fragment may still put out is counted with its queue: one of n octets goes on in frames of at most n + n/4
//! + 16 octets, so one that is begun owes 5n/4.
ghost use Rattle.std.specs.Prelude.{◌≡◌, [], ℕ, List, IfOk, OnOk, is_some, length};
ghost use Rattle.std.specs.List.{list_any, range_with_len};
ghost use Rattle.cf_dnptrans.specs.Transport.{unfinished};
ghost use Rattle.cf_lane.specs.Kept.{AddsNewFragments, AreNewFragments, IsWireOf, KnowsWire, StandOf, of_side, wire_debt};
ghost use Rattle.cf_policy.specs.Site.{SiteValue, assets_of};

use cf_dnptrans::Assembly;
use cf_policy::{Protocol, Site};
use cf_renumber::Numbers;
use cf_view::{NoMemory, Side};
use std::alloc::Global;
use std::marker::Model;

/// What a lane keeps for its protocol.
#[derive(Drop)]
pub(crate) enum Wire {
    /// Each ADU stands alone.
    Modbus,
    /// The fragments that are put together, and the sequences of the segments that are sent, of each asset.
    Dnp3(AllFragments),
    /// The numbers of the I frames of both sides.
    Iec104(Numbers),
}

/// The fragments of each asset of a site of DNP3, in the order of its assets: reassembly belongs to a pair of link addresses.
/// IEEE 1815-2012, section 8.2.
#[derive(Drop)]
pub(crate) struct AllFragments {
    pub(crate) all: Vec<Fragments>,
}

impl Model for AllFragments {
    ghost use Rattle.std.specs.Prelude.{List};
    ghost use Rattle.cf_lane.specs.declared.wire.Fragments.{Fragments};

    ghost Value = { List Fragments };

    ghost view = { λ f. f.all.items };
}

/// The fragments of both sides that are put together, and the sequence (0 to 63) of the next segment towards each side.
#[derive(Drop)]
pub(crate) struct Fragments {
    pub(crate) client: Assembly,
    pub(crate) controller: Assembly,
    pub(crate) to_client: u8,
    pub(crate) to_controller: u8,
}

impl Wire {
    /// What a new lane of a site keeps. All its memory is taken here, and none afterwards.
    ///
    /// `NoMemory`: it could not be had.
    pub(crate) fn new(alloc: Global, site: &Site<'_>) -> Result<Wire, NoMemory>
        ensures of_site { IfOk result (λ w. IsWireOf site.now.first.protocol (length (assets_of site.now)) w) }
        ensures knows { IfOk result (λ w. (site : SiteValue) → KnowsWire site w []) }
        ensures debt { IfOk result (λ w. wire_debt w ≡ 0) }
    {
        match site.first().protocol {
            Protocol::Modbus => Ok(Wire::Modbus),
            Protocol::Dnp3 => {
                let all = fragments_of(alloc, site.len())?;
                Ok(Wire::Dnp3(AllFragments { all }))
            }
            Protocol::Iec104 => Ok(Wire::Iec104(Numbers::new(alloc)?)),
        }
    }
}

/// The fragments of so many assets, of which nothing has come.
fn fragments_of(alloc: Global, count: usize) -> Result<Vec<Fragments>, NoMemory>
    ensures all { IfOk result (λ all. AreNewFragments count all.items) }
{
    let mut all = Vec::new(alloc);
    'assets: while all.len() < count {
        push_fragments(alloc, &mut all)?;
    }
    Ok(all)
}

/// Adds the fragments of an asset, of which nothing has come.
fn push_fragments(alloc: Global, all: &mut Vec<Fragments>) -> Result<(), NoMemory>
    ensures { OnOk result (AddsNewFragments all.old.items all.new.items) }
{
    let client = Assembly::new(alloc)?;
    let controller = Assembly::new(alloc)?;
    let fragments = Fragments {
        client,
        controller,
        to_client: 0,
        to_controller: 0,
    };
    if all.push(fragments).is_err() {
        return Err(NoMemory);
    }
    Ok(())
}

impl AllFragments {
    /// Whether a fragment of a side is unfinished, of any asset.
    pub(crate) fn unfinished(&self, side: Side) -> bool
        ensures { (segments : ℕ → List (List ℕ)) → StandOf side self.now segments
            → result ≡ list_any (λ k. is_some (unfinished (segments k))) (range_with_len 0 (length self.now)) }
    {
        any_unfinished(self.all.as_slice(), side)
    }
}

/// Whether one of these fragments of a side is unfinished.
fn any_unfinished(all: &[Fragments], side: Side) -> bool
    ensures { (segments : ℕ → List (List ℕ)) → StandOf side all.now segments
        → result ≡ list_any (λ k. is_some (unfinished (segments k))) (range_with_len 0 (length all.now)) }
{
    for k in 0..all.len() {
        if all[k].of(side).unfinished() {
            return true;
        }
    }
    false
}

impl Fragments {
    /// The fragment of a side that is put together.
    pub(crate) fn of(&self, side: Side) -> &Assembly
        ensures { result.now ≡ of_side side self.now }
    {
        match side {
            Side::Client => &self.client,
            Side::Controller => &self.controller,
        }
    }
}
