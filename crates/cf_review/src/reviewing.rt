//! All that a policy objects to in watched flows.
ghost use Rattle.std.specs.Prelude.{◌≡◌, Bool, ◌+◌, ◌^◌, ◌<◌, ◌≤◌, ◌++◌, ◌∷◌, [], ◌-◌, ℕ, List, IfOk, Ok, OnOk, All, true, false, drop, length, map, slice_range, take};
ghost use Rattle.cf_lane.specs.Judged.{Judged as JudgedItem, is_admitted, one_if};
ghost use Rattle.cf_lane.specs.Unit.{SpellsUnit, UnitValue};
ghost use Rattle.cf_lane.specs.declared.fate.Fate.{Fate};
ghost use Rattle.cf_lane.specs.declared.fate.Refusal.{Refusal};
ghost use Rattle.cf_judge.specs.Front.{HasWhole, IsReaderOf};
ghost use Rattle.cf_judge.specs.Plain.{HasSiteFate, completed_in};
ghost use Rattle.cf_judge.specs.Ruling.{ruling_of};
ghost use Rattle.cf_lane.specs.Site.{place_for};
ghost use Rattle.cf_policy.specs.Site.{IsSiteWithin, assets_of};
ghost use Rattle.cf_policy.specs.Within.{AreAssetsWithin};
ghost use Rattle.cf_watch.specs.FlowValue.{AreStretchesFor, FlowValue, flow_value, stretch_value};
ghost use Rattle.cf_review.specs.Remark.{RemarkValue, matter_value, remark_value};
ghost use Rattle.cf_review.specs.declared.remark.TheConstants.{SHOWN};
ghost use Rattle.cf_review.specs.FirstUnit.{from_place};
ghost use Rattle.cf_review.specs.Follow.{AddsOf, AreToldOf, HasBroken, IsPartOf, IsToldOf, SoFar, Waits};
ghost use Rattle.cf_review.specs.Review.{AddsStretch, AddsStretches, AddsUnits, conflict_remarks, gap_remarks};
ghost use Rattle.cf_review.specs.Review.{midstream_remarks, remark_on, unit_remarks_by};
ghost use Rattle.cf_view.specs.declared.Side.TheVariants as side;

use crate::first_unit::first_place;
use crate::remark::{Matter, Remark, SHOWN};
use arrayvec::ArrayVec;
use cf_judge::{Front, Reader, Ruling};
use cf_policy::{Policy, Site, site_at_place};
use cf_view::{NoMemory, View, push_view};
use cf_watch::{Flow, Stretch};
use std::alloc::Global;

/// What a policy says of all flows.
#[derive(Drop)]
pub struct Reviewed {
    pub flows: u64,
    /// How many commands the policy allows, up to where each flow breaks or ends.
    pub admitted: u64,
    /// All that it objects to, in the order of the records.
    pub remarks: Vec<Remark>,
}

/// Adds the remarks on the other stretches of flows, and answers how many commands are allowed, with those of before.
pub(crate) fn review_stretches(
    alloc: Global,
    policy: &Policy,
    stretches: &[Stretch],
    before: u64,
    remarks: &mut Vec<Remark>,
) -> Result<u64, NoMemory>
    requires within { AreAssetsWithin policy.now.assets }
    requires stretches { AreStretchesFor policy.now.assets (map stretch_value stretches.now) }
    ensures adds { IfOk result (λ admitted. AddsStretches policy.now.assets (map stretch_value stretches.now) before
        (map remark_value remarks.old.items) (map remark_value remarks.new.items) admitted) }
    ensures told { OnOk result ((known : ℕ → Bool) → AreToldOf known (map stretch_value stretches.now)
        → All (λ r. known r.at_record ≡ true) (map remark_value remarks.old.items) → All (λ r. known r.at_record ≡ true) (map remark_value remarks.new.items)) }
{
    let assets = policy.assets.as_slice();
    let mut admitted = before;
    for stretch in stretches {
        let site = site_at_place(assets, stretch.flow.asset as usize);
        let more = review_stretch(alloc, &site, stretch, remarks)?;
        admitted = admitted.saturating_add(more);
    }
    Ok(admitted)
}

/// Adds the remarks on a stretch of a flow to a site, and answers how many of its commands are allowed.
fn review_stretch(
    alloc: Global,
    site: &Site<'_>,
    stretch: &Stretch,
    remarks: &mut Vec<Remark>,
) -> Result<u64, NoMemory>
    requires within { IsSiteWithin site.now }
    requires places { stretch.now.flow.asset + length (assets_of site.now) < 2 ^ 32 }
    requires born { length stretch.now.flow.born ≡ length stretch.now.flow.bytes.items }
    ensures adds { IfOk result (λ admitted. AddsStretch site.now (stretch_value stretch.now) (map remark_value remarks.old.items)
        (map remark_value remarks.new.items) admitted) }
    ensures told { OnOk result ((known : ℕ → Bool) → IsToldOf known (stretch_value stretch.now)
        → All (λ r. known r.at_record ≡ true) (map remark_value remarks.old.items) → All (λ r. known r.at_record ≡ true) (map remark_value remarks.new.items)) }
{
    add_gap(stretch, remarks)?;
    let start = first_place(&site.first().protocol, &stretch.flow);
    review_units(alloc, site, &stretch.flow, start, remarks)
}

/// Adds the remarks on the bytes of a flow from a place on, and answers how many of its commands are allowed.
pub(crate) fn review_units(
    alloc: Global,
    site: &Site<'_>,
    flow: &Flow,
    start: usize,
    remarks: &mut Vec<Remark>,
) -> Result<u64, NoMemory>
    requires within { IsSiteWithin site.now }
    requires places { flow.now.asset + length (assets_of site.now) < 2 ^ 32 }
    requires born { length flow.now.born ≡ length flow.now.bytes.items }
    requires inside { start ≤ length flow.now.bytes.items }
    ensures adds { IfOk result (λ admitted. AddsUnits site.now (from_place start (flow_value flow.now)) (map remark_value remarks.old.items)
        (map remark_value remarks.new.items) admitted) }
    ensures told { OnOk result ((known : ℕ → Bool) → All (λ n. known n ≡ true) flow.now.born
        → All (λ r. known r.at_record ≡ true) (map remark_value remarks.old.items) → All (λ r. known r.at_record ≡ true) (map remark_value remarks.new.items)) }
{
    let mut reader = Reader::new(alloc, site, flow.client.address)?;
    let mut at = start;
    let mut admitted: u64 = 0;
    read_units(site, flow, &mut reader, &mut at, &mut admitted, remarks)?;
    Ok(admitted)
}

/// Reads the units of a flow from a place of the bytes that are kept of it on, as far as there are whole ones, and answers whether an octet
/// follows that no unit has there. The bytes that are kept are those from a place of a flow on: a clause says so of each.
pub(crate) fn read_units(
    site: &Site<'_>,
    flow: &Flow,
    reader: &mut Reader,
    at: &mut usize,
    admitted: &mut u64,
    remarks: &mut Vec<Remark>,
) -> Result<bool, NoMemory>
    requires places { flow.now.asset + length (assets_of site.now) < 2 ^ 32 }
    requires inside { at.old ≤ length flow.now.bytes.items }
    requires born { length flow.now.born ≡ length flow.now.bytes.items }
    requires so_far { (f : FlowValue) × (start : List RemarkValue) × (place : ℕ) × IsPartOf f place flow.now at.old
        × SoFar site.now f start place reader.old admitted.old (map remark_value remarks.old.items) }
    ensures inside { OnOk result (at.new ≤ length flow.now.bytes.items) }
    ensures past { OnOk result (at.old ≤ at.new) }
    ensures adds { OnOk result ((more : List Remark) × (remarks.new.items ≡ remarks.old.items ++ more)) }
    ensures whole { result ≡ Ok false → (f : FlowValue) (start : List RemarkValue) (place : ℕ) → IsPartOf f place flow.now at.old
        → SoFar site.now f start place reader.old admitted.old (map remark_value remarks.old.items)
        → SoFar site.now f start (place + (at.new - at.old)) reader.new admitted.new (map remark_value remarks.new.items)
        × Waits site.now f (place + (at.new - at.old)) }
    ensures broke { result ≡ Ok true → (f : FlowValue) (start : List RemarkValue) (place : ℕ) → IsPartOf f place flow.now at.old
        → SoFar site.now f start place reader.old admitted.old (map remark_value remarks.old.items)
        → HasBroken site.now f start admitted.new (map remark_value remarks.new.items) }
    ensures told { OnOk result ((known : ℕ → Bool) → All (λ n. known n ≡ true) (drop at.old flow.now.born)
        → All (λ r. known r.at_record ≡ true) (map remark_value remarks.old.items) → All (λ r. known r.at_record ≡ true) (map remark_value remarks.new.items)) }
{
    let bytes = flow.bytes.as_slice();
    'units: while *at < bytes.len() {
        match reader.next(site, &octets_of(bytes, *at, bytes.len())) {
            Front::Rest => return Ok(false),
            Front::Broken { reason, place } => {
                let number = flow.record_at(*at + place);
                add(flow, number, 0, Matter::Broken(reason), remarks)?;
                return Ok(true);
            }
            Front::Took {
                ruling,
                place,
                used,
            } => {
                let unit = octets_of(bytes, *at, *at + used);
                *at += used;
                *admitted = admitted.saturating_add(allowed_by(&ruling));
                let number = flow.record_at(*at - 1);
                add_unit(reader, site, flow, unit, number, place, ruling, remarks)?;
            }
        }
    }
    Ok(false)
}

/// Some octets of others.
fn octets_of(octets: &[u8], from: usize, to: usize) -> View<'_>
    requires ordered { from ≤ to }
    requires inside { to ≤ length octets.now }
    ensures { result.bytes ≡ slice_range octets.now from to }
{
    View::one(&octets[from..to])
}

/// How many commands a ruling allows.
fn allowed_by(ruling: &Ruling) -> u64
    ensures count { (f : Fate) → ruling.now ≡ ruling_of f → result ≡ one_if (is_admitted f) }
{
    match ruling {
        Ruling::Allowed => 1,
        Ruling::Nothing | Ruling::Refused(_) | Ruling::Stray(_) => 0,
    }
}

/// Adds a remark on a flow, about the asset of a place of its site.
fn add(
    flow: &Flow,
    number: u64,
    place: usize,
    what: Matter,
    remarks: &mut Vec<Remark>,
) -> Result<(), NoMemory>
    requires { flow.now.asset + place < 2 ^ 32 }
    ensures remark { OnOk result (map remark_value remarks.new.items ≡ map remark_value remarks.old.items
        ++ remark_on (flow_value flow.now) number place (matter_value what) ∷ []) }
    ensures adds { OnOk result (AddsOf number remarks.old.items remarks.new.items) }
{
    let remark = Remark {
        at_record: number,
        client: flow.client,
        asset: flow.asset + place as u32,
        what,
    };
    match remarks.push(remark) {
        Ok(()) => Ok(()),
        Err(_) => Err(NoMemory),
    }
}

/// Adds that a flow begins amid its stream, if it does.
pub(crate) fn add_midstream(flow: &Flow, remarks: &mut Vec<Remark>) -> Result<(), NoMemory>
    requires { flow.now.asset < 2 ^ 32 }
    ensures { OnOk result (map remark_value remarks.new.items ≡ map remark_value remarks.old.items
        ++ midstream_remarks (flow_value flow.now) flow.now.midstream) }
{
    match flow.midstream {
        None => Ok(()),
        Some(number) => {
            add(flow, number, 0, Matter::Midstream, remarks)?;
            Ok(())
        }
    }
}

/// Adds the gap that a stretch tells, if it does.
fn add_gap(stretch: &Stretch, remarks: &mut Vec<Remark>) -> Result<(), NoMemory>
    requires { stretch.now.flow.asset < 2 ^ 32 }
    ensures { OnOk result (map remark_value remarks.new.items ≡ map remark_value remarks.old.items
        ++ gap_remarks (flow_value stretch.now.flow) stretch.now.gap stretch.now.flow.midstream) }
{
    match (stretch.gap, stretch.flow.midstream) {
        (Some(position), Some(number)) => {
            add(&stretch.flow, number, 0, Matter::Gap(position), remarks)?;
            Ok(())
        }
        (None, _) | (Some(_), None) => Ok(()),
    }
}

/// Adds that a flow has a conflict, if it has one.
pub(crate) fn add_conflict(flow: &Flow, remarks: &mut Vec<Remark>) -> Result<(), NoMemory>
    requires { flow.now.asset < 2 ^ 32 }
    ensures { OnOk result (map remark_value remarks.new.items ≡ map remark_value remarks.old.items ++ conflict_remarks (flow_value flow.now)
        flow.now.conflict) }
{
    match flow.conflict {
        None => Ok(()),
        Some(conflict) => {
            add(
                flow,
                conflict.at_record,
                0,
                Matter::Conflict(conflict.position),
                remarks,
            )?;
            Ok(())
        }
    }
}

/// Adds what is objected to in a unit of these octets for the asset of a place, after which the reader stands.
fn add_unit(
    reader: &Reader,
    site: &Site<'_>,
    flow: &Flow,
    unit: View<'_>,
    number: u64,
    place: usize,
    ruling: Ruling,
    remarks: &mut Vec<Remark>,
) -> Result<(), NoMemory>
    requires places { flow.now.asset + place < 2 ^ 32 }
    requires whole { (refusal : Refusal) → ruling ≡ Ruling.Refused refusal → HasWhole site.now place reader.now }
    ensures adds { OnOk result (AddsOf number remarks.old.items remarks.new.items) }
    ensures remarks { OnOk result ((client : ℕ) (earlier : List JudgedItem) (u : UnitValue) (f : Fate)
        → IsReaderOf site.now client (earlier ++ completed_in number u f ∷ []) reader.now
        → place ≡ place_for site.now side.Client u
        → SpellsUnit site.now.first.protocol u unit.entry.bytes
        → HasSiteFate site.now client earlier u f → ruling ≡ ruling_of f
        → map remark_value remarks.new.items ≡ map remark_value remarks.old.items ++ unit_remarks_by site.now place (flow_value flow.now) earlier
        (completed_in number u f)) }
{
    match ruling {
        Ruling::Nothing | Ruling::Allowed => Ok(()),
        Ruling::Stray(why) => {
            add(flow, number, place, Matter::Stray(why), remarks)?;
            Ok(())
        }
        Ruling::Refused(refusal) => {
            let octets = shown(&reader.command_octets(site, place, unit));
            add(
                flow,
                number,
                place,
                Matter::Refused { refusal, octets },
                remarks,
            )?;
            Ok(())
        }
    }
}

/// The first octets of a command.
fn shown(octets: &View<'_>) -> ArrayVec<u8, SHOWN>
    ensures { result.items ≡ take SHOWN octets.now.bytes }
{
    let mut first = ArrayVec::<u8, SHOWN>::new();
    push_view(&mut first, &octets.sub(0, SHOWN.min(octets.len())));
    first
}
