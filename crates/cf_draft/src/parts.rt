//! What is read of a recording: each flow, and each other stretch of one, from its first unit on.
ghost use Rattle.std.specs.Prelude.{◌≡◌, ◌<◌, ◌≤◌, ◌++◌, ◌∷◌, [], All, IfOk, OnOk, drop, length, map};
ghost use Rattle.cf_policy.specs.declared.Protocol.{Protocol};
ghost use Rattle.cf_review.specs.FirstUnit.{IsReadPart, from_place};
ghost use Rattle.cf_watch.specs.FlowValue.{AreStretchesFor, IsForAsset, flow_value, stretch_value};
ghost use Rattle.cf_draft.specs.Parts.{AddsRead, AreReadAs, IsReadAs, parts_of};

use cf_plan::Moment;
use cf_policy::{Asset, Policy, Protocol};
use cf_review::first_place;
use cf_view::NoMemory;
use cf_watch::{Born, Flow, Recording, Stretch};
use std::alloc::Global;

/// What is read of a recording.
#[derive(Drop)]
pub struct Parts {
    /// One for each flow and each other stretch, with the bytes that are read of it alone. It has no numbers of records.
    pub flows: Vec<Flow>,
    /// When the bytes of each came.
    pub(crate) moments: Vec<Vec<Moment>>,
}

impl Parts {
    /// Nothing.
    pub(crate) fn new(alloc: Global) -> Parts
        ensures { result.flows.items ≡ [] }
    {
        Parts {
            flows: Vec::new(alloc),
            moments: Vec::new(alloc),
        }
    }
}

/// What is read of a recording: of its flows in their order, and then of their other stretches. Their assets are those of the policy.
pub fn read_parts(alloc: Global, policy: &Policy, recording: &Recording) -> Result<Parts, NoMemory>
    requires flows { All (IsForAsset policy.now.assets) (map flow_value recording.now.flows.items) }
    requires stretches { AreStretchesFor policy.now.assets (map stretch_value recording.now.stretches.items) }
    ensures { IfOk result (λ parts. AreReadAs policy.now.assets
        (parts_of (map flow_value recording.now.flows.items) (map stretch_value recording.now.stretches.items))
        (map flow_value parts.flows.items)) }
{
    let assets = policy.assets.as_slice();
    let stamps = recording.stamps.as_slice();
    let mut parts = Parts::new(alloc);
    add_flows(
        alloc,
        assets,
        recording.flows.as_slice(),
        stamps,
        &mut parts,
    )?;
    add_stretches(
        alloc,
        assets,
        recording.stretches.as_slice(),
        stamps,
        &mut parts,
    )?;
    Ok(parts)
}

fn add_flows(
    alloc: Global,
    assets: &[Asset],
    flows: &[Flow],
    stamps: &[u64],
    parts: &mut Parts,
) -> Result<(), NoMemory>
    requires flows { All (IsForAsset assets.now) (map flow_value flows.now) }
    ensures { OnOk result (AddsRead assets.now (map flow_value flows.now) (map flow_value parts.old.flows.items)
        (map flow_value parts.new.flows.items)) }
{
    for flow in flows {
        let asset = &assets[flow.asset as usize];
        add_part(alloc, asset.protocol, flow, stamps, parts)?;
    }
    Ok(())
}

fn add_stretches(
    alloc: Global,
    assets: &[Asset],
    stretches: &[Stretch],
    stamps: &[u64],
    parts: &mut Parts,
) -> Result<(), NoMemory>
    requires stretches { AreStretchesFor assets.now (map stretch_value stretches.now) }
    ensures { OnOk result (AddsRead assets.now (map (λ s. s.flow) (map stretch_value stretches.now)) (map flow_value parts.old.flows.items)
        (map flow_value parts.new.flows.items)) }
{
    for stretch in stretches {
        let asset = &assets[stretch.flow.asset as usize];
        add_part(alloc, asset.protocol, &stretch.flow, stamps, parts)?;
    }
    Ok(())
}

/// Adds what is read of a flow to an asset of a protocol.
fn add_part(
    alloc: Global,
    protocol: Protocol,
    flow: &Flow,
    stamps: &[u64],
    parts: &mut Parts,
) -> Result<(), NoMemory>
    requires born { length flow.now.born ≡ length flow.now.bytes.items }
    ensures { OnOk result ((read : Flow) × IsReadAs protocol (flow_value flow.now) (flow_value read)
        × (parts.new.flows.items ≡ parts.old.flows.items ++ read ∷ [])) }
{
    let start = first_place(&protocol, flow);
    let moments = moments_of(alloc, flow, start, stamps)?;
    let read = part_from(alloc, flow, start)?;
    push_part(parts, read, moments)
}

fn push_part(parts: &mut Parts, read: Flow, moments: Vec<Moment>) -> Result<(), NoMemory>
    ensures { OnOk result (parts.new.flows.items ≡ parts.old.flows.items ++ read ∷ []) }
{
    if parts.flows.push(read).is_err() || parts.moments.push(moments).is_err() {
        return Err(NoMemory);
    }
    Ok(())
}

/// A flow with the bytes of another from a place on.
fn part_from(alloc: Global, flow: &Flow, start: usize) -> Result<Flow, NoMemory>
    requires inside { start ≤ length flow.now.bytes.items }
    ensures { IfOk result (λ read. (protocol : Protocol) → IsReadPart protocol (flow_value flow.now) (from_place start (flow_value flow.now))
        → IsReadAs protocol (flow_value flow.now) (flow_value read)) }
{
    let bytes = bytes_from(alloc, flow.bytes.as_slice(), start)?;
    Ok(Flow {
        client: flow.client,
        asset: flow.asset,
        midstream: None,
        bytes,
        born: Born::new(alloc),
        conflict: None,
    })
}

fn bytes_from(alloc: Global, bytes: &[u8], start: usize) -> Result<Vec<u8>, NoMemory>
    requires inside { start ≤ length bytes.now }
    ensures { IfOk result (λ copy. copy.items ≡ drop start bytes.now) }
{
    let mut copy = Vec::new(alloc);
    match copy.extend_from_slice(&bytes[start..]) {
        Ok(()) => Ok(copy),
        Err(_) => Err(NoMemory),
    }
}

/// When the bytes of a flow came, from a place on: one moment for those that came with one record.
fn moments_of(
    alloc: Global,
    flow: &Flow,
    start: usize,
    stamps: &[u64],
) -> Result<Vec<Moment>, NoMemory>
    requires born { length flow.now.born ≡ length flow.now.bytes.items }
{
    let len = flow.bytes.len();
    let mut moments = Vec::new(alloc);
    let mut place = start;
    let mut run = 0;
    while place < len {
        let moment = Moment {
            place: place - start,
            stamp: stamp_of(stamps, flow.record_at(place)),
        };
        if moments.push(moment).is_err() {
            return Err(NoMemory);
        }
        let end = run_end(flow, place, run);
        run = end - place - 1;
        place = end;
    }
    Ok(moments)
}

/// Where the bytes end that came with the record of the one at a place. No later byte came with an earlier record, and so they are looked
/// for by halves: first the one that is `run` behind it, and then each time twice as many as before.
fn run_end(flow: &Flow, place: usize, run: usize) -> usize
    requires born { length flow.now.born ≡ length flow.now.bytes.items }
    requires place { place < length flow.now.bytes.items }
    ensures behind { place < result }
    ensures inside { result ≤ length flow.now.bytes.items }
{
    let number = flow.record_at(place);
    let mut high = flow.bytes.len();
    let mut low = place + 1;
    if run < high - place && flow.record_at(place + run) == number {
        low = place + run + 1;
    }
    let mut step: usize = 0;
    while low < high {
        let probe = low + step.min((high - low) / 2);
        if flow.record_at(probe) == number {
            low = probe + 1;
            step = step.saturating_mul(2).saturating_add(1);
        } else {
            high = probe;
        }
    }
    low
}

/// The stamp of the record of a number, counted from 1, or 0.
fn stamp_of(stamps: &[u64], number: u64) -> u64 {
    let Some(place) = number.checked_sub(1) else {
        return 0;
    };
    match stamps.get(place as usize) {
        Some(stamp) => *stamp,
        None => 0,
    }
}
