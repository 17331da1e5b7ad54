//! The bytes of flows that do not follow on their first ones.
ghost use Rattle.std.specs.Prelude.{◌≡◌, ◌∷◌, [], ◌++◌, ◌^◌, ◌≤◌, List, IfOk, OnOk, Option, Some, None, if◌then◌else◌, length, map, pos, reverse, ◌==◌, ◌+◌};
ghost use Rattle.std.specs.Prelude.{ℕ, slice_get, slice_index, ◌<◌};
ghost use Rattle.cf_stream.specs.Stream.{Byte, letter_count};
ghost use Rattle.cf_watch.specs.FlowValue.{flow_value, stretch_value};
ghost use Rattle.cf_watch.specs.Kept.{HasRuns, letter_of_portion, row_value, run_value};
ghost use Rattle.cf_watch.specs.Stretches.{FirstLetter, all_stretches, apart, is_nil, is_own, longer, run_at, runs_of, stretch_of, stretches_from, stretches_of, with_byte, with_place};
ghost use Rattle.cf_watch.specs.Trail.{Heard, IsHeard, IsWatchOf};
ghost use Rattle.cf_watch.specs.Watched.{Watched};

use crate::ahead::{Ahead, Letters, Portion, take_first};
use crate::born::Born;
use crate::carry::BELOW;
use crate::flow::{Flow, Stretch};
use crate::scope::Scope;
use crate::watching::{Trail, Watch};
use cf_view::NoMemory;
use std::alloc::Global;

/// Bytes at places one after the other.
#[derive(Drop)]
pub(crate) struct Run {
    /// The place of the first, counted from `BELOW` places below position 0.
    start: u64,
    /// The record of the first.
    first: u32,
    bytes: Vec<u8>,
    /// For each byte the last record with which those up to it came.
    born: Born,
    /// The last of these.
    newest: u32,
}

/// Whether a place, so counted, is one of the first bytes of a flow, so many.
fn is_own(count: usize, place: u64) -> bool
    ensures { result ≡ is_own count place }
{
    BELOW <= place && place - BELOW < count as u64
}

/// A run without a byte yet.
fn run_at(alloc: Global, place: u64, number: u32) -> Run
    ensures { run_value result ≡ run_at place number }
{
    Run {
        start: place,
        first: number,
        bytes: Vec::new(alloc),
        born: Born::new(alloc),
        newest: 0,
    }
}

/// Puts a byte after the others of a run.
fn go_on(run: &mut Run, byte: u8, number: u32) -> Result<(), NoMemory>
    ensures { OnOk result (run_value run.new ≡ longer (run_value run.old) byte number) }
{
    run.newest = run.newest.max(number);
    if run.bytes.push(byte).is_err() || run.born.push(u64::from(run.newest)).is_err() {
        return Err(NoMemory);
    }
    Ok(())
}

/// Whether a run goes on at a place.
fn reaches(run: &Run, place: u64) -> bool
    ensures { result ≡ ((run_value run.now).start + length (run_value run.now).bytes == place) }
{
    run.start.checked_add(run.bytes.len() as u64) == Some(place)
}

/// Puts a byte among the runs of all before it.
fn put_byte(
    alloc: Global,
    runs: &mut Vec<Run>,
    place: u64,
    byte: u8,
    number: u32,
) -> Result<(), NoMemory>
    ensures { OnOk result (reverse (map run_value runs.new.items) ≡ with_byte place byte number (reverse (map run_value runs.old.items))) }
{
    let mut run = match runs.pop() {
        Some(run) => run,
        None => run_at(alloc, place, number),
    };
    if !reaches(&run, place) {
        push_run(runs, run)?;
        run = run_at(alloc, place, number);
    }
    go_on(&mut run, byte, number)?;
    push_run(runs, run)
}

/// Puts a run after the others.
fn push_run(runs: &mut Vec<Run>, run: Run) -> Result<(), NoMemory>
    ensures { OnOk result (runs.new.items ≡ runs.old.items ++ run ∷ []) }
{
    match runs.push(run) {
        Ok(()) => Ok(()),
        Err(_) => Err(NoMemory),
    }
}

/// Puts a byte among the runs of all before it, but for that at a place of the flow itself, of which it has so many.
fn put_apart(
    alloc: Global,
    runs: &mut Vec<Run>,
    count: usize,
    place: u64,
    byte: u8,
    number: u32,
) -> Result<(), NoMemory>
    ensures { OnOk result (reverse (map run_value runs.new.items) ≡ with_place place
        (if is_own count place then None else Some (record { letter = Byte byte; number = number })) (reverse (map run_value runs.old.items))) }
{
    if is_own(count, place) {
        return Ok(());
    }
    put_byte(alloc, runs, place, byte, number)
}

/// Puts the bytes of a portion, which begins at a place, among the runs of all before it.
fn put_bytes(
    alloc: Global,
    runs: &mut Vec<Run>,
    count: usize,
    start: u64,
    bytes: &[u8],
    number: u32,
) -> Result<(), NoMemory>
    ensures { OnOk result ((f : ℕ → Option FirstLetter) → ((k : ℕ) → k < length bytes.now → f (start + k)
        ≡ Some (record { letter = Byte (slice_index bytes.now k); number = number })) → reverse (map run_value runs.old.items) ≡ runs_of (apart count f) start
        → reverse (map run_value runs.new.items) ≡ runs_of (apart count f) (start + length bytes.now)) }
{
    for (i, byte) in bytes.iter().enumerate() {
        let Some(place) = start.checked_add(i as u64) else {
            return Err(NoMemory);
        };
        put_apart(alloc, runs, count, place, *byte, number)?;
    }
    Ok(())
}

/// Puts a portion, which begins at a place, among the runs of all before it.
fn put_portion(
    alloc: Global,
    runs: &mut Vec<Run>,
    count: usize,
    start: u64,
    portion: &Portion,
) -> Result<(), NoMemory>
    ensures { OnOk result ((f : ℕ → Option FirstLetter) → ((k : ℕ) → k < letter_count (row_value portion.now.letters) → f (start + k)
        ≡ letter_of_portion portion.now k) → reverse (map run_value runs.old.items) ≡ runs_of (apart count f) start
        → reverse (map run_value runs.new.items) ≡ runs_of (apart count f) (start + letter_count (row_value portion.now.letters))) }
{
    match &portion.letters {
        Letters::Bytes(bytes) => put_bytes(
            alloc,
            runs,
            count,
            start,
            bytes.as_slice(),
            portion.number,
        ),
        Letters::End => Ok(()),
    }
}

/// The runs of the bytes that stand apart from those of a flow, which has so many, in the order of their places.
fn runs_in(alloc: Global, count: usize, ahead: &mut Ahead) -> Result<Vec<Run>, NoMemory>
    ensures { IfOk result (λ runs. HasRuns count ahead.old (reverse (map run_value runs.items))) }
{
    let mut runs = Vec::new(alloc);
    'portions: loop {
        match take_first(ahead) {
            Some((start, portion)) => put_portion(alloc, &mut runs, count, start, &portion)?,
            None => return Ok(runs),
        }
    }
}

/// The position of the gap, which the first run of a flow tells: behind its first bytes, of which it has so many.
fn gap_of(count: usize, before: &[Run]) -> Option<i64>
    requires { count < 2 ^ 63 }
    ensures { result ≡ (if is_nil (map run_value before.now) then Some (pos count) else None) }
{
    if before.is_empty() {
        Some(count as i64)
    } else {
        None
    }
}

/// Adds a run as a stretch of its flow.
fn add_stretch(
    flow: &Flow,
    gap: Option<i64>,
    run: Run,
    stretches: &mut Vec<Stretch>,
) -> Result<(), NoMemory>
    ensures { OnOk result (map stretch_value stretches.new.items ≡ map stretch_value stretches.old.items
        ++ stretch_of (flow_value flow.now) gap (run_value run) ∷ []) }
{
    let stretch = Stretch {
        flow: Flow {
            client: flow.client,
            asset: flow.asset,
            midstream: Some(u64::from(run.first)),
            bytes: run.bytes,
            born: run.born,
            conflict: None,
        },
        gap,
    };
    match stretches.push(stretch) {
        Ok(()) => Ok(()),
        Err(_) => Err(NoMemory),
    }
}

/// How many bytes a flow has, with those before this base, which are kept no more. More than a position counts are answered as want of
/// memory.
fn reached(flow: &Flow, base: u64) -> Result<usize, NoMemory>
    requires { base ≤ 2 ^ 62 }
    ensures count { IfOk result (λ count. count ≡ base + length flow.now.bytes.items) }
    ensures few { IfOk result (λ count. count < 2 ^ 63) }
{
    let count = base + flow.bytes.len() as u64;
    if count >= 1 << 63 {
        return Err(NoMemory);
    }
    Ok(count as usize)
}

/// Adds the stretches of a flow.
fn add_stretches(
    alloc: Global,
    flow: &Flow,
    trail: &mut Trail,
    stretches: &mut Vec<Stretch>,
) -> Result<(), NoMemory>
    requires base { trail.old.base ≤ 2 ^ 62 }
    ensures { OnOk result ((scope : Scope) (w : Watched) (h : Heard) → IsHeard scope flow.now trail.old w h
        → map stretch_value stretches.new.items ≡ map stretch_value stretches.old.items ++ stretches_of w h.value) }
{
    let count = reached(flow, trail.base)?;
    let mut runs = runs_in(alloc, count, &mut trail.ahead)?;
    'runs: loop {
        match runs.pop() {
            Some(run) => add_stretch(flow, gap_of(count, runs.as_slice()), run, stretches)?,
            None => return Ok(()),
        }
    }
}

/// The stretches of all flows of a watch, flow by flow. Their bytes are taken out of it.
pub fn stretches_in(alloc: Global, watch: &mut Watch) -> Result<Vec<Stretch>, NoMemory>
    requires sizes { length watch.old.flows.items ≡ length watch.old.trails.items }
    requires bases { (i : ℕ) (t : Trail) → slice_get watch.old.trails.items i ≡ Some t → t.base ≤ 2 ^ 62 }
    ensures stretches { IfOk result (λ stretches. (scope : Scope) (number : ℕ) (ws : List Watched) (hs : List Heard)
        → IsWatchOf scope number watch.old ws hs → map stretch_value stretches.items ≡ all_stretches ws (map (λ h. h.value) hs)) }
    ensures flows { watch.new.flows ≡ watch.old.flows }
{
    let mut stretches = Vec::new(alloc);
    for place in 0..watch.flows.len() {
        add_stretches(
            alloc,
            &watch.flows[place],
            &mut watch.trails[place],
            &mut stretches,
        )?;
    }
    Ok(stretches)
}
