//! The letters of a ring by their places: place k stands k after the place of slot `start`.
ghost use Rattle.std.specs.Prelude.{◌≡◌, ℕ, ◌+◌, ◌-◌, ◌^◌, ◌<◌, ◌≤◌, ◌⊎◌, true, false, IfOk, List, [], length, vec_len, vec_capacity};
ghost use Rattle.std.specs.Prelude.{min, take, slice_index, Some, None, pos, negsuc, ◌≤ℤ◌, ◌+ℤ◌};
ghost use Rattle.std.specs.Option.{option_or};
ghost use Rattle.cf_stream.specs.FirstCopy.{offered};
ghost use Rattle.cf_stream.specs.Stream.{Byte, End};
ghost use Rattle.cf_rebuild.specs.Ring.{place_at, slot, turned, full, marked};

use crate::cells::{keep_end_at, keep_run};
use crate::marks::{clear, gap, has};
use cf_view::{NoMemory, View};
use std::alloc::Global;

/// How many places are kept from the first byte on that is not consumed. This project's own choice.
pub(crate) const PLACES: usize = 32_768;

/// How many slots get their bytes at a time.
const BLOCK: usize = 1_024;

/// Gives each slot below `to` a byte, 0 where it has none. It takes no memory.
fn reach(bytes: &mut Vec<u8>, to: usize)
    requires to { to ≤ 32768 }
    requires slots { (vec_len bytes.old ≤ 32768) × (32768 ≤ vec_capacity bytes.old) }
    ensures slots { (vec_len bytes.new ≤ 32768) × (32768 ≤ vec_capacity bytes.new) }
    ensures reached { to ≤ vec_len bytes.new }
    ensures same { (s : ℕ) → slice_index bytes.new.items s ≡ slice_index bytes.old.items s }
{
    if to > bytes.len() {
        let _filled = bytes.resize((to + (BLOCK - 1)) / BLOCK * BLOCK, 0);
    }
}

/// Keeps the bytes of a text from a place on, below a place `room`, each unless a letter is kept there, in slots that have bytes.
fn keep_written(
    kept: &mut [u64],
    ends: &[u64],
    bytes: &mut [u8],
    start: usize,
    begin: usize,
    room: usize,
    text: &[u8],
)
    requires inside { (start < 32768) × (room ≤ 32768) }
    requires sizes { (length bytes.old ≤ 32768) × (length kept.old ≡ 512) × (length ends.now ≡ 512) }
    requires written { min (slot start begin + length text.now) 32768 ≤ length bytes.old }
    ensures places { (k : ℕ) → place_at kept.new ends.now bytes.new start k ≡ option_or (place_at kept.old ends.now bytes.old start k)
        (offered (record { at = pos begin; text = record { bytes = text.now; ended = false }; edge = room }) k) }
    ensures before { (k : ℕ) → k < begin → k < 32768 → slice_index bytes.new (slot start k) ≡ slice_index bytes.old (slot start k) }
{
    if room <= begin {
        return;
    }
    let text = &text[..text.len().min(room - begin)];
    let from = (start + begin) % PLACES;
    let first = text.len().min(PLACES - from);
    keep_run(kept, ends, bytes, from, &text[..first]);
    keep_run(kept, ends, bytes, 0, &text[first..]);
}

/// Keeps the bytes of a text from a place on, below a place `room`, each unless a letter is kept there.
fn keep_text(
    kept: &mut [u64],
    ends: &[u64],
    bytes: &mut Vec<u8>,
    start: usize,
    begin: usize,
    room: usize,
    text: &[u8],
)
    requires inside { (start < 32768) × (room ≤ 32768) }
    requires small { (begin < 2 ^ 41) × (length text.now < 2 ^ 40) }
    requires slots { (vec_len bytes.old ≤ 32768) × (32768 ≤ vec_capacity bytes.old) }
    requires sizes { (length kept.old ≡ 512) × (length ends.now ≡ 512) }
    ensures slots { (vec_len bytes.new ≤ 32768) × (32768 ≤ vec_capacity bytes.new) }
    ensures places { (k : ℕ) → place_at kept.new ends.now bytes.new.items start k
        ≡ option_or (place_at kept.old ends.now bytes.old.items start k)
        (offered (record { at = pos begin; text = record { bytes = text.now; ended = false }; edge = room }) k) }
    ensures before { (k : ℕ) → k < begin → k < 32768
        → slice_index bytes.new.items (slot start k) ≡ slice_index bytes.old.items (slot start k) }
{
    let from = (start + begin) % PLACES;
    reach(bytes, (from + text.len()).min(PLACES));
    keep_written(kept, ends, bytes, start, begin, room, text);
}

/// Keeps End at a place below `room`, unless a letter is kept there.
fn keep_end(ends: &mut [u64], start: usize, place: usize, room: usize)
    requires inside { (start < 32768) × (room ≤ 32768) }
    requires size { length ends.old ≡ 512 }
    ensures { (kept bytes : List ℕ) (k : ℕ) → place_at kept ends.new bytes start k ≡ option_or (place_at kept ends.old bytes start k)
        (offered (record { at = pos place; text = record { bytes = []; ended = true }; edge = room }) k) }
{
    if place < room {
        keep_end_at(ends, (start + place) % PLACES);
    }
}

/// Where the letters that stand from `at` on begin, if those before place `ready` are passed over, and how many those are.
fn start_of(at: i64, ready: usize) -> (usize, usize)
    requires at { (negsuc (2 ^ 40) ≤ℤ at) × (at ≤ℤ pos (2 ^ 40)) }
    requires ready { ready < 2 ^ 40 }
    ensures begin { ready ≤ result.0 }
    ensures skip { pos result.0 ≡ at +ℤ pos result.1 }
    ensures least { (result.0 ≡ ready) ⊎ (result.1 ≡ 0) }
{
    let begin = at.max(ready as i64);
    (begin as usize, (begin - at) as usize)
}

/// The first place from `from` on that keeps no byte, or `to`.
fn first_gap(kept: &[u64], start: usize, from: usize, to: usize) -> usize
    requires inside { (start < 32768) × (from ≤ to) × (to ≤ 32768) }
    requires size { length kept.now ≡ 512 }
    ensures range { (from ≤ result) × (result ≤ to) }
    ensures before { (k : ℕ) → from ≤ k → k < result → marked kept.now (slot start k) ≡ 1 }
    ensures here { result < to → marked kept.now (slot start result) ≡ 0 }
{
    let turn = PLACES - start;
    let place = if from < turn {
        gap(kept, start + from, start + to.min(turn)) - start
    } else {
        from
    };
    if place < turn {
        return place;
    }
    gap(kept, place - turn, to - turn) + turn
}

/// Keeps the letters that stand from `at` on, from place `ready` on and below place `room`, each unless a letter is kept
/// there.
fn keep(
    kept: &mut [u64],
    ends: &mut [u64],
    bytes: &mut Vec<u8>,
    start: usize,
    ready: usize,
    room: usize,
    at: i64,
    text: &[u8],
    end: bool,
)
    requires inside { (start < 32768) × (room ≤ 32768) }
    requires slots { (vec_len bytes.old ≤ 32768) × (32768 ≤ vec_capacity bytes.old) }
    requires sizes { (length kept.old ≡ 512) × (length ends.old ≡ 512) }
    requires at { (negsuc (2 ^ 40) ≤ℤ at) × (at ≤ℤ pos (2 ^ 40)) }
    requires small { (ready < 2 ^ 40) × (length text.now < 2 ^ 40) }
    ensures slots { (vec_len bytes.new ≤ 32768) × (32768 ≤ vec_capacity bytes.new) }
    ensures places { (k : ℕ) → ready ≤ k → place_at kept.new ends.new bytes.new.items start k
        ≡ option_or (place_at kept.old ends.old bytes.old.items start k)
        (offered (record { at = at; text = record { bytes = text.now; ended = end }; edge = room }) k) }
    ensures before { (k : ℕ) → k < ready → k < 32768
        → slice_index bytes.new.items (slot start k) ≡ slice_index bytes.old.items (slot start k) }
{
    let (begin, skip) = start_of(at, ready);
    if skip > text.len() {
        return;
    }
    let text = &text[skip..];
    keep_text(kept, ends, bytes, start, begin, room, text);
    if end {
        keep_end(ends, start, begin + text.len(), room);
    }
}

/// Keeps the letters of a text as `keep` does, and answers the first place from `ready` on that keeps no byte then, and
/// whether it keeps End. No place from `room` on counts.
pub(crate) fn take_in(
    kept: &mut [u64],
    ends: &mut [u64],
    bytes: &mut Vec<u8>,
    start: usize,
    ready: usize,
    room: usize,
    at: i64,
    text: &[u8],
    end: bool,
) -> (usize, bool)
    requires inside { (start < 32768) × (ready ≤ room) × (room ≤ 32768) }
    requires slots { (vec_len bytes.old ≤ 32768) × (32768 ≤ vec_capacity bytes.old) }
    requires sizes { (length kept.old ≡ 512) × (length ends.old ≡ 512) }
    requires at { (negsuc (2 ^ 40) ≤ℤ at) × (at ≤ℤ pos (2 ^ 40)) }
    requires small { length text.now < 2 ^ 40 }
    ensures slots { (length bytes.new.items ≤ 32768) × (32768 ≤ vec_capacity bytes.new) }
    ensures written { min (start + result.0) 32768 ≤ length bytes.new.items }
    ensures places { (k : ℕ) → ready ≤ k → place_at kept.new ends.new bytes.new.items start k
        ≡ option_or (place_at kept.old ends.old bytes.old.items start k)
        (offered (record { at = at; text = record { bytes = text.now; ended = end }; edge = room }) k) }
    ensures front { take ready (turned start (full bytes.new.items)) ≡ take ready (turned start (full bytes.old.items)) }
    ensures range { (ready ≤ result.0) × (result.0 ≤ room) }
    ensures taken { (k : ℕ) → ready ≤ k → k < result.0 → place_at kept.new ends.new bytes.new.items start k
        ≡ Some (Byte (slice_index (turned start (full bytes.new.items)) k)) }
    ensures ended { result.1 ≡ true → (result.0 < room) × (place_at kept.new ends.new bytes.new.items start result.0 ≡ Some End) }
    ensures unfinished { result.1 ≡ false → result.0 < room → place_at kept.new ends.new bytes.new.items start result.0 ≡ None }
{
    keep(kept, ends, bytes, start, ready, room, at, text, end);
    let place = first_gap(kept, start, ready, room);
    reach(bytes, (start + place).min(PLACES));
    (place, keeps_end(ends, start, place, room))
}

/// Whether End is marked at a place below `room`.
fn keeps_end(ends: &[u64], start: usize, place: usize, room: usize) -> bool
    requires inside { (start < 32768) × (place ≤ room) × (room ≤ 32768) }
    requires size { length ends.now ≡ 512 }
    ensures yes { result ≡ true → (place < room) × (marked ends.now (slot start place) ≡ 1) }
    ensures no { result ≡ false → place < room → marked ends.now (slot start place) ≡ 0 }
{
    place < room && has(ends, (start + place) % PLACES)
}

/// Words without a mark.
fn no_marks(alloc: Global, count: usize) -> Result<Vec<u64>, NoMemory>
    ensures len { IfOk result (λ v. vec_len v ≡ count) }
    ensures marks { IfOk result (λ v. (s : ℕ) → marked v.items s ≡ 0) }
{
    let Ok(words) = Vec::from_elem(alloc, 0, count) else {
        return Err(NoMemory);
    };
    Ok(words)
}

/// Room for the bytes of a number of slots, of which none has one.
fn slots(alloc: Global, count: usize) -> Result<Vec<u8>, NoMemory>
    ensures none { IfOk result (λ v. vec_len v ≡ 0) }
    ensures room { IfOk result (λ v. count ≤ vec_capacity v) }
{
    let Ok(bytes) = Vec::with_capacity(alloc, count) else {
        return Err(NoMemory);
    };
    Ok(bytes)
}

/// The marks and the bytes of a ring that keeps nothing.
pub(crate) fn empty(alloc: Global) -> Result<(Vec<u64>, Vec<u64>, Vec<u8>), NoMemory>
    ensures len { IfOk result (λ v. (vec_len v.0 ≡ 512) × (vec_len v.1 ≡ 512) × (vec_len v.2 ≡ 0)) }
    ensures room { IfOk result (λ v. 32768 ≤ vec_capacity v.2) }
    ensures places { IfOk result (λ v. (start k : ℕ) → place_at v.0.items v.1.items v.2.items start k ≡ None) }
{
    let kept = no_marks(alloc, PLACES / 64)?;
    let ends = no_marks(alloc, PLACES / 64)?;
    let bytes = slots(alloc, PLACES)?;
    Ok((kept, ends, bytes))
}

/// Takes the marks from the first `count` places.
fn release_marks(words: &mut [u64], start: usize, count: usize)
    requires inside { (start < 32768) × (count ≤ 32768) }
    requires size { length words.old ≡ 512 }
    ensures gone { (k : ℕ) → k < count → marked words.new (slot start k) ≡ 0 }
    ensures left { (k : ℕ) → count ≤ k → k < 32768 → marked words.new (slot start k) ≡ marked words.old (slot start k) }
{
    let first = count.min(PLACES - start);
    clear(words, start, start + first);
    clear(words, 0, count - first);
}

/// Keeps nothing at the first `count` places any more, which become the last ones.
pub(crate) fn release(kept: &mut [u64], ends: &mut [u64], start: usize, count: usize)
    requires inside { (start < 32768) × (count ≤ 32768) }
    requires sizes { (length kept.old ≡ 512) × (length ends.old ≡ 512) }
    ensures { (bytes : List ℕ) (k : ℕ) → place_at kept.new ends.new bytes (slot start count) k ≡ place_at kept.old ends.old bytes start
        (count + k) }
{
    release_marks(kept, start, count);
    release_marks(ends, start, count);
}

/// The first `ready` bytes from slot `start` on, of which those from slot 0 on are the second piece.
pub(crate) fn lend(bytes: &[u8], start: usize, ready: usize) -> View<'_>
    requires inside { (start < 32768) × (ready ≤ 32768) }
    requires slots { (length bytes.now ≤ 32768) × (min (start + ready) 32768 ≤ length bytes.now) }
    ensures bytes { result.bytes ≡ take ready (turned start (full bytes.now)) }
    ensures split { result.split ≡ min ready (32768 - start) }
{
    let stop = start + ready;
    if stop <= PLACES {
        return View::one(&bytes[start..stop]);
    }
    lend_turned(bytes, start, stop)
}

/// The bytes from slot `start` on, and then those from slot 0 on, to place `stop` from slot 0.
fn lend_turned(bytes: &[u8], start: usize, stop: usize) -> View<'_>
    requires { (start < 32768) × (32768 < stop) × (stop ≤ start + 32768) × (length bytes.now ≡ 32768) }
    ensures bytes { result.bytes ≡ take (stop - start) (turned start bytes.now) }
    ensures split { result.split ≡ min (stop - start) (32768 - start) }
{
    View::two(&bytes[start..], &bytes[..stop - PLACES])
}
