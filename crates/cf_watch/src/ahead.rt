//! Letters that stand apart from the bytes of their flow: portions by their places, so that memory has about an octet for each byte.
ghost use Rattle.std.specs.Prelude.{◌≡◌, ◌+◌, ◌-◌, ◌<◌, ◌≤◌, ℕ, None, Some, OnOk, IfSome, option_map, if◌then◌else◌, ◌==◌};
ghost use Rattle.std.specs.BTreeMap.{get};
ghost use Rattle.std.specs.Option.{option_or};
ghost use Rattle.std.specs.Ordering.{nat_cmp};
ghost use Rattle.cf_stream.specs.Stream.{letter_at, letter_count};
ghost use Rattle.cf_watch.specs.Kept.{IsFirst, IsRoom, IsUpToNext, kept, letter_of_portion, letter_value, row_value};

use crate::letter::Letter;
use cf_view::NoMemory;
use std::collections::BTreeMap;
use std::ops::Bound;

/// Bytes at places one after the other, or End.
#[derive(Drop)]
pub(crate) enum Letters {
    Bytes(Vec<u8>),
    End,
}

/// Letters that came with one record.
#[derive(Drop)]
pub(crate) struct Portion {
    pub(crate) letters: Letters,
    /// The number of the record, counted from 1.
    pub(crate) number: u32,
}

/// Portions by the places of their first letters, counted from `BELOW` places below position 0. Where the next one begins, one ends.
pub(crate) type Ahead = BTreeMap<u64, Portion>;

/// The letter of a portion so many places behind its beginning.
fn letter_in(portion: &Portion, place: u64) -> Option<Letter>
    ensures { option_map letter_value result ≡ letter_at (row_value portion.now.letters) place }
{
    match &portion.letters {
        Letters::Bytes(bytes) => match bytes.get(place as usize) {
            Some(byte) => Some(Letter::Byte(*byte)),
            None => None,
        },
        Letters::End => { if place == 0 { Some(Letter::End) } else { None } }
    }
}

/// The letter that is kept at a place.
pub(crate) fn letter_kept(ahead: &Ahead, place: u64) -> Option<Letter>
    ensures { option_map letter_value result ≡ option_map (λ c. c.letter) (kept ahead.now place) }
{
    if ahead.is_empty() {
        return None;
    }
    match ahead.range(..=place).next_back() {
        Some((start, portion)) => letter_in(portion, place - *start),
        None => None,
    }
}

/// Where the first portion behind a place begins.
fn next_start(ahead: &Ahead, place: u64) -> Option<u64>
    ensures some { IfSome result (λ start. place < start) }
    ensures between { IfSome result (λ start. (r : ℕ) → place < r → r < start → get nat_cmp ahead.now r ≡ None) }
    ensures none { result ≡ None → (r : ℕ) → place < r → get nat_cmp ahead.now r ≡ None }
{
    match ahead
        .range((Bound::Excluded(place), Bound::Unbounded))
        .next()
    {
        Some((start, _)) => Some(*start),
        None => None,
    }
}

/// How many letters can be kept from a place on, at most so many.
pub(crate) fn room_at(ahead: &Ahead, place: u64, most: usize) -> usize
    ensures most { result ≤ most }
    ensures room { IsRoom place result ahead.now }
{
    if letter_kept(ahead, place).is_some() {
        return 0;
    }
    match next_start(ahead, place) {
        Some(start) if start - place < most as u64 => (start - place) as usize,
        Some(_) | None => most,
    }
}

/// Keeps a portion where there is room for it.
pub(crate) fn keep_portion(ahead: &mut Ahead, place: u64, portion: Portion) -> Result<(), NoMemory>
    requires some { 0 < letter_count (row_value portion.letters) }
    requires room { IsRoom place (letter_count (row_value portion.letters)) ahead.old }
    ensures before { OnOk result ((q : ℕ) → q < place → kept ahead.new q ≡ kept ahead.old q) }
    ensures behind { OnOk result ((k : ℕ) → kept ahead.new (place + k) ≡ option_or (kept ahead.old (place + k)) (letter_of_portion portion k)) }
{
    match ahead.insert(place, portion) {
        Ok(_) => Ok(()),
        Err(_) => Err(NoMemory),
    }
}

/// Takes the portion of the lowest place out, if there is one.
pub(crate) fn take_first(ahead: &mut Ahead) -> Option<(u64, Portion)>
    ensures some { IfSome result (λ p. IsFirst p.0 p.1 ahead.old ahead.new) }
    ensures none { result ≡ None → (q : ℕ) → kept ahead.old q ≡ None }
{
    match ahead.pop_first() {
        Some((start, portion)) => Some((start, up_to_next(ahead, start, portion))),
        None => None,
    }
}

/// A portion that began at a place, up to where the next one begins.
fn up_to_next(ahead: &Ahead, start: u64, portion: Portion) -> Portion
    requires { (r : ℕ) → r ≤ start → get nat_cmp ahead.now r ≡ None }
    ensures { IsUpToNext ahead.now start portion result }
{
    match ahead.first_key_value() {
        Some((next, _)) => Portion {
            letters: up_to(portion.letters, *next - start),
            number: portion.number,
        },
        None => portion,
    }
}

/// The first letters, at most so many.
fn up_to(letters: Letters, most: u64) -> Letters
    requires { 0 < most }
    ensures count { letter_count (row_value result) ≤ most }
    ensures same { (k : ℕ) → k < letter_count (row_value result) → letter_at (row_value result) k ≡ letter_at (row_value letters) k }
    ensures rest { (k : ℕ) → letter_count (row_value result) ≤ k → k < most → letter_at (row_value letters) k ≡ None }
{
    match letters {
        Letters::Bytes(mut bytes) => {
            bytes.truncate(most as usize);
            Letters::Bytes(bytes)
        }
        Letters::End => Letters::End,
    }
}
