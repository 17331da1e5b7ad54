//! What the letters of a packet do to a flow.
ghost use Rattle.std.specs.Prelude.{◌≡◌, ◌≢◌, ◌+◌, ◌^◌, ◌++◌, ◌∷◌, [], IfSome, ◌<◌, ◌≤◌, ◌≤ℤ◌, ◌⊎◌, ℕ, pos, None, Some};
ghost use Rattle.std.specs.Prelude.{OnOk, IfOk, false, true, List, length, option_map, take, ◌↔◌, IsTrue, ◌-ℤ◌, ◌<ℤ◌, ◌+ℤ◌};
ghost use Rattle.std.specs.Option.{option_or};
ghost use Rattle.cf_stream.specs.Stream.{Byte, letter_count};
ghost use Rattle.cf_watch.specs.Kept.{Advances, GrowsBehind, IsKept, IsRoom, TakesBehind, kept, known, letter_value, row_value};
ghost use Rattle.cf_watch.specs.Kept.{stream_of, with_gone};
ghost use Rattle.cf_watch.specs.Stretches.{letter_came};

use crate::ahead::{Ahead, Letters, Portion, keep_portion, letter_kept, room_at};
use crate::flow::{Conflict, Flow};
use crate::letter::Letter;
use cf_view::NoMemory;
use std::alloc::Global;

/// How far below position 0 a letter stands at most, since numbers are read within 2^31 of a position that is at least 0.
pub(crate) const BELOW: u64 = 1 << 31;

/// The letter that is known at a place. The bytes of the flow before this base are kept no more.
fn letter_at(bytes: &[u8], base: u64, ahead: &Ahead, place: u64) -> Option<Letter>
    requires place { place ≤ 2 ^ 63 }
    requires kept { base ≤ place }
    ensures { (gone : List ℕ) → length gone ≡ base → option_map letter_value result ≡ known (gone ++ bytes.now) ahead.now place }
{
    let kept = place - base;
    if kept < bytes.len() as u64 {
        return Some(Letter::Byte(bytes[kept as usize]));
    }
    letter_kept(ahead, place + BELOW)
}

/// Puts a byte after the others.
fn push(flow: &mut Flow, number: u64, byte: u8) -> Result<(), NoMemory>
    requires number { number < 2 ^ 32 }
    ensures grows { OnOk result (GrowsBehind number flow.old flow.new) }
    ensures bytes { OnOk result (flow.new.bytes.items ≡ flow.old.bytes.items ++ byte ∷ []) }
    ensures conflict { flow.new.conflict ≡ flow.old.conflict }
{
    if flow.bytes.push(byte).is_err() || flow.born.push(number).is_err() {
        return Err(NoMemory);
    }
    Ok(())
}

/// Puts a text after the other bytes.
fn carry_on(flow: &mut Flow, number: u64, text: &[u8]) -> Result<(), NoMemory>
    requires number { number < 2 ^ 32 }
    ensures grows { OnOk result (GrowsBehind number flow.old flow.new) }
    ensures bytes { OnOk result (flow.new.bytes.items ≡ flow.old.bytes.items ++ text.now) }
    ensures conflict { flow.new.conflict ≡ flow.old.conflict }
{
    if flow.bytes.extend_from_slice(text).is_err()
        || flow.born.push_all(number, text.len()).is_err()
    {
        return Err(NoMemory);
    }
    Ok(())
}

/// Where a letter stands among those that stand apart.
fn key_at(at: i64) -> u64
    requires from { (pos 0 -ℤ pos (2 ^ 31)) ≤ℤ at }
    requires past { at ≤ℤ pos (2 ^ 62 + 2 ^ 16) }
    ensures { pos result ≡ at +ℤ pos (2 ^ 31) }
{
    (at + BELOW as i64) as u64
}

/// Letters that came with this record.
fn portion_of(number: u64, letters: Letters) -> Portion
    requires { number < 2 ^ 32 }
    ensures letters { row_value result.letters ≡ row_value letters }
    ensures number { result.number ≡ number }
{
    Portion {
        letters,
        number: number as u32,
    }
}

/// Keeps letters apart where there is room for them.
fn keep_apart(ahead: &mut Ahead, number: u64, at: i64, letters: Letters) -> Result<(), NoMemory>
    requires number { number < 2 ^ 32 }
    requires from { (pos 0 -ℤ pos (2 ^ 31)) ≤ℤ at }
    requires past { at ≤ℤ pos (2 ^ 62 + 2 ^ 16) }
    requires some { 0 < letter_count (row_value letters) }
    requires room { (q : ℕ) → pos q ≡ at +ℤ pos (2 ^ 31) → IsRoom q (letter_count (row_value letters)) ahead.old }
    ensures { OnOk result ((q : ℕ) → kept ahead.new q
        ≡ option_or (kept ahead.old q) (letter_came (record { number = number; at = at; text = row_value letters }) q)) }
{
    let portion = portion_of(number, letters);
    keep_portion(ahead, key_at(at), portion)?;
    Ok(())
}

/// A letter alone.
fn one(alloc: Global, letter: Letter) -> Result<Letters, NoMemory>
    ensures { IfOk result (λ letters. row_value letters ≡ stream_of letter) }
{
    match letter {
        Letter::Byte(byte) => {
            let mut bytes = Vec::new(alloc);
            match bytes.push(byte) {
                Ok(()) => Ok(Letters::Bytes(bytes)),
                Err(_) => Err(NoMemory),
            }
        }
        Letter::End => Ok(Letters::End),
    }
}

/// Keeps a letter where none is known: the next byte with the others, and else apart.
fn keep(
    alloc: Global,
    flow: &mut Flow,
    base: u64,
    ahead: &mut Ahead,
    number: u64,
    at: i64,
    letter: Letter,
) -> Result<(), NoMemory>
    requires number { number < 2 ^ 32 }
    requires base { base ≤ 2 ^ 62 }
    requires from { pos 0 ≤ℤ at }
    requires past { at ≤ℤ pos (2 ^ 62 + 2 ^ 16) }
    requires blank { (gone : List ℕ) (place : ℕ) → length gone ≡ base → pos place ≡ at
        → known (gone ++ flow.old.bytes.items) ahead.old place ≡ None }
    ensures takes { OnOk result (TakesBehind base (record { number = number; at = at; text = stream_of letter }) flow.old ahead.old flow.new
        ahead.new) }
{
    match next_byte(reached(flow, base), at, letter) {
        Some(byte) => {
            push(flow, number, byte)?;
            Ok(())
        }
        None => {
            let letters = one(alloc, letter)?;
            keep_apart(ahead, number, at, letters)?;
            Ok(())
        }
    }
}

/// How many bytes a flow has, with those before this base, which are kept no more.
fn reached(flow: &Flow, base: u64) -> u64
    requires { base ≤ 2 ^ 62 }
    ensures { result ≡ base + length flow.now.bytes.items }
{
    base + flow.bytes.len() as u64
}

/// The byte that a letter is, where it stands behind those of a flow, which has so many.
fn next_byte(count: u64, at: i64, letter: Letter) -> Option<u8>
    requires { pos 0 ≤ℤ at }
    ensures letter { IfSome result (λ byte. letter ≡ Letter.Byte byte) }
    ensures place { IfSome result (λ byte. pos count ≡ at) }
{
    match letter {
        Letter::Byte(byte) if at as u64 == count => Some(byte),
        Letter::Byte(_) | Letter::End => None,
    }
}

/// Keeps a letter below position 0, where none is kept.
fn keep_below(
    alloc: Global,
    ahead: &mut Ahead,
    number: u64,
    at: i64,
    letter: Letter,
) -> Result<(), NoMemory>
    requires number { number < 2 ^ 32 }
    requires from { (pos 0 -ℤ pos (2 ^ 31)) ≤ℤ at }
    requires to { at <ℤ pos 0 }
    ensures { OnOk result ((q : ℕ) → kept ahead.new q
        ≡ option_or (kept ahead.old q) (letter_came (record { number = number; at = at; text = stream_of letter }) q)) }
{
    if letter_kept(ahead, key_at(at)).is_some() {
        return Ok(());
    }
    let letters = one(alloc, letter)?;
    keep_apart(ahead, number, at, letters)?;
    Ok(())
}

/// Whether two letters differ.
fn differ(first: Letter, other: Letter) -> bool
    ensures { IsTrue result ↔ (letter_value other ≢ letter_value first) }
{
    first != other
}

/// Takes a letter that a packet carries.
fn carry_letter(
    alloc: Global,
    flow: &mut Flow,
    base: u64,
    ahead: &mut Ahead,
    number: u64,
    at: i64,
    letter: Letter,
) -> Result<(), NoMemory>
    requires number { number < 2 ^ 32 }
    requires base { base ≤ 2 ^ 62 }
    requires kept { IsKept base at }
    requires from { (pos 0 -ℤ pos (2 ^ 31)) ≤ℤ at }
    requires past { at ≤ℤ pos (2 ^ 62 + 2 ^ 16) }
    ensures takes { OnOk result (TakesBehind base (record { number = number; at = at; text = stream_of letter }) flow.old ahead.old flow.new
        ahead.new) }
{
    if at < 0 {
        keep_below(alloc, ahead, number, at, letter)?;
        return Ok(());
    }
    let place = at as u64;
    match letter_at(flow.bytes.as_slice(), base, ahead, place) {
        None => {
            keep(alloc, flow, base, ahead, number, at, letter)?;
            Ok(())
        }
        Some(first) => {
            if flow.conflict.is_none() && differ(first, letter) {
                flow.conflict = Some(Conflict {
                    at_record: number,
                    position: at,
                });
            }
            Ok(())
        }
    }
}

/// How many letters of a packet, at most so many, can be kept apart at once from a place on, where the flow has so many bytes.
fn room_apart(count: u64, ahead: &Ahead, at: i64, most: usize) -> usize
    requires from { (pos 0 -ℤ pos (2 ^ 31)) ≤ℤ at }
    requires past { at ≤ℤ pos (2 ^ 62 + 2 ^ 16) }
    ensures most { result ≤ most }
    ensures room { (q : ℕ) → pos q ≡ at +ℤ pos (2 ^ 31) → IsRoom q result ahead.now }
    ensures apart { 0 < result → ((at +ℤ pos result) ≤ℤ pos 0) ⊎ (pos count ≤ℤ at) }
{
    if at < 0 {
        return room_at(ahead, key_at(at), most.min((0 - at) as usize));
    }
    if at as u64 <= count {
        return 0;
    }
    room_at(ahead, key_at(at), most)
}

/// Keeps bytes apart where there is room for them.
fn keep_bytes(
    alloc: Global,
    ahead: &mut Ahead,
    number: u64,
    at: i64,
    bytes: &[u8],
) -> Result<(), NoMemory>
    requires number { number < 2 ^ 32 }
    requires from { (pos 0 -ℤ pos (2 ^ 31)) ≤ℤ at }
    requires past { at ≤ℤ pos (2 ^ 62 + 2 ^ 16) }
    requires some { 0 < length bytes.now }
    requires room { (q : ℕ) → pos q ≡ at +ℤ pos (2 ^ 31) → IsRoom q (length bytes.now) ahead.old }
    ensures { OnOk result ((q : ℕ) → kept ahead.new q ≡ option_or (kept ahead.old q)
        (letter_came (record { number = number; at = at; text = record { bytes = bytes.now; ended = false } }) q)) }
{
    let mut own = Vec::new(alloc);
    if own.extend_from_slice(bytes).is_err() {
        return Err(NoMemory);
    }
    keep_apart(ahead, number, at, Letters::Bytes(own))?;
    Ok(())
}

/// Whether a place is the one behind the bytes of a flow, which has so many, and no letter stands apart from them.
fn is_next(count: u64, ahead: &Ahead, at: i64) -> bool
    ensures place { result ≡ true → pos count ≡ at }
    ensures alone { result ≡ true → (q : ℕ) → kept ahead.now q ≡ None }
{
    at >= 0 && at as u64 == count && ahead.is_empty()
}

/// Takes the first bytes of a text that a packet carries, and answers how many: all of one that comes in order.
fn carry_some(
    alloc: Global,
    flow: &mut Flow,
    base: u64,
    ahead: &mut Ahead,
    number: u64,
    at: i64,
    text: &[u8],
) -> Result<usize, NoMemory>
    requires number { number < 2 ^ 32 }
    requires base { base ≤ 2 ^ 62 }
    requires kept { IsKept base at }
    requires from { (pos 0 -ℤ pos (2 ^ 31)) ≤ℤ at }
    requires past { at ≤ℤ pos (2 ^ 62 + 2 ^ 16) }
    requires some { 0 < length text.now }
    ensures some { IfOk result (λ n. 0 < n) }
    ensures most { IfOk result (λ n. n ≤ length text.now) }
    ensures takes { IfOk result (λ n. TakesBehind base
        (record { number = number; at = at; text = record { bytes = take n text.now; ended = false } })
        flow.old ahead.old flow.new ahead.new) }
{
    let next = reached(flow, base);
    if is_next(next, ahead, at) {
        carry_on(flow, number, text)?;
        return Ok(text.len());
    }
    let count = room_apart(next, ahead, at, text.len());
    if count == 0 {
        carry_letter(alloc, flow, base, ahead, number, at, Letter::Byte(text[0]))?;
        return Ok(1);
    }
    keep_bytes(alloc, ahead, number, at, &text[..count])?;
    Ok(count)
}

/// Takes the bytes that a packet carries, the first of them at a place.
fn carry_text(
    alloc: Global,
    flow: &mut Flow,
    base: u64,
    ahead: &mut Ahead,
    number: u64,
    at: i64,
    text: &[u8],
) -> Result<(), NoMemory>
    requires number { number < 2 ^ 32 }
    requires base { base ≤ 2 ^ 62 }
    requires kept { IsKept base at }
    requires from { (pos 0 -ℤ pos (2 ^ 31)) ≤ℤ at }
    requires past { at ≤ℤ pos (2 ^ 62) }
    requires short { length text.now ≤ 65535 }
    ensures takes { OnOk result (TakesBehind base
        (record { number = number; at = at; text = record { bytes = text.now; ended = false } }) flow.old ahead.old flow.new ahead.new) }
{
    let mut i = 0;
    'letters: while i < text.len() {
        i += carry_some(alloc, flow, base, ahead, number, at + i as i64, &text[i..])?;
    }
    Ok(())
}

/// Takes the letters of a packet to a flow whose bytes before this base are kept no more.
pub(crate) fn carry(
    alloc: Global,
    flow: &mut Flow,
    base: u64,
    ahead: &mut Ahead,
    number: u64,
    at: i64,
    text: &[u8],
    ended: bool,
) -> Result<(), NoMemory>
    requires number { number < 2 ^ 32 }
    requires base { base ≤ 2 ^ 62 }
    requires kept { IsKept base at }
    requires from { (pos 0 -ℤ pos (2 ^ 31)) ≤ℤ at }
    requires past { at ≤ℤ pos (2 ^ 62) }
    requires short { length text.now ≤ 65535 }
    ensures takes { OnOk result (TakesBehind base
        (record { number = number; at = at; text = record { bytes = text.now; ended = ended } }) flow.old ahead.old flow.new ahead.new) }
{
    carry_text(alloc, flow, base, ahead, number, at, text)?;
    if ended {
        carry_letter(
            alloc,
            flow,
            base,
            ahead,
            number,
            at + text.len() as i64,
            Letter::End,
        )?;
    }
    Ok(())
}

/// Goes on over the bytes that came ahead, up to the first gap or End.
pub(crate) fn advance(
    flow: &mut Flow,
    base: u64,
    ahead: &Ahead,
    number: u64,
) -> Result<(), NoMemory>
    requires number { number < 2 ^ 32 }
    requires base { base ≤ 2 ^ 62 }
    ensures advances { OnOk result ((gone gone_born : List ℕ) → length gone ≡ base
        → Advances number ahead.now (with_gone gone gone_born flow.old) (with_gone gone gone_born flow.new)) }
{
    'bytes: loop {
        match letter_kept(ahead, reached(flow, base) + BELOW) {
            Some(Letter::Byte(byte)) => push(flow, number, byte)?,
            Some(Letter::End) | None => return Ok(()),
        }
    }
}
