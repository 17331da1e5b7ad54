//! The record with which each byte of a flow came: one piece for bytes in a row that came with one record.
ghost use Rattle.std.specs.Prelude.{◌≡◌, ◌+◌, ◌^◌, ◌<◌, ◌++◌, ◌∷◌, [], ◌≤◌, ℕ, OnOk, drop, length, replicate, slice_index, true};
ghost use Rattle.cf_watch.specs.Pieces.{ArePieces, IsLastRecord, born_of, record_by};

use cf_view::NoMemory;
use std::alloc::Global;
use std::marker::Model;

/// The bytes from a place on, up to that of the next piece, came with the record of this number.
#[derive(Clone, Copy)]
pub(crate) struct Piece {
    /// Counted from 0.
    first: u32,
    /// Counted from 1.
    number: u32,
}

/// For each byte of a flow the number, counted from 1, of the record with which the bytes reached it. Contracts see the list of these
/// numbers; memory has 8 octets for each run of bytes with one number. It holds at most 2^32 - 1 of them, with those
/// that are kept no more: one more is answered as want of memory. This project's own.
#[derive(Drop)]
pub struct Born {
    pieces: Vec<Piece>,
    /// How many numbers there are, with those in front that are kept no more.
    count: u32,
    /// How many these are.
    gone: u32,
}

impl Model for Born {
    ghost use Rattle.std.specs.Prelude.{◌≤◌, ◌<◌, ◌^◌, ℕ, List, drop};

    ghost Value = { List ℕ };

    ghost use Rattle.cf_watch.specs.Pieces.{ArePieces, born_of};

    ghost view = { λ b. drop b.gone (born_of b.pieces.items b.count) };

    ghost invariant = { λ b. ArePieces b.pieces.items b.count × (b.gone ≤ b.count) × (b.count < 2 ^ 32) };
}

impl Born {
    /// No numbers.
    pub fn new(alloc: Global) -> Born
        ensures { result ≡ [] }
    {
        Born {
            pieces: Vec::new(alloc),
            count: 0,
            gone: 0,
        }
    }

    /// Puts a number after the others.
    pub(crate) fn push(&mut self, number: u64) -> Result<(), NoMemory>
        requires number { number < 2 ^ 32 }
        ensures { OnOk result (self.new ≡ self.old ++ number ∷ []) }
    {
        self.push_all(number, 1)
    }

    /// Puts a number after the others, so many times.
    pub(crate) fn push_all(&mut self, number: u64, count: usize) -> Result<(), NoMemory>
        requires number { number < 2 ^ 32 }
        ensures { OnOk result (self.new ≡ self.old ++ replicate count number) }
    {
        if count > (u32::MAX - self.count) as usize {
            return Err(NoMemory);
        }
        go_on(&mut self.pieces, self.count, number as u32)?;
        self.count += count as u32;
        Ok(())
    }

    /// Without its first numbers, so many.
    pub(crate) fn forget(&mut self, count: usize)
        requires inside { count ≤ length self.old }
        ensures { self.new ≡ drop count self.old }
    {
        let place = self.gone as usize + count;
        self.gone = place as u32;
        let behind = self
            .pieces
            .as_slice()
            .partition_point(|piece| piece.first as usize <= place);
        leave_from(&mut self.pieces, behind.saturating_sub(1));
    }

    /// The number at a place, counted from 0.
    pub(crate) fn record_at(&self, place: usize) -> u64
        requires place { place < length self.now }
        ensures { result ≡ slice_index self.now place }
    {
        u64::from(record_by(self.pieces.as_slice(), place + self.gone as usize))
    }
}

/// Makes pieces of so many numbers those of more numbers, each of which is this one.
fn go_on(pieces: &mut Vec<Piece>, count: u32, number: u32) -> Result<(), NoMemory>
    requires pieces { ArePieces pieces.old.items count }
    ensures more { OnOk result ((more : ℕ) → born_of pieces.new.items (count + more)
        ≡ born_of pieces.old.items count ++ replicate more number) }
    ensures pieces { ArePieces pieces.new.items count }
{
    if is_last(pieces.as_slice(), number) {
        return Ok(());
    }
    let piece = Piece {
        first: count,
        number,
    };
    match pieces.push(piece) {
        Ok(()) => Ok(()),
        Err(_) => Err(NoMemory),
    }
}

/// Whether the last piece is of this record.
fn is_last(pieces: &[Piece], number: u32) -> bool
    ensures { result ≡ true → IsLastRecord pieces.now number }
{
    match pieces.last() {
        Some(piece) => piece.number == number,
        None => false,
    }
}

/// The record of the last piece that begins at a place or before it, or 0 where none does.
fn record_by(pieces: &[Piece], place: usize) -> u32
    ensures { (count : _) → ArePieces pieces.now count → result ≡ record_by 0 pieces.now place }
{
    let behind = pieces.partition_point(|piece| piece.first as usize <= place);
    match behind.checked_sub(1) {
        Some(last) => pieces[last].number,
        None => 0,
    }
}

/// Leaves out pieces in front, so many.
fn leave_from(pieces: &mut Vec<Piece>, count: usize)
    requires { count ≤ length pieces.old.items }
    ensures { pieces.new.items ≡ drop count pieces.old.items }
{
    let left = pieces.len() - count;
    pieces.rotate_left(count);
    pieces.truncate(left);
}
