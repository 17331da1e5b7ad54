//! The blocks of a pcapng file.
ghost use Rattle.std.specs.Prelude.{◌≡◌, ◌^◌, ◌<◌, ◌≤◌, ℕ, List, IfErr, IfOk, IfSome, None, length, take};
ghost use Rattle.cf_outside.specs.Frames.{OnlyReads};
ghost use Rattle.cf_outside.specs.Part.{IsFilled};
ghost use Rattle.cf_records.specs.Capture.{refused_by};
ghost use Rattle.cf_records.specs.Pieces.{EndsAs, FindsPiece, IsNoRecord, IsPieceInside, PieceAs, SizeAs, SizeFits};
ghost use Rattle.cf_records.specs.declared.form.Form.TheVariants as form;
ghost use Rattle.cf_records.specs.declared.record_reader.NextRecord.TheVariants as next;
ghost use Rattle.cf_records.specs.declared.record_reader.Piece.TheVariants as piece;

use crate::record_reader::{NextRecord, PLACE_LIMIT, Piece};
use cf_outside::{Files, fill};
use cf_pcapng::{
    BlockAnswer, BlockSize, REFUSED_INTERFACE, REFUSED_LENGTH, REFUSED_RESOLUTION, REFUSED_SECTION,
    Reader,
};

/// How many octets tell the length of a block of any type.
const TOLD_OCTETS: usize = 28;

/// Where the captured octets of an enhanced packet begin in its block. draft-ietf-opsawg-pcapng, section 4.3.
const BODY_PLACE: usize = 28;

/// Why a block of a pcapng file is refused. The captured length of a packet is told as that of a record.
#[derive(Clone, Copy, PartialEq, Eq, Debug)]
pub enum BlockRefusal {
    /// Its length is not allowed, its second length differs, or the bytes of a packet do not fit it.
    Block,
    /// A section header has a wrong magic, or another major version than 1.
    Section,
    /// An interface is the 65th of its section; or that of a packet is not described, or its link type is neither 1 (Ethernet) nor
    /// 101 (raw IP).
    Interface,
    /// The unit of time of a packet's interface is no power of ten from a second down to a nanosecond.
    Resolution,
}

/// Reads the block at a place.
pub fn block_piece<F: Files>(
    name: &str,
    reader: &mut Reader,
    place: u64,
    buffer: &mut [u8],
    files: &mut F,
) -> Piece
    requires near { place ≤ 2 ^ 40 }
    requires room { length buffer.old ≡ 16777216 }
    ensures found { FindsPiece (F.content files.old name.now) (form.Blocks reader.old) place (form.Blocks reader.new) buffer.new result }
    ensures inside { IsPieceInside place (length buffer.new) result }
    ensures length { length buffer.new ≡ length buffer.old }
    ensures reads { OnlyReads name.now F.content F.read_faults F.write_faults files.old files.new (result ≡ piece.Ends next.Failed) }
{
    let Some(have) = fill(name, place, 0, TOLD_OCTETS, buffer, files) else {
        return Piece::Ends(NextRecord::Failed);
    };
    let size = match size_at(reader, place, &buffer[..have]) {
        Ok(size) => size,
        Err(answer) => return Piece::Ends(answer),
    };
    let Some(have) = fill_more(name, place, have, size, buffer, files) else {
        return Piece::Ends(NextRecord::Failed);
    };
    whole_at(reader, place, &buffer[..have])
}

/// Reads the rest of a block that takes so many octets, of which some stand in the buffer already.
fn fill_more<F: Files>(
    name: &str,
    place: u64,
    have: usize,
    size: usize,
    buffer: &mut [u8],
    files: &mut F,
) -> Option<usize>
    requires near { place ≤ 2 ^ 40 }
    requires room { length buffer.old ≡ 16777216 }
    requires first { IsFilled (F.content files.old name.now) place 28 (take have buffer.old) }
    requires have { have ≤ 28 }
    requires size { (0 < size) × (size ≤ 16777216) }
    ensures inside { IfSome result (λ have. have ≤ size) }
    ensures filled { IfSome result (λ have. IsFilled (F.content files.old name.now) place size (take have buffer.new)) }
    ensures length { length buffer.new ≡ length buffer.old }
    ensures reads { OnlyReads name.now F.content F.read_faults F.write_faults files.old files.new (result ≡ None) }
{
    if size <= have {
        return Some(size);
    }
    // The file ends there.
    if have < TOLD_OCTETS {
        return Some(have);
    }
    fill(name, place, TOLD_OCTETS, size, buffer, files)
}

/// How many octets the block takes that begins at a place of a file, by its first 28; there are fewer where the file ends.
fn size_at(reader: &Reader, place: u64, first: &[u8]) -> Result<usize, NextRecord>
    requires near { place ≤ 2 ^ 40 }
    requires short { length first.now ≤ 28 }
    ensures found { (octets : List ℕ) → first.now ≡ take 28 octets → SizeAs reader.now place octets result }
    ensures limits { IfOk result (λ size. (12 ≤ size) × (size ≤ 16777216)) }
    ensures tells { result ≡ Err next.Failed → ⊥ }
    ensures none { IfErr result IsNoRecord }
{
    if first.is_empty() {
        return Err(NextRecord::End);
    }
    if place + first.len().min(8) as u64 > PLACE_LIMIT {
        return Err(NextRecord::Large);
    }
    match reader.block_size(first) {
        BlockSize::Size(size) => Ok(size),
        BlockSize::Need(_) => Err(NextRecord::Cut),
        BlockSize::Refused(number) => Err(refused(number)),
    }
}

/// What the octets of a block say at a place of a file; there are fewer where the file ends.
fn whole_at(reader: &mut Reader, place: u64, octets: &[u8]) -> Piece
    requires near { place ≤ 2 ^ 40 }
    requires short { length octets.now ≤ 16777216 }
    ensures found { (all : List ℕ) (size : ℕ) → octets.now ≡ take size all → SizeFits reader.old place all size
        → PieceAs (form.Blocks reader.old) place all (form.Blocks reader.new) octets.now result }
    ensures inside { IsPieceInside place (length octets.now) result }
    ensures tells { result ≡ piece.Ends next.Failed → ⊥ }
{
    if place + octets.len() as u64 > PLACE_LIMIT {
        return Piece::Ends(NextRecord::Large);
    }
    match reader.next_block(octets) {
        BlockAnswer::Record {
            stamp,
            link,
            body,
            used,
        } => Piece::Record {
            stamp,
            link,
            from: BODY_PLACE,
            to: BODY_PLACE + body.len(),
            used,
        },
        BlockAnswer::Passed(used) => Piece::Passed(used),
        BlockAnswer::Need(_) => Piece::Ends(NextRecord::Cut),
        BlockAnswer::Refused(number) => Piece::Ends(refused(number)),
    }
}

/// A refusal of a block, as the reader tells it.
fn refused(number: u8) -> NextRecord
    ensures value { EndsAs result (refused_by number) }
    ensures tells { result ≡ next.Failed → ⊥ }
    ensures none { IsNoRecord result }
{
    match number {
        REFUSED_LENGTH => NextRecord::TooLong,
        REFUSED_SECTION => NextRecord::Refused(BlockRefusal::Section),
        REFUSED_INTERFACE => NextRecord::Refused(BlockRefusal::Interface),
        REFUSED_RESOLUTION => NextRecord::Refused(BlockRefusal::Resolution),
        _ => NextRecord::Refused(BlockRefusal::Block),
    }
}
