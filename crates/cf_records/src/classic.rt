//! The records of a classic file.
ghost use Rattle.std.specs.Prelude.{◌≡◌, ◌^◌, ◌≤◌, ℕ, List, IfErr, IfOk, length, take};
ghost use Rattle.cf_outside.specs.Frames.{OnlyReads};
ghost use Rattle.cf_records.specs.Pieces.{FindsPiece, HeadAs, HeadFits, IsNoRecord, IsPieceInside, PieceAs};
ghost use Rattle.cf_records.specs.declared.form.Form.TheVariants as form;
ghost use Rattle.cf_records.specs.declared.record_reader.NextRecord.TheVariants as next;
ghost use Rattle.cf_records.specs.declared.record_reader.Piece.TheVariants as piece;

use crate::record_reader::{NextRecord, PLACE_LIMIT, Piece};
use cf_outside::{Files, fill};
use cf_pcap::{Header, RecordAnswer, read_record};

/// How many octets the head of a record has. draft-ietf-opsawg-pcap, section 5.
const HEAD_OCTETS: usize = 16;

/// Reads the record at a place.
pub fn classic_piece<F: Files>(
    name: &str,
    header: &Header,
    place: u64,
    buffer: &mut [u8],
    files: &mut F,
) -> Piece
    requires near { place ≤ 2 ^ 40 }
    requires room { length buffer.old ≡ 262160 }
    ensures found { FindsPiece (F.content files.old name.now) (form.Classic header.now) place (form.Classic header.now) buffer.new result }
    ensures inside { IsPieceInside place (length buffer.new) result }
    ensures length { length buffer.new ≡ length buffer.old }
    ensures reads { OnlyReads name.now F.content F.read_faults F.write_faults files.old files.new (result ≡ piece.Ends next.Failed) }
{
    let Some(have) = fill(name, place, 0, HEAD_OCTETS, buffer, files) else {
        return Piece::Ends(NextRecord::Failed);
    };
    let size = match head_at(header, place, &buffer[..have]) {
        Ok(size) => size,
        Err(answer) => return Piece::Ends(answer),
    };
    let Some(have) = fill(name, place, HEAD_OCTETS, size, buffer, files) else {
        return Piece::Ends(NextRecord::Failed);
    };
    body_at(header, place, &buffer[..have])
}

/// How many octets the record takes that begins at a place of a file, by those of its head; there are fewer where the file ends.
fn head_at(header: &Header, place: u64, head: &[u8]) -> Result<usize, NextRecord>
    requires near { place ≤ 2 ^ 40 }
    requires short { length head.now ≤ 16 }
    ensures found { (octets : List ℕ) → head.now ≡ take 16 octets → HeadAs header.now place octets result }
    ensures limits { IfOk result (λ size. (16 ≤ size) × (size ≤ 262160) × (length head.now ≡ 16)) }
    ensures tells { result ≡ Err next.Failed → ⊥ }
    ensures none { IfErr result IsNoRecord }
{
    if head.is_empty() {
        return Err(NextRecord::End);
    }
    if place + head.len() as u64 > PLACE_LIMIT {
        return Err(NextRecord::Large);
    }
    match read_record(header, head) {
        RecordAnswer::TooLong => Err(NextRecord::TooLong),
        RecordAnswer::Whole { used, .. } => Ok(used),
        RecordAnswer::Need(size) => {
            if head.len() < HEAD_OCTETS {
                Err(NextRecord::Cut)
            } else {
                Ok(size)
            }
        }
    }
}

/// What the octets of a record say at a place of a file; there are fewer where the file ends.
fn body_at(header: &Header, place: u64, octets: &[u8]) -> Piece
    requires near { place ≤ 2 ^ 40 }
    requires short { length octets.now ≤ 262160 }
    ensures found { (all : List ℕ) (size : ℕ) → octets.now ≡ take size all → HeadFits header.now place all size
        → PieceAs (form.Classic header.now) place all (form.Classic header.now) octets.now result }
    ensures inside { IsPieceInside place (length octets.now) result }
    ensures tells { result ≡ piece.Ends next.Failed → ⊥ }
{
    if place + octets.len() as u64 > PLACE_LIMIT {
        return Piece::Ends(NextRecord::Large);
    }
    match read_record(header, octets) {
        RecordAnswer::Whole { stamp, used, .. } => Piece::Record {
            stamp,
            link: header.link,
            from: HEAD_OCTETS,
            to: used,
            used,
        },
        RecordAnswer::Need(_) => Piece::Ends(NextRecord::Cut),
        // The length is allowed.
        RecordAnswer::TooLong => Piece::Ends(NextRecord::Cut),
    }
}
