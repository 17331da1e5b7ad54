//! The lines of a review, written into a file.
ghost use Rattle.std.specs.Prelude.{◌≡◌, ◌++◌, ℕ, ◌≤◌, ◌∷◌, [], IsErr, OnErr, OnOk, length, map, take};
ghost use Rattle.cf_outside.specs.Files.{IsPartly, content_after_write, with_appended};
ghost use Rattle.cf_outside.specs.Frames.{OnlyWrites};
ghost use Rattle.cf_review.specs.Lines.{MovesOn, lines_by};
ghost use Rattle.cf_review.specs.Remark.{remark_value};
ghost use Rattle.cf_review.specs.Stamps.{stamp_by};

use crate::remark::Remark;
use crate::spelling::spell;
use crate::stamps::Stamps;
use arrayvec::{ArrayString, ArrayVec};
use cf_outside::{Files, WriteAnswer, append_all};
use cf_policy::{Asset, Policy};
use cf_view::{WriteFault, push_bytes};

/// How many bytes of lines are handed on in one call at most. This project's own.
const PIECE: usize = 4_096;

/// Creates a file and writes the line of each remark into it, in their order: the moment of its record, which is the stamp of that
/// number, its client, its asset, and what is objected to. The words are those of the log of a session, where no command has a reply,
/// and those of the judge for what such a log does not have. The stamps are those of the records of the remarks.
pub fn write_lines<F: Files>(
    policy: &Policy,
    stamps: &Stamps,
    remarks: &[Remark],
    log: &str,
    files: &mut F,
) -> Result<(), WriteFault>
    ensures done { OnOk result (F.content files.new log.now ≡ content_after_write (F.content files.old log.now)
        (lines_by policy.now.assets (stamp_by stamps.now) (map remark_value remarks.now))) }
    ensures partly { OnErr result (IsPartly (lines_by policy.now.assets (stamp_by stamps.now) (map remark_value remarks.now))
        (F.content files.old log.now) (F.content files.new log.now)) }
    ensures writes { OnlyWrites (log.now ∷ []) F.content F.read_faults F.write_faults files.old files.new (IsErr result) }
{
    match files.create(log) {
        WriteAnswer::Done => append_lines(policy.assets.as_slice(), stamps, remarks, log, files),
        WriteAnswer::Failed => Err(WriteFault),
    }
}

/// Appends the lines to a file that is there, in pieces.
fn append_lines<F: Files>(
    assets: &[Asset],
    stamps: &Stamps,
    remarks: &[Remark],
    log: &str,
    files: &mut F,
) -> Result<(), WriteFault>
    ensures done { OnOk result (F.content files.new log.now ≡ with_appended (F.content files.old log.now)
        (lines_by assets.now (stamp_by stamps.now) (map remark_value remarks.now))) }
    ensures partly { OnErr result ((k : ℕ) × (F.content files.new log.now ≡ with_appended (F.content files.old log.now)
        (take k (lines_by assets.now (stamp_by stamps.now) (map remark_value remarks.now))))) }
    ensures writes { OnlyWrites (log.now ∷ []) F.content F.read_faults F.write_faults files.old files.new (IsErr result) }
{
    let mut piece = ArrayVec::<u8, PIECE>::new();
    let mut line = ArrayString::<256>::new();
    for remark in remarks {
        spell(assets, stamps.at(remark.at_record), remark, &mut line);
        put(&mut piece, line.as_bytes(), log, files)?;
    }
    append_all(log, piece.as_slice(), files)
}

/// Puts a line after those that wait. Where it has no room there, these are appended to a file before.
fn put<F: Files>(
    piece: &mut ArrayVec<u8, PIECE>,
    line: &[u8],
    log: &str,
    files: &mut F,
) -> Result<(), WriteFault>
    requires line { length line.now ≤ 256 }
    ensures done { OnOk result (MovesOn (piece.old.items ++ line.now) piece.new.items (F.content files.old log.now)
        (F.content files.new log.now)) }
    ensures partly { OnErr result ((k : ℕ) × (F.content files.new log.now ≡ with_appended (F.content files.old log.now)
        (take k piece.old.items))) }
    ensures writes { OnlyWrites (log.now ∷ []) F.content F.read_faults F.write_faults files.old files.new (IsErr result) }
{
    if piece.len() + line.len() <= PIECE {
        push_bytes(piece, line);
        return Ok(());
    }
    append_all(log, piece.as_slice(), files)?;
    piece.clear();
    push_bytes(piece, line);
    Ok(())
}
