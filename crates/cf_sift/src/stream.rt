//! A stored stream, taken element by element.
ghost use Rattle.std.specs.Prelude.{◌≡◌, ◌+◌, ◌≤◌, None, true, IfOk, OnOk, OnErr, IsErr, IsErrOf, length};
ghost use Rattle.cf_lane.specs.History.{bytes_at, end_at};
ghost use Rattle.cf_outside.specs.Faults.{HasCause, HasCauseIn};
ghost use Rattle.cf_outside.specs.Frames.{KeepsOtherFiles, OnlyWrites};
ghost use Rattle.cf_outside.specs.Lines.{ends_with_line};
ghost use Rattle.cf_policy.specs.Site.{IsSiteWithin};
ghost use Rattle.cf_sift.specs.Sifting.{FailsElement, IsReady, TakesElement};
ghost use Rattle.cf_sift.specs.Names.{AreApart, sift_names_value, sift_output_names};
ghost use Rattle.cf_sift.specs.Taken.{IsTakenWhole, OfEachSifting, ReadStops, WriteStops};

use crate::names::SiftNames;
use crate::sift::SiftFault;
use crate::sifting::Sifting;
use cf_audit::CutReason;
use cf_lane::{has_one_judgement, streams_go_on};
use cf_outside::{Files, fill};
use cf_policy::Site;
use cf_view::{Side, WriteFault};

/// How many bytes a piece of a stream has, but the last, and an append at most. This project's own.
pub(crate) const PIECE: usize = 4_096;

/// Takes a stream from its beginning: piece by piece, and then its End, up to a cut, and says why it is cut.
pub(crate) fn take_stream<F: Files>(
    sifting: &mut Sifting,
    site: &Site<'_>,
    names: &SiftNames<'_>,
    piece: &mut [u8],
    buffer: &mut [u8],
    files: &mut F,
) -> Result<Option<CutReason>, SiftFault>
    requires ready { IsReady site.now sifting.old }
    requires fresh { sifting.old.heard.letters ≡ 0 }
    requires within { IsSiteWithin site.now }
    requires apart { AreApart (sift_names_value names.now) }
    requires whole { ends_with_line (F.content files.old names.now.log.now) ≡ true }
    requires piece { length piece.old ≡ 4096 }
    requires buffer { length buffer.old ≡ 4096 }
    ensures taken { IfOk result (λ cut. OfEachSifting site.now (sift_names_value names.now) sifting.old (F.content files.old)
        (λ client first. IsTakenWhole site.now client (sift_names_value names.now) first (F.content files.old) (F.content files.new)
        cut sifting.new)) }
    ensures read { IsErrOf result SiftFault.Read → OfEachSifting site.now (sift_names_value names.now) sifting.old (F.content files.old)
        (λ client first. ReadStops site.now client (sift_names_value names.now) first (F.content files.old) (F.content files.new)) }
    ensures write { IsErrOf result SiftFault.Write → OfEachSifting site.now (sift_names_value names.now) sifting.old (F.content files.old)
        (λ client first. WriteStops site.now client (sift_names_value names.now) first (F.content files.old) (F.content files.new)) }
    ensures memory { IsErrOf result SiftFault.NoMemory → ⊥ }
    ensures log { OnOk result (ends_with_line (F.content files.new names.now.log.now) ≡ true) }
    ensures others { KeepsOtherFiles (sift_output_names (sift_names_value names.now)) (F.content files.old) (F.content files.new) }
    ensures read_cause { HasCauseIn names.now.stream.now (F.read_faults files.old) (F.read_faults files.new)
        (IsErrOf result SiftFault.Read) }
    ensures write_cause { HasCause (F.write_faults files.old) (F.write_faults files.new) (IsErrOf result SiftFault.Write) }
{
    has_one_judgement();
    let mut at = 0;
    'pieces: loop {
        let Some(count) = fill(names.stream, at, 0, PIECE, piece, files) else {
            return Err(SiftFault::Read);
        };
        if count == 0 {
            return Ok(take_end(sifting, site, names, files)?);
        }
        if let Some(reason) = take_piece(sifting, site, names, &piece[..count], buffer, files)? {
            return Ok(Some(reason));
        }
        if count < PIECE {
            return Ok(take_end(sifting, site, names, files)?);
        }
        at += count as u64;
    }
}

/// Takes a piece, and moves what it puts into the two streams to their files. Says why the stream is cut after it.
fn take_piece<F: Files>(
    sifting: &mut Sifting,
    site: &Site<'_>,
    names: &SiftNames<'_>,
    piece: &[u8],
    buffer: &mut [u8],
    files: &mut F,
) -> Result<Option<CutReason>, WriteFault>
    requires ready { IsReady site.now sifting.old }
    requires within { IsSiteWithin site.now }
    requires apart { AreApart (sift_names_value names.now) }
    requires whole { ends_with_line (F.content files.old names.now.log.now) ≡ true }
    requires piece { length piece.now ≤ 4096 }
    requires buffer { length buffer.old ≡ 4096 }
    ensures taken { IfOk result (TakesElement site.now (sift_names_value names.now) (bytes_at 0 Side.Client piece.now)
        sifting.old sifting.new (F.content files.old) (F.content files.new)) }
    ensures fails { OnErr result (FailsElement site.now (sift_names_value names.now) (bytes_at 0 Side.Client piece.now)
        sifting.old (F.content files.old) (F.content files.new)) }
    ensures ready { IfOk result (λ cut. cut ≡ None → IsReady site.now sifting.new) }
    ensures letters { sifting.new.heard.letters ≡ sifting.old.heard.letters + length piece.now }
    ensures whole { OnOk result (ends_with_line (F.content files.new names.now.log.now) ≡ true) }
    ensures writes { OnlyWrites (sift_output_names (sift_names_value names.now)) F.content F.read_faults F.write_faults
        files.old files.new (IsErr result) }
    ensures buffer { length buffer.new ≡ 4096 }
{
    streams_go_on();
    let cut = sifting.feed(site, piece, names.log, files)?;
    sifting.drain(names, buffer, files)?;
    Ok(cut.or(sifting.length_cut()))
}

/// Takes the End of a stream. Says why the stream is cut after it.
fn take_end<F: Files>(
    sifting: &mut Sifting,
    site: &Site<'_>,
    names: &SiftNames<'_>,
    files: &mut F,
) -> Result<Option<CutReason>, WriteFault>
    requires ready { IsReady site.now sifting.old }
    requires within { IsSiteWithin site.now }
    requires apart { AreApart (sift_names_value names.now) }
    requires whole { ends_with_line (F.content files.old names.now.log.now) ≡ true }
    ensures taken { IfOk result (TakesElement site.now (sift_names_value names.now) (end_at 0 Side.Client)
        sifting.old sifting.new (F.content files.old) (F.content files.new)) }
    ensures fails { OnErr result (FailsElement site.now (sift_names_value names.now) (end_at 0 Side.Client)
        sifting.old (F.content files.old) (F.content files.new)) }
    ensures whole { OnOk result (ends_with_line (F.content files.new names.now.log.now) ≡ true) }
    ensures writes { OnlyWrites (sift_output_names (sift_names_value names.now)) F.content F.read_faults F.write_faults
        files.old files.new (IsErr result) }
{
    streams_go_on();
    sifting.end(site, names.log, files)?;
    Ok(sifting.length_cut())
}
