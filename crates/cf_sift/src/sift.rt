//! The filter of a stored stream of one client.
ghost use Rattle.std.specs.Prelude.{◌≡◌, ◌∷◌, [], Some, true, IfOk, IsErr, IsErrOf, IsSome, OnErr, OnOk, vec_len};
ghost use Rattle.cf_lane.specs.Handled.{MayHaveMore};
ghost use Rattle.cf_outside.specs.Faults.{HasCause, HasCauseIn};
ghost use Rattle.cf_outside.specs.Frames.{OnlyWrites};
ghost use Rattle.cf_outside.specs.Lines.{ends_with_line, file_lines, file_part};
ghost use Rattle.cf_lane.specs.Log.{with_lines};
ghost use Rattle.cf_policy.specs.Site.{IsSiteWithin};
ghost use Rattle.cf_sift.specs.Names.{AreApart, sift_names_value};
ghost use Rattle.cf_sift.specs.Sifted.{SiftEnds, cut_lines};

use crate::log::log_desk;
use crate::names::SiftNames;
use crate::outputs::create_outputs;
use crate::sifting::Sifting;
use crate::stream::{PIECE, take_stream};
use cf_audit::{CutReason, What};
use cf_driver::log_line;
use cf_outside::Files;
use cf_policy::Site;
use cf_view::{Endpoint, NoMemory, WriteFault};
use std::alloc::Global;
use thiserror::Error;

/// What was done with a stream.
#[derive(Clone, Copy, PartialEq, Eq, Debug)]
pub struct SiftDone {
    /// Why it was cut, if it was.
    pub cut: Option<CutReason>,
    /// How many commands were admitted.
    pub admitted: u64,
    /// How many commands were refused.
    pub refused: u64,
}

/// Why a stream was not filtered.
#[derive(Clone, Copy, PartialEq, Eq, Debug, Error)]
pub enum SiftFault {
    /// Memory ran out.
    #[error("out of memory")]
    NoMemory,
    /// A read failed.
    #[error("a read failed")]
    Read,
    /// A creation or an append failed.
    #[error("a creation or an append failed")]
    Write,
}

impl From<WriteFault> for SiftFault {
    ghost use Rattle.std.specs.Prelude.{◌≡◌};
    ghost use Rattle.cf_sift.specs.declared.sift.SiftFault.TheVariants.{Write};

    ghost from_gives = { λ _ fault. fault ≡ Write };

    fn from(_: WriteFault) -> Self {
        SiftFault::Write
    }
}

impl From<NoMemory> for SiftFault {
    ghost use Rattle.std.specs.Prelude.{◌≡◌};
    ghost use Rattle.cf_sift.specs.declared.sift.SiftFault.TheVariants.{NoMemory};

    ghost from_gives = { λ _ fault. fault ≡ NoMemory };

    fn from(_: NoMemory) -> Self {
        SiftFault::NoMemory
    }
}

/// Filters the stored stream of a client with this address, whose port is not known, at moment 0. All memory is taken first.
/// Then the outputs are created: those towards the controller, towards the client, and the log. Then the stream is read in
/// pieces of 4,096 bytes, the last one shorter, and its End after them; what a piece puts out is written before the next is
/// read. The stream is cut as a session of its lane is, or after a piece by the length of its streams; the line of the cut is
/// the last one.
///
/// `NoMemory`: every file is as it was. `Read`, `Write`: nothing is written after the fault.
pub fn sift_stream<F: Files>(
    alloc: Global,
    site: &Site<'_>,
    client: u32,
    names: &SiftNames<'_>,
    files: &mut F,
) -> Result<SiftDone, SiftFault>
    requires within { IsSiteWithin site.now }
    requires apart { AreApart (sift_names_value names.now) }
    ensures ends { SiftEnds site.now client (sift_names_value names.now) (F.content files.old) (F.content files.new) result }
    ensures read { HasCauseIn names.now.stream.now (F.read_faults files.old) (F.read_faults files.new)
        (IsErrOf result SiftFault.Read) }
    ensures write { HasCause (F.write_faults files.old) (F.write_faults files.new) (IsErrOf result SiftFault.Write) }
{
    let client = Endpoint {
        address: client,
        port: 0,
    };
    let mut sifting = Sifting::new(alloc, site, client)?;
    let mut piece = zeros(alloc)?;
    let mut buffer = zeros(alloc)?;
    create_outputs(names, files)?;
    let cut = take_stream(&mut sifting, site, names, &mut piece, &mut buffer, files)?;
    log_cut(site, client, &cut, names.log, files)?;
    Ok(SiftDone {
        cut,
        admitted: sifting.lane.admitted(),
        refused: sifting.lane.refused(),
    })
}

/// Writes the line of a cut, where there is one.
fn log_cut<F: Files>(
    site: &Site<'_>,
    client: Endpoint,
    cut: &Option<CutReason>,
    log: &str,
    files: &mut F,
) -> Result<(), WriteFault>
    requires within { IsSiteWithin site.now }
    requires whole { ends_with_line (F.content files.old log.now) ≡ true }
    ensures lines { OnOk result (file_lines (F.content files.new log.now)
        ≡ with_lines (file_lines (F.content files.old log.now)) (cut_lines site.now client cut.now)) }
    ensures fails { OnErr result (MayHaveMore (cut_lines site.now client cut.now) (file_lines (F.content files.old log.now))
        (file_lines (F.content files.new log.now)) (file_part (F.content files.new log.now))) }
    ensures some { OnErr result (IsSome cut.now) }
    ensures whole { OnOk result (ends_with_line (F.content files.new log.now) ≡ true) }
    ensures writes { OnlyWrites (log.now ∷ []) F.content F.read_faults F.write_faults files.old files.new (IsErr result) }
{
    match cut {
        None => Ok(()),
        Some(reason) => log_reason(site, client, *reason, log, files),
    }
}

/// Writes the line of a cut.
fn log_reason<F: Files>(
    site: &Site<'_>,
    client: Endpoint,
    reason: CutReason,
    log: &str,
    files: &mut F,
) -> Result<(), WriteFault>
    requires within { IsSiteWithin site.now }
    requires whole { ends_with_line (F.content files.old log.now) ≡ true }
    ensures lines { OnOk result (file_lines (F.content files.new log.now)
        ≡ with_lines (file_lines (F.content files.old log.now)) (cut_lines site.now client (Some reason))) }
    ensures fails { OnErr result (MayHaveMore (cut_lines site.now client (Some reason)) (file_lines (F.content files.old log.now))
        (file_lines (F.content files.new log.now)) (file_part (F.content files.new log.now))) }
    ensures whole { OnOk result (ends_with_line (F.content files.new log.now) ≡ true) }
    ensures writes { OnlyWrites (log.now ∷ []) F.content F.read_faults F.write_faults files.old files.new (IsErr result) }
{
    let mut desk = log_desk(log, files);
    log_line(site, client, 0, What::Cut(reason), &mut desk)
}

/// A buffer of 4,096 bytes.
fn zeros(alloc: Global) -> Result<Vec<u8>, NoMemory>
    ensures { IfOk result (λ zeros. vec_len zeros ≡ 4096) }
{
    match Vec::from_elem(alloc, 0, PIECE) {
        Ok(zeros) => Ok(zeros),
        Err(_error) => Err(NoMemory),
    }
}
