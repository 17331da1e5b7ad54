//! A run over a capture file.
ghost use Rattle.std.specs.Prelude.{◌≡◌, ◌≢◌, ◌+◌, ◌^◌, ◌<◌, ◌≤◌, ◌∷◌, [], List, IsErrOf, OnOk, true};
ghost use Rattle.cf_lane.specs.declared.limit.TheConstants.{LETTER_LIMIT};
ghost use Rattle.cf_outside.specs.Faults.{HasCause, HasCauseIn};
ghost use Rattle.cf_outside.specs.Frames.{KeepsOtherFiles};
ghost use Rattle.cf_outside.specs.Files.{IsWhole, content_after_create, content_after_write};
ghost use Rattle.cf_packet.specs.Packet.{read_record};
ghost use Rattle.cf_pcap.specs.Header.{output_octets};
ghost use Rattle.cf_policy.specs.Within.{AreAssetsWithin};
ghost use Rattle.cf_run.specs.FileDesk.{are_whole, files_desk, files_told};
ghost use Rattle.cf_run.specs.Half.{StepBreaks, StepStops};
ghost use Rattle.cf_run.specs.RunCapture.{AreApart, IsCreatedInPart, RunsAs, RunsRecords, open_fault, run_names_value};
ghost use Rattle.cf_run.specs.FirstRead.{BeginsWithRead};
ghost use Rattle.cf_run.specs.RunCapture.{step_fault};
ghost use Rattle.cf_run.specs.Step.{IsEngineOf, IsSoundEngine, StepsOn};
ghost use Rattle.cf_run.specs.Trace.{RunEvent, table_after};
ghost use Rattle.cf_view.specs.Moment.{moment_limit};

use crate::engine::{Engine, StepFault};
use crate::file_desk::FileDesk;
use crate::summary::Summary;
use cf_lane::LETTER_LIMIT;
use cf_outside::{Files, WriteAnswer};
use cf_pcap::write_header;
use cf_policy::Policy;
use cf_records::{BlockRefusal, FormRefusal, MOMENT_LIMIT, NextRecord, OpenFault, RecordReader};
use std::alloc::Global;
use thiserror::Error;

/// The files of a run: the capture that is read, and the capture and the log that are written. All three names differ.
#[derive(Clone, Copy, Debug)]
pub struct RunNames<'a> {
    pub capture: &'a str,
    pub out: &'a str,
    pub log: &'a str,
}

/// Why a capture is refused.
#[derive(Clone, Copy, PartialEq, Eq, Debug)]
pub enum RunRefusal {
    /// By its header, or its first section header.
    Header(FormRefusal),
    /// By a block of a pcapng file.
    Block(BlockRefusal),
    /// By the captured length of a record, which is above `CAPTURED_LIMIT`.
    TooLong,
    /// By the moment of a record, which reaches 2^32 seconds.
    Clock,
    /// By its length: an octet of a record stands at place 2^40 or above.
    Large,
}

/// Why a run was not made to the end of its capture.
#[derive(Clone, Copy, PartialEq, Eq, Debug, Error)]
pub enum RunFault {
    #[error("out of memory")]
    NoMemory,
    #[error("a read failed")]
    Read,
    #[error("a creation or an append failed")]
    Write,
    #[error("the capture is refused")]
    Refused(RunRefusal),
    /// The capture ends inside the record that begins at this place, in octets; its whole records were run over.
    #[error("the capture is cut")]
    Cut { at: u64, summary: Summary },
}

impl From<OpenFault> for RunFault {
    ghost from_gives = { λ opened fault. fault ≡ open_fault opened };

    fn from(fault: OpenFault) -> RunFault {
        match fault {
            OpenFault::NoMemory => RunFault::NoMemory,
            OpenFault::Read => RunFault::Read,
            OpenFault::Refused(refusal) => RunFault::Refused(RunRefusal::Header(refusal)),
        }
    }
}

impl From<StepFault> for RunFault {
    ghost from_gives = { λ stepped fault. fault ≡ step_fault stepped };

    fn from(fault: StepFault) -> RunFault {
        match fault {
            StepFault::NoMemory => RunFault::NoMemory,
            StepFault::Write => RunFault::Write,
        }
    }
}

/// Runs over the records of a capture, one event each, and writes all packets and all lines that the box sends and logs into
/// two files. The header and the first record are read, and all memory but that of the sessions is taken, before the two are
/// created, the capture file of packets first. The policy is one that `read_policy` gives.
///
/// After `Refused` by the header no file is changed. After `Read` no file is changed, or the two files have what the records
/// that were read give, one at least. After `NoMemory` no file is changed, or they have what these records give and the first half of the next
/// event, whose packet would have begun a session. After `Write` a creation or the append of the header was not done, or they
/// have what the records before give, what comes of the next event before one of its halves, and of that half a beginning:
/// nothing is written after the fault. After every other answer they have what the whole records before the place give.
pub fn run_capture<F: Files>(
    alloc: Global,
    policy: &Policy,
    names: &RunNames<'_>,
    files: &mut F,
) -> Result<Summary, RunFault>
    requires within { AreAssetsWithin policy.now.assets }
    requires apart { AreApart (run_names_value names.now) }
    ensures runs { RunsAs policy.now.assets LETTER_LIMIT (run_names_value names.now) (F.content files.old) (F.content files.new) result }
    ensures others { KeepsOtherFiles (names.now.out.now ∷ names.now.log.now ∷ []) (F.content files.old) (F.content files.new) }
    ensures read { HasCauseIn names.now.capture.now (F.read_faults files.old) (F.read_faults files.new)
        (IsErrOf result RunFault.Read) }
    ensures write { HasCause (F.write_faults files.old) (F.write_faults files.new) (IsErrOf result RunFault.Write) }
{
    let mut reader = RecordReader::open(alloc, names.capture, files)?;
    let Ok(mut engine) = Engine::new(alloc, LETTER_LIMIT as i64) else {
        return Err(RunFault::NoMemory);
    };
    // A read that fails before a record was read leaves both outputs as they were.
    let first = reader.next(names.capture, files);
    if let NextRecord::Failed = first {
        return Err(RunFault::Read);
    }
    match create_outputs(names, files) {
        WriteAnswer::Done => {
            run_records(alloc, policy, names, first, &mut reader, &mut engine, files)
        }
        WriteAnswer::Failed => Err(RunFault::Write),
    }
}

/// Creates the two outputs: the capture file of packets with its header, and the log.
fn create_outputs<F: Files>(names: &RunNames<'_>, files: &mut F) -> WriteAnswer
    requires apart { names.now.out.now ≢ names.now.log.now }
    ensures out { result ≡ WriteAnswer.Done →
        F.content files.new names.now.out.now ≡ content_after_write (F.content files.old names.now.out.now) output_octets }
    ensures log { result ≡ WriteAnswer.Done →
        F.content files.new names.now.log.now ≡ content_after_create (F.content files.old names.now.log.now) }
    ensures failed { result ≡ WriteAnswer.Failed → IsCreatedInPart (run_names_value names.now) (F.content files.old) (F.content files.new) }
    ensures others { KeepsOtherFiles (names.now.out.now ∷ names.now.log.now ∷ []) (F.content files.old) (F.content files.new) }
    ensures cause { HasCause (F.write_faults files.old) (F.write_faults files.new) (result ≡ WriteAnswer.Failed) }
    ensures reads { F.read_faults files.new ≡ F.read_faults files.old }
{
    if let WriteAnswer::Failed = files.create(names.out) {
        return WriteAnswer::Failed;
    }
    if let WriteAnswer::Failed = files.create(names.log) {
        return WriteAnswer::Failed;
    }
    let mut header = [0u8; 24];
    write_header(&mut header);
    files.append(names.out, &header)
}

/// Runs over the records from the first on, which the reader has read, to the end of the capture or the first that is none.
fn run_records<F: Files>(
    alloc: Global,
    policy: &Policy,
    names: &RunNames<'_>,
    first: NextRecord,
    reader: &mut RecordReader,
    engine: &mut Engine,
    files: &mut F,
) -> Result<Summary, RunFault>
    requires within { AreAssetsWithin policy.now.assets }
    requires apart { AreApart (run_names_value names.now) }
    requires sound { IsSoundEngine policy.now.assets engine.old }
    requires stands { IsEngineOf policy.now.assets engine.old [] }
    requires first { BeginsWithRead (F.content files.old names.now.capture.now) reader.old first }
    requires near { reader.old.place ≤ 2 ^ 40 }
    requires read { first ≢ NextRecord.Failed }
    requires out { IsWhole (F.content files.old names.now.out.now) output_octets }
    requires log { IsWhole (F.content files.old names.now.log.now) [] }
    ensures runs { RunsRecords policy.now.assets engine.old.limit (run_names_value names.now)
        (F.content files.old) (F.content files.new) result }
    ensures others { KeepsOtherFiles (names.now.out.now ∷ names.now.log.now ∷ []) (F.content files.old) (F.content files.new) }
    ensures read { HasCauseIn names.now.capture.now (F.read_faults files.old) (F.read_faults files.new)
        (IsErrOf result RunFault.Read) }
    ensures write { HasCause (F.write_faults files.old) (F.write_faults files.new) (IsErrOf result RunFault.Write) }
{
    let mut least = 2;
    let mut read = first;
    'records: loop {
        match read {
            NextRecord::Whole(stamp) => {
                let moment = stamp.max(least);
                if moment >= MOMENT_LIMIT {
                    return Err(RunFault::Refused(RunRefusal::Clock));
                }
                run_record(alloc, policy, names, reader, engine, moment, files)?;
                least = moment + 2;
            }
            NextRecord::End => return Ok(engine.summary()),
            NextRecord::Cut => {
                return Err(RunFault::Cut {
                    at: reader.place(),
                    summary: engine.summary(),
                });
            }
            NextRecord::Refused(refusal) => {
                return Err(RunFault::Refused(RunRefusal::Block(refusal)));
            }
            NextRecord::TooLong => return Err(RunFault::Refused(RunRefusal::TooLong)),
            NextRecord::Large => return Err(RunFault::Refused(RunRefusal::Large)),
            NextRecord::Failed => return Err(RunFault::Read),
        }
        read = reader.next(names.capture, files);
    }
}

/// One event: the record that the reader lends.
fn run_record<F: Files>(
    alloc: Global,
    policy: &Policy,
    names: &RunNames<'_>,
    reader: &RecordReader,
    engine: &mut Engine,
    moment: u64,
    files: &mut F,
) -> Result<(), StepFault>
    requires within { AreAssetsWithin policy.now.assets }
    requires apart { names.now.out.now ≢ names.now.log.now }
    requires sound { IsSoundEngine policy.now.assets engine.old }
    requires later { engine.old.last + 2 ≤ moment }
    requires moment { moment < moment_limit }
    requires whole { are_whole names.now.out.now names.now.log.now (F.content files.old) ≡ true }
    ensures steps { OnOk result ((events : List RunEvent) → IsEngineOf policy.now.assets engine.old events →
        (event : RunEvent) × StepsOn policy.now.assets moment (read_record reader.now.link reader.now.body) events engine.new
        (files_told names.now.out.now names.now.log.now (F.content files.old))
        (files_told names.now.out.now names.now.log.now (F.content files.new)) event) }
    ensures broken { IsErrOf result StepFault.Write → (events : List RunEvent) → IsEngineOf policy.now.assets engine.old events
        → StepBreaks policy.now.assets engine.old.limit (table_after events)
        (record { moment = moment; packet = read_record reader.now.link reader.now.body })
        (files_desk names.now.out.now names.now.log.now (F.content files.old))
        (files_desk names.now.out.now names.now.log.now (F.content files.new)) }
    ensures stops { IsErrOf result StepFault.NoMemory → (events : List RunEvent) → IsEngineOf policy.now.assets engine.old events
        → StepStops policy.now.assets (table_after events)
        (record { moment = moment; packet = read_record reader.now.link reader.now.body })
        (files_told names.now.out.now names.now.log.now (F.content files.old))
        (files_told names.now.out.now names.now.log.now (F.content files.new)) }
    ensures stops_whole { IsErrOf result StepFault.NoMemory → are_whole names.now.out.now names.now.log.now (F.content files.new) ≡ true }
    ensures sound { OnOk result (IsSoundEngine policy.now.assets engine.new) }
    ensures last { OnOk result (engine.new.last ≡ moment) }
    ensures limit { engine.new.limit ≡ engine.old.limit }
    ensures whole { OnOk result (are_whole names.now.out.now names.now.log.now (F.content files.new) ≡ true) }
    ensures others { KeepsOtherFiles (names.now.out.now ∷ names.now.log.now ∷ []) (F.content files.old) (F.content files.new) }
    ensures cause { HasCause (F.write_faults files.old) (F.write_faults files.new) (IsErrOf result StepFault.Write) }
    ensures reads { F.read_faults files.new ≡ F.read_faults files.old }
{
    let mut desk = FileDesk {
        files,
        out: names.out,
        log: names.log,
        failed: false,
    };
    engine.step(
        alloc,
        policy,
        moment,
        &reader.link(),
        reader.body(),
        &mut desk,
    )
}
