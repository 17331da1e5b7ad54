//! `packets CAPTURE`: the packets of a capture are listed line by line.
//! Lines are gathered up to 32 KiB, and put before the next one may not fit, at the end, and before what is printed of a refusal,
//! a cut or a failed read: a failed put of them is 4 also there, since they come first in the order of the work. A read that
//! fails is 3, behind the lines of the records before it.
ghost use Rattle.std.specs.Prelude.{◌≡◌, ◌+◌, ◌≤◌, ◌⊎◌, ◌++◌, ℕ, List, IsErrOf, Err, Ok, take, ◌∷◌, []};
ghost use Rattle.arrayvec.specs.ArrayVec.{array_vec_len};
ghost use Rattle.cf_words.specs.Command.{Packets};
ghost use Rattle.cf_box.specs.Ends.{Meets};
ghost use Rattle.cf_ending.specs.Outside.{FilesNeverFall, files_value, outside, sink_value};
ghost use Rattle.cf_ending.specs.PacketLine.{dropped_in, record_line};
ghost use Rattle.cf_box.specs.Packets.{ListsFile, open_stop};
ghost use Rattle.cf_outside.specs.Faults.{HasCause, Rose};
ghost use Rattle.cf_outside.specs.Frames.{OnlyReads};
ghost use Rattle.cf_outside.specs.PairValue.{PairValue};
ghost use Rattle.cf_outside.specs.Sink.{Puts, printed_with};
ghost use Rattle.cf_records.specs.Form.{first_place};
ghost use Rattle.cf_records.specs.Reader.{HasForm};

use arrayvec::ArrayVec;
use cf_ending::{CaptureRefusal, Done, LONGEST_LINE, Stop, spell_line};
use cf_outside::{Files, Sink, WriteAnswer};
use cf_records::{NextRecord, OpenFault, RecordReader};
use cf_view::LinkKind;
use std::alloc::Global;

/// Lines that are made and not put yet: at most 32 KiB.
type Lines = ArrayVec<u8, 32_768>;

/// Why a listing stops where its capture was not opened.
fn open_stop(fault: OpenFault) -> Stop
    ensures { result ≡ open_stop fault }
{
    match fault {
        OpenFault::NoMemory => Stop::NoMemory,
        OpenFault::Read => Stop::ReadFault,
        OpenFault::Refused(refusal) => Stop::from(refusal),
    }
}

/// Reads a capture record by record, and puts a line for each. Changes no file. This project's own.
///
/// The lines are gathered, and put before the buffer is full and at the end, so that what was put before a stop is the lines
/// of the records before it.
#[tactic(auto, using(crate::proofs::Reading::rises_one))]
pub(crate) fn packets<F: Files, O: Sink>(
    alloc: Global,
    name: &str,
    files: &mut F,
    out: &mut O,
) -> Result<Done, Stop>
    ensures meets { (pair : PairValue) →
        Meets (Packets name.now) (outside (files_value F.Files files.old) (sink_value O.Sink out.old) pair)
        (outside (files_value F.Files files.new) (sink_value O.Sink out.new) pair) result }
    ensures later { FilesNeverFall (name.now ∷ []) (files_value F.Files files.old)
        (files_value F.Files files.new) }
    ensures puts { O.faults out.old ≤ O.faults out.new }
{
    match RecordReader::open(alloc, name, files) {
        Ok(mut reader) => list_records(name, &mut reader, files, out),
        Err(fault) => Err(open_stop(fault)),
    }
}

/// Puts a line for each record from the reader's place on, to the end of the capture or the first that is none.
fn list_records<F: Files, O: Sink>(
    name: &str,
    reader: &mut RecordReader,
    files: &mut F,
    out: &mut O,
) -> Result<Done, Stop>
    requires form { HasForm (F.content files.old name.now) (Ok reader.old.form) }
    requires place { reader.old.place ≡ first_place reader.old.form }
    ensures lists { ListsFile (F.content files.old name.now) (sink_value O.Sink out.old) (sink_value O.Sink out.new) result }
    ensures reads { OnlyReads name.now F.content F.read_faults F.write_faults files.old files.new (IsErrOf result Stop.ReadFault) }
    ensures puts { O.faults out.old ≤ O.faults out.new }
{
    let mut lines = Lines::new();
    let mut number = 1;
    let mut dropped = 0;
    'records: loop {
        match reader.next(name, files) {
            NextRecord::Whole(stamp) => {
                match make_room(&mut lines, out) {
                    WriteAnswer::Failed => return Err(Stop::WriteFault),
                    WriteAnswer::Done => {
                        dropped += gather_line(
                            &mut lines,
                            &reader.link(),
                            number,
                            stamp,
                            reader.body(),
                        );
                        number += 1;
                    }
                }
            }
            NextRecord::End => return finish(Ok(Done::Listed { dropped }), &lines, out),
            NextRecord::Cut => {
                return finish(Err(Stop::CaptureCut(reader.place())), &lines, out);
            }
            NextRecord::Refused(refusal) => {
                return finish(Err(Stop::from(refusal)), &lines, out);
            }
            NextRecord::TooLong => {
                return finish(
                    Err(Stop::CaptureRefused(CaptureRefusal::TooLong)),
                    &lines,
                    out,
                );
            }
            NextRecord::Large => {
                return finish(
                    Err(Stop::CaptureRefused(CaptureRefusal::Large)),
                    &lines,
                    out,
                );
            }
            NextRecord::Failed => return finish(Err(Stop::ReadFault), &lines, out),
        }
    }
}

/// Makes room for another line: where there is none, puts the lines that were gathered.
#[tactic(auto, using(crate::proofs::Listing::with_nothing))]
fn make_room<O: Sink>(lines: &mut Lines, out: &mut O) -> WriteAnswer
    ensures room { result ≡ WriteAnswer.Done → array_vec_len lines.new + 192 ≤ 32768 }
    // Some of what was gathered is put, and the rest is gathered still.
    ensures kept { result ≡ WriteAnswer.Done → (some : List ℕ) × (lines.old.items ≡ some ++ lines.new.items)
        × (O.text out.new ≡ printed_with (O.text out.old) some) }
    ensures partly { result ≡ WriteAnswer.Failed → (k : ℕ) × (O.text out.new ≡ printed_with (O.text out.old) (take k lines.old.items)) }
    ensures cause { HasCause (O.faults out.old) (O.faults out.new) (result ≡ WriteAnswer.Failed) }
{
    if lines.remaining_capacity() >= LONGEST_LINE {
        return WriteAnswer::Done;
    }
    match put_lines(lines, out) {
        WriteAnswer::Done => {
            lines.clear();
            WriteAnswer::Done
        }
        WriteAnswer::Failed => WriteAnswer::Failed,
    }
}

/// Gathers the line of the record of a number; 1 where it has no segment, and else 0.
fn gather_line(lines: &mut Lines, link: &LinkKind, number: u64, stamp: u64, body: &[u8]) -> u64
    requires { array_vec_len lines.old + 192 ≤ 32768 }
    ensures line { lines.new.items ≡ lines.old.items ++ record_line number (record { stamp = stamp; link = link.now; body = body.now }) }
    ensures dropped { result ≡ dropped_in (record { stamp = stamp; link = link.now; body = body.now } ∷ []) }
    ensures one { result ≤ 1 }
{
    let mut line = [0u8; LONGEST_LINE];
    let spelled = spell_line(link, number, stamp, body, &mut line);
    let gathered = lines.try_extend_from_slice(&line[spelled.start..]);
    gathered.unwrap();
    if spelled.is_dropped { 1 } else { 0 }
}

/// Puts the lines that were gathered last, and answers how the work ended; or that the put failed.
fn finish<O: Sink>(ended: Result<Done, Stop>, lines: &Lines, out: &mut O) -> Result<Done, Stop>
    ensures ends { ((result ≡ ended) × (O.text out.new ≡ printed_with (O.text out.old) lines.now.items))
        ⊎ ((result ≡ Err Stop.WriteFault) × Rose (O.faults out.old) (O.faults out.new)
        × ((k : ℕ) × (O.text out.new ≡ printed_with (O.text out.old) (take k lines.now.items)))) }
    ensures later { O.faults out.old ≤ O.faults out.new }
{
    match put_lines(lines, out) {
        WriteAnswer::Done => ended,
        WriteAnswer::Failed => Err(Stop::WriteFault),
    }
}

/// Puts lines; nothing where there are none.
#[tactic(auto, using(crate::proofs::Listing::with_nothing))]
fn put_lines<O: Sink>(lines: &Lines, out: &mut O) -> WriteAnswer
    ensures puts { Puts lines.now.items (O.text out.old) (O.text out.new) result }
    ensures cause { HasCause (O.faults out.old) (O.faults out.new) (result ≡ WriteAnswer.Failed) }
{
    if lines.is_empty() {
        return WriteAnswer::Done;
    }
    out.put(lines.as_slice())
}
