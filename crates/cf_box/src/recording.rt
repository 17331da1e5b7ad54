//! The captures of a command as one recording.
ghost use Rattle.std.specs.Prelude.{◌++◌, All, IfErr, IfOk, IsErrOf, List, OnOk, map, reverse, string_bytes};
ghost use Rattle.cf_box.specs.Recording.{StopsReading};
ghost use Rattle.cf_ending.specs.Outside.{ReadsOnly, files_value};
ghost use Rattle.cf_outside.specs.Frames.{OnlyReads};
ghost use Rattle.cf_policy.specs.Within.{IsWithin};
ghost use Rattle.cf_records.specs.Capture.{Record};
ghost use Rattle.cf_watch.specs.FlowValue.{AreStretchesFor, IsForAsset, flow_value, stretch_value};
ghost use Rattle.cf_watch.specs.Recorded.{HasRecording, HaveRecords, IsCaptureOf, UnreadAs};

use crate::watching::fault_stop;
use cf_ending::Stop;
use cf_outside::Files;
use cf_policy::Policy;
use cf_view::NoMemory;
use cf_watch::{Hearer, Recorder, Recording, Scope, WatchFault, hear_capture};
use std::alloc::Global;

/// What captures show, read one behind the other. Changes no file.
pub(crate) fn read_recording<F: Files>(
    alloc: Global,
    policy: &Policy,
    captures: &[String],
    files: &mut F,
) -> Result<Recording, Stop>
    requires within { IsWithin policy.now }
    ensures recording { IfOk result (λ r. HasRecording policy.now.assets (F.content files.old) (map string_bytes captures.now)
        (map flow_value r.flows.items) (map stretch_value r.stretches.items) r.stamps.items) }
    ensures for_assets { IfOk result (λ r. All (IsForAsset policy.now.assets) (map flow_value r.flows.items)) }
    ensures stretches_for_assets { IfOk result (λ r. AreStretchesFor policy.now.assets (map stretch_value r.stretches.items)) }
    ensures stop { IfErr result (λ s. StopsReading (map string_bytes captures.now) (files_value F.Files files.old)
        (files_value F.Files files.new) s) }
    ensures only { ReadsOnly (map string_bytes captures.now) (files_value F.Files files.old) (files_value F.Files files.new) }
{
    let mut recorder = Recorder::new(alloc);
    match read_each(alloc, policy, captures, &mut recorder, files) {
        Ok(()) => match recorder.finish(alloc) {
            Ok(recording) => Ok(recording),
            Err(NoMemory) => Err(Stop::NoMemory),
        },
        Err(stop) => Err(stop),
    }
}

/// Gives the records of captures, one behind the other, to who takes them. Changes no file.
pub(crate) fn read_each<H: Hearer, F: Files>(
    alloc: Global,
    policy: &Policy,
    captures: &[String],
    hearer: &mut H,
    files: &mut F,
) -> Result<(), Stop>
    requires within { IsWithin policy.now }
    requires heard { (newest : List Record) × H.has_heard Scope.Recording policy.now.assets newest hearer.old }
    ensures more { OnOk result ((records : List Record) × HaveRecords (F.content files.old) (map string_bytes captures.now) records
        × ((earlier : List Record) → H.has_heard Scope.Recording policy.now.assets earlier hearer.old
        → H.has_heard Scope.Recording policy.now.assets (reverse records ++ earlier) hearer.new)) }
    ensures stop { IfErr result (λ s. StopsReading (map string_bytes captures.now) (files_value F.Files files.old)
        (files_value F.Files files.new) s) }
    ensures only { ReadsOnly (map string_bytes captures.now) (files_value F.Files files.old) (files_value F.Files files.new) }
{
    let Some((capture, rest)) = captures.split_first() else {
        return Ok(());
    };
    match read_next(alloc, policy, capture.as_str(), hearer, files) {
        Ok(()) => read_each(alloc, policy, rest, hearer, files),
        Err(fault) => Err(fault_stop(fault)),
    }
}

/// Gives the records of a capture to who takes them, behind those before.
fn read_next<H: Hearer, F: Files>(
    alloc: Global,
    policy: &Policy,
    capture: &str,
    hearer: &mut H,
    files: &mut F,
) -> Result<(), WatchFault>
    requires within { IsWithin policy.now }
    requires heard { (newest : List Record) × H.has_heard Scope.Recording policy.now.assets newest hearer.old }
    ensures heard { OnOk result ((newest : List Record) × H.has_heard Scope.Recording policy.now.assets newest hearer.new) }
    ensures more { OnOk result ((records : List Record) × IsCaptureOf (F.content files.old capture.now) records
        × ((earlier : List Record) → H.has_heard Scope.Recording policy.now.assets earlier hearer.old
        → H.has_heard Scope.Recording policy.now.assets (reverse records ++ earlier) hearer.new)) }
    ensures fault { IfErr result (λ fault. UnreadAs (F.content files.old capture.now) fault) }
    ensures reads { OnlyReads capture.now F.content F.read_faults F.write_faults files.old files.new (IsErrOf result WatchFault.Read) }
{
    hear_capture(
        alloc,
        Scope::Recording,
        policy.assets.as_slice(),
        capture,
        hearer,
        files,
    )
}
