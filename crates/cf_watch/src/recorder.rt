//! The records of captures, those of one capture behind those of another, as one list.
ghost use Rattle.std.specs.Prelude.{◌≡◌, ◌<◌, ◌++◌, ◌∷◌, [], All, List, OnOk, IfOk, Ok, ℕ, length, map};
ghost use Rattle.cf_policy.specs.declared.Asset.{Asset as AssetFields};
ghost use Rattle.cf_records.specs.Capture.{Record};
ghost use Rattle.cf_watch.specs.FlowValue.{AreStretchesFor, IsForAsset, flow_value, stretch_value};
ghost use Rattle.cf_watch.specs.Recorded.{IsRecordingOf};
ghost use Rattle.cf_watch.specs.Recorder.{HasRecorded, IsRecorderFor, IsRecorderOf};
ghost use Rattle.cf_watch.specs.Stretches.{all_stretches};
ghost use Rattle.cf_watch.specs.Trail.{IsWatchOf, KeepsAll, all_kept};
ghost use Rattle.cf_watch.specs.Watched.{Watched};

use crate::flow::Recording;
use crate::hearing::Hearer;
use crate::scope::Scope;
use crate::stretches::stretches_in;
use crate::watching::Watch;
use cf_policy::Asset;
use cf_view::{LinkKind, NoMemory};
use std::alloc::Global;

/// The most records that are watched as one list. One more is answered as want of memory.
const MOST_RECORDS: u64 = 134_217_728;

/// What a review reads of captures, one behind the other: the flows of all their records so far, and the stamp of each record. It keeps of
/// each flow its bytes, their records, and the letters that came ahead of their turn. This project's own.
#[derive(Drop)]
pub struct Recorder {
    pub(crate) watch: Watch,
    /// The stamp of each record, in microseconds since the epoch, where these are kept.
    pub(crate) stamps: Vec<u64>,
    /// How many records there were.
    pub(crate) count: u64,
}

impl Recorder {
    /// No records.
    pub fn new(alloc: Global) -> Recorder
        ensures { (scope : Scope) (assets : List AssetFields) → IsRecorderFor scope assets [] result }
    {
        Recorder {
            watch: Watch::new(alloc),
            stamps: Vec::new(alloc),
            count: 0,
        }
    }

    /// The flows of all records that were taken, their other stretches, and the stamps.
    pub fn finish(self, alloc: Global) -> Result<Recording, NoMemory>
        requires recorded { (assets : List AssetFields) × HasRecorded assets self }
        ensures recording { IfOk result (λ r. (assets : List AssetFields) (records : List Record) → IsRecorderOf assets records self
            → IsRecordingOf assets records (map flow_value r.flows.items) (map stretch_value r.stretches.items) r.stamps.items) }
        ensures for_assets { IfOk result (λ r. (assets : List AssetFields) → HasRecorded assets self
            → All (IsForAsset assets) (map flow_value r.flows.items)) }
        ensures stretches_for_assets { IfOk result (λ r. (assets : List AssetFields) → HasRecorded assets self
            → AreStretchesFor assets (map stretch_value r.stretches.items)) }
    {
        recording_of(alloc, self.watch, self.stamps)
    }
}

impl Hearer for Recorder {
    ghost use Rattle.cf_watch.specs.Recorder.{IsRecorderFor};

    ghost has_heard = { IsRecorderFor };

    fn take(
        &mut self,
        alloc: Global,
        scope: Scope,
        assets: &[Asset],
        link: &LinkKind,
        stamp: u64,
        body: &[u8],
    ) -> Result<(), NoMemory> {
        if self.count >= MOST_RECORDS {
            return Err(NoMemory);
        }
        let number = self.count + 1;
        self.watch.take(alloc, scope, assets, link, number, body)?;
        keep_stamp(scope, &mut self.stamps, stamp)?;
        self.count = number;
        Ok(())
    }
}

/// What is kept of all records, as a recording.
fn recording_of(alloc: Global, mut watch: Watch, stamps: Vec<u64>) -> Result<Recording, NoMemory>
    requires sizes { length watch.flows.items ≡ length watch.trails.items }
    requires all { KeepsAll watch }
    ensures flows { IfOk result (λ r. r.flows ≡ watch.flows) }
    ensures stamps { IfOk result (λ r. r.stamps ≡ stamps) }
    ensures stretches { IfOk result (λ r. (scope : Scope) (number : ℕ) (ws : List Watched)
        → IsWatchOf scope number watch ws (all_kept watch.flows.items)
        → map stretch_value r.stretches.items ≡ all_stretches ws (map flow_value watch.flows.items)) }
{
    let stretches = stretches_in(alloc, &mut watch)?;
    Ok(Recording {
        flows: watch.flows,
        stretches,
        stamps,
    })
}

/// Keeps a stamp after the others, where stamps are kept.
fn keep_stamp(scope: Scope, kept: &mut Vec<u64>, stamp: u64) -> Result<(), NoMemory>
    ensures { OnOk result (scope ≡ Scope.Recording → kept.new.items ≡ kept.old.items ++ stamp ∷ []) }
{
    match scope {
        Scope::Connections => Ok(()),
        Scope::Recording => match kept.push(stamp) {
            Ok(()) => Ok(()),
            Err(_) => Err(NoMemory),
        },
    }
}
