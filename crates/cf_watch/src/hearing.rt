//! The records of captures, one after the other, for whoever takes them.
ghost use Rattle.std.specs.Prelude.{◌≡◌, ◌<◌, ◌++◌, ◌∷◌, ◌^◌, List, OnOk, IfErr, Ok, true, IsErrOf, length, reverse};
ghost use Rattle.cf_outside.specs.Frames.{OnlyReads};
ghost use Rattle.cf_policy.specs.declared.Asset.{Asset as AssetFields};
ghost use Rattle.cf_records.specs.Capture.{Record};
ghost use Rattle.cf_records.specs.Form.{first_place};
ghost use Rattle.cf_records.specs.Reader.{HasFormIn};
ghost use Rattle.cf_watch.specs.Recorded.{IsCaptureIn, StopsAs, large_by};
ghost use Rattle.cf_watch.specs.Watch.{kinds_by};
ghost use Rattle.cf_watch.specs.declared.scope.Scope.{Scope as WatchedFor};

use crate::fault::{CAPTURE_LIMIT, WatchFault, WatchRefusal};
use crate::scope::Scope;
use cf_outside::Files;
use cf_policy::Asset;
use cf_records::{NextRecord, RecordReader};
use cf_view::{LinkKind, LinkSet, NoMemory};
use std::alloc::Global;

/// What takes the records of captures, one after the other.
pub trait Hearer {
    ghost use Rattle.cf_watch.specs.declared.scope.Scope.{Scope};

    /// What it keeps of these records to these assets, the newest first, as its scope says.
    ghost has_heard: { WatchedFor → List AssetFields → List Record → Self → Type 0 };

    /// Takes a record behind those before.
    ///
    /// `NoMemory`: memory was short, or there are too many records.
    fn take(
        &mut self,
        alloc: Global,
        scope: Scope,
        assets: &[Asset],
        link: &LinkKind,
        stamp: u64,
        body: &[u8],
    ) -> Result<(), NoMemory>
        requires assets { length assets.now < 2 ^ 32 }
        requires heard { (newest : List Record) × has_heard scope assets.now newest self.old }
        ensures { OnOk result ((newest : List Record) → has_heard scope assets.now newest self.old
            → has_heard scope assets.now (record { stamp = stamp; link = link.now; body = body.now } ∷ newest) self.new) };
}

/// Gives the records of a capture to who takes them: of a pcap or a pcapng file, for connections of at most `CAPTURE_LIMIT` octets, and for
/// a recording up to place 2^40. For a recording Linux cooked captures are read too, frames without their VLAN tags, and a partial TCP
/// checksum counts as right. Changes no file. It keeps one record of the file at a time.
pub fn hear_capture<H: Hearer, F: Files>(
    alloc: Global,
    scope: Scope,
    assets: &[Asset],
    capture: &str,
    hearer: &mut H,
    files: &mut F,
) -> Result<(), WatchFault>
    requires assets { length assets.now < 2 ^ 32 }
    requires heard { (newest : List Record) × H.has_heard scope assets.now newest hearer.old }
    ensures more { OnOk result ((newest : List Record) × IsCaptureIn (kinds_by scope) (F.content files.old capture.now) (reverse newest)
        × ((earlier : List Record) → H.has_heard scope assets.now earlier hearer.old
        → H.has_heard scope assets.now (newest ++ earlier) hearer.new)) }
    ensures fault { IfErr result (λ fault. StopsAs scope (F.content files.old capture.now) fault) }
    ensures reads { OnlyReads capture.now F.content F.read_faults F.write_faults files.old files.new (IsErrOf result WatchFault.Read) }
{
    match RecordReader::open_in(alloc, kinds_by(scope), capture, files) {
        Ok(mut reader) => hear_records(alloc, scope, assets, capture, hearer, &mut reader, files),
        Err(fault) => Err(WatchFault::from(fault)),
    }
}

/// Gives the records from the reader's place on.
fn hear_records<H: Hearer, F: Files>(
    alloc: Global,
    scope: Scope,
    assets: &[Asset],
    capture: &str,
    hearer: &mut H,
    reader: &mut RecordReader,
    files: &mut F,
) -> Result<(), WatchFault>
    requires assets { length assets.now < 2 ^ 32 }
    requires form { HasFormIn (kinds_by scope) (F.content files.old capture.now) (Ok reader.old.form) }
    requires place { reader.old.place ≡ first_place reader.old.form }
    requires heard { (newest : List Record) × H.has_heard scope assets.now newest hearer.old }
    ensures more { OnOk result ((newest : List Record) × IsCaptureIn (kinds_by scope) (F.content files.old capture.now) (reverse newest)
        × ((earlier : List Record) → H.has_heard scope assets.now earlier hearer.old
        → H.has_heard scope assets.now (newest ++ earlier) hearer.new)) }
    ensures fault { IfErr result (λ fault. StopsAs scope (F.content files.old capture.now) fault) }
    ensures reads { OnlyReads capture.now F.content F.read_faults F.write_faults files.old files.new (IsErrOf result WatchFault.Read) }
{
    'records: loop {
        match reader.next(capture, files) {
            NextRecord::Whole(stamp) => {
                if is_beyond(scope, reader.place()) {
                    // The file has grown since it was opened.
                    return Err(WatchFault::Refused(WatchRefusal::Long));
                }
                let link = reader.link();
                match hearer.take(alloc, scope, assets, &link, stamp, reader.body()) {
                    Ok(()) => {}
                    Err(_) => return Err(WatchFault::NoMemory),
                }
            }
            NextRecord::End => return Ok(()),
            NextRecord::Cut => return Err(WatchFault::Cut(reader.place())),
            NextRecord::Refused(refusal) => {
                return Err(WatchFault::Refused(WatchRefusal::Block(refusal)));
            }
            NextRecord::TooLong => return Err(WatchFault::Refused(WatchRefusal::TooLong)),
            NextRecord::Large => return Err(WatchFault::Refused(large_by(scope))),
            NextRecord::Failed => return Err(WatchFault::Read),
        }
    }
}

/// The link types that are read.
fn kinds_by(scope: Scope) -> LinkSet
    ensures { result ≡ kinds_by scope }
{
    match scope {
        Scope::Connections => LinkSet::Plain,
        Scope::Recording => LinkSet::Recorded,
    }
}

/// Whether a place is beyond those that are read: for connections alone behind `CAPTURE_LIMIT` octets.
fn is_beyond(scope: Scope, place: u64) -> bool
    ensures connections { result ≡ true → scope ≡ Scope.Connections }
    ensures beyond { result ≡ true → CAPTURE_LIMIT < place }
{
    match scope {
        Scope::Connections => place > CAPTURE_LIMIT,
        Scope::Recording => false,
    }
}

/// Why a capture is refused that has an octet at place 2^40: for connections it is too long before.
fn large_by(scope: Scope) -> WatchRefusal
    ensures { result ≡ large_by scope }
{
    match scope {
        Scope::Connections => WatchRefusal::Long,
        Scope::Recording => WatchRefusal::Large,
    }
}
