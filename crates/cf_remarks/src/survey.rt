//! What of a capture is not read: records that are dropped, packets of connections without their beginning, and what stands behind gaps.
ghost use Rattle.std.specs.Prelude.{◌≤◌, ◌^◌};
ghost use Rattle.cf_outside.specs.Frames.{OnlyReads};

use crate::dropped::Dropped;
use crate::flags::is_opening;
use crate::gaps::{Begins, Gaps, Sent};
use crate::pair::{PairKey, pair_of};
use cf_outside::Files;
use cf_packet::{Packet, PacketRefusal, read_packet, read_recorded};
use cf_policy::Asset;
use cf_records::{NextRecord, RecordReader};
use cf_view::{LinkKind, LinkSet, NoMemory, Side};
use cf_watch::{untagged, untagged_kind};
use std::alloc::Global;
use std::collections::BTreeMap;

/// How a capture is read.
#[derive(Clone, Copy, PartialEq, Eq)]
pub enum Reading {
    /// Frames as they stand, and connections from their SYN on.
    FromSyn,
    /// Linux cooked captures too, frames without their VLAN tags, packets whose sum is partial, and connections that begin amid their stream.
    Amid,
}

/// What of a capture is not read.
#[derive(Clone, Copy)]
pub struct Survey {
    pub dropped: Dropped,
    /// The packets between clients and assets that come before any SYN from the client to the asset. A count that would pass
    /// `u64::MAX` stays there.
    pub amid: u64,
    /// The packets whose sum is partial that were read all the same. A count that would pass `u64::MAX` stays there.
    pub partial: u64,
    pub gaps: Gaps,
}

/// What was seen so far.
#[derive(Drop)]
struct Seen {
    reading: Reading,
    dropped: Dropped,
    amid: u64,
    partial: u64,
    /// The pairs whose SYN was seen.
    begun: BTreeMap<PairKey, ()>,
    sent: Sent,
}

/// What of a capture is not read, of connections to these assets. Nothing where the capture is refused or cut, cannot be read, or
/// memory ran out. Changes no file.
pub fn survey_capture<F: Files>(
    alloc: Global,
    assets: &[Asset],
    capture: &str,
    reading: Reading,
    files: &mut F,
) -> Option<Survey>
    ensures reads { OnlyReads capture.now F.content F.read_faults F.write_faults files.old files.new ⊥ }
{
    let kinds = match reading {
        Reading::FromSyn => LinkSet::Plain,
        Reading::Amid => LinkSet::Recorded,
    };
    let mut reader = RecordReader::open_in(alloc, kinds, capture, files).ok()?;
    let mut seen = Seen::new(alloc, reading);
    if seen.take_all(assets, &mut reader, capture, files) {
        seen.finish()
    } else {
        None
    }
}

impl Seen {
    fn new(alloc: Global, reading: Reading) -> Seen {
        let begins = match reading {
            Reading::FromSyn => Begins::WithSyn,
            Reading::Amid => Begins::Amid,
        };
        Seen {
            reading,
            dropped: Dropped::new(),
            amid: 0,
            partial: 0,
            begun: BTreeMap::new(alloc),
            sent: Sent::new(alloc, begins),
        }
    }

    fn finish(mut self) -> Option<Survey> {
        let gaps = self.sent.gaps().ok()?;
        Some(Survey {
            dropped: self.dropped,
            amid: self.amid,
            partial: self.partial,
            gaps,
        })
    }

    /// Takes all records from the reader's place on, and says whether they were read to their end.
    fn take_all<F: Files>(
        &mut self,
        assets: &[Asset],
        reader: &mut RecordReader,
        capture: &str,
        files: &mut F,
    ) -> bool
        requires near { reader.old.place ≤ 2 ^ 40 }
        ensures reads { OnlyReads capture.now F.content F.read_faults F.write_faults files.old files.new ⊥ }
    {
        'records: loop {
            match reader.next(capture, files) {
                NextRecord::Whole(_) => {
                    if self.take(assets, &reader.link(), reader.body()).is_err() {
                        return false;
                    }
                }
                NextRecord::End => return true,
                _ => return false,
            }
        }
    }

    fn take(&mut self, assets: &[Asset], link: &LinkKind, body: &[u8]) -> Result<(), NoMemory> {
        let (kind, octets) = match self.reading {
            Reading::FromSyn => (*link, body),
            Reading::Amid => (untagged_kind(link, body), untagged(link, body)),
        };
        self.dropped.records = self.dropped.records.saturating_add(1);
        match read_packet(&kind, octets) {
            Ok(packet) => self.take_packet(assets, &packet),
            Err(refusal) => self.take_refused(assets, &kind, octets, refusal),
        }
    }

    /// Takes what is refused as it stands: its sum may be partial.
    fn take_refused(
        &mut self,
        assets: &[Asset],
        link: &LinkKind,
        octets: &[u8],
        refusal: PacketRefusal,
    ) -> Result<(), NoMemory> {
        match (self.reading, read_recorded(link, octets)) {
            (Reading::Amid, Ok(packet)) => {
                self.partial = self.partial.saturating_add(1);
                self.take_packet(assets, &packet)
            }
            _ => {
                self.dropped.count(link, octets, refusal);
                Ok(())
            }
        }
    }

    fn take_packet(&mut self, assets: &[Asset], packet: &Packet<'_>) -> Result<(), NoMemory> {
        let Some((key, dest)) = pair_of(assets, packet) else {
            return Ok(());
        };
        if dest == Side::Controller {
            self.sent.take(key, self.dropped.records, packet)?;
        }
        if self.begun.get(&key).is_some() {
            return Ok(());
        }
        if dest == Side::Client || !is_opening(packet) {
            self.amid = self.amid.saturating_add(1);
            return Ok(());
        }
        match self.begun.insert(key, ()) {
            Ok(_) => Ok(()),
            Err(_) => Err(NoMemory),
        }
    }
}
