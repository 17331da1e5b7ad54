//! The making of the capture, record by record.
//! At most 1,000 segments are lost between two records, and at most 10 seconds lie between them. Neither is ever reached, so the
//! making ends.
ghost use Rattle.std.specs.Prelude.{◌≡◌, ◌≤◌, ◌<◌, ◌+◌, ◌∷◌, [], IsErrOf, OnOk, length};
ghost use Rattle.cf_outside.specs.Frames.{OnlyWrites};
ghost use Rattle.cf_policy.specs.Within.{AreAssetsWithin};
ghost use Rattle.cf_run.specs.Step.{IsSoundEngine};
ghost use Rattle.cf_view.specs.Moment.{moment_limit};
ghost use Rattle.cf_hosts.specs.Next.{made_record};
ghost use Rattle.cf_world.specs.Making.{AppendsRecord, AppendsRecords, IsReadAgain};

use crate::record::append_record;
use crate::world::{RECORD_LIMIT, WorldFault};
use arrayvec::ArrayVec;
use cf_hosts::{Hosts, Next, comes_next};
use cf_outside::{Files, WriteAnswer};
use cf_policy::Policy;
use cf_run::{Engine, StepFault};
use cf_view::LinkKind;
use std::alloc::Global;

/// Makes the records of a capture, whose file is there: the segments of the hosts in the order in which they are ready, until
/// nobody has anything to say, or there are as many records as there may be.
pub(crate) fn make_records<F: Files>(
    alloc: Global,
    policy: &Policy,
    sessions: u32,
    capture: &str,
    engine: &mut Engine,
    hosts: &mut Hosts,
    files: &mut F,
) -> Result<(), WorldFault>
    requires within { AreAssetsWithin policy.now.assets }
    requires few { sessions ≤ 200 }
    requires sound { IsSoundEngine policy.now.assets engine.old }
    requires first { engine.old.last ≡ 0 }
    ensures made { AppendsRecords sessions (F.content files.old capture.now) (F.content files.new capture.now) result }
    ensures writes { OnlyWrites (capture.now ∷ []) F.content F.read_faults F.write_faults
        files.old files.new (IsErrOf result WorldFault.Write) }
{
    let mut packet = ArrayVec::new();
    let mut records = 0;
    let mut begun = 0;
    let mut losses = 0;
    let mut last = 0;
    'records: while records < RECORD_LIMIT {
        match comes_next(hosts, begun, sessions, last, losses, &mut packet) {
            Next::Ends => return Ok(()),
            Next::Loses => losses += 1,
            Next::Sends {
                moment,
                begun: after,
            } => {
                send(
                    alloc, policy, capture, moment, &packet, engine, hosts, files,
                )?;
                records += 1;
                losses = 0;
                last = moment;
                begun = after;
            }
        }
    }
    Ok(())
}

/// Appends the record of a packet at a moment, and steps the engine, which hands to the hosts what it sends.
fn send<F: Files>(
    alloc: Global,
    policy: &Policy,
    capture: &str,
    moment: u64,
    packet: &[u8],
    engine: &mut Engine,
    hosts: &mut Hosts,
    files: &mut F,
) -> Result<(), WorldFault>
    requires within { AreAssetsWithin policy.now.assets }
    requires sound { IsSoundEngine policy.now.assets engine.old }
    requires later { engine.old.last + 2 ≤ moment }
    requires moment { moment < moment_limit }
    requires short { length packet.now ≤ 1500 }
    ensures file { AppendsRecord (made_record moment packet.now)
        (F.content files.old capture.now) (F.content files.new capture.now) result }
    ensures again { IsReadAgain (made_record moment packet.now) }
    ensures sound { OnOk result (IsSoundEngine policy.now.assets engine.new) }
    ensures last { OnOk result (engine.new.last ≡ moment) }
    ensures writes { OnlyWrites (capture.now ∷ []) F.content F.read_faults F.write_faults
        files.old files.new (IsErrOf result WorldFault.Write) }
{
    if let WriteAnswer::Failed = append_record(capture, moment, packet, files) {
        return Err(WorldFault::Write);
    }
    match engine.step(alloc, policy, moment, &LinkKind::RawIp, packet, hosts) {
        Ok(()) => Ok(()),
        Err(StepFault::NoMemory) => Err(WorldFault::NoMemory),
        Err(StepFault::Write) => Err(WorldFault::Write),
    }
}
