//! `relay POLICY ASSET PORT IDLES LOG`: a policy between two streams.
ghost use Rattle.std.specs.Prelude.{◌≡◌, ◌≤◌, ◌∷◌, []};
ghost use Rattle.cf_words.specs.Command.{Relay};
ghost use Rattle.cf_box.specs.Ends.{Meets};
ghost use Rattle.cf_ending.specs.Outside.{FilesNeverFall, SinkValue, files_value, outside};
ghost use Rattle.cf_box.specs.Relay.{relay_answer};
ghost use Rattle.cf_outside.specs.PairValue.{pair_value};

use crate::policy_file::{find_site, load_policy};
use cf_ending::{Done, Stop};
use cf_outside::{Files, Pair};
use cf_relay::{RelayDone, RelayEnd, RelayFault};
use std::alloc::Global;

/// The answer of the command. A relay that a cut or the idle answers ended has stopped.
fn answer_of(ended: Result<RelayDone, RelayFault>) -> Result<Done, Stop>
    ensures { result ≡ relay_answer ended }
{
    let RelayDone {
        end,
        admitted,
        refused,
    } = match ended {
        Ok(done) => done,
        Err(RelayFault::NoMemory) => return Err(Stop::NoMemory),
        Err(RelayFault::Link) => return Err(Stop::LinkFault),
        Err(RelayFault::Write) => return Err(Stop::WriteFault),
    };
    match end {
        RelayEnd::Done => Ok(Done::Relayed { admitted, refused }),
        RelayEnd::IdleEnd => Err(Stop::IdleEnd),
        RelayEnd::Cut(reason) => Err(Stop::Cut(reason)),
    }
}

/// Reads the policy, and relays between the client that comes to the port and the site of a name. The port is at most 65,535;
/// twice `idles` answers `Idle` with no byte or end between them end it.
pub(crate) fn relay<F: Files, P: Pair>(
    alloc: Global,
    policy_file: &str,
    asset_name: &str,
    port: u64,
    idles: u64,
    log: &str,
    files: &mut F,
    pair: &mut P,
) -> Result<Done, Stop>
    requires port { port ≤ 65535 }
    requires idles { (1 ≤ idles) × (idles ≤ 1000000) }
    ensures meets { (sink : SinkValue) → Meets (Relay policy_file.now asset_name.now port idles log.now)
        (outside (files_value F.Files files.old) sink (pair_value P.Pair pair.old))
        (outside (files_value F.Files files.new) sink (pair_value P.Pair pair.new)) result }
    ensures later { FilesNeverFall (policy_file.now ∷ []) (files_value F.Files files.old)
        (files_value F.Files files.new) }
{
    let policy = match load_policy(alloc, policy_file, files) {
        Ok(policy) => policy,
        Err(stop) => return Err(stop),
    };
    let Some(site) = find_site(&policy, asset_name) else {
        return Err(Stop::UnknownAsset);
    };
    let (port, idles) = (port as u16, idles as u32);
    answer_of(cf_relay::relay(alloc, &site, port, idles, log, pair, files))
}
