//! The flows of a capture file.
ghost use Rattle.std.specs.Prelude.{◌≡◌, ◌^◌, ◌<◌, Ok, Err, Some, true, false, None, All};
ghost use Rattle.std.specs.Prelude.{IsErrOf, length, map, IfOk, IfErr};
ghost use Rattle.cf_outside.specs.Frames.{OnlyReads};
ghost use Rattle.cf_outside.specs.Files.{IsAtEnd, IsLongerThan};
ghost use Rattle.cf_watch.specs.FlowValue.{IsForAsset, flow_value};
ghost use Rattle.cf_watch.specs.Watch.{WatchesAs};

use crate::fault::{CAPTURE_LIMIT, WatchFault, WatchRefusal};
use crate::flow::Flow;
use crate::hearing::hear_capture;
use crate::recorder::Recorder;
use crate::scope::Scope;
use cf_outside::{Files, ReadAnswer};
use cf_policy::Policy;
use std::alloc::Global;

/// The flows of a capture to the assets of a policy, in the order of their beginning, each from a SYN on: of a pcap or a pcapng file of at
/// most `CAPTURE_LIMIT` octets. Packets that are no TCP segments of IPv4 are passed over. Changes no file. This project's own.
///
/// It keeps one record of the file at a time, and of each flow its bytes, their records, and the letters that came ahead of their
/// turn.
pub fn watch<F: Files>(
    alloc: Global,
    policy: &Policy,
    capture: &str,
    files: &mut F,
) -> Result<Vec<Flow>, WatchFault>
    requires assets { length policy.now.assets < 2 ^ 32 }
    ensures watched { IfOk result (λ flows. WatchesAs policy.now.assets (F.content files.old capture.now)
        (Ok (map flow_value flows.items))) }
    ensures for_assets { IfOk result (λ flows. All (IsForAsset policy.now.assets) (map flow_value flows.items)) }
    ensures fault { IfErr result (λ fault. WatchesAs policy.now.assets (F.content files.old capture.now) (Err fault)) }
    ensures reads { OnlyReads capture.now F.content F.read_faults F.write_faults files.old files.new (IsErrOf result WatchFault.Read) }
{
    match is_long(capture, files) {
        Some(false) => {}
        Some(true) => return Err(WatchFault::Refused(WatchRefusal::Long)),
        None => return Err(WatchFault::Read),
    }
    let assets = policy.assets.as_slice();
    let mut recorder = Recorder::new(alloc);
    match hear_capture(
        alloc,
        Scope::Connections,
        assets,
        capture,
        &mut recorder,
        files,
    ) {
        Ok(()) => Ok(recorder.watch.flows),
        Err(fault) => Err(fault),
    }
}

/// Whether a file has more octets than `CAPTURE_LIMIT`, or `None` where a read failed.
fn is_long<F: Files>(name: &str, files: &mut F) -> Option<bool>
    ensures long { result ≡ Some true → IsLongerThan (F.content files.old name.now) CAPTURE_LIMIT }
    ensures short { result ≡ Some false → IsAtEnd (F.content files.old name.now) CAPTURE_LIMIT }
    ensures reads { OnlyReads name.now F.content F.read_faults F.write_faults files.old files.new (result ≡ None) }
{
    let mut octet = [0u8; 1];
    match files.read_at(name, CAPTURE_LIMIT, &mut octet) {
        ReadAnswer::Got(_) => Some(true),
        ReadAnswer::End => Some(false),
        ReadAnswer::Failed => None,
    }
}
