//! Why the work stops where a capture is not watched to its end.
ghost use Rattle.std.specs.Prelude.{◌≡◌};
ghost use Rattle.cf_box.specs.Watching.{fault_stop};

use cf_ending::{CaptureRefusal, Stop};
use cf_watch::{WatchFault, WatchRefusal};

/// Why a command stops where its capture was not watched.
pub(crate) fn fault_stop(fault: WatchFault) -> Stop
    ensures { result ≡ fault_stop fault }
{
    match fault {
        WatchFault::NoMemory => Stop::NoMemory,
        WatchFault::Read => Stop::ReadFault,
        WatchFault::Cut(place) => Stop::CaptureCut(place),
        WatchFault::Refused(WatchRefusal::Long) => Stop::CaptureRefused(CaptureRefusal::Long),
        WatchFault::Refused(WatchRefusal::Large) => Stop::CaptureRefused(CaptureRefusal::Large),
        WatchFault::Refused(WatchRefusal::TooLong) => {
            Stop::CaptureRefused(CaptureRefusal::TooLong)
        }
        WatchFault::Refused(WatchRefusal::Header(refusal)) => Stop::from(refusal),
        WatchFault::Refused(WatchRefusal::Block(refusal)) => Stop::from(refusal),
    }
}
