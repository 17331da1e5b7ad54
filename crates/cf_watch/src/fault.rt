//! Why the flows of a capture are not told.

use cf_records::{BlockRefusal, FormRefusal, OpenFault};

/// How many octets a capture whose connections are watched has at most: 64 MiB. One of a recording may have more. This project's own.
pub const CAPTURE_LIMIT: u64 = 67_108_864;

/// Why a capture is refused.
#[derive(Clone, Copy)]
pub enum WatchRefusal {
    /// Its connections are watched, and it has more octets than `CAPTURE_LIMIT`. This is tested before its header.
    Long,
    /// By its header, or its first section header.
    Header(FormRefusal),
    /// By a block of a pcapng file.
    Block(BlockRefusal),
    /// By the captured length of a record, which is above `CAPTURED_LIMIT`.
    TooLong,
    /// An octet of a record or a block of a recording stands at place 2^40 or above.
    Large,
}

/// Why a capture was not watched to its end.
#[derive(Clone, Copy)]
pub enum WatchFault {
    NoMemory,
    /// A read failed.
    Read,
    Refused(WatchRefusal),
    /// The capture ends inside the record or the block that begins at this place, in octets.
    Cut(u64),
}

impl From<OpenFault> for WatchFault {
    ghost use Rattle.std.specs.Prelude.{◌≡◌};
    ghost use Rattle.cf_watch.specs.Opened.{open_fault};

    ghost from_gives = { λ opened fault. fault ≡ open_fault opened };

    fn from(fault: OpenFault) -> WatchFault {
        match fault {
            OpenFault::NoMemory => WatchFault::NoMemory,
            OpenFault::Read => WatchFault::Read,
            OpenFault::Refused(refusal) => WatchFault::Refused(WatchRefusal::Header(refusal)),
        }
    }
}
