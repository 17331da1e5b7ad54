//! What a review tells of flows.
ghost use Rattle.std.specs.Prelude.{◌≡◌};
ghost use Rattle.cf_review.specs.Remark.{matter_value, remark_value};

use arrayvec::ArrayVec;
use cf_audit::Why;
use cf_lane::Refusal;
use cf_view::{Break, Endpoint, push_bytes};

/// How many octets of a refused command are told at most. This project's own.
pub const SHOWN: usize = 16;

/// What is objected to.
#[derive(Drop)]
pub enum Matter {
    /// A command is refused.
    Refused {
        /// What decided, with the first act that is not allowed.
        refusal: Refusal,
        /// The first octets of the command: of the ADU, the DNP3 fragment or the APDU.
        octets: ArrayVec<u8, SHOWN>,
    },
    /// A frame, segment or fragment of DNP3 belongs to nothing.
    Stray(Why),
    /// The bytes go on with an octet that no unit of the protocol has there.
    Broken(Break),
    /// Two packets carried different letters at this position.
    Conflict(i64),
    /// The flow begins amid its stream: the capture has no SYN of it.
    Midstream,
    /// The first bytes of the flow end at this position, and it has others that do not follow on them.
    Gap(i64),
}

/// Something in a recording that a policy objects to.
#[derive(Drop)]
pub struct Remark {
    /// The number, counted from 1, of the record with which it was whole.
    pub at_record: u64,
    pub client: Endpoint,
    /// The place in the policy, counted from 0, of the asset that it is about: that of a unit, or else the first of the flow's site.
    pub asset: u32,
    pub what: Matter,
}

impl Remark {
    /// The same.
    pub(crate) fn copy(&self) -> Remark
        ensures { remark_value result ≡ remark_value self.now }
    {
        Remark {
            at_record: self.at_record,
            client: self.client,
            asset: self.asset,
            what: self.what.copy(),
        }
    }
}

impl Matter {
    /// The same.
    fn copy(&self) -> Matter
        ensures { matter_value result ≡ matter_value self.now }
    {
        match self {
            Matter::Refused { refusal, octets } => {
                let mut same = ArrayVec::<u8, SHOWN>::new();
                push_bytes(&mut same, octets.as_slice());
                Matter::Refused {
                    refusal: *refusal,
                    octets: same,
                }
            }
            Matter::Stray(why) => Matter::Stray(*why),
            Matter::Broken(reason) => Matter::Broken(*reason),
            Matter::Conflict(position) => Matter::Conflict(*position),
            Matter::Midstream => Matter::Midstream,
            Matter::Gap(position) => Matter::Gap(*position),
        }
    }
}
