//! The test of the lengths.
//! It stands behind each element of a history: whether one of the two sides, or of the two streams, has 2^30 letters by then.
ghost use Rattle.std.specs.Prelude.{◌≡◌};
ghost use Rattle.cf_lane.specs.Limit.{limit_by};
ghost use Rattle.cf_outq.specs.SendQueue.{IsQueue, queue_length};

use cf_audit::CutReason;
use cf_lane::{Lengths, limit_cut};
use cf_outq::Outq;

/// Why a stream that has as many letters as the limit cuts its session, if one has: by how many letters were taken of the
/// client and of the controller, and by all that was ever put into the queue to each, End counted.
pub fn length_cut(
    limit: u64,
    client: u64,
    controller: u64,
    to_client: &Outq,
    to_controller: &Outq,
) -> Option<CutReason>
    ensures cut { result ≡ limit_by limit client controller (queue_length to_client.now) (queue_length to_controller.now) }
    ensures to_client { IsQueue to_client.now }
    ensures to_controller { IsQueue to_controller.now }
{
    limit_cut(
        limit,
        &Lengths {
            client,
            controller,
            to_client: to_client.length() as u64,
            to_controller: to_controller.length() as u64,
        },
    )
}
