//! How long the streams of a session may grow.
ghost use Rattle.std.specs.Prelude.{◌≡◌};
ghost use Rattle.cf_lane.specs.Limit.{limit_by};

use cf_audit::CutReason;
use cf_view::Side;

/// How many letters a stream of a session has at which the session is cut, End counted. This project's own.
pub const LETTER_LIMIT: u64 = 1 << 30;

/// How many letters each of a session's streams has so far, End counted.
#[derive(Clone, Copy)]
pub struct Lengths {
    /// Those taken of the client.
    pub client: u64,
    /// Those taken of the controller.
    pub controller: u64,
    /// Those of the stream to the client.
    pub to_client: u64,
    /// Those of the stream to the controller.
    pub to_controller: u64,
}

/// Why a stream that has as many letters as the limit cuts its session, if one has. This project's own order: what was taken
/// of the client and the stream to the client, then the controller's two.
pub fn limit_cut(limit: u64, lengths: &Lengths) -> Option<CutReason>
    ensures { result ≡ limit_by limit lengths.now.client lengths.now.controller lengths.now.to_client lengths.now.to_controller }
{
    if limit <= lengths.client || limit <= lengths.to_client {
        return Some(CutReason::StreamLength(Side::Client));
    }
    if limit <= lengths.controller || limit <= lengths.to_controller {
        return Some(CutReason::StreamLength(Side::Controller));
    }
    None
}
