//! Which packets are counted beside what becomes of them.
ghost use Rattle.std.specs.Prelude.{◌≡◌};
ghost use Rattle.cf_lane.specs.Judged.{one_if};
ghost use Rattle.cf_packet.specs.Packet.{packet_value};
ghost use Rattle.cf_run.specs.Fitting.{is_above, is_beyond, is_between_others};

use crate::entry::has_asset_at;
use cf_packet::Packet;
use cf_policy::Asset;
use cf_session::Misfit;

/// Whether neither end of a packet, or both, is an asset's.
pub(crate) fn is_foreign(assets: &[Asset], packet: &Packet<'_>) -> bool
    ensures { result ≡ is_between_others assets.now (packet_value packet.now) }
{
    if has_asset_at(assets, &packet.source) {
        has_asset_at(assets, &packet.dest)
    } else {
        !has_asset_at(assets, &packet.dest)
    }
}

/// Whether a packet acknowledged what was not sent.
pub(crate) fn is_above(misfit: Misfit) -> bool
    ensures { result ≡ is_above misfit }
{
    matches!(misfit, Misfit::Above)
}

/// Whether a packet ended beyond the edge.
pub(crate) fn is_beyond(misfit: Misfit) -> bool
    ensures { result ≡ is_beyond misfit }
{
    matches!(misfit, Misfit::Beyond)
}

/// One where something is so, and else none.
pub(crate) fn one_if(so: bool) -> u64
    ensures { result ≡ one_if so }
{
    u64::from(so)
}
