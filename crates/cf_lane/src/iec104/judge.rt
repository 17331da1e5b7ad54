//! What becomes of a client's ASDU.
ghost use Rattle.std.specs.Prelude.{◌≡◌, ◌≤◌, length, slice_index, ℕ};
ghost use Rattle.cf_lane.specs.Fate.{HasOwnDecider};
ghost use Rattle.cf_lane.specs.Iec104.{fate_of_asdu};
ghost use Rattle.cf_lane.specs.Judgement.{fate_of_judgement};
ghost use Rattle.cf_policy.specs.Within.{most_rated};
ghost use Rattle.cf_lane.specs.Rings.{IsRulesOf, says_by};

use crate::fate::{Judgement, judge_acts, refused};
use crate::lane::after;
use crate::rules::Rules;
use cf_asdu::{AsduRefusal, SHORTEST, act_at, act_count, read_asdu, station_of};
use cf_policy::{Asset, Decider};
use cf_view::{Reason, View};

/// What becomes of a client's ASDU. Whether it is too short is tested first, then the station is compared, then the rest of its form
/// is read, then each act is judged in its order; the first that is not allowed decides. This project's own order.
pub(crate) fn judge_asdu(asset: &Asset, rules: &Rules, moment: u64, octets: &View<'_>) -> Judgement
    requires at_most { length octets.now.bytes ≤ 249 }
    requires few { length rules.now.rings.items ≤ most_rated }
    ensures fate { (client : ℕ) → IsRulesOf asset.now client rules.now
        → fate_of_judgement result ≡ fate_of_asdu asset.now (says_by asset.now client rules.now moment) octets.now.bytes }
    ensures decider { HasOwnDecider asset.now.rules (fate_of_judgement result) }
{
    if octets.len() < SHORTEST {
        return refused(
            Decider::Form,
            AsduRefusal::Short.reason(),
            kind_of(octets),
            0,
        );
    }
    let station = station_of(after(octets, 0));
    if station != asset.station {
        return refused(
            Decider::Station,
            Reason::Station,
            kind_of(octets),
            u32::from(station),
        );
    }
    match read_asdu(after(octets, 0)) {
        Err(refusal) => refused(Decider::Form, refusal.reason(), kind_of(octets), 0),
        Ok(asdu) => judge_acts(asset, rules, moment, act_count(&asdu), |i| act_at(&asdu, i)),
    }
}

/// The type identification of an ASDU; 0 where it has no octet. IEC 60870-5-101, section 7.2.1.
pub fn kind_of(octets: &View<'_>) -> u16
    ensures { result ≡ slice_index octets.now.bytes 0 }
{
    if octets.is_empty() {
        0
    } else {
        u16::from(octets.at(0))
    }
}
