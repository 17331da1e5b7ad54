//! What an APDU of IEC 60870-5-104 counts for. Its numbers, and whether the transfer was started, are not judged.
ghost use Rattle.std.specs.Prelude.{◌≡◌, ◌≤◌, ℕ, length};
ghost use Rattle.cf_apci.specs.Apdu.{Fits, apdu_value};
ghost use Rattle.cf_lane.specs.Iec104.{fate_of_asdu};
ghost use Rattle.cf_policy.specs.Index.{IsIndexOf};
ghost use Rattle.cf_policy.specs.Verdict.{verdict_of};
ghost use Rattle.cf_judge.specs.Ruling.{ruling_of};
ghost use Rattle.cf_judge.specs.Plain.{fate_by_asdu};

use crate::ruling::{Ruling, judge_acts, refused};
use cf_apci::Apdu;
use cf_asdu::{AsduRefusal, SHORTEST, act_at, act_count, read_asdu, station_of};
use cf_lane::kind_of;
use cf_policy::{Asset, CodeIndex, Decider};
use cf_view::{Reason, View};

/// What an APDU counts for: an I frame by its ASDU; S and U frames count for nothing. IEC 60870-5-104, section 5.
pub(crate) fn judge_apdu(asset: &Asset, index: &CodeIndex, apdu: &Apdu<'_>) -> Ruling
    requires fits { Fits (apdu_value apdu.now) }
    ensures ruling { (client : ℕ) → IsIndexOf asset.now client index.now
        → result ≡ ruling_of (fate_by_asdu asset.now client (apdu_value apdu.now)) }
{
    match apdu {
        Apdu::Info { asdu, .. } => judge_asdu(asset, index, asdu),
        Apdu::Ack { .. } | Apdu::Control(_) => Ruling::Nothing,
    }
}

/// Whether it is too short is tested first, then the station is compared, then the rest of its form is read, then the acts are
/// judged.
fn judge_asdu(asset: &Asset, index: &CodeIndex, octets: &View<'_>) -> Ruling
    requires at_most { length octets.now.bytes ≤ 249 }
    ensures ruling { (client : ℕ) → IsIndexOf asset.now client index.now
        → result ≡ ruling_of (fate_of_asdu asset.now (verdict_of asset.now client) octets.now.bytes) }
{
    if octets.len() < SHORTEST {
        return refused(
            Decider::Form,
            AsduRefusal::Short.reason(),
            kind_of(octets),
            0,
        );
    }
    let station = station_of(all(octets));
    if station != asset.station {
        return refused(
            Decider::Station,
            Reason::Station,
            kind_of(octets),
            u32::from(station),
        );
    }
    match read_asdu(all(octets)) {
        Err(refusal) => refused(Decider::Form, refusal.reason(), kind_of(octets), 0),
        Ok(asdu) => judge_acts(asset, index, act_count(&asdu), |i| act_at(&asdu, i)),
    }
}

/// The same octets.
pub(crate) fn all<'a>(octets: &View<'a>) -> View<'a>
    ensures { result.bytes ≡ octets.now.bytes }
{
    octets.sub(0, octets.len())
}
