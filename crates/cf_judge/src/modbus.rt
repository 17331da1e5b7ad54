//! What an ADU of Modbus counts for.
ghost use Rattle.std.specs.Prelude.{◌≡◌, ◌≤◌, ℕ, length};
ghost use Rattle.cf_lane.specs.Acts.{fate_of_acts};
ghost use Rattle.cf_modbus.specs.Acts.{acts};
ghost use Rattle.cf_modbus.specs.Adu.{adu_value};
ghost use Rattle.cf_modbus.specs.Request.{IsRead, request_value};
ghost use Rattle.cf_policy.specs.Index.{IsIndexOf};
ghost use Rattle.cf_policy.specs.Verdict.{verdict_of};
ghost use Rattle.cf_judge.specs.Ruling.{HasAduRuling, ruling_of};

use crate::ruling::{Ruling, refused};
use cf_lane::refusal_of;
use cf_modbus::{Adu, Request, read_request};
use cf_policy::{Asset, CodeIndex, Decider};
use cf_view::Reason;

/// The station is compared first, then the form is read, then the acts are judged.
pub(crate) fn judge_adu(asset: &Asset, index: &CodeIndex, adu: &Adu<'_>) -> Ruling
    requires at_least { 1 ≤ length adu.now.pdu.bytes }
    requires at_most { length adu.now.pdu.bytes ≤ 253 }
    ensures ruling { (client : ℕ) → IsIndexOf asset.now client index.now
        → HasAduRuling asset.now client (adu_value adu.now) result }
{
    let code = u16::from(adu.pdu.at(0));
    if u16::from(adu.unit) != asset.station {
        return refused(Decider::Station, Reason::Station, code, u32::from(adu.unit));
    }
    match read_request(adu) {
        Err(refusal) => refused(Decider::Form, refusal.reason(), code, 0),
        Ok(request) => judge_request(asset, index, &request),
    }
}

/// What a request counts for: its acts are judged by runs of points, as a lane judges them.
fn judge_request(asset: &Asset, index: &CodeIndex, request: &Request<'_>) -> Ruling
    requires read { IsRead (request_value request.now) }
    ensures ruling { (client : ℕ) → IsIndexOf asset.now client index.now
        → result ≡ ruling_of (fate_of_acts asset.now (verdict_of asset.now client) (acts (request_value request.now))) }
{
    match refusal_of(asset, index, request) {
        Some(refusal) => Ruling::Refused(refusal),
        None => Ruling::Allowed,
    }
}
