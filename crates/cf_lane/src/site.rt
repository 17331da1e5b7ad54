//! Which asset of a site a unit is for. One that is for none goes by the first.
ghost use Rattle.std.specs.Prelude.{◌≡◌, ◌<◌, ◌≤◌, ℕ, IfSome, length, nat_eq, option_map, position, suc};
ghost use Rattle.cf_apci.specs.Apdu.{Fits, Info, apdu_value};
ghost use Rattle.cf_dnplink.specs.LinkFrame.{frame_value};
ghost use Rattle.cf_modbus.specs.Adu.{adu_value};
ghost use Rattle.cf_policy.specs.Site.{assets_of};
ghost use Rattle.cf_lane.specs.Dnp3.{has_addresses};
ghost use Rattle.cf_lane.specs.Site.{find_place, or_first, place_for};
ghost use Rattle.cf_lane.specs.Unit.{adu_unit, apdu_unit, frame_unit};

use crate::dnp3::has_addresses;
use crate::lane::after;
use cf_apci::Apdu;
use cf_asdu::{SHORTEST, station_of};
use cf_dnplink::Frame;
use cf_modbus::Adu;
use cf_policy::{Asset, Site};
use cf_view::{Side, View};

/// The place of the asset that an ADU is for, by its unit identifier.
#[inline(always)]
pub fn place_for_adu(site: &Site<'_>, side: Side, adu: &Adu<'_>) -> usize
    ensures place { result ≡ place_for site.now side (adu_unit (adu_value adu.now)) }
    ensures inside { result < length (assets_of site.now) }
{
    place_of_station(site, u16::from(adu.unit))
}

/// The place of the asset that a frame of a side is for, by its addresses.
pub fn place_for_frame(site: &Site<'_>, side: Side, frame: &Frame<'_>) -> usize
    ensures place { result ≡ place_for site.now side (frame_unit (frame_value frame.now)) }
    ensures inside { result < length (assets_of site.now) }
{
    if has_addresses(site.first(), side, frame) {
        return 0;
    }
    match position_of_addresses(site.others(), side, frame) {
        Some(behind) => behind + 1,
        None => 0,
    }
}

/// Which of the assets behind the first a frame of a side is for.
fn position_of_addresses(others: &[Asset], side: Side, frame: &Frame<'_>) -> Option<usize>
    ensures position { result ≡ position (λ a. has_addresses a side (frame_value frame.now)) others.now }
    ensures inside { IfSome result (λ n. n < length others.now) }
{
    others
        .iter()
        .position(|asset| has_addresses(asset, side, frame))
}

/// The place of the asset that an APDU is for, by the common address of its ASDU. Acknowledgments and controls are for none.
pub fn place_for_apdu(site: &Site<'_>, side: Side, apdu: &Apdu<'_>) -> usize
    requires { Fits (apdu_value apdu.now) }
    ensures place { result ≡ place_for site.now side (apdu_unit (apdu_value apdu.now)) }
    ensures inside { result < length (assets_of site.now) }
{
    match apdu {
        Apdu::Info { asdu, .. } => place_of_asdu(site, asdu),
        Apdu::Ack { .. } | Apdu::Control(_) => 0,
    }
}

/// The place of the asset with the station of an ASDU, where that is whole.
fn place_of_asdu(site: &Site<'_>, asdu: &View<'_>) -> usize
    requires { length asdu.now.bytes ≤ 249 }
    ensures place { (side : Side) (send receive : ℕ) → result ≡ place_for site.now side (apdu_unit (Info send receive asdu.now.bytes)) }
    ensures inside { result < length (assets_of site.now) }
{
    if asdu.len() < SHORTEST {
        return 0;
    }
    place_of_station(site, station_of(after(asdu, 0)))
}

/// The place of the first asset with a station.
#[inline(always)]
fn place_of_station(site: &Site<'_>, station: u16) -> usize
    ensures place { result ≡ or_first (find_place (λ a. nat_eq station a.station) (assets_of site.now)) }
    ensures inside { result < length (assets_of site.now) }
{
    if station == site.first().station {
        return 0;
    }
    place_behind(site.others(), station)
}

/// The place of the first of the assets behind the first with a station, and that of the first where none has it.
fn place_behind(others: &[Asset], station: u16) -> usize
    ensures place { result ≡ or_first (option_map suc (find_place (λ a. nat_eq station a.station) others.now)) }
    ensures inside { result ≤ length others.now }
{
    match position_of_station(others, station) {
        Some(behind) => behind + 1,
        None => 0,
    }
}

/// Which of the assets behind the first has a station.
fn position_of_station(others: &[Asset], station: u16) -> Option<usize>
    ensures position { result ≡ position (λ a. nat_eq station a.station) others.now }
    ensures inside { IfSome result (λ n. n < length others.now) }
{
    others.iter().position(|asset| station == asset.station)
}
