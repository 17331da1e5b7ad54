//! The assets of a policy.
ghost use Rattle.std.specs.Prelude.{◌≡◌, ◌≤◌, [], vec_len};
ghost use Rattle.toml.specs.View.{table_view, array_view};
ghost use Rattle.cf_policy.specs.Within.{lowest_station, highest_station, most_assets};
ghost use Rattle.cf_policylang.specs.Tested.{Answers, AnswersPlainly};
ghost use Rattle.cf_policylang.specs.Assets.{is_asset_taken, asset_name, asset_address, number_at, endpoint};
ghost use Rattle.cf_policylang.specs.Assets.{protocol_of, stated_protocol, protocol, station, no_master, master, asset, assets_from};

use crate::fields::{as_number, as_table, as_text, has_other, name, number_in, required, stated};
use crate::numbers::address;
use crate::refusal::{Cause, Key, Place, PolicyFault, PolicyRefusal, refusal};
use crate::rules::rules;
use crate::sets::{Edition, Named};
use crate::sites::{is_endpoint_barred, is_protocol_barred, is_site_full, is_station_taken};
use cf_policy::{
    Asset, HIGHEST_COMMON_ADDRESS, HIGHEST_LINK_ADDRESS, HIGHEST_UNIT, Items, Name, Protocol,
};
use cf_view::Endpoint;
use std::alloc::Global;
use toml::Table;
use toml::value::Array;

const ASSET_KEYS: [Key; 7] = [
    Key::Name,
    Key::Address,
    Key::Port,
    Key::Protocol,
    Key::Station,
    Key::Master,
    Key::Rule,
];

/// The assets of a policy.
pub(crate) fn assets_from(
    alloc: Global,
    named: &Named,
    array: &Array,
) -> Result<Items<Asset>, PolicyFault>
    requires { vec_len array.now ≤ most_assets }
    ensures { Answers (λ a. a) (assets_from named.now 0 (array_view array.now) []) result }
{
    let mut assets = Vec::new(alloc);
    for (index, value) in array.iter().enumerate() {
        let table = as_table(Key::Asset, Place::DOCUMENT, value)?;
        let asset = asset(alloc, named, index as u32 + 1, assets.as_slice(), table)?;
        assets.push(asset)?;
    }
    Ok(Items::new(assets))
}

/// The asset of this number, from 1, after those that were read.
fn asset(
    alloc: Global,
    named: &Named,
    number: u32,
    earlier: &[Asset],
    table: &Table,
) -> Result<Asset, PolicyFault>
    ensures { Answers (λ a. a) (asset named.now number earlier.now (table_view table.now)) result }
{
    let place = Place::asset(number);
    if has_other(&ASSET_KEYS, table) {
        return Err(refusal(Cause::UnknownKey, Key::Nothing, place).into());
    }
    let name = asset_name(place, earlier, table)?;
    let endpoint = endpoint(named.edition, place, earlier, table)?;
    let protocol = protocol(place, earlier, endpoint, table)?;
    let station = station(protocol, place, earlier, endpoint, table)?;
    let master = master(protocol, place, table)?;
    let rules = rules(alloc, named, protocol, number, table)?;
    Ok(Asset {
        name,
        endpoint,
        protocol,
        station,
        master,
        rules,
    })
}

fn asset_name(place: Place, earlier: &[Asset], table: &Table) -> Result<Name, PolicyRefusal>
    ensures { AnswersPlainly (λ n. n) (asset_name place earlier.now (table_view table.now)) result }
{
    let name = name(place, table)?;
    if is_asset_taken(earlier, name.as_str()) {
        return Err(refusal(Cause::Duplicate, Key::Name, place));
    }
    Ok(name)
}

fn is_asset_taken(earlier: &[Asset], text: &str) -> bool
    ensures { result ≡ is_asset_taken earlier.now text.now }
{
    for asset in earlier {
        if asset.name.as_str() == text {
            return true;
        }
    }
    false
}

/// The endpoint: its address, and then its port, at which the two together are tested.
fn endpoint(
    edition: Edition,
    place: Place,
    earlier: &[Asset],
    table: &Table,
) -> Result<Endpoint, PolicyRefusal>
    ensures { result ≡ endpoint edition place earlier.now (table_view table.now) }
{
    let address = asset_address(place, table)?;
    let port = number_at(Key::Port, 1, u16::MAX, place, table)?;
    let endpoint = Endpoint { address, port };
    if is_endpoint_barred(edition, earlier, endpoint) {
        return Err(refusal(Cause::Duplicate, Key::Port, place));
    }
    Ok(endpoint)
}

fn asset_address(place: Place, table: &Table) -> Result<u32, PolicyRefusal>
    ensures { result ≡ asset_address place (table_view table.now) }
{
    let text = as_text(Key::Address, place, required(Key::Address, place, table)?)?;
    address(text).ok_or(refusal(Cause::BadAddress, Key::Address, place))
}

/// The number at a key, from `low` to `high`.
fn number_at(
    key: Key,
    low: u16,
    high: u16,
    place: Place,
    table: &Table,
) -> Result<u16, PolicyRefusal>
    ensures { result ≡ number_at key low high place (table_view table.now) }
{
    let number = as_number(key, place, required(key, place, table)?)?;
    number_in(low, high, number).ok_or(refusal(Cause::BadRange, key, place))
}

/// The protocol, which is that of the site that the asset joins, where this has room for one more.
fn protocol(
    place: Place,
    earlier: &[Asset],
    endpoint: Endpoint,
    table: &Table,
) -> Result<Protocol, PolicyRefusal>
    ensures { result ≡ protocol place earlier.now endpoint (table_view table.now) }
{
    let protocol = stated_protocol(place, table)?;
    if is_protocol_barred(earlier, endpoint, protocol) {
        return Err(refusal(Cause::Duplicate, Key::Protocol, place));
    }
    if is_site_full(earlier, endpoint, protocol) {
        return Err(refusal(Cause::TooMany, Key::Protocol, place));
    }
    Ok(protocol)
}

fn stated_protocol(place: Place, table: &Table) -> Result<Protocol, PolicyRefusal>
    ensures { result ≡ stated_protocol place (table_view table.now) }
{
    let text = as_text(Key::Protocol, place, required(Key::Protocol, place, table)?)?;
    protocol_of(text).ok_or(refusal(Cause::BadRange, Key::Protocol, place))
}

fn protocol_of(text: &str) -> Option<Protocol>
    ensures { result ≡ protocol_of text.now }
{
    match text {
        "modbus" => Some(Protocol::Modbus),
        "dnp3" => Some(Protocol::Dnp3),
        "iec104" => Some(Protocol::Iec104),
        _ => None,
    }
}

/// The station, which no asset of the site that the asset joins has.
fn station(
    protocol: Protocol,
    place: Place,
    earlier: &[Asset],
    endpoint: Endpoint,
    table: &Table,
) -> Result<u16, PolicyRefusal>
    ensures { result ≡ station protocol place earlier.now endpoint (table_view table.now) }
{
    let station = stated_station(protocol, place, table)?;
    if is_station_taken(earlier, endpoint, station) {
        return Err(refusal(Cause::Duplicate, Key::Station, place));
    }
    Ok(station)
}

fn stated_station(protocol: Protocol, place: Place, table: &Table) -> Result<u16, PolicyRefusal>
    ensures { result ≡ number_at Key.Station (lowest_station protocol) (highest_station protocol) place (table_view table.now) }
{
    let (low, high) = match protocol {
        Protocol::Modbus => (0, HIGHEST_UNIT),
        Protocol::Dnp3 => (0, HIGHEST_LINK_ADDRESS),
        Protocol::Iec104 => (1, HIGHEST_COMMON_ADDRESS),
    };
    number_at(Key::Station, low, high, place, table)
}

/// The master's address of DNP3; another protocol does not have the key.
fn master(protocol: Protocol, place: Place, table: &Table) -> Result<u16, PolicyRefusal>
    ensures { result ≡ master protocol place (table_view table.now) }
{
    match protocol {
        Protocol::Dnp3 => number_at(Key::Master, 0, HIGHEST_LINK_ADDRESS, place, table),
        Protocol::Modbus | Protocol::Iec104 => no_master(place, table),
    }
}

fn no_master(place: Place, table: &Table) -> Result<u16, PolicyRefusal>
    ensures { result ≡ no_master place (table_view table.now) }
{
    match stated(Key::Master, table) {
        Some(_) => Err(refusal(Cause::UnknownKey, Key::Nothing, place)),
        None => Ok(0),
    }
}
