//! Which assets may follow those that were read: several of one endpoint are a site in version 3, where they stand one behind the
//! other, have one protocol, and have stations that differ.
ghost use Rattle.std.specs.Prelude.{◌≡◌};
ghost use Rattle.cf_policy.specs.AtEndpoint.{count_at, has_asset_at};
ghost use Rattle.cf_policy.specs.Within.{most_at_site};
ghost use Rattle.cf_policylang.specs.Sites.{is_endpoint_barred, is_last_at, is_protocol_barred, is_site_full, is_station_taken};
ghost use Rattle.cf_policylang.specs.Sites.{same_protocol};

use crate::sets::Edition;
use cf_policy::{Asset, MOST_AT_SITE, MOST_DNP3_AT_SITE, Protocol};
use cf_view::{Endpoint, same_endpoint};

/// Whether no more asset may have the endpoint: an earlier one has it, and in version 3 that one is not of the site read last.
pub(crate) fn is_endpoint_barred(edition: Edition, earlier: &[Asset], endpoint: Endpoint) -> bool
    ensures { result ≡ is_endpoint_barred edition earlier.now endpoint }
{
    match edition {
        Edition::First | Edition::Second => has_asset_at(earlier, endpoint),
        Edition::Third => has_asset_at(earlier, endpoint) && !is_last_at(earlier, endpoint),
    }
}

pub(crate) fn has_asset_at(earlier: &[Asset], endpoint: Endpoint) -> bool
    ensures { result ≡ has_asset_at earlier.now endpoint }
{
    earlier
        .iter()
        .any(|asset| same_endpoint(&asset.endpoint, &endpoint))
}

fn is_last_at(earlier: &[Asset], endpoint: Endpoint) -> bool
    ensures { result ≡ is_last_at earlier.now endpoint }
{
    match earlier.last() {
        Some(asset) => same_endpoint(&asset.endpoint, &endpoint),
        None => false,
    }
}

/// Whether the site that an asset joins has another protocol.
pub(crate) fn is_protocol_barred(earlier: &[Asset], endpoint: Endpoint, protocol: Protocol) -> bool
    ensures { result ≡ is_protocol_barred earlier.now endpoint protocol }
{
    earlier.iter().any(|asset| {
        same_endpoint(&asset.endpoint, &endpoint) && !same_protocol(asset.protocol, protocol)
    })
}

fn same_protocol(a: Protocol, b: Protocol) -> bool
    ensures { result ≡ same_protocol a b }
{
    match (a, b) {
        (Protocol::Modbus, Protocol::Modbus)
        | (Protocol::Dnp3, Protocol::Dnp3)
        | (Protocol::Iec104, Protocol::Iec104) => true,
        _ => false,
    }
}

/// Whether the site that an asset joins has as many assets as it may have.
pub(crate) fn is_site_full(earlier: &[Asset], endpoint: Endpoint, protocol: Protocol) -> bool
    ensures { result ≡ is_site_full earlier.now endpoint protocol }
{
    count_at(earlier, endpoint) >= most_at_site(protocol)
}

fn count_at(earlier: &[Asset], endpoint: Endpoint) -> usize
    ensures { result ≡ count_at earlier.now endpoint }
{
    earlier
        .iter()
        .filter(|asset| same_endpoint(&asset.endpoint, &endpoint))
        .count()
}

fn most_at_site(protocol: Protocol) -> usize
    ensures { result ≡ most_at_site protocol }
{
    match protocol {
        Protocol::Modbus | Protocol::Iec104 => MOST_AT_SITE,
        Protocol::Dnp3 => MOST_DNP3_AT_SITE,
    }
}

/// Whether an asset of the site that an asset joins has the station.
pub(crate) fn is_station_taken(earlier: &[Asset], endpoint: Endpoint, station: u16) -> bool
    ensures { result ≡ is_station_taken earlier.now endpoint station }
{
    earlier.iter().any(|asset| {
        same_endpoint(&asset.endpoint, &endpoint) && asset.station == station
    })
}
