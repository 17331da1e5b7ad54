//! A client's endpoint and an asset's.

use cf_packet::Packet;
use cf_policy::Asset;
use cf_view::{Endpoint, Side};

/// A client's endpoint and an asset's.
#[derive(Clone, Copy, PartialEq, Eq, PartialOrd, Ord, Drop)]
pub(crate) struct PairKey {
    client_address: u32,
    client_port: u16,
    asset_address: u32,
    asset_port: u16,
}

/// The pair that a packet is of, and the side that it is for. Nothing where not exactly one endpoint is an asset's.
pub(crate) fn pair_of(assets: &[Asset], packet: &Packet<'_>) -> Option<(PairKey, Side)> {
    let source = &packet.source;
    let dest = &packet.dest;
    match (has_asset_at(assets, source), has_asset_at(assets, dest)) {
        (false, true) => Some((key_of(source, dest), Side::Controller)),
        (true, false) => Some((key_of(dest, source), Side::Client)),
        _ => None,
    }
}

fn key_of(client: &Endpoint, asset: &Endpoint) -> PairKey {
    PairKey {
        client_address: client.address,
        client_port: client.port,
        asset_address: asset.address,
        asset_port: asset.port,
    }
}

fn has_asset_at(assets: &[Asset], endpoint: &Endpoint) -> bool {
    assets.iter().any(|asset| {
        asset.endpoint.port == endpoint.port && asset.endpoint.address == endpoint.address
    })
}
