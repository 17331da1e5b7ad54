//! To which session of the table a packet goes.
ghost use Rattle.std.specs.Prelude.{◌≡◌, ◌<◌, ◌/◌, ◌%◌, ◌==◌};
ghost use Rattle.cf_leg.specs.Segment.{is_opening};
ghost use Rattle.cf_policy.specs.AtEndpoint.{asset_place};
ghost use Rattle.cf_packet.specs.Packet.{packet_value};
ghost use Rattle.cf_run.specs.Entries.{begins_in, entry_match, goes_in, is_closed_in};
ghost use Rattle.cf_run.specs.Table.{may_begin};

use crate::entry::{Entry, has_asset_at, place_in};
use cf_packet::{ACK, FIN, Packet, RST, SYN};
use cf_policy::Asset;
use cf_view::{Endpoint, Side, same_endpoint};

/// How many sessions the table has at most.
pub const TABLE_SIZE: usize = 256;

/// What a packet is to the table.
#[derive(Clone, Copy)]
pub enum Match {
    /// It begins a session with the site whose first asset has this place of the policy. The closed session of its flow, if there
    /// is one, gives way.
    Begins { asset: usize, closed: Option<usize> },
    /// It would, and the table has no room.
    Full,
    /// It goes to the session at this place, and comes from this side.
    Goes { place: usize, side: Side },
    /// It is of no session.
    Outside,
}

/// What a packet is to the table.
pub fn match_packet(table: &[Entry], assets: &[Asset], packet: &Packet<'_>) -> Match
    ensures { result ≡ entry_match assets.now table.now (packet_value packet.now) }
{
    if may_begin(assets, packet) {
        if let Some(asset) = asset_at(assets, &packet.dest) {
            let place = place_in(table, assets, &packet.source, &packet.dest);
            if is_closed_at(table, place) {
                return begins_or_full(table.len(), asset, place);
            }
        }
    }
    goes(table, assets, packet)
}

/// Whether a packet has SYN without ACK, RST and FIN, and comes from an endpoint that is no asset's.
fn may_begin(assets: &[Asset], packet: &Packet<'_>) -> bool
    ensures { result ≡ may_begin assets.now (packet_value packet.now) }
{
    is_opening(packet) && !has_asset_at(assets, &packet.source)
}

/// Whether a packet has SYN without ACK, RST and FIN.
fn is_opening(packet: &Packet<'_>) -> bool
    ensures { result ≡ is_opening (packet_value packet.now) }
{
    has(packet, SYN) && !(has(packet, ACK) || has(packet, RST) || has(packet, FIN))
}

/// Whether a flag is set, which is one bit.
fn has(packet: &Packet<'_>, flag: u8) -> bool
    requires { 0 < flag }
    ensures { result ≡ (packet.now.flags / flag % 2 == 1) }
{
    packet.flags / flag % 2 == 1
}

/// The place of the first asset at an endpoint.
fn asset_at(assets: &[Asset], endpoint: &Endpoint) -> Option<usize>
    ensures { result ≡ asset_place assets.now endpoint.now }
{
    assets
        .iter()
        .position(|asset| same_endpoint(&asset.endpoint, endpoint))
}

/// Whether a flow has no session, or a closed one.
fn is_closed_at(table: &[Entry], place: Option<usize>) -> bool
    ensures { result ≡ is_closed_in table.now place }
{
    match place.and_then(|place| table.get(place)) {
        Some(entry) => entry.session.is_closed(),
        None => true,
    }
}

/// Whether a table with so many sessions has room for one more, beside the closed one that gives way.
fn begins_or_full(sessions: usize, asset: usize, closed: Option<usize>) -> Match
    ensures { result ≡ begins_in sessions asset closed }
{
    let others = match closed {
        Some(_) => sessions.saturating_sub(1),
        None => sessions,
    };
    if others < TABLE_SIZE {
        Match::Begins { asset, closed }
    } else {
        Match::Full
    }
}

/// The session that a packet is of: from its client, or else from its controller.
fn goes(table: &[Entry], assets: &[Asset], packet: &Packet<'_>) -> Match
    ensures { result ≡ goes_in assets.now table.now (packet_value packet.now) }
{
    if let Some(place) = place_in(table, assets, &packet.source, &packet.dest) {
        return Match::Goes {
            place,
            side: Side::Client,
        };
    }
    if let Some(place) = place_in(table, assets, &packet.dest, &packet.source) {
        return Match::Goes {
            place,
            side: Side::Controller,
        };
    }
    Match::Outside
}
