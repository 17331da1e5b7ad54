//! The sessions of the table in memory.
ghost use Rattle.std.specs.Prelude.{◌≡◌};
ghost use Rattle.cf_lane.specs.Judged.{one_if};
ghost use Rattle.cf_run.specs.Entries.{closes_by, cuts_by, entry_between, place_in, stays_by};
ghost use Rattle.cf_policy.specs.AtEndpoint.{has_asset_at};

use cf_policy::Asset;
use cf_session::{Life, Session};
use cf_view::{Endpoint, same_endpoint};

/// A session in the table, and the place of its site in the policy.
#[derive(Drop)]
pub struct Entry {
    /// The session.
    pub session: Session,
    /// The place of the first asset of the site that it serves.
    pub asset: usize,
    /// Before this moment in microseconds the first half of an event does nothing to it.
    pub due: u64,
}

/// The sessions in memory.
#[derive(Drop)]
pub struct Table {
    /// The sessions, in the order of their beginning.
    pub sessions: Vec<Entry>,
    /// Before this moment in microseconds the first half of an event does nothing to any of them.
    pub due: u64,
}

/// Whether an asset stands at an endpoint.
pub(crate) fn has_asset_at(assets: &[Asset], endpoint: &Endpoint) -> bool
    ensures { result ≡ has_asset_at assets.now endpoint.now }
{
    assets
        .iter()
        .any(|asset| same_endpoint(&asset.endpoint, endpoint))
}

/// Whether a session is between this client and the site at this endpoint.
fn is_between(entry: &Entry, assets: &[Asset], client: &Endpoint, endpoint: &Endpoint) -> bool
    ensures { result ≡ entry_between assets.now client.now endpoint.now entry.now }
{
    same_endpoint(&entry.session.client(), client)
        && match assets.get(entry.asset) {
            Some(asset) => same_endpoint(&asset.endpoint, endpoint),
            None => false,
        }
}

/// The place in the table of the session between this client and the site at this endpoint. Where no asset stands there the
/// table is not walked.
#[tactic(auto, using(crate::proofs::Matched::place_in_none))]
pub(crate) fn place_in(
    table: &[Entry],
    assets: &[Asset],
    client: &Endpoint,
    endpoint: &Endpoint,
) -> Option<usize>
    ensures { result ≡ place_in assets.now client.now endpoint.now table.now }
{
    if !has_asset_at(assets, endpoint) {
        return None;
    }
    table
        .iter()
        .position(|entry| is_between(entry, assets, client, endpoint))
}

/// Whether a session is in the table after its call.
pub(crate) fn stays(life: &Life) -> bool
    ensures { result ≡ stays_by life.now }
{
    matches!(life, Life::Live | Life::Closed)
}

/// How many sessions a call closed: one or none.
pub(crate) fn closes(was_closed: bool, life: &Life) -> u64
    ensures { result ≡ one_if (closes_by was_closed life.now) }
{
    match life {
        Life::Closed => u64::from(!was_closed),
        Life::Live | Life::Cut(_) | Life::Expired => 0,
    }
}

/// How many sessions a call cut: one or none.
pub(crate) fn cuts(life: &Life) -> u64
    ensures { result ≡ one_if (cuts_by life.now) }
{
    match life {
        Life::Cut(_) => 1,
        Life::Live | Life::Closed | Life::Expired => 0,
    }
}
