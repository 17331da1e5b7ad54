//! What is kept of a client, as a session of it begins and as it ends. It is kept at sites that have rates.
ghost use Rattle.std.specs.Prelude.{◌≡◌, Some, true};
ghost use Rattle.std.specs.List.{list_any};
ghost use Rattle.cf_serve.specs.Lending.{Drops, KeepsOthers, Lends, Lent, MayLend, kept_at};
ghost use Rattle.cf_serve.specs.Phase.{HasLane, HasLent, IsGivenBack, Phase, linked_value, phase_of, rings_for};
ghost use Rattle.cf_serve.specs.Rounds.{has_own_rates, has_rates};

use crate::kept::Keeping;
use crate::session::{Linked, Served, Terms};
use cf_lane::Rings;
use cf_policy::{Asset, Site};
use cf_view::Endpoint;

/// Whether some rule of an asset of a site has a rate.
pub(crate) fn has_rates(site: &Site<'_>) -> bool
    ensures { result ≡ has_rates site.now }
{
    has_own_rates(site.first()) || some_has_rates(site.others())
}

/// Whether some rule of an asset has a rate.
fn has_own_rates(asset: &Asset) -> bool
    ensures { result ≡ has_own_rates asset.now }
{
    asset
        .rules
        .as_slice()
        .iter()
        .any(|rule| rule.rate.is_some())
}

fn some_has_rates(assets: &[Asset]) -> bool
    ensures { result ≡ list_any has_own_rates assets.now }
{
    assets.iter().any(|asset| has_own_rates(asset))
}

/// Whether a session of a client may begin: what is kept of it is not lent, and there is room for it.
pub(crate) fn may_begin(client: Endpoint, terms: &Terms<'_>, keeping: &mut Keeping) -> bool
    ensures drops { Drops terms.now.moment keeping.old keeping.new }
    ensures own { kept_at keeping.new terms.now.place client.address ≡ kept_at keeping.old terms.now.place client.address }
    ensures free { result ≡ true → has_rates terms.now.site.now ≡ true → MayLend terms.now.place client.address keeping.new }
{
    !has_rates(terms.site) || keeping.may_lend(terms.place, client.address, terms.moment)
}

/// Lends to a session what is kept of its client.
pub(crate) fn lend_rings(
    session: u64,
    client: Endpoint,
    terms: &Terms<'_>,
    keeping: &mut Keeping,
) -> Option<Rings>
    requires free { has_rates terms.now.site.now ≡ true → MayLend terms.now.place client.address keeping.old }
    ensures rings { result ≡ rings_for terms.now.site.now keeping.old terms.now.place client.address }
    ensures lends { Lends session terms.now.moment keeping.old keeping.new }
    ensures lent { has_rates terms.now.site.now ≡ true → kept_at keeping.new terms.now.place client.address ≡ Some (Lent session) }
{
    if has_rates(terms.site) {
        keeping.lend(session, terms.place, client.address)
    } else {
        None
    }
}

/// Keeps what a session that ended leaves.
pub(crate) fn keep_rings(served: Served, site: &Site<'_>, moment: u64, keeping: &mut Keeping)
    requires lent { HasLent site.now keeping.old (Phase.seat (phase_of served)) (Phase.linked (phase_of served)) }
    requires lane { HasLane site.now (Phase.linked (phase_of served)) }
    ensures others { KeepsOthers served.place served.client.address keeping.old keeping.new }
    ensures own { IsGivenBack site.now moment (Phase.linked (phase_of served))
        (kept_at keeping.old served.place served.client.address) (kept_at keeping.new served.place served.client.address) }
{
    let (number, place, address) = (served.number, served.place, served.client.address);
    match served.into_linked() {
        Some(linked) => give_back(number, place, address, linked, site, moment, keeping),
        None => {}
    }
}

/// Keeps what a relay leaves that ended.
fn give_back(
    number: u64,
    place: usize,
    address: u32,
    linked: Linked,
    site: &Site<'_>,
    moment: u64,
    keeping: &mut Keeping,
)
    requires lent { has_rates site.now ≡ true → kept_at keeping.old place address ≡ Some (Lent number) }
    requires lane { HasLane site.now (Some (linked_value linked)) }
    ensures others { KeepsOthers place address keeping.old keeping.new }
    ensures own { IsGivenBack site.now moment (Some (linked_value linked)) (kept_at keeping.old place address) (kept_at keeping.new place address) }
{
    if has_rates(site) {
        let relaying = linked.into_relaying();
        let rings = relaying.into_rings();
        keeping.give_back(number, place, address, rings, moment);
    }
}
