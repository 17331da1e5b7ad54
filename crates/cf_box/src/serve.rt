//! `serve POLICY SECONDS LOG NAME=A.B.C.D:PORT..`: a policy between many clients and their controllers.
ghost use Rattle.std.specs.List.{list_any};
ghost use Rattle.std.specs.Prelude.{◌≡◌, ◌⊎◌, ◌++◌, ◌-◌, ◌^◌, Err, IfErr, List, OnOk, Some, false, map, string_bytes, ℕ, ◌∷◌, []};
ghost use Rattle.cf_ending.specs.Outside.{RisesIn, files_value};
ghost use Rattle.cf_box.specs.PolicyFile.{HasPolicy};
ghost use Rattle.cf_box.specs.Service.{ArePlaces, EndsService, HasServed, LacksPlace, MissesSites, ServiceEnds, service_outside};
ghost use Rattle.cf_box.specs.Service.{is_same_site, service_stop, shares_site, takes_endpoint};
ghost use Rattle.cf_box.specs.ServiceWords.{IsFitService, place_word_value, service_of, service_value};
ghost use Rattle.cf_links.specs.Links.{LinksPlace};
ghost use Rattle.cf_outside.specs.Files.{KeepsOthers};
ghost use Rattle.cf_policy.specs.AtEndpoint.{has_asset_at};
ghost use Rattle.cf_policy.specs.Within.{IsWithin};
ghost use Rattle.cf_serve.specs.Laws.{EachIsAlone, FloodsAreBounded, IsolatesSessions, RatesLastOverSessions, StrangersAreRefused};
ghost use Rattle.cf_serve.specs.declared.table.Place.{Place as PlaceOf};

use crate::policy_file::{find_site, load_policy};
use crate::service::{PlaceWord, Service, read_service};
use cf_ending::{Stop, put_text, report};
use cf_links::Service as Links;
use cf_outside::{Files, Sink};
use cf_policy::{Asset, Policy};
use cf_serve::{
    Place, ServeFault, floods_are_bounded, rates_last_over_sessions, sessions_are_isolated,
    strangers_are_refused,
};
use cf_view::{Endpoint, same_endpoint};
use cf_words::status::{DONE, NO_MEMORY, USAGE};
use std::alloc::Global;

/// Why a service is not begun, or stops.
#[derive(Clone, Copy)]
pub(crate) enum Unserved {
    /// A place is an endpoint of the policy: the service would be a client of itself.
    OwnEndpoint,
    /// Two places are of one site: its rates would be counted twice.
    SharedSite,
    Stopped(Stop),
}

/// Whether an asset has the endpoint.
fn has_asset_at(assets: &[Asset], at: Endpoint) -> bool
    ensures { result ≡ has_asset_at assets.now at }
{
    assets
        .iter()
        .any(|asset| same_endpoint(&asset.endpoint, &at))
}

/// Whether one of the places is the endpoint of an asset.
fn takes_endpoint(policy: &Policy, words: &[PlaceWord<'_>]) -> bool
    ensures { result ≡ list_any (λ word. has_asset_at policy.now.assets (place_word_value word).at) words.now }
{
    words
        .iter()
        .any(|word| has_asset_at(policy.assets.as_slice(), word.at))
}

/// Adds the site of each place, and where its clients come.
fn find_places<'a>(
    policy: &'a Policy,
    words: &[PlaceWord<'_>],
    places: &mut Vec<Place<'a>>,
) -> Result<(), Stop>
    requires { IsWithin policy.now }
    ensures found { OnOk result ((more : List PlaceOf) × (places.new.items ≡ places.old.items ++ more)
        × ArePlaces policy.now (map place_word_value words.now) more) }
    ensures lacks { result ≡ Err Stop.UnknownAsset → LacksPlace policy.now (map place_word_value words.now) }
    ensures stops { IfErr result (λ stop. (stop ≡ Stop.UnknownAsset) ⊎ (stop ≡ Stop.NoMemory)) }
{
    let Some((word, rest)) = words.split_first() else {
        return Ok(());
    };
    let Some(site) = find_site(policy, word.asset) else {
        return Err(Stop::UnknownAsset);
    };
    match places.push(Place { site, at: word.at }) {
        Ok(()) => find_places(policy, rest, places),
        Err(_) => Err(Stop::NoMemory),
    }
}

/// Whether two places are of one site.
fn is_same_site(place: &Place<'_>, other: &Place<'_>) -> bool
    ensures { result ≡ is_same_site place.now other.now }
{
    same_endpoint(&other.site.first().endpoint, &place.site.first().endpoint)
}

/// Whether one of the others is of a place's site.
fn has_same_site(place: &Place<'_>, others: &[Place<'_>]) -> bool
    ensures { result ≡ list_any (λ other. is_same_site place.now other) others.now }
{
    others.iter().any(|other| is_same_site(place, other))
}

/// Whether one of the sites has two places.
fn shares_site(places: &[Place<'_>]) -> bool
    ensures { result ≡ shares_site places.now }
{
    let Some((place, rest)) = places.split_first() else {
        return false;
    };
    if has_same_site(place, rest) {
        return true;
    }
    shares_site(rest)
}

/// Finds the site of each place, no two of which are one.
fn find_sites<'a>(
    policy: &'a Policy,
    words: &[PlaceWord<'_>],
    places: &mut Vec<Place<'a>>,
) -> Result<(), Unserved>
    requires within { IsWithin policy.now }
    requires empty { places.old.items ≡ [] }
    ensures found { OnOk result (ArePlaces policy.now (map place_word_value words.now) places.new.items) }
    ensures sites { OnOk result (shares_site places.new.items ≡ false) }
    ensures misses { IfErr result (MissesSites policy.now (map place_word_value words.now)) }
{
    match find_places(policy, words, places) {
        Ok(()) => {}
        Err(stop) => return Err(Unserved::Stopped(stop)),
    }
    if shares_site(places.as_slice()) {
        return Err(Unserved::SharedSite);
    }
    Ok(())
}

/// Why the work stops at a fault of the service.
fn stop_of(fault: ServeFault) -> Stop
    ensures { result ≡ service_stop fault }
{
    match fault {
        ServeFault::NoMemory => Stop::NoMemory,
        ServeFault::Write => Stop::WriteFault,
        ServeFault::Loop => Stop::LinkFault,
    }
}

/// Serves the clients of the places of a policy.
fn serve_places<F: Files, L: Links>(
    alloc: Global,
    policy: &Policy,
    service: &Service<'_>,
    files: &mut F,
    links: &mut L,
) -> Result<(), Unserved>
    requires within { IsWithin policy.now }
    requires has { HasPolicy (F.content files.old (service.now.policy).now) policy.now }
    requires apart { takes_endpoint policy.now (map place_word_value service.now.places.items) ≡ false }
    requires fit { IsFitService service.now }
    requires free { (session : ℕ) → LinksPlace.serves (L.place links.old) session ≡ false }
    ensures serves { OnOk result (HasServed (service_value service.now) (files_value F.Files files.old) (files_value F.Files files.new)
        (L.told links.old) (L.told links.new) (LinksPlace.round_faults (L.place links.old)) (LinksPlace.round_faults (L.place links.new))
        (λ made. made ≡ 2 ^ 64 - 1)) }
    ensures stops { IfErr result (λ s. EndsService (service_value service.now) (files_value F.Files files.old)
        (files_value F.Files files.new)
        (L.told links.old) (L.told links.new) (LinksPlace.round_faults (L.place links.old)) (LinksPlace.round_faults (L.place links.new))
        s) }
    ensures others { KeepsOthers (service.now.log).now (F.content files.old) (F.content files.new) }
    ensures reads { F.read_faults files.new ≡ F.read_faults files.old }
{
    let mut places = Vec::new(alloc);
    find_sites(policy, service.places.as_slice(), &mut places)?;
    match cf_serve::serve(
        alloc,
        places.as_slice(),
        service.seconds,
        service.log,
        links,
        files,
    ) {
        Ok(()) => Ok(()),
        Err(fault) => Err(Unserved::Stopped(stop_of(fault))),
    }
}

/// Serves the clients of the places of a policy that was read, none of which is an endpoint of it.
fn serve_read<F: Files, L: Links>(
    alloc: Global,
    policy: &Policy,
    service: &Service<'_>,
    files: &mut F,
    links: &mut L,
) -> Result<(), Unserved>
    requires within { IsWithin policy.now }
    requires has { HasPolicy (F.content files.old (service.now.policy).now) policy.now }
    requires fit { IsFitService service.now }
    requires free { (session : ℕ) → LinksPlace.serves (L.place links.old) session ≡ false }
    ensures serves { OnOk result (HasServed (service_value service.now) (files_value F.Files files.old) (files_value F.Files files.new)
        (L.told links.old) (L.told links.new) (LinksPlace.round_faults (L.place links.old)) (LinksPlace.round_faults (L.place links.new))
        (λ made. made ≡ 2 ^ 64 - 1)) }
    ensures stops { IfErr result (λ s. EndsService (service_value service.now) (files_value F.Files files.old)
        (files_value F.Files files.new)
        (L.told links.old) (L.told links.new) (LinksPlace.round_faults (L.place links.old)) (LinksPlace.round_faults (L.place links.new))
        s) }
    ensures others { KeepsOthers (service.now.log).now (F.content files.old) (F.content files.new) }
    ensures reads { F.read_faults files.new ≡ F.read_faults files.old }
{
    if takes_endpoint(policy, service.places.as_slice()) {
        return Err(Unserved::OwnEndpoint);
    }
    serve_places(alloc, policy, service, files, links)
}

/// Reads the policy, and serves the clients of its places.
fn serve_policy<F: Files, L: Links>(
    alloc: Global,
    service: &Service<'_>,
    files: &mut F,
    links: &mut L,
) -> Result<(), Unserved>
    requires fit { IsFitService service.now }
    requires free { (session : ℕ) → LinksPlace.serves (L.place links.old) session ≡ false }
    ensures serves { OnOk result (HasServed (service_value service.now) (files_value F.Files files.old) (files_value F.Files files.new)
        (L.told links.old) (L.told links.new) (LinksPlace.round_faults (L.place links.old)) (LinksPlace.round_faults (L.place links.new))
        (λ made. made ≡ 2 ^ 64 - 1)) }
    ensures stops { IfErr result (λ s. EndsService (service_value service.now) (files_value F.Files files.old)
        (files_value F.Files files.new)
        (L.told links.old) (L.told links.new) (LinksPlace.round_faults (L.place links.old)) (LinksPlace.round_faults (L.place links.new))
        s) }
    ensures others { KeepsOthers (service.now.log).now (F.content files.old) (F.content files.new) }
    ensures reads { RisesIn ((service.now.policy).now ∷ []) (F.read_faults files.old) (F.read_faults files.new) }
{
    match load_policy(alloc, service.policy, files) {
        Ok(policy) => serve_read(alloc, &policy, service, files, links),
        Err(stop) => Err(Unserved::Stopped(stop)),
    }
}

/// Serves what the words of a service say, and prints why that ended.
fn serve_words<F: Files, O: Sink, L: Links>(
    alloc: Global,
    service: &Service<'_>,
    files: &mut F,
    out: &mut O,
    links: &mut L,
) -> u8
    requires fit { IsFitService service.now }
    requires free { (session : ℕ) → LinksPlace.serves (L.place links.old) session ≡ false }
    ensures ends { ServiceEnds (service_outside F.Files O.Sink L.Links files.old out.old links.old)
        (service_outside F.Files O.Sink L.Links files.new out.new links.new) result (Some (service_value service.now)) }
{
    match serve_policy(alloc, service, files, links) {
        Ok(()) => DONE,
        Err(Unserved::OwnEndpoint) => put_text("usage\n", USAGE, USAGE, out),
        Err(Unserved::SharedSite) => put_text("usage\n", USAGE, USAGE, out),
        Err(Unserved::Stopped(stop)) => report(&Err(stop), out),
    }
}

/// The service: does what its words ask for, prints why that ended, and answers its status. It ends where a line of the log fails, or a
/// place cannot be listened at, or the wait fails; after every line of the log that could be appended. The links have no session
/// before. This project's own.
///
/// Statuses: 0 after 2^64 - 1 rounds; 2 the words have no form, a place is an endpoint of the policy, or two places are of one site; 3 a read failed; 4 a write failed; 5 the policy's text means none; 8 a
/// place cannot be listened at, or the wait failed; 10 the policy has no asset of a name; 13 memory ran out.
pub fn serve_main<F: Files, O: Sink, L: Links>(
    alloc: Global,
    words: &[String],
    files: &mut F,
    out: &mut O,
    links: &mut L,
) -> u8
    requires free { (session : ℕ) → LinksPlace.serves (L.place links.old) session ≡ false }
    // What the words say, and what stands in the files, in the printed text and in the list of the links, explain the status.
    ensures ends { ServiceEnds (service_outside F.Files O.Sink L.Links files.old out.old links.old)
        (service_outside F.Files O.Sink L.Links files.new out.new links.new) result (service_of (map string_bytes words.now)) }

    // What each session gets and leaves follows from its own answers, whatever the others do.
    ensures alone { EachIsAlone }
    ensures isolates { IsolatesSessions }

    // A client that is closed at the door is one that the policy allows nothing.
    ensures strangers { StrangersAreRefused }

    // A session has 100 commands refused a second, and once what a turn can refuse.
    ensures floods { FloodsAreBounded }

    // Over all sessions of a client, one after the other, no rule lets more through than its rate.
    ensures rates { RatesLastOverSessions }
{
    sessions_are_isolated();
    strangers_are_refused();
    floods_are_bounded();
    rates_last_over_sessions();
    match read_service(alloc, words) {
        Err(_) => NO_MEMORY,
        Ok(None) => put_text("usage\n", USAGE, USAGE, out),
        Ok(Some(service)) => serve_words(alloc, &service, files, out, links),
    }
}
