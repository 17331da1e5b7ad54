//! `serve POLICY SECONDS LOG NAME=A.B.C.D:PORT..`: the words of a service.
ghost use Rattle.std.specs.Prelude.{◌≡◌, ◌<◌, ◌≤◌, ◌+◌, ◌++◌, IfOk, IfSome, None, Ok, Some, false, length, map, option_map, string_bytes};
ghost use Rattle.std.specs.Prelude.{true};
ghost use Rattle.std.specs.List.{list_any};
ghost use Rattle.cf_policylang.specs.Numbers.{split_at_mark};
ghost use Rattle.cf_box.specs.ServiceWords.{IsFitService, are_apart, is_same_place, place_word, place_word_value, place_words, places_of};
ghost use Rattle.cf_box.specs.ServiceWords.{service_of, service_value};

use cf_policylang::address;
use cf_view::{Endpoint, NoMemory};
use cf_words::{are_names, printed_number_in};
use std::alloc::Global;

/// The most places of a service. This project's own choice.
pub(crate) const PLACE_LIMIT: usize = 256;

/// An asset that is served, and the address and port of this machine at which its clients come.
#[derive(Clone, Copy)]
pub(crate) struct PlaceWord<'a> {
    pub(crate) asset: &'a str,
    pub(crate) at: Endpoint,
}

/// What the words of a service say: 2 to 1,000,000 seconds, and 1 to 256 places, no asset and no endpoint twice.
#[derive(Drop)]
pub(crate) struct Service<'a> {
    pub(crate) policy: &'a str,
    pub(crate) seconds: u32,
    pub(crate) log: &'a str,
    pub(crate) places: Vec<PlaceWord<'a>>,
}

/// The service that the words are, if they are one.
pub(crate) fn read_service(alloc: Global, words: &[String]) -> Result<Option<Service<'_>>, NoMemory>
    ensures service { IfOk result (λ service. option_map service_value service ≡ service_of (map string_bytes words.now)) }
    ensures fit { IfOk result (λ service. IfSome service IsFitService) }
{
    let [name, policy, seconds, log, rest @ ..] = words else {
        return Ok(None);
    };
    let (policy, log) = (policy.as_str(), log.as_str());
    if name.as_str() != "serve" || !are_names(&[policy, log]) {
        return Ok(None);
    }
    let Some(seconds) = printed_number_in(2, 1_000_000, seconds.as_str()) else {
        return Ok(None);
    };
    let Some(places) = read_places(alloc, rest)? else {
        return Ok(None);
    };
    Ok(Some(Service {
        policy,
        seconds: seconds as u32,
        log,
        places,
    }))
}

/// The places of some words: 1 to 256, no asset and no endpoint twice.
fn read_places(alloc: Global, words: &[String]) -> Result<Option<Vec<PlaceWord<'_>>>, NoMemory>
    ensures places { IfOk result (λ places. option_map (λ ps. map place_word_value ps.items) places
        ≡ places_of (map string_bytes words.now)) }
    ensures few { IfOk result (λ places. IfSome places (λ ps. length ps.items ≤ 256)) }
{
    if words.is_empty() || words.len() > PLACE_LIMIT {
        return Ok(None);
    }
    let mut places = Vec::new(alloc);
    if push_places(words, &mut places)? && are_apart(places.as_slice()) {
        Ok(Some(places))
    } else {
        Ok(None)
    }
}

/// Adds the place of each word; false where one is none.
fn push_places<'a>(words: &'a [String], places: &mut Vec<PlaceWord<'a>>) -> Result<bool, NoMemory>
    ensures all { result ≡ Ok true → option_map (λ more. map place_word_value places.old.items ++ more)
        (place_words (map string_bytes words.now))
        ≡ Some (map place_word_value places.new.items) }
    ensures count { result ≡ Ok true → length places.new.items ≡ length places.old.items + length words.now }
    ensures none { result ≡ Ok false → place_words (map string_bytes words.now) ≡ None }
{
    let Some((word, rest)) = words.split_first() else {
        return Ok(true);
    };
    let Some(place) = place_word(word.as_str()) else {
        return Ok(false);
    };
    match places.push(place) {
        Ok(()) => push_places(rest, places),
        Err(_) => Err(NoMemory),
    }
}

/// `NAME=A.B.C.D:PORT`, a port from 1 to 65,535.
fn place_word(word: &str) -> Option<PlaceWord<'_>>
    ensures { option_map place_word_value result ≡ place_word word.now }
{
    let (asset, at) = halves("=", word)?;
    let (host, port) = halves(":", at)?;
    let address = address(host)?;
    let port = printed_number_in(1, 65_535, port)? as u16;
    Some(PlaceWord {
        asset,
        at: Endpoint { address, port },
    })
}

/// What stands before and what stands after the first place at which the mark stands.
fn halves<'a>(mark: &str, text: &'a str) -> Option<(&'a str, &'a str)>
    requires { 0 < length mark.now }
    ensures { option_map (λ p. (p.0.now, p.1.now)) result ≡ split_at_mark mark.now text.now }
{
    text.split_once(mark)
}

/// Whether no asset and no endpoint stands twice.
fn are_apart(places: &[PlaceWord<'_>]) -> bool
    ensures { result ≡ are_apart (map place_word_value places.now) }
{
    let Some((place, rest)) = places.split_first() else {
        return true;
    };
    if is_among(place, rest) {
        return false;
    }
    are_apart(rest)
}

fn is_among(place: &PlaceWord<'_>, places: &[PlaceWord<'_>]) -> bool
    ensures { result ≡ list_any (λ other. is_same_place (place_word_value place.now) (place_word_value other)) places.now }
{
    places.iter().any(|other| is_same(place, other))
}

/// Whether two places have the same asset, or the same endpoint.
fn is_same(place: &PlaceWord<'_>, other: &PlaceWord<'_>) -> bool
    ensures { result ≡ is_same_place (place_word_value place.now) (place_word_value other.now) }
{
    place.asset == other.asset
        || (place.at.address == other.at.address && place.at.port == other.at.port)
}
