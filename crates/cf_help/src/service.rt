//! What standard error says of a service as it begins, and as it ended.

use crate::help::version_text;
use crate::remark::is_file;
use crate::say::{print_lines, say};
use crate::why::{expect_policy, explain_fault, explain_policy, explain_words, policy_again};
use cf_explain::{asset_message, asset_named, own_endpoint_message, same_site_message};
use cf_machine::{Announcement, RealFiles};
use cf_outside::read_whole;
use cf_policy::{Action, Asset, Policy};
use cf_policylang::{LONGEST_TEXT, address};
use cf_view::same_endpoint;
use cf_words::printed_number_in;
use cf_words::status::{NO_MEMORY, POLICY_REFUSED, READ_FAULT, UNKNOWN_ASSET, USAGE, WRITE_FAULT};
use std::alloc::Global;
use std::io;
use std::net::Ipv4Addr;
use std::rt::Files as FileSystem;

/// Notes which files the names of a service's policy and log stand for, and that what is read of the policy is kept.
pub fn expect_service_files<R: FileSystem>(
    words: &[String],
    files: &mut RealFiles<'_, R>,
) -> io::Result<()> {
    if let [_, policy, _, log, ..] = words {
        files.expect(policy.as_str())?;
        expect_policy(policy.as_str(), files)?;
        files.expect_output(log.as_str())?;
    }
    Ok(())
}

/// What is said of a service as it begins: the assets and the controller of each place, the program's version, and which assets of the
/// policy have none. A policy that can be read but once, as from a pipe, is left to the service: then the names of the assets alone are
/// said.
pub fn announce_service<R: FileSystem + AllocGlobal>(
    rt: &R,
    words: &[String],
    files: &mut RealFiles<'_, R>,
) -> io::Result<Announcement> {
    match words {
        [_, name, _, _, places @ ..] => {
            let policy = policy_before(rt, name.as_str(), files);
            announcement(rt.alloc(), name.as_str(), policy.as_ref(), places)
        }
        _ => announcement(rt.alloc(), "", None, &[]),
    }
}

/// The policy, where it can be read now and again.
fn policy_before<R: FileSystem + AllocGlobal>(
    rt: &R,
    name: &str,
    files: &mut RealFiles<'_, R>,
) -> Option<Policy> {
    if !is_file(rt, name) || read_whole(rt.alloc(), name, LONGEST_TEXT as u64, files).is_err() {
        return None;
    }
    policy_again(rt, name, files)
}

fn announcement(
    alloc: Global,
    file: &str,
    policy: Option<&Policy>,
    places: &[String],
) -> io::Result<Announcement> {
    let lines = place_lines(alloc, policy, places)?;
    Ok(Announcement {
        places: lines,
        rest: rest_lines(alloc, file, policy, places)?,
    })
}

/// What each place is for: the assets behind one address and port, and these.
fn place_lines(
    alloc: Global,
    policy: Option<&Policy>,
    places: &[String],
) -> io::Result<Vec<String>> {
    let mut lines = Vec::new(alloc);
    for place in places {
        lines.push(place_line(alloc, policy, asset_of(place.as_str()))?)?;
    }
    Ok(lines)
}

fn place_line(alloc: Global, policy: Option<&Policy>, name: &str) -> io::Result<String> {
    if let Some(policy) = policy
        && let Some((_, asset)) = asset_named(policy, name)
    {
        return site_line(alloc, policy, asset);
    }
    Ok(String::from_str(alloc, name)?)
}

fn site_line(alloc: Global, policy: &Policy, asset: &Asset) -> io::Result<String> {
    let names = site_names(alloc, policy, asset)?;
    let address = Ipv4Addr::from_bits(asset.endpoint.address);
    let port = asset.endpoint.port;
    Ok(format!(in alloc; "{names}, whose controller is {address}:{port}")?)
}

/// The names of all assets that have the endpoint of this one.
fn site_names(alloc: Global, policy: &Policy, asset: &Asset) -> io::Result<String> {
    let mut names = String::new(alloc);
    let mut between = "";
    for other in policy.assets.as_slice() {
        if same_endpoint(&other.endpoint, &asset.endpoint) {
            names.push_str(between)?;
            names.push_str(other.name.as_str())?;
            between = ", ";
        }
    }
    Ok(names)
}

/// The program's version, and which assets of the policy no place is for, and of which no rule allows anything.
fn rest_lines(
    alloc: Global,
    file: &str,
    policy: Option<&Policy>,
    places: &[String],
) -> io::Result<Vec<String>> {
    let mut lines = Vec::new(alloc);
    lines.push(version_text(alloc)?)?;
    if let Some(policy) = policy {
        push_unserved(alloc, file, policy, places, &mut lines)?;
    }
    Ok(lines)
}

fn push_unserved(
    alloc: Global,
    file: &str,
    policy: &Policy,
    places: &[String],
    out: &mut Vec<String>,
) -> io::Result<()> {
    for asset in policy.assets.as_slice() {
        if let Some(lack) = lack_of(policy, asset, places) {
            let name = asset.name.as_str();
            out.push(format!(in alloc; "{file}: asset \"{name}\" has no {lack}")?)?;
        }
    }
    Ok(())
}

/// What an asset has none of, if it has no place or no rule that allows, and what follows.
fn lack_of(policy: &Policy, asset: &Asset, places: &[String]) -> Option<&'static str> {
    if !has_place(policy, asset, places) {
        Some("place, and is not served")
    } else if !allows_something(asset) {
        Some(what_follows(policy, asset))
    } else {
        None
    }
}

/// What follows where no rule of an asset allows anything: a client that a rule of another asset of its site names is taken.
fn what_follows(policy: &Policy, asset: &Asset) -> &'static str {
    for other in policy.assets.as_slice() {
        if same_endpoint(&other.endpoint, &asset.endpoint) && allows_something(other) {
            return "rule that allows, so each command to it is refused";
        }
    }
    "rule that allows, so each client is closed as it comes"
}

/// Whether one of the places is for the asset: it has the name of an asset of its endpoint.
fn has_place(policy: &Policy, asset: &Asset, places: &[String]) -> bool {
    for place in places {
        if is_for(policy, asset_of(place.as_str()), asset) {
            return true;
        }
    }
    false
}

/// Whether the asset of a name has the endpoint of this one.
fn is_for(policy: &Policy, name: &str, asset: &Asset) -> bool {
    match asset_named(policy, name) {
        Some((_, named)) => same_endpoint(&named.endpoint, &asset.endpoint),
        None => false,
    }
}

fn allows_something(asset: &Asset) -> bool {
    for rule in asset.rules.as_slice() {
        if rule.action == Action::Allow {
            return true;
        }
    }
    false
}

/// Says why a service ended with this status. What the links met was said as they met it.
pub fn explain_service<R: FileSystem + Eprint + AllocGlobal>(
    rt: &R,
    words: &[String],
    status: u8,
    files: &RealFiles<'_, R>,
) -> io::Result<()> {
    let [_, policy, _, _, places @ ..] = words else {
        return explain_words(rt, words);
    };
    match status {
        USAGE => explain_unfit(rt, words, policy.as_str(), places, files),
        READ_FAULT | WRITE_FAULT => explain_fault(rt, files),
        POLICY_REFUSED => explain_policy(rt, policy.as_str(), files),
        UNKNOWN_ASSET => explain_places(rt, policy.as_str(), places, files),
        NO_MEMORY => print_lines(rt, "memory ran out"),
        _ => Ok(()),
    }
}

/// The first place that is an endpoint of the policy, or the first two of one site; where there are none the words themselves are wrong.
fn explain_unfit<R: FileSystem + Eprint + AllocGlobal>(
    rt: &R,
    words: &[String],
    name: &str,
    places: &[String],
    files: &RealFiles<'_, R>,
) -> io::Result<()> {
    let Some(policy) = policy_again(rt, name, files) else {
        return explain_words(rt, words);
    };
    for place in places {
        if let Some(asset) = asset_at(&policy, place.as_str()) {
            let alloc = rt.alloc();
            return say(rt, own_endpoint_message(alloc, name, asset, place.as_str()));
        }
    }
    match same_site(&policy, places) {
        Some((place, other)) => say(rt, same_site_message(rt.alloc(), name, place, other)),
        None => explain_words(rt, words),
    }
}

/// The first place of which another one has the site, and that one.
fn same_site<'a>(policy: &Policy, places: &'a [String]) -> Option<(&'a str, &'a str)> {
    for place in places {
        if let Some(other) = other_of_site(policy, place.as_str(), places) {
            return Some((place.as_str(), other));
        }
    }
    None
}

/// The first place of another name that is for the assets of this one's controller.
fn other_of_site<'a>(policy: &Policy, place: &str, places: &'a [String]) -> Option<&'a str> {
    let name = asset_of(place);
    let (_, asset) = asset_named(policy, name)?;
    for other in places {
        let named = asset_of(other.as_str());
        if named != name && is_for(policy, named, asset) {
            return Some(other.as_str());
        }
    }
    None
}

/// The asset whose controller is at a place.
fn asset_at<'a>(policy: &'a Policy, place: &str) -> Option<&'a Asset> {
    let (_, at) = place.split_once("=")?;
    let (host, port) = at.split_once(":")?;
    let (host, port) = (address(host)?, printed_number_in(1, 65_535, port)?);
    for asset in policy.assets.as_slice() {
        if asset.endpoint.address == host && u64::from(asset.endpoint.port) == port {
            return Some(asset);
        }
    }
    None
}

/// The first place whose asset the policy does not have.
fn explain_places<R: FileSystem + Eprint + AllocGlobal>(
    rt: &R,
    name: &str,
    places: &[String],
    files: &RealFiles<'_, R>,
) -> io::Result<()> {
    match policy_again(rt, name, files) {
        Some(policy) => explain_missing(rt, name, &policy, places),
        None => Ok(()),
    }
}

fn explain_missing<R: Eprint + AllocGlobal>(
    rt: &R,
    name: &str,
    policy: &Policy,
    places: &[String],
) -> io::Result<()> {
    for place in places {
        let asset = asset_of(place.as_str());
        if asset_named(policy, asset).is_none() {
            return say(rt, asset_message(rt.alloc(), name, policy, asset));
        }
    }
    Ok(())
}

/// The name before a place, nothing where there is none.
fn asset_of(word: &str) -> &str {
    match word.split_once("=") {
        Some((asset, _)) => asset,
        None => "",
    }
}
