//! What stands in a command's outputs where its work stopped, and which asset may be meant.
use crate::nearest::is_near;
use crate::page::Page;
use crate::quote::push_quoted;
use cf_policy::{Asset, Policy};
use std::alloc::{AllocError, Global};

/// How many names of assets are written out.
const NAMES: usize = 8;

/// What stands in a command's outputs after a failed write, or where memory ran out: in those that were begun, and in those that
/// were left.
pub fn outputs_message(alloc: Global, begun: &[&str], left: &[&str]) -> Result<String, AllocError> {
    let mut out = Page::new(alloc);
    if begun.is_empty() {
        out.push("no file was changed");
        return out.finish();
    }
    out.push_list(begun);
    out.push(": made anew, with a beginning of what it would have, or nothing");
    if !left.is_empty() {
        out.push("; ");
        out.push_list(left);
        out.push(": left as it was");
    }
    out.finish()
}

/// That a policy has no asset of a name, and which it has.
pub fn asset_message(
    alloc: Global,
    file: &str,
    policy: &Policy,
    name: &str,
) -> Result<String, AllocError> {
    let mut out = Page::new(alloc);
    let assets = policy.assets.as_slice();
    out.push_all(&[file, ": it has no asset "]);
    push_quoted(&mut out, name);
    push_meant_asset(&mut out, assets, name);
    push_assets(&mut out, assets);
    out.finish()
}

/// That the place of these words is the endpoint of an asset, at which a service would be its own client.
pub fn own_endpoint_message(
    alloc: Global,
    file: &str,
    asset: &Asset,
    place: &str,
) -> Result<String, AllocError> {
    let mut out = Page::new(alloc);
    out.push_all(&[file, ": the place "]);
    push_quoted(&mut out, place);
    out.push_all(&[
        " is the address and port of the controller of asset ",
        asset.name.as_str(),
        ": the service would connect to itself",
    ]);
    out.finish()
}

/// That the places of these words are for one controller, which has one place for all its assets.
pub fn same_site_message(
    alloc: Global,
    file: &str,
    place: &str,
    other: &str,
) -> Result<String, AllocError> {
    let mut out = Page::new(alloc);
    out.push_all(&[file, ": the places "]);
    push_quoted(&mut out, place);
    out.push(" and ");
    push_quoted(&mut out, other);
    out.push(" are for assets of one address and port: one place serves all of them");
    out.finish()
}

/// Asks whether the first asset of a name near to this one was meant, if there is one.
fn push_meant_asset(out: &mut Page, assets: &[Asset], name: &str) {
    for asset in assets {
        let meant = asset.name.as_str();
        if is_near(out, name, meant) {
            out.push_all(&["; did you mean ", meant, "?"]);
            return;
        }
    }
}

/// The names of the first assets.
fn push_assets(out: &mut Page, assets: &[Asset]) {
    out.push(if assets.is_empty() {
        "\n  it has none"
    } else {
        "\n  it has"
    });
    for asset in assets.get(..NAMES).unwrap_or(assets) {
        out.push_all(&[" ", asset.name.as_str()]);
    }
    if assets.len() > NAMES {
        out.push(" and others");
    }
}
