//! The assets behind one address and port.
ghost use Rattle.std.specs.Prelude.{◌≡◌, ◌+◌, ◌<◌, ◌≤◌, length, not, position, take_while, IfSome, Some};
ghost use Rattle.cf_policy.specs.AtEndpoint.{asset_place};
ghost use Rattle.cf_policy.specs.Site.{IsSiteWithin, alone, asset_of, assets_of, site_at, site_from};
ghost use Rattle.cf_policy.specs.Within.{AreAssetsWithin};
ghost use Rattle.cf_view.specs.Endpoints.{same_endpoint};

use crate::policy::Asset;
use cf_view::{Endpoint, same_endpoint};
use std::marker::Model;

/// The assets behind one address and port, in the order of the policy: they have one protocol, and their stations differ. It
/// borrows, and takes no memory. This project's own.
#[derive(Drop)]
pub struct Site<'a> {
    /// The first of them. What belongs to none of them goes by it.
    pub first: &'a Asset,
    /// Those behind it.
    pub others: &'a [Asset],
}

impl<'a> Model for Site<'a> {
    ghost use Rattle.cf_policy.specs.Site.{SiteValue};

    ghost Value = { SiteValue };

    ghost view = { λ s. record { first = s.first.now; others = s.others.now } };
}

impl<'a> Site<'a> {
    /// The site of an asset that has its endpoint for itself.
    pub fn alone(asset: &'a Asset) -> Site<'a>
        ensures { result ≡ alone asset.now }
    {
        Site {
            first: asset,
            others: &[],
        }
    }

    /// The first asset.
    pub fn first(&self) -> &'a Asset
        ensures { result.now ≡ self.now.first }
    {
        self.first
    }

    /// The assets behind the first.
    pub fn others(&self) -> &'a [Asset]
        ensures { result.now ≡ self.now.others }
    {
        self.others
    }

    /// The number of assets.
    pub fn len(&self) -> usize
        ensures { result ≡ length (assets_of self.now) }
    {
        self.others.len() + 1
    }

    /// The asset of a place, counted from 0, and the first where there is none.
    pub fn asset(&self, place: usize) -> &'a Asset
        ensures { result.now ≡ asset_of self.now place }
    {
        if place == 0 {
            return self.first;
        }
        match self.others.get(place - 1) {
            Some(asset) => asset,
            None => self.first,
        }
    }
}

/// The site at an endpoint: the first asset that has it, and those behind it as long as they have it too.
pub fn site_at<'a>(assets: &'a [Asset], endpoint: &Endpoint) -> Option<Site<'a>>
    ensures site { result ≡ site_at assets.now endpoint.now }
    ensures within { AreAssetsWithin assets.now → IfSome result IsSiteWithin }
{
    match place_at(assets, endpoint) {
        Some(place) => site_from(assets, place),
        None => None,
    }
}

/// The place of the first asset that has the endpoint.
fn place_at(assets: &[Asset], endpoint: &Endpoint) -> Option<usize>
    ensures { result ≡ asset_place assets.now endpoint.now }
{
    assets
        .iter()
        .position(|asset| same_endpoint(&asset.endpoint, endpoint))
}

/// The site that begins with the asset of a place: that asset, and those behind it as long as they have its endpoint.
pub fn site_from(assets: &[Asset], place: usize) -> Option<Site<'_>>
    ensures site { result ≡ site_from assets.now place }
{
    if place >= assets.len() {
        return None;
    }
    let (_, rest) = assets.split_at(place);
    match rest.split_first() {
        Some((first, behind)) => Some(Site {
            first,
            others: front_at(behind, &first.endpoint),
        }),
        None => None,
    }
}

/// The same, where the assets have one at the place.
pub fn site_at_place(assets: &[Asset], place: usize) -> Site<'_>
    requires { place < length assets.now }
    ensures site { site_from assets.now place ≡ Some result }
    ensures within { AreAssetsWithin assets.now → IsSiteWithin result }
    ensures inside { place + length (assets_of result) ≤ length assets.now }
{
    match site_from(assets, place) {
        Some(site) => site,
        // (never)
        None => Site::alone(&assets[place]),
    }
}

/// The assets at the front that have the endpoint.
fn front_at<'a>(assets: &'a [Asset], endpoint: &Endpoint) -> &'a [Asset]
    ensures { result.now ≡ take_while (λ a. same_endpoint a.endpoint endpoint.now) assets.now }
{
    match place_elsewhere(assets, endpoint) {
        Some(count) => {
            let (front, _) = assets.split_at(count);
            front
        }
        None => assets,
    }
}

/// The place of the first asset that has another endpoint.
fn place_elsewhere(assets: &[Asset], endpoint: &Endpoint) -> Option<usize>
    ensures place { result ≡ position (λ a. not (same_endpoint a.endpoint endpoint.now)) assets.now }
    ensures inside { IfSome result (λ place. place < length assets.now) }
{
    assets
        .iter()
        .position(|asset| !same_endpoint(&asset.endpoint, endpoint))
}
