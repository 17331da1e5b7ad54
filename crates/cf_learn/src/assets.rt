//! The assets of a policy with the rules that allow what flows show of each.
ghost use Rattle.std.specs.Prelude.{◌≡◌, ◌<◌, ◌^◌, length, map, Err, IfOk, IfErr, IfSome};
ghost use Rattle.cf_learn.specs.Assets.{AreLearned, IsLearnedAsset, LearnsTooMany, StopsAt, with_rules};
ghost use Rattle.cf_learn.specs.Shown.{site_place};
ghost use Rattle.cf_policy.specs.AtEndpoint.{asset_place};
ghost use Rattle.cf_policy.specs.Within.{AreAssetsWithin, IsAssetWithin};
ghost use Rattle.cf_watch.specs.FlowValue.{flow_value};

use crate::learning::{RulesFault, learned_rules};
use crate::reading::seen_in;
use cf_policy::{Asset, Items, Name, Policy, Rule};
use cf_view::{Endpoint, same_endpoint};
use cf_watch::Flow;
use std::alloc::Global;

/// Why no policy was learned.
#[derive(Clone, Copy, PartialEq, Eq, Debug)]
pub enum LearnFault {
    /// Memory ran out.
    NoMemory,
    /// This asset, counted from 0, would have more rules than a policy may have, and no earlier one.
    Many(u32),
}

/// The assets of a policy, whose own rules are not looked at, each with rules that allow exactly what the flows to its site show of it:
/// the acts of the commands with its station and a right form, up to where the bytes of a flow break or end. An asset of which they
/// show nothing has no rules. The policy is one that was read. This project's own.
pub fn learn(alloc: Global, policy: &Policy, flows: &[Flow]) -> Result<Policy, LearnFault>
    requires within { AreAssetsWithin policy.now.assets }
    ensures learned { IfOk result (λ learned. AreLearned (map flow_value flows.now) policy.now.assets policy.now.assets learned.assets) }
    ensures within { IfOk result (λ learned. AreAssetsWithin learned.assets) }
    ensures stops { IfErr result (StopsAt (map flow_value flows.now) policy.now.assets) }
{
    let mut learned = Vec::new(alloc);
    for (place, asset) in policy.assets.as_slice().iter().enumerate() {
        let site = site_place(policy.assets.as_slice(), asset);
        match learned_asset(alloc, asset, site, flows) {
            Ok(one) => {
                if learned.push(one).is_err() {
                    return Err(LearnFault::NoMemory);
                }
            }
            Err(RulesFault::NoMemory) => return Err(LearnFault::NoMemory),
            Err(RulesFault::TooMany) => return Err(LearnFault::Many(place as u32)),
        }
    }
    Ok(Policy {
        assets: Items::new(learned),
    })
}

/// The place by which a flow names the site of an asset: that of the first of a policy's assets with its address and port.
pub fn site_place(assets: &[Asset], asset: &Asset) -> u32
    requires few { length assets.now < 2 ^ 32 }
    ensures { result ≡ site_place assets.now asset.now }
{
    match first_at(assets, &asset.endpoint) {
        Some(place) => place as u32,
        None => 0,
    }
}

/// The place of the first asset that has the endpoint.
fn first_at(assets: &[Asset], endpoint: &Endpoint) -> Option<usize>
    ensures place { result ≡ asset_place assets.now endpoint.now }
    ensures inside { IfSome result (λ place. place < length assets.now) }
{
    assets
        .iter()
        .position(|asset| same_endpoint(&asset.endpoint, endpoint))
}

/// The asset with the rules that allow what the flows to the site at this place show of it.
pub fn learned_asset(
    alloc: Global,
    asset: &Asset,
    place: u32,
    flows: &[Flow],
) -> Result<Asset, RulesFault>
    requires within { IsAssetWithin asset.now }
    ensures learned { IfOk result (IsLearnedAsset asset.now place (map flow_value flows.now)) }
    ensures many { result ≡ Err RulesFault.TooMany → LearnsTooMany asset.now place (map flow_value flows.now) }
{
    let Ok(seen) = seen_in(alloc, asset, place, flows) else {
        return Err(RulesFault::NoMemory);
    };
    let rules = learned_rules(alloc, seen)?;
    Ok(with_rules(asset, rules))
}

/// The asset with these rules in the place of its own.
fn with_rules(asset: &Asset, rules: Vec<Rule>) -> Asset
    ensures { result ≡ with_rules asset.now rules.items }
{
    Asset {
        name: Name::from_text(asset.name.as_str()),
        endpoint: asset.endpoint,
        protocol: asset.protocol,
        station: asset.station,
        master: asset.master,
        rules: Items::new(rules),
    }
}
