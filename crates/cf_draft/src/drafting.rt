//! The draft of a policy, and its proof: what is proposed is read again, and held against what was shown.
ghost use Rattle.std.specs.Prelude.{◌≡◌, Err, IfErr, IfOk, IfSome, Ok, map, string_bytes, true};
ghost use Rattle.cf_learn.specs.Assets.{StopsAt};
ghost use Rattle.cf_policy.specs.Within.{AreAssetsWithin, IsWithin};
ghost use Rattle.cf_policylang.specs.Documents.{text_meaning};
ghost use Rattle.cf_watch.specs.FlowValue.{flow_value};
ghost use Rattle.cf_draft.specs.Draft.{AreDrafted, IsDraftedAsset};

use crate::parts::Parts;
use crate::shown::is_drafted;
use cf_learn::{LearnFault, learn, site_place};
use cf_plan::{Proposal, propose};
use cf_policy::{Asset, Policy};
use cf_policylang::{PolicyFault, migrated_text, read_policy};
use cf_view::NoMemory;
use cf_watch::Flow;
use std::alloc::Global;

/// A policy that was drafted.
#[derive(Drop)]
pub struct Draft {
    /// Its text.
    pub text: String,
    /// What the text means.
    pub policy: Policy,
    /// How many of its assets allow more than was shown of them.
    pub widened: u64,
}

/// The assets of a policy, whose own rules are not looked at, each with rules that allow what was read of it, and no other act that
/// commands can have, where none was widened. Where an asset would have more than 1,024 rules that allow exactly that, and no wider ones
/// were found, none is drafted. The policy is one that was read. This project's own.
pub fn draft_policy(alloc: Global, policy: &Policy, parts: &Parts) -> Result<Draft, LearnFault>
    requires within { IsWithin policy.now }
    ensures drafted { IfOk result (λ d. AreDrafted (map flow_value parts.now.flows.items) d.widened policy.now.assets d.policy.assets) }
    ensures within { IfOk result (λ d. IsWithin d.policy) }
    ensures text { IfOk result (λ d. text_meaning (string_bytes d.text) ≡ Ok d.policy) }
    ensures stops { IfErr result (StopsAt (map flow_value parts.now.flows.items) policy.now.assets) }
{
    match proposed(alloc, policy, parts, false) {
        Ok(Some(draft)) => Ok(draft),
        Ok(None) => exact_or_wide(alloc, policy, parts),
        Err(_) => Err(LearnFault::NoMemory),
    }
}

/// The draft that allows exactly what was read, or where that has too many rules what is proposed, told as widened.
fn exact_or_wide(alloc: Global, policy: &Policy, parts: &Parts) -> Result<Draft, LearnFault>
    requires within { IsWithin policy.now }
    ensures drafted { IfOk result (λ d. AreDrafted (map flow_value parts.now.flows.items) d.widened policy.now.assets d.policy.assets) }
    ensures within { IfOk result (λ d. IsWithin d.policy) }
    ensures text { IfOk result (λ d. text_meaning (string_bytes d.text) ≡ Ok d.policy) }
    ensures stops { IfErr result (StopsAt (map flow_value parts.now.flows.items) policy.now.assets) }
{
    match exact(alloc, policy, parts.flows.as_slice()) {
        Ok(draft) => Ok(draft),
        Err(fault) => match proposed(alloc, policy, parts, true) {
            Ok(Some(draft)) => Ok(draft),
            Ok(None) => Err(fault),
            Err(_) => Err(LearnFault::NoMemory),
        },
    }
}

/// What is proposed, where it keeps to what was read; `is_wide` tells it as widened, whether it was or not.
fn proposed(
    alloc: Global,
    policy: &Policy,
    parts: &Parts,
    is_wide: bool,
) -> Result<Option<Draft>, NoMemory>
    requires within { IsWithin policy.now }
    ensures { IfOk result (λ found. IfSome found (λ d.
        AreDrafted (map flow_value parts.now.flows.items) d.widened policy.now.assets d.policy.assets
        × IsWithin d.policy × (text_meaning (string_bytes d.text) ≡ Ok d.policy))) }
{
    let assets = policy.assets.as_slice();
    let flows = parts.flows.as_slice();
    let moments = parts.moments.as_slice();
    let Ok(proposal) = propose(alloc, assets, flows, moments, is_wide) else {
        return Err(NoMemory);
    };
    match read_policy(alloc, proposal.text.as_bytes()) {
        Ok(read) => kept(alloc, policy, flows, proposal, read),
        Err(PolicyFault::NoMemory) => Err(NoMemory),
        Err(PolicyFault::Refused(_)) => Ok(None),
    }
}

/// The proposal that means this policy, where the policy keeps to what was read.
fn kept(
    alloc: Global,
    policy: &Policy,
    flows: &[Flow],
    proposal: Proposal,
    read: Policy,
) -> Result<Option<Draft>, NoMemory>
    requires within { IsWithin policy.now }
    requires read { IsWithin read }
    requires means { text_meaning (string_bytes proposal.text) ≡ Ok read }
    ensures { IfOk result (λ found. IfSome found (λ d. AreDrafted (map flow_value flows.now) d.widened policy.now.assets d.policy.assets
        × IsWithin d.policy × (text_meaning (string_bytes d.text) ≡ Ok d.policy))) }
{
    let widened = proposal.widened;
    if !are_drafted(
        alloc,
        policy.assets.as_slice(),
        flows,
        widened,
        read.assets.as_slice(),
    )? {
        return Ok(None);
    }
    Ok(Some(Draft {
        text: proposal.text,
        policy: read,
        widened,
    }))
}

/// Whether each asset is drafted.
fn are_drafted(
    alloc: Global,
    assets: &[Asset],
    flows: &[Flow],
    widened: u64,
    drafted: &[Asset],
) -> Result<bool, NoMemory>
    requires assets { AreAssetsWithin assets.now }
    requires drafted { AreAssetsWithin drafted.now }
    ensures { IfOk result (λ yes. yes ≡ true → AreDrafted (map flow_value flows.now) widened assets.now drafted.now) }
{
    if drafted.len() != assets.len() {
        return Ok(false);
    }
    for place in 0..assets.len() {
        let asset = &assets[place];
        let own = &drafted[place];
        let site = site_place(assets, asset);
        let is_so = is_drafted(alloc, asset, site, flows, widened, own)?;
        if !is_so {
            return Ok(false);
        }
    }
    Ok(true)
}

/// The draft that allows exactly what was read, as it is learned.
fn exact(alloc: Global, policy: &Policy, flows: &[Flow]) -> Result<Draft, LearnFault>
    requires within { IsWithin policy.now }
    ensures drafted { IfOk result (λ d. AreDrafted (map flow_value flows.now) d.widened policy.now.assets d.policy.assets) }
    ensures within { IfOk result (λ d. IsWithin d.policy) }
    ensures text { IfOk result (λ d. text_meaning (string_bytes d.text) ≡ Ok d.policy) }
    ensures stops { IfErr result (StopsAt (map flow_value flows.now) policy.now.assets) }
{
    let learned = learn(alloc, policy, flows)?;
    match migrated_text(alloc, &learned) {
        Ok(text) => Ok(Draft {
            text,
            policy: learned,
            widened: 0,
        }),
        Err(_) => Err(LearnFault::NoMemory),
    }
}
