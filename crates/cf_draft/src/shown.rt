//! Whether rules allow what flows show of an asset, and no other act.
ghost use Rattle.std.specs.Prelude.{◌≡◌, Contains, Decides, IfOk, map, true};
ghost use Rattle.cf_compare.specs.Inclusion.{AllowsAllOf, IsSameController};
ghost use Rattle.cf_learn.specs.Seen.{act_of};
ghost use Rattle.cf_learn.specs.declared.seen.Seen.{Seen};
ghost use Rattle.cf_policy.specs.Laws.{IsAllowed};
ghost use Rattle.cf_policy.specs.Verdict.{verdict_of};
ghost use Rattle.cf_policy.specs.Within.{IsAssetWithin};
ghost use Rattle.cf_watch.specs.FlowValue.{flow_value};
ghost use Rattle.cf_draft.specs.Draft.{AllowsOnlyShown, AllowsShown, IsDraftedAsset};

use cf_compare::{MOST_CELLS, cells, first_difference};
use cf_learn::{RulesFault, Seen, learned_asset, seen_in};
use cf_policy::{Asset, Verdict, verdict};
use cf_view::{Act, NoMemory};
use cf_watch::Flow;
use std::alloc::Global;

/// Whether an asset is another with other rules, which allow each act that flows to the site at this place show of it, and no other if
/// none was widened.
/// Where rules that allow exactly these acts are too many, or too many to be compared with, the answer is no.
pub(crate) fn is_drafted(
    alloc: Global,
    asset: &Asset,
    place: u32,
    flows: &[Flow],
    widened: u64,
    drafted: &Asset,
) -> Result<bool, NoMemory>
    requires asset { IsAssetWithin asset.now }
    requires drafted { IsAssetWithin drafted.now }
    ensures { IfOk result (λ yes. yes ≡ true → IsDraftedAsset asset.now place (map flow_value flows.now) widened drafted.now) }
{
    if !is_same_controller(drafted, asset) {
        return Ok(false);
    }
    if !allows_shown(alloc, asset, place, flows, drafted)? {
        return Ok(false);
    }
    if widened != 0 {
        return Ok(true);
    }
    allows_only_shown(alloc, asset, place, flows, drafted)
}

/// Whether two assets are one controller under one name.
fn is_same_controller(drafted: &Asset, asset: &Asset) -> bool
    ensures { Decides result (IsSameController drafted.now asset.now) }
{
    drafted.name.as_str() == asset.name.as_str()
        && drafted.endpoint == asset.endpoint
        && drafted.protocol == asset.protocol
        && drafted.station == asset.station
        && drafted.master == asset.master
}

/// Whether each act that flows show is allowed.
fn allows_shown(
    alloc: Global,
    asset: &Asset,
    place: u32,
    flows: &[Flow],
    drafted: &Asset,
) -> Result<bool, NoMemory>
    ensures { IfOk result (λ yes. yes ≡ true → AllowsShown asset.now place (map flow_value flows.now) drafted.now) }
{
    match seen_in(alloc, asset, place, flows) {
        Ok(seen) => Ok(allows_all(drafted, seen.as_slice())),
        Err(_) => Err(NoMemory),
    }
}

/// Whether all that was seen is allowed.
fn allows_all(drafted: &Asset, seen: &[Seen]) -> bool
    ensures { result ≡ true → (s : Seen) → Contains seen.now s → IsAllowed (verdict_of drafted.now s.kind.client (act_of s)) }
{
    for place in 0..seen.len() {
        let one = &seen[place];
        if !allows(drafted, one) {
            return false;
        }
    }
    true
}

fn allows(drafted: &Asset, seen: &Seen) -> bool
    ensures { result ≡ true → IsAllowed (verdict_of drafted.now seen.now.kind.client (act_of seen.now)) }
{
    let act = Act {
        code: seen.kind.code,
        group: seen.kind.group,
        point: seen.point,
        value: seen.kind.value,
    };
    match verdict(drafted, seen.kind.client, &act) {
        Verdict::Allow(_) => true,
        Verdict::Refuse(..) => false,
    }
}

/// Whether no other act that a command can have is allowed.
fn allows_only_shown(
    alloc: Global,
    asset: &Asset,
    place: u32,
    flows: &[Flow],
    drafted: &Asset,
) -> Result<bool, NoMemory>
    requires asset { IsAssetWithin asset.now }
    requires drafted { IsAssetWithin drafted.now }
    ensures { IfOk result (λ yes. yes ≡ true → AllowsOnlyShown asset.now place (map flow_value flows.now) drafted.now) }
{
    match learned_asset(alloc, asset, place, flows) {
        Ok(exact) => is_included(alloc, drafted, &exact),
        Err(RulesFault::TooMany) => Ok(false),
        Err(RulesFault::NoMemory) => Err(NoMemory),
    }
}

/// Whether the second asset allows all that the first allows; no where there is too much to compare.
fn is_included(alloc: Global, drafted: &Asset, exact: &Asset) -> Result<bool, NoMemory>
    requires drafted { IsAssetWithin drafted.now }
    requires exact { IsAssetWithin exact.now }
    ensures { IfOk result (λ yes. yes ≡ true → AllowsAllOf drafted.now exact.now) }
{
    if cells(alloc, drafted, exact)? > MOST_CELLS {
        return Ok(false);
    }
    match first_difference(alloc, drafted, exact) {
        Ok(None) => Ok(true),
        Ok(Some(_)) => Ok(false),
        Err(_) => Err(NoMemory),
    }
}
