//! What becomes of a Modbus request: acts on points that follow each other are judged together.
ghost use Rattle.std.specs.Prelude.{◌≡◌, ◌+◌, ◌-◌, ◌<◌, ◌≤◌, ℕ, Some, length, slice_get, true};
ghost use Rattle.cf_modbus.specs.Acts.{acts};
ghost use Rattle.cf_modbus.specs.Request.{IsRead, request_value};
ghost use Rattle.cf_policy.specs.Index.{IsIndexOf};
ghost use Rattle.cf_policy.specs.Run.{TakesAnyValue};
ghost use Rattle.cf_policy.specs.Verdict.{IsInside, verdict_of};
ghost use Rattle.cf_policy.specs.Within.{most_rated};
ghost use Rattle.cf_lane.specs.Acts.{by_refusal, fate_of_acts, first_refusal, unrated};
ghost use Rattle.cf_lane.specs.Fate.{HasOwnDecider};
ghost use Rattle.cf_lane.specs.Judgement.{fate_of_judgement};
ghost use Rattle.cf_lane.specs.Rings.{IsRulesOf, says_by};
ghost use Rattle.cf_lane.specs.Run.{AreRun, HaveVerdict};

use crate::fate::{Admission, Judgement, Refusal, show};
use crate::rules::Rules;
use cf_modbus::{Request, act_at, act_count};
use cf_policy::{Asset, CodeIndex, MOST_RATED, Verdict};
use cf_view::Act;

/// The refusal of a request of the client of the index, if one of its acts is not allowed: the first of them decides. Rates are not
/// asked. Acts stand in the order of their points, the writes of code 23 before its reads, and those of a run are judged together.
/// The points are those of MODBUS Application Protocol Specification V1.1b3, section 6; that acts are judged in this order, this
/// project's own.
pub fn refusal_of(asset: &Asset, index: &CodeIndex, request: &Request<'_>) -> Option<Refusal>
    requires read { IsRead (request_value request.now) }
    ensures refusal { (client : ℕ) → IsIndexOf asset.now client index.now
        → result ≡ first_refusal (verdict_of asset.now client) (acts (request_value request.now)) }
{
    let any_value = takes_any_value(asset, index, request);
    match judge_unrated_runs(asset, index, request, any_value) {
        Judgement::Admitted(_) => None,
        Judgement::Refused(refusal) => Some(refusal),
    }
}

/// What becomes of a request of the client of the rules, at a moment in microseconds: its acts are judged in their order, those of a
/// run together, and the first that is not allowed decides. Whether there are rules with a rate is asked once.
pub(crate) fn judge_runs(
    asset: &Asset,
    rules: &Rules,
    moment: u64,
    request: &Request<'_>,
    any_value: bool,
) -> Judgement
    requires read { IsRead (request_value request.now) }
    requires few { length rules.now.rings.items ≤ most_rated }
    requires any_value { (client : ℕ) → IsIndexOf asset.now client rules.now.index → any_value ≡ true
        → TakesAnyValue asset.now client request.now.code }
    ensures fate { (client : ℕ) → IsRulesOf asset.now client rules.now
        → fate_of_judgement result ≡ fate_of_acts asset.now (says_by asset.now client rules.now moment) (acts (request_value request.now)) }
    ensures decider { HasOwnDecider asset.now.rules (fate_of_judgement result) }
{
    if rules.rings.is_empty() {
        judge_unrated_runs(asset, &rules.index, request, any_value)
    } else {
        judge_rated_runs(asset, rules, moment, request, any_value)
    }
}

/// The same where no rule has a rate.
#[inline(always)]
pub(crate) fn judge_unrated_runs(
    asset: &Asset,
    index: &CodeIndex,
    request: &Request<'_>,
    any_value: bool,
) -> Judgement
    requires read { IsRead (request_value request.now) }
    requires any_value { (client : ℕ) → IsIndexOf asset.now client index.now → any_value ≡ true
        → TakesAnyValue asset.now client request.now.code }
    ensures fate { (client : ℕ) → IsIndexOf asset.now client index.now
        → fate_of_judgement result ≡ by_refusal (unrated asset.now.rules (verdict_of asset.now client) (acts (request_value request.now)))
        (first_refusal (verdict_of asset.now client) (acts (request_value request.now))) }
    ensures decider { HasOwnDecider asset.now.rules (fate_of_judgement result) }
{
    let count = act_count(request);
    let mut shown = None;
    let mut i = 0;
    while i < count {
        let act = act_at(request, i);
        let (verdict, next) = judge_run(asset, index, request, &act, i, any_value);
        match verdict {
            Verdict::Allow(number) => {
                show(asset, &act, number, &mut shown);
                i = next;
            }
            Verdict::Refuse(decider, reason) => {
                return Judgement::Refused(Refusal {
                    decider,
                    reason,
                    act,
                });
            }
        }
    }
    Judgement::Admitted(Admission {
        used: [false; MOST_RATED],
        shown,
    })
}

/// The same where a rule that allows an act may be spent, or is marked.
fn judge_rated_runs(
    asset: &Asset,
    rules: &Rules,
    moment: u64,
    request: &Request<'_>,
    any_value: bool,
) -> Judgement
    requires read { IsRead (request_value request.now) }
    requires few { length rules.now.rings.items ≤ most_rated }
    requires any_value { (client : ℕ) → IsIndexOf asset.now client rules.now.index → any_value ≡ true
        → TakesAnyValue asset.now client request.now.code }
    ensures fate { (client : ℕ) → IsRulesOf asset.now client rules.now
        → fate_of_judgement result ≡ fate_of_acts asset.now (says_by asset.now client rules.now moment) (acts (request_value request.now)) }
    ensures decider { HasOwnDecider asset.now.rules (fate_of_judgement result) }
{
    let count = act_count(request);
    let mut used = [false; MOST_RATED];
    let mut shown = None;
    let mut i = 0;
    while i < count {
        let act = act_at(request, i);
        let (verdict, next) = judge_run(asset, &rules.index, request, &act, i, any_value);
        match rules.said(moment, verdict) {
            Verdict::Allow(number) => {
                rules.mark(number, &mut used);
                show(asset, &act, number, &mut shown);
                i = next;
            }
            Verdict::Refuse(decider, reason) => {
                return Judgement::Refused(Refusal {
                    decider,
                    reason,
                    act,
                });
            }
        }
    }
    Judgement::Admitted(Admission { used, shown })
}

/// Whether the values that a request writes at several points are known to play no part.
pub(crate) fn takes_any_value(asset: &Asset, index: &CodeIndex, request: &Request<'_>) -> bool
    ensures { (client : ℕ) → IsIndexOf asset.now client index.now → result ≡ true → TakesAnyValue asset.now client request.now.code }
{
    if request.quantity == 1 || request.values.is_empty() {
        return false;
    }
    index.takes_any_value(asset, u16::from(request.code))
}

/// The verdict about the act of place `i`, and the place after acts that have the same.
fn judge_run(
    asset: &Asset,
    index: &CodeIndex,
    request: &Request<'_>,
    act: &Act,
    i: u32,
    any_value: bool,
) -> (Verdict, u32)
    requires read { IsRead (request_value request.now) }
    requires inside { i < length (acts (request_value request.now)) }
    requires act { slice_get (acts (request_value request.now)) i ≡ Some act.now }
    requires any_value { (client : ℕ) → IsIndexOf asset.now client index.now → any_value ≡ true
        → TakesAnyValue asset.now client request.now.code }
    ensures run { (client : ℕ) → IsIndexOf asset.now client index.now
        → HaveVerdict (verdict_of asset.now client) (acts (request_value request.now)) i result.1 result.0 }
    ensures inside { IsInside asset.now.rules result.0 }
    ensures more { i < result.1 }
    ensures within { result.1 ≤ length (acts (request_value request.now)) }
{
    let last = last_of_run(request, act, i, any_value);
    if last == i {
        return (index.verdict(asset, act), i + 1);
    }
    let (verdict, reached) = index.verdict_run(asset, act, act.point + (last - i));
    (verdict, i + (reached - act.point) + 1)
}

/// The last place of a run that begins at place `i`.
fn last_of_run(request: &Request<'_>, act: &Act, i: u32, any_value: bool) -> u32
    requires read { IsRead (request_value request.now) }
    requires inside { i < length (acts (request_value request.now)) }
    requires act { slice_get (acts (request_value request.now)) i ≡ Some act.now }
    ensures run { AreRun (acts (request_value request.now)) i result act.now any_value }
    ensures from { i ≤ result }
    ensures within { result < length (acts (request_value request.now)) }
    ensures fits { act.now.point + (result - i) < 65536 }
    ensures code { act.now.code ≡ request.now.code }
{
    let first = u32::from(request.quantity);
    if i >= first {
        act_count(request) - 1
    } else if any_value || act.value.is_none() {
        first - 1
    } else {
        i
    }
}
