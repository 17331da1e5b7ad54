//! What becomes of a client's fragment.
ghost use Rattle.std.specs.Prelude.{◌≡◌, ◌≢◌, ◌≤◌, ℕ, if◌then◌else◌, length, nat_eq};
ghost use Rattle.cf_dnpobj.specs.Acts.{acts};
ghost use Rattle.cf_dnpobj.specs.Fragment.{fragment_value};
ghost use Rattle.cf_policy.specs.Within.{most_rated};
ghost use Rattle.cf_lane.specs.Rings.{IsRulesOf, says_by};
ghost use Rattle.cf_lane.specs.Acts.{fate_of_acts};
ghost use Rattle.cf_lane.specs.Dnp3.{IsOfFragment, fate_of_fragment, form_reason};
ghost use Rattle.cf_lane.specs.Fate.{HasOwnDecider};
ghost use Rattle.cf_lane.specs.Judgement.{fate_or_carried};
ghost use Rattle.cf_lane.specs.declared.fate.Fate.{Fate};

use crate::fate::{Judgement, judge_acts, refused};
use crate::rules::Rules;
use cf_dnpobj::{
    CONFIRM, Fragment, FragmentRefusal, act_at, act_by, act_count, marks_of, read_fragment,
};
use cf_policy::{Asset, Decider};
use cf_view::{Reason, Side, View};

/// So many acts are found one by one, without marks.
const FEW_ACTS: u32 = 16;

/// What becomes of a fragment of 2 to 2,048 octets of the client of the index: none for a confirmation, which is no command and
/// goes on. Of every other one the form is read, then each act is judged in its order; the first that is not allowed decides. This
/// project's own order.
pub(crate) fn judge_fragment(
    asset: &Asset,
    rules: &Rules,
    moment: u64,
    octets: &View<'_>,
) -> Option<Judgement>
    requires at_least { 2 ≤ length octets.now.bytes }
    requires at_most { length octets.now.bytes ≤ 2048 }
    requires few { length rules.now.rings.items ≤ most_rated }
    ensures fate { (client : ℕ) → IsRulesOf asset.now client rules.now
        → fate_or_carried result ≡ fate_of_fragment asset.now (says_by asset.now client rules.now moment) Side.Client octets.now.bytes }
    ensures decider { HasOwnDecider asset.now.rules (fate_or_carried result) }
    ensures fragment { (client : ℕ) → IsRulesOf asset.now client rules.now → IsOfFragment (fate_or_carried result) }
{
    match read_fragment(octets.sub(0, octets.len())) {
        Err(refusal) => Some(refused(
            Decider::Form,
            form_reason(&refusal),
            u16::from(octets.at(1)),
            0,
        )),
        Ok(fragment) => judge_request(asset, rules, moment, &fragment),
    }
}

/// The reason that a refused form of a fragment stands for. This project's own division.
pub fn form_reason(refusal: &FragmentRefusal) -> Reason
    ensures value { result ≡ form_reason refusal.now }
    ensures other { result ≢ Reason.Station }
{
    match refusal {
        FragmentRefusal::Short | FragmentRefusal::NotSingle | FragmentRefusal::Parameter =>
            Reason::Value,
        FragmentRefusal::Function => Reason::Function,
        FragmentRefusal::Object => Reason::Point,
    }
}

/// What becomes of a fragment whose form was read.
fn judge_request(
    asset: &Asset,
    rules: &Rules,
    moment: u64,
    fragment: &Fragment<'_>,
) -> Option<Judgement>
    requires at_most { length fragment.now.objects.bytes ≤ 2046 }
    requires few { length rules.now.rings.items ≤ most_rated }
    ensures fate { (client : ℕ) → IsRulesOf asset.now client rules.now
        → fate_or_carried result ≡ (if nat_eq fragment.now.code 0 then Fate.Carried else fate_of_acts asset.now
        (says_by asset.now client rules.now moment) (acts (fragment_value fragment.now))) }
    ensures decider { HasOwnDecider asset.now.rules (fate_or_carried result) }
    ensures fragment { (client : ℕ) → IsRulesOf asset.now client rules.now → IsOfFragment (fate_or_carried result) }
{
    if fragment.code == CONFIRM {
        return None;
    }
    let count = act_count(fragment);
    if count <= FEW_ACTS {
        return Some(judge_acts(asset, rules, moment, count, |i| { act_at(fragment, i) }));
    }
    // Each of many acts is found from a mark near it: a walk over all headers for each would take their number squared.
    let marks = marks_of(fragment);
    Some(judge_acts(asset, rules, moment, count, |i| {
        act_by(fragment, &marks, i)
    }))
}
