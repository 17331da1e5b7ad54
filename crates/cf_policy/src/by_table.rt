//! Verdicts that are found in the table of points: at most one rule of the code can have the act.
ghost use Rattle.std.specs.Prelude.{◌≡◌, ℕ, ◌<◌, ◌≤◌, ◌&&◌, if◌then◌else◌, not, IfSome, length};
ghost use Rattle.cf_view.specs.declared.base.Reason.TheVariants as reason;
ghost use Rattle.std.specs.List.{list_any};
ghost use Rattle.cf_policy.specs.Index.{IsIndexOf, has_group_and_point, rule_at};
ghost use Rattle.cf_policy.specs.PointTable.{HasTaker};
ghost use Rattle.cf_policy.specs.declared.point_table.Taker.TheVariants.{Only};
ghost use Rattle.cf_policy.specs.declared.policy.Decider.TheVariants as decider;
ghost use Rattle.cf_policy.specs.declared.policy.Verdict.TheVariants as verdict;
ghost use Rattle.cf_policy.specs.Run.{HasOneVerdict};
ghost use Rattle.cf_policy.specs.Verdict.{IsInside, default_reason, has_point, is_allow, verdict_of};

use crate::index::{
    CodeIndex, allows_point, pairs_of, rule_has, some_allows_group, verdict_of_rule,
};
use crate::point_table::{Taker, find_taker};
use crate::policy::{Asset, Decider, Verdict};
use crate::run::rule_until;
use cf_view::{Act, Reason};

impl CodeIndex {
    /// What `verdict_run` says, where the table tells which rule alone can take the act's point.
    #[inline(never)]
    pub(crate) fn run_by_table(&self, asset: &Asset, act: &Act, last: u32) -> Option<(Verdict, u32)>
        requires ordered { act.now.point ≤ last }
        ensures run { IfSome result (λ p. (client : ℕ) → IsIndexOf asset.now client self.now → HasOneVerdict asset.now client act.now p.1 p.0) }
        ensures inside { IfSome result (λ p. IsInside asset.now.rules p.0) }
        ensures reaches { IfSome result (λ p. act.now.point ≤ p.1) }
        ensures stays { IfSome result (λ p. p.1 ≤ last) }
    {
        let (cells, reaches) = self.table();
        let (taker, until) = find_taker(cells, reaches, act.code, act.point, last);
        match taker {
            Taker::Nobody => Some((self.refusal(asset, act, false), until)),
            Taker::Only(place) => {
                let until = rule_until(asset.rules.as_slice(), place, act.point, until);
                Some((self.verdict_of_only(asset, act, place), until))
            }
            Taker::Unknown => None,
        }
    }

    /// What is said of the act, which no rule but that of this place can have.
    fn verdict_of_only(&self, asset: &Asset, act: &Act, place: usize) -> Verdict
        ensures decides { (client : ℕ) → IsIndexOf asset.now client self.now
            → HasTaker asset.now.rules self.now.pairs act.now.code act.now.point act.now.point (Only place)
            → result ≡ verdict_of asset.now client act.now }
        ensures inside { IsInside asset.now.rules result }
    {
        let rules = asset.rules.as_slice();
        if rule_has(rules, place, act) {
            verdict_of_rule(rules, place)
        } else {
            self.refusal(asset, act, allows_point(rules, place, act))
        }
    }

    /// The refusal by default, where this says whether some allow rule has the act's code, group and point.
    fn refusal(&self, asset: &Asset, act: &Act, takes_point: bool) -> Verdict
        ensures decides { (client : ℕ) → IsIndexOf asset.now client self.now
            → takes_point ≡ list_any (λ r. is_allow r.action && has_point r client act.now) asset.now.rules
            → result ≡ verdict.Refuse decider.Default (default_reason asset.now.rules client act.now) }
        ensures inside { IsInside asset.now.rules result }
    {
        let pairs = pairs_of(self.pairs(), act.code);
        let group = some_allows_group(pairs, asset.rules.as_slice(), act);
        Verdict::Refuse(Decider::Default, reason_of(group, takes_point))
    }
}

/// What of an act no allow rule has, where these say whether one has its group, and its point too.
fn reason_of(takes_group: bool, takes_point: bool) -> Reason
    ensures { result ≡ (if not takes_group then reason.Function else if not takes_point then reason.Point else reason.Value) }
{
    if !takes_group {
        Reason::Function
    } else if !takes_point {
        Reason::Point
    } else {
        Reason::Value
    }
}
