//! Acts that differ in the point alone, judged together; and whether values play a part.
ghost use Rattle.std.specs.Prelude.{◌≡◌, ℕ, ◌≤◌, ◌≤ℤ◌, ◌⊎◌, ◌<◌, not, pos, true, All, IfSome, get_or, length, slice_get};
ghost use Rattle.std.specs.List.{list_all};
ghost use Rattle.std.specs.Option.{option_map_or};
ghost use Rattle.cf_policy.specs.Index.{IsIndexOf, rule_at, tried};
ghost use Rattle.cf_policy.specs.Run.{HasOneVerdict, IsSteady, TakesAnyValue, some_states_values};
ghost use Rattle.cf_policy.specs.Verdict.{IsInside, takes, covers, is_empty};

use crate::index::{CodeIndex, CodePair, FEW, first_place, pairs_of, verdict_at};
use crate::judge::find_cover;
use crate::policy::{Asset, Rule, Span, Verdict};
use cf_view::Act;

impl CodeIndex {
    /// What `verdict` says about the act, and a point up to which it says the same about the act at each point; that
    /// point is at most `last`. The index is that of the asset.
    pub fn verdict_run(&self, asset: &Asset, act: &Act, last: u32) -> (Verdict, u32)
        requires ordered { act.now.point ≤ last }
        ensures run { (client : ℕ) → IsIndexOf asset.now client self.now → HasOneVerdict asset.now client act.now result.1 result.0 }
        ensures inside { IsInside asset.now.rules result.0 }
        ensures reaches { act.now.point ≤ result.1 }
        ensures stays { result.1 ≤ last }
    {
        let pairs = pairs_of(self.pairs(), act.code);
        if pairs.len() > FEW {
            if let Some(found) = self.run_by_table(asset, act, last) {
                return found;
            }
        }
        let rules = asset.rules.as_slice();
        let place = first_place(pairs, rules, act);
        let verdict = verdict_at(pairs, rules, act, place);
        (
            verdict,
            pairs_until(tried(pairs, place), rules, act.point, last),
        )
    }

    /// Whether no rule of the client and the code states values: then what `verdict` says about an act of the code does
    /// not depend on its value. The index is that of the asset.
    pub fn takes_any_value(&self, asset: &Asset, code: u16) -> bool
        ensures exact { (client : ℕ) → IsIndexOf asset.now client self.now → result ≡ not (some_states_values asset.now client code) }
        ensures free { (client : ℕ) → IsIndexOf asset.now client self.now → result ≡ true → TakesAnyValue asset.now client code }
    {
        let pairs = pairs_of(self.pairs(), code);
        all_without_values(pairs, asset.rules.as_slice())
    }
}

/// The pairs up to the first whose rule has the act, or all where none has it: those on which the verdict rests.
fn tried(pairs: &[CodePair], place: Option<usize>) -> &[CodePair]
    requires { IfSome place (λ k. k < length pairs.now) }
    ensures { result.now ≡ tried place pairs.now }
{
    match place {
        Some(last) => {
            let (front, _) = pairs.split_at(last + 1);
            front
        }
        None => pairs,
    }
}

fn all_without_values(pairs: &[CodePair], rules: &[Rule]) -> bool
    ensures { result ≡ list_all (λ p. option_map_or (λ r. is_empty r.values) (slice_get rules.now p.rule) true) pairs.now }
{
    pairs.iter().all(|pair| is_without_values(rules, pair.rule))
}

/// Whether the rule of this place states no values.
fn is_without_values(rules: &[Rule], place: usize) -> bool
    ensures { result ≡ option_map_or (λ r. is_empty r.values) (slice_get rules.now place) true }
{
    match rules.get(place) {
        Some(rule) => rule.values.is_empty(),
        None => true,
    }
}

/// A point up to which the points of the rule of each pair have all points or none.
fn pairs_until(pairs: &[CodePair], rules: &[Rule], first: u32, last: u32) -> u32
    requires ordered { first ≤ last }
    ensures steady { All (λ p. IsSteady (λ n. rule_at rules.now p.rule (λ r. takes r.points (pos n))) first result) pairs.now }
    ensures reaches { first ≤ result }
    ensures stays { result ≤ last }
{
    let mut reached = last;
    for pair in pairs {
        reached = rule_until(rules, pair.rule, first, reached);
    }
    reached
}

/// A point up to which the points of the rule of this place have all points or none.
pub(crate) fn rule_until(rules: &[Rule], place: usize, first: u32, last: u32) -> u32
    requires ordered { first ≤ last }
    ensures steady { IsSteady (λ n. rule_at rules.now place (λ r. takes r.points (pos n))) first result }
    ensures reaches { first ≤ result }
    ensures stays { result ≤ last }
{
    match rules.get(place) {
        Some(rule) => spans_until(rule.points.as_slice(), first, last),
        None => last,
    }
}

/// A point up to which the spans of a list have all points or none. Many are not gone through where halving finds one that has the first.
fn spans_until(spans: &[Span], first: u32, last: u32) -> u32
    requires ordered { first ≤ last }
    ensures steady { IsSteady (λ n. takes spans.now (pos n)) first result }
    ensures reaches { first ≤ result }
    ensures stays { result ≤ last }
{
    match find_point(spans, first) {
        Some(place) => span_until(&spans[place], first, last),
        None => walked_until(spans, first, last),
    }
}

/// The place of a span that has the point, if halving finds one.
fn find_point(spans: &[Span], point: u32) -> Option<usize>
    ensures inside { IfSome result (λ k. k < length spans.now) }
    ensures covers { IfSome result (λ k. (d : Span) → covers (get_or spans.now k d) (pos point) ≡ true) }
{
    find_cover(spans, i64::from(point))
}

/// A point up to which spans that are gone through have all points or none.
fn walked_until(spans: &[Span], first: u32, last: u32) -> u32
    requires ordered { first ≤ last }
    ensures steady { IsSteady (λ n. takes spans.now (pos n)) first result }
    ensures reaches { first ≤ result }
    ensures stays { result ≤ last }
{
    let mut reached = last;
    for span in spans {
        reached = span_until(span, first, reached);
    }
    reached
}

/// A point up to which the span has all points or none.
fn span_until(span: &Span, first: u32, last: u32) -> u32
    requires ordered { first ≤ last }
    ensures steady { IsSteady (λ n. covers span.now (pos n)) first result }
    ensures reaches { first ≤ result }
    ensures stays { result ≤ last }
{
    let point = i64::from(first);
    if point < span.low {
        lesser(span.low - 1, last)
    } else if point <= span.high {
        lesser(span.high, last)
    } else {
        last
    }
}

/// The lesser of a number that is not below 0 and a point.
fn lesser(end: i64, last: u32) -> u32
    requires { pos 0 ≤ℤ end }
    ensures below { pos result ≤ℤ end }
    ensures stays { result ≤ last }
    ensures either { (result ≡ last) ⊎ (pos result ≡ end) }
{
    if end < i64::from(last) {
        end as u32
    } else {
        last
    }
}
