//! Outlines of rules: what a look at many of them needs of each.
ghost use Rattle.std.specs.Prelude.{◌≡◌, ◌≤ℤ◌, All, IfOk, true};
ghost use Rattle.cf_policy.specs.Verdict.{covers};
ghost use Rattle.cf_covered.specs.Outlines.{HasHull, IsHull, has_ends, rules_of};

use cf_policy::{Rule, Span};
use std::alloc::{AllocError, Global};

/// All numbers that a span can have.
const EVERY_NUMBER: Span = Span {
    low: i64::MIN,
    high: i64::MAX,
};

/// A span that has none, and from which each that is widened begins.
const NO_NUMBER: Span = Span {
    low: i64::MAX,
    high: i64::MIN,
};

/// A rule, and a span that has both ends of each span of its points, or every number where it states none. Most pairs of rules of an
/// asset differ there, so a look at all earlier ones reads outlines, one after the other, and seldom the rules themselves.
#[derive(Clone, Copy)]
pub struct Outline<'a> {
    pub(crate) hull: Span,
    pub(crate) rule: &'a Rule,
}

/// The outline of each rule, in their order.
pub fn outlines(alloc: Global, rules: &[Rule]) -> Result<Vec<Outline<'_>>, AllocError>
    ensures rules { IfOk result (λ all. rules_of all.items ≡ rules.now) }
    ensures hulls { IfOk result (λ all. All HasHull all.items) }
{
    let mut all = Vec::with_capacity(alloc, rules.len())?;
    for rule in rules {
        all.push(outline_of(rule))?;
    }
    Ok(all)
}

fn outline_of(rule: &Rule) -> Outline<'_>
    ensures rule { result.rule.now ≡ rule.now }
    ensures hull { HasHull result }
{
    Outline {
        hull: hull(rule.points.as_slice()),
        rule,
    }
}

/// A span that has both ends of each span of a list; every number for an empty one.
fn hull(spans: &[Span]) -> Span
    ensures { IsHull result spans.now }
{
    if spans.is_empty() {
        return EVERY_NUMBER;
    }
    let mut hull = NO_NUMBER;
    for span in spans {
        hull = joined(hull, span);
    }
    hull
}

/// The least span that has all of one, and both ends of another.
fn joined(hull: Span, span: &Span) -> Span
    ensures begins { result.low ≤ℤ hull.low }
    ensures ends { hull.high ≤ℤ result.high }
    ensures has { has_ends result span.now ≡ true }
{
    widened(widened(hull, span.low), span.high)
}

/// The least span that has all of one, and a number.
fn widened(span: Span, number: i64) -> Span
    ensures begins { result.low ≤ℤ span.low }
    ensures ends { span.high ≤ℤ result.high }
    ensures has { covers result number ≡ true }
{
    Span {
        low: span.low.min(number),
        high: span.high.max(number),
    }
}
