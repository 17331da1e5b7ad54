//! Codes of a rule that no command brings.
ghost use Rattle.std.specs.Prelude.{◌≡◌, IfSome, is_none};
ghost use Rattle.std.specs.List.{list_any};
ghost use Rattle.cf_acts.specs.Acts.{kinds};
ghost use Rattle.cf_explain.specs.Meets.{reaches, reaches_groups, reaches_values, meets};
ghost use Rattle.cf_explain.specs.Rules.{NeverHas};

use cf_acts::{Groups, Kind, kinds};
use cf_covered::some_overlap;
use cf_policy::{Items, Protocol, Rule, Span};

/// Why no act with a code meets a rule.
#[derive(Clone, Copy)]
pub enum Unmet {
    /// The protocol does not serve the code.
    Code,
    /// Acts with the code have none of the rule's groups.
    Group,
    /// Those of its groups have none of its points.
    Point,
    /// Those of its groups and points have no value, and the rule states some.
    NoValue,
    /// Those of its groups and points have none of its values.
    Value,
}

/// Why a rule has no act with this code that a command of the protocol can have, if it has none. Each list is judged by
/// itself. Nothing is said of a rule that has some such act.
pub fn why_unmet(protocol: Protocol, rule: &Rule, code: u16) -> Option<Unmet>
    ensures never { IfSome result (λ _. NeverHas protocol rule.now code) }
    ensures exact { is_none result ≡ list_any (meets rule.now) (kinds protocol code) }
{
    let kinds = kinds(protocol, code);
    if some_meets(rule, kinds) {
        return None;
    }
    Some(first_missed(rule, kinds))
}

fn some_meets(rule: &Rule, kinds: &[Kind]) -> bool
    ensures { result ≡ list_any (meets rule.now) kinds.now }
{
    for kind in kinds {
        if meets(rule, kind) {
            return true;
        }
    }
    false
}

/// The first list that no kind of acts meets together with the lists before it.
fn first_missed(rule: &Rule, kinds: &[Kind]) -> Unmet {
    if kinds.is_empty() {
        Unmet::Code
    } else if !reaches_some_groups(rule, kinds) {
        Unmet::Group
    } else if !reaches_some_place(rule, kinds) {
        Unmet::Point
    } else if reaches_some_value(rule, kinds) {
        Unmet::Value
    } else {
        Unmet::NoValue
    }
}

fn reaches_some_groups(rule: &Rule, kinds: &[Kind]) -> bool {
    for kind in kinds {
        if reaches_groups(&rule.groups, kind.groups) {
            return true;
        }
    }
    false
}

fn reaches_some_place(rule: &Rule, kinds: &[Kind]) -> bool {
    for kind in kinds {
        if reaches_place(rule, kind) {
            return true;
        }
    }
    false
}

/// Whether the rule's groups and points meet a kind of acts that have values.
fn reaches_some_value(rule: &Rule, kinds: &[Kind]) -> bool {
    for kind in kinds {
        if kind.values.is_some() && reaches_place(rule, kind) {
            return true;
        }
    }
    false
}

/// Whether the rule's groups and points meet a kind of acts.
pub(crate) fn reaches_place(rule: &Rule, kind: &Kind) -> bool {
    reaches_groups(&rule.groups, kind.groups) && reaches(&rule.points, &kind.points)
}

fn meets(rule: &Rule, kind: &Kind) -> bool
    ensures { result ≡ meets rule.now kind.now }
{
    reaches_groups(&rule.groups, kind.groups)
        && (reaches(&rule.points, &kind.points) && reaches_values(&rule.values, kind.values))
}

fn reaches_groups(spans: &Items<Span>, groups: Groups) -> bool
    ensures { result ≡ reaches_groups spans.now groups }
{
    match groups {
        Groups::Span(span) => reaches(spans, &span),
        Groups::Causes => reaches_one(spans, 5) || (reaches_one(spans, 6) || reaches_one(spans, 8)),
    }
}

fn reaches_one(spans: &Items<Span>, number: i64) -> bool
    ensures { result ≡ reaches spans.now (record { low = number; high = number }) }
{
    reaches(
        spans,
        &Span {
            low: number,
            high: number,
        },
    )
}

fn reaches_values(spans: &Items<Span>, values: Option<Span>) -> bool
    ensures { result ≡ reaches_values spans.now values }
{
    match values {
        Some(span) => reaches(spans, &span),
        None => spans.is_empty(),
    }
}

/// Whether a list of a rule has a number of a span.
fn reaches(spans: &Items<Span>, span: &Span) -> bool
    ensures { result ≡ reaches spans.now span.now }
{
    spans.is_empty() || some_overlap(spans.as_slice(), span)
}
