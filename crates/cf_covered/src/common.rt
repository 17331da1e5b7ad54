//! Rules that may have an act in common.
ghost use Rattle.std.specs.Prelude.{◌≡◌, ℕ, true, false};
ghost use Rattle.std.specs.List.{list_any};
ghost use Rattle.cf_view.specs.declared.base.Act.{Act};
ghost use Rattle.cf_policy.specs.Verdict.{has_act};
ghost use Rattle.cf_covered.specs.Common.{have_common, lists_overlap, some_overlap, overlap};

use cf_policy::{Items, Rule, Span};

/// Whether each list of a rule has a number in common with that of another, or one of the two is not stated. Else no act is both
/// rules'.
pub fn have_common(rule: &Rule, other: &Rule) -> bool
    ensures common { result ≡ have_common rule.now other.now }
    ensures none { result ≡ false → (client : ℕ) (act : Act) → has_act rule.now client act ≡ true → has_act other.now client act ≡ false }
{
    each_overlaps(rule, other)
}

/// Points are looked at first, as rules of a code mostly differ there.
fn each_overlaps(rule: &Rule, other: &Rule) -> bool
    ensures { result ≡ have_common rule.now other.now }
{
    if !lists_overlap(&rule.points, &other.points) {
        return false;
    }
    lists_overlap(&rule.clients, &other.clients)
        && (lists_overlap(&rule.codes, &other.codes)
            && (lists_overlap(&rule.groups, &other.groups)
                && (lists_overlap(&rule.values, &other.values)
                    && lists_overlap(&rule.points, &other.points))))
}

fn lists_overlap(a: &Items<Span>, b: &Items<Span>) -> bool
    ensures { result ≡ lists_overlap a.now b.now }
{
    a.is_empty() || (b.is_empty() || any_overlap(a.as_slice(), b.as_slice()))
}

fn any_overlap(a: &[Span], b: &[Span]) -> bool
    ensures { result ≡ list_any (λ s. some_overlap b.now s) a.now }
{
    a.iter().any(|span| some_overlap(b, span))
}

/// Whether one of some spans has a number in common with a span.
pub fn some_overlap(spans: &[Span], span: &Span) -> bool
    ensures { result ≡ some_overlap spans.now span.now }
{
    spans.iter().any(|stated| overlap(stated, span))
}

/// Whether two spans have a number in common.
pub(crate) fn overlap(a: &Span, b: &Span) -> bool
    ensures { result ≡ overlap a.now b.now }
{
    a.low <= b.high && b.low <= a.high
}
