//! How much of a span a list of a rule takes, or lacks, from the span's low end on.
ghost use Rattle.std.specs.Prelude.{◌≡◌, ℤ, ◌<ℤ◌, ◌≤ℤ◌, All, Contains, Option, IfSome, true, false};
ghost use Rattle.cf_policy.specs.Verdict.{covers, takes, takes_value};
ghost use Rattle.cf_acts.specs.Acts.{has_value};
ghost use Rattle.cf_covered.specs.Regions.{Begin, behind, values_behind};

use cf_policy::{Items, Span, takes};

/// A part of a span from its low end on, all of which a list takes; none where the list lacks the low end.
pub(crate) fn taken_part(spans: &Items<Span>, span: Span) -> Option<Span>
    ensures begins { IfSome result (λ part. part.low ≡ span.low) }
    ensures taken { IfSome result (λ part. (n : ℤ) → covers part n ≡ true → takes spans.now n ≡ true) }
{
    if spans.is_empty() {
        return Some(span);
    }
    let first = first_with(spans.as_slice(), span.low)?;
    Some(up_to(span, first.high))
}

/// The numbers of a span that are not above one.
fn up_to(span: Span, end: i64) -> Span
    ensures begins { result.low ≡ span.low }
    ensures end { result.high ≤ℤ end }
{
    if end < span.high {
        Span {
            low: span.low,
            high: end,
        }
    } else {
        span
    }
}

/// The first span that has a number.
fn first_with(spans: &[Span], number: i64) -> Option<&Span>
    ensures { IfSome result (λ first. Contains spans.now first.now × (covers first.now number ≡ true)) }
{
    spans
        .iter()
        .find(|stated| stated.low <= number && number <= stated.high)
}

/// A part of a span from its low end on, all of which a list lacks; none where the list takes the low end.
pub(crate) fn lacked_part(spans: &Items<Span>, span: Span) -> Option<Span>
    ensures begins { IfSome result (λ part. part.low ≡ span.low) }
    ensures lacked { IfSome result (λ part. (n : ℤ) → covers part n ≡ true → takes spans.now n ≡ false) }
{
    if takes(spans, span.low) {
        return None;
    }
    Some(Span {
        low: span.low,
        high: before_next(spans.as_slice(), span),
    })
}

/// The last number of a span before any of the others that begins after its low end.
fn before_next(spans: &[Span], span: Span) -> i64
    ensures { All (λ s. span.low <ℤ s.low → result <ℤ s.low) spans.now }
{
    let mut high = span.high;
    for stated in spans {
        high = before(stated, &span, high);
    }
    high
}

/// A number, or the last before a span that begins after the low end of another.
fn before(stated: &Span, span: &Span, high: i64) -> i64
    ensures not_above { result ≤ℤ high }
    ensures before { span.now.low <ℤ stated.now.low → result <ℤ stated.now.low }
{
    if span.low < stated.low && stated.low <= high {
        stated.low - 1
    } else {
        high
    }
}

/// The same of values, or of none.
pub(crate) fn taken_values(spans: &Items<Span>, values: Option<Span>) -> Option<Option<Span>>
    ensures begins { IfSome result (λ part. Begin part values) }
    ensures taken { IfSome result (λ part. (v : Option ℤ) → has_value part v ≡ true → takes_value spans.now v ≡ true) }
{
    match values {
        Some(span) => Some(Some(taken_part(spans, span)?)),
        None if spans.is_empty() => Some(None),
        None => None,
    }
}

/// The same of values, or of none.
pub(crate) fn lacked_values(spans: &Items<Span>, values: Option<Span>) -> Option<Option<Span>>
    ensures begins { IfSome result (λ part. Begin part values) }
    ensures lacked { IfSome result (λ part. (v : Option ℤ) → has_value part v ≡ true → takes_value spans.now v ≡ false) }
{
    match values {
        Some(span) => Some(Some(lacked_part(spans, span)?)),
        None if spans.is_empty() => None,
        None => Some(None),
    }
}

/// The numbers of a span after one.
pub(crate) fn behind(span: Span, end: i64) -> Option<Span>
    ensures { result ≡ behind span end }
{
    if end < span.high {
        Some(Span {
            low: end + 1,
            high: span.high,
        })
    } else {
        None
    }
}

/// The same of values, or of none.
pub(crate) fn values_behind(values: Option<Span>, part: Option<Span>) -> Option<Span>
    ensures { result ≡ values_behind values part }
{
    match (values, part) {
        (Some(span), Some(part)) => behind(span, part.high),
        _ => None,
    }
}
