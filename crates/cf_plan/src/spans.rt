//! Lists of numbers as spans, in their order.

use cf_policy::Span;
use std::alloc::{AllocError, Global};

/// How near two spans may lie that become one: numbers that follow each other do.
pub(crate) const NEXT: i64 = 1;
/// So only numbers that both have are stated once.
pub(crate) const SAME: i64 = 0;

/// The span of one number.
pub(crate) fn one(number: i64) -> Span {
    Span {
        low: number,
        high: number,
    }
}

/// A list of one number.
pub(crate) fn single(alloc: Global, number: i64) -> Result<Vec<Span>, AllocError> {
    let mut spans = Vec::new(alloc);
    spans.push(one(number))?;
    Ok(spans)
}

/// Puts a span behind others that are not above it; one that is so near to the last lengthens that.
pub(crate) fn push_span(spans: &mut Vec<Span>, span: Span, near: i64) -> Result<(), AllocError> {
    if let Some(last) = spans.last_mut() {
        if span.low <= last.high.saturating_add(near) {
            last.high = last.high.max(span.high);
            return Ok(());
        }
    }
    spans.push(span)?;
    Ok(())
}

/// The numbers of both lists.
pub(crate) fn joined(
    alloc: Global,
    first: &[Span],
    second: &[Span],
    near: i64,
) -> Result<Vec<Span>, AllocError> {
    let mut all = Vec::from_slice(alloc, first)?;
    all.extend_from_slice(second)?;
    all.sort_unstable_by_key(|span| span.low);
    let mut spans = Vec::new(alloc);
    for span in all.as_slice() {
        push_span(&mut spans, *span, near)?;
    }
    Ok(spans)
}

/// The one span from the least number of a list to the greatest; none of none.
pub(crate) fn hull(alloc: Global, spans: &[Span]) -> Result<Vec<Span>, AllocError> {
    let mut whole = Vec::new(alloc);
    for span in spans {
        push_span(&mut whole, *span, i64::MAX)?;
    }
    Ok(whole)
}

/// Whether a list has a number; one that states nothing has every number.
pub(crate) fn has(spans: &[Span], number: i64) -> bool {
    spans.is_empty()
        || spans
            .iter()
            .any(|span| span.low <= number && number <= span.high)
}
