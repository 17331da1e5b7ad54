//! Numbers, addresses and ranges as texts of a policy.
ghost use Rattle.std.specs.Prelude.{◌≡◌, ◌<◌, ◌≤ℤ◌, IfSome, length, option_map};
ghost use Rattle.cf_policylang.specs.Numbers.{has_spare, within, printed_number_in, split_at_mark, ends, span, number_span, octet, octets};
ghost use Rattle.cf_policylang.specs.Numbers.{address};

use cf_policy::Span;

/// A number from `low` to `high`, or a range of such numbers.
pub(crate) fn number_span(low: i64, high: i64, text: &str) -> Option<Span>
    ensures { result ≡ number_span low high text.now }
{
    let (first, last) = ends(text);
    let first = printed_number_in(low, high, first)?;
    let last = printed_number_in(low, high, last)?;
    span(first, last)
}

/// The first and the last of a range; a text without `..` is both.
pub(crate) fn ends(text: &str) -> (&str, &str)
    ensures { (result.0.now, result.1.now) ≡ ends text.now }
{
    split_at_mark("..", text).unwrap_or((text, text))
}

/// The span from `low` to `high`, if the first is not above the second.
pub(crate) fn span(low: i64, high: i64) -> Option<Span>
    ensures { result ≡ span low high }
{
    if low <= high {
        Some(Span { low, high })
    } else {
        None
    }
}

/// The number of an address of IPv4: four decimal numbers from 0 to 255 with points between them, the first the highest
/// octet, as RFC 1123, section 2.1, writes it. A sign, a leading zero, a space and any other text are refused, so that an
/// address has one text.
pub fn address(text: &str) -> Option<u32>
    ensures { result ≡ address text.now }
{
    let (a, rest) = split_at_mark(".", text)?;
    let (b, rest) = split_at_mark(".", rest)?;
    let (c, d) = split_at_mark(".", rest)?;
    octets(a, b, c, d)
}

fn octets(a: &str, b: &str, c: &str, d: &str) -> Option<u32>
    ensures { result ≡ octets a.now b.now c.now d.now }
{
    let a = octet(a)?;
    let b = octet(b)?;
    let c = octet(c)?;
    let d = octet(d)?;
    Some(((a * 256 + b) * 256 + c) * 256 + d)
}

/// The number from 0 to 255 that a part of an address is, without a sign or leading zeros.
pub(crate) fn octet(text: &str) -> Option<u32>
    ensures value { result ≡ octet text.now }
    ensures small { IfSome result (λ n. n < 256) }
{
    let octet = printed_number_in(0, 255, text)?;
    Some(octet as u32)
}

/// What stands before and what stands after the first place at which the mark stands.
pub(crate) fn split_at_mark<'a>(mark: &str, text: &'a str) -> Option<(&'a str, &'a str)>
    requires { 0 < length mark.now }
    ensures { option_map (λ p. (p.0.now, p.1.now)) result ≡ split_at_mark mark.now text.now }
{
    text.split_once(mark)
}

/// The number from `low` to `high` that the text is, as it is printed.
pub(crate) fn printed_number_in(low: i64, high: i64, text: &str) -> Option<i64>
    ensures value { result ≡ printed_number_in low high text.now }
    ensures above { IfSome result (λ z. low ≤ℤ z) }
    ensures below { IfSome result (λ z. z ≤ℤ high) }
{
    if has_spare(text.as_bytes()) {
        return None;
    }
    match text.parse::<i64>() {
        Ok(number) => within(low, high, number),
        Err(_) => None,
    }
}

fn has_spare(text: &[u8]) -> bool
    ensures { result ≡ has_spare text.now }
{
    text.starts_with(b"+") || text.starts_with(b"-0") || (text.len() > 1 && text.starts_with(b"0"))
}

/// The number itself, where it is from `low` to `high`.
pub(crate) fn within(low: i64, high: i64, number: i64) -> Option<i64>
    ensures value { result ≡ within low high number }
    ensures above { IfSome result (λ z. low ≤ℤ z) }
    ensures below { IfSome result (λ z. z ≤ℤ high) }
{
    if low <= number && number <= high {
        Some(number)
    } else {
        None
    }
}
