//! Object headers, read from the front.
ghost use Rattle.std.specs.Prelude.{◌≡◌, ◌+◌, ◌≤◌, length, slice_index, is_some, IfOk, IfErr, IfSome, Err};
ghost use Rattle.cf_dnpobj.specs.Headers.{number_at, count_of, size_of, is_whole, header_size, headers_in, BeginsWithHeader};
ghost use Rattle.cf_dnpobj.specs.Fragment.{counted};
ghost use Rattle.cf_dnpobj.specs.Objects.{width, range_size, objects_size};

use crate::fragment::FragmentRefusal;
use crate::object::{Layout, is_all, is_span, layout_of, objects_size, range_size, takes, width};
use cf_view::View;

/// Group, variation and qualifier.
const HEAD: usize = 3;

/// The number of headers that the octets are, or the first fault.
pub fn count_headers(code: u8, objects: &View<'_>) -> Result<usize, FragmentRefusal>
    ensures { result ≡ counted (headers_in code objects.now.bytes) }
{
    let len = objects.len();
    let mut at = 0;
    let mut count = 0;
    while at < len {
        let header = first_header(code, &objects.sub(at, len))?;
        count += 1;
        at += header.len();
    }
    Ok(count)
}

/// The first header with its objects, or its fault.
pub fn first_header<'a>(code: u8, octets: &View<'a>) -> Result<View<'a>, FragmentRefusal>
    ensures found { IfOk result (λ h. BeginsWithHeader code octets.now.bytes h.bytes) }
    ensures fault { IfErr result (λ e. header_size code octets.now.bytes ≡ Err e) }
{
    let size = header_size(code, octets)?;
    Ok(octets.sub(0, size))
}

/// The size of the first header with its objects, or its fault.
fn header_size(code: u8, octets: &View<'_>) -> Result<usize, FragmentRefusal>
    ensures value { result ≡ header_size code octets.now.bytes }
    ensures inside { IfOk result (λ n. (3 ≤ n) × (n ≤ length octets.now.bytes)) }
    ensures range { IfOk result (λ n. 3 + range_size (slice_index octets.now.bytes 2) ≤ n) }
{
    if octets.len() < HEAD {
        return Err(FragmentRefusal::Parameter);
    }
    let Some(layout) = layout_of(code, octets.at(0), octets.at(1)) else {
        return Err(FragmentRefusal::Object);
    };
    match whole_size(layout, octets) {
        Some(size) => Ok(size),
        None => Err(FragmentRefusal::Parameter),
    }
}

/// The size of the first header with its objects, where the qualifier is taken, the range is whole and tells objects, and these are whole.
fn whole_size(layout: Layout, octets: &View<'_>) -> Option<usize>
    requires head { 3 ≤ length octets.now.bytes }
    requires layout { objects_size layout 0 1 ≤ 11 }
    ensures whole { is_whole layout octets.now.bytes ≡ is_some result }
    ensures size { IfSome result (λ n. n ≡ size_of layout octets.now.bytes) }
    ensures inside { IfSome result (λ n. (3 ≤ n) × (n ≤ length octets.now.bytes)) }
    ensures range { IfSome result (λ n. 3 + range_size (slice_index octets.now.bytes 2) ≤ n) }
{
    let qualifier = octets.at(2);
    if !takes(layout, qualifier) {
        return None;
    }
    let behind = HEAD + range_size(qualifier);
    if behind > octets.len() {
        return None;
    }
    let count = count_of(octets);
    if count == 0 && !is_all(qualifier) {
        return None;
    }
    let size = behind + objects_size(layout, qualifier, count);
    if size > octets.len() {
        return None;
    }
    Some(size)
}

/// How many objects the range tells; 0 where its start is above its stop.
pub fn count_of(octets: &View<'_>) -> usize
    requires head { 3 ≤ length octets.now.bytes }
    requires range { 3 + range_size (slice_index octets.now.bytes 2) ≤ length octets.now.bytes }
    ensures value { result ≡ count_of octets.now.bytes }
    ensures most { result ≤ 65536 }
{
    let qualifier = octets.at(2);
    let width = width(qualifier);
    let first = number_at(width, octets, HEAD);
    if is_span(qualifier) {
        return (number_at(width, octets, HEAD + width) + 1).saturating_sub(first);
    }
    first
}

/// A number of so many octets, the low one first.
pub fn number_at(width: usize, octets: &View<'_>, i: usize) -> usize
    requires width { width ≤ 2 }
    requires inside { i + width ≤ length octets.now.bytes }
    ensures value { result ≡ number_at width octets.now.bytes i }
    ensures most { result ≤ 65535 }
{
    match width {
        0 => 0,
        1 => usize::from(octets.at(i)),
        _ => usize::from(octets.u16_le(i)),
    }
}
