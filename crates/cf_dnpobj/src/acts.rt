//! What a request does: one act for each object of a command, one for each header of every other request.
ghost use Rattle.std.specs.Prelude.{◌≡◌, ◌≢◌, ◌≤◌, ◌<◌, ◌+◌, ◌^◌, ℕ, List, length, slice_index, slice_get, IfOk, Some, Ok, true};
ghost use Rattle.std.specs.List.{flat_map};
ghost use Rattle.cf_dnpobj.specs.Acts.{acts, summed, each, group_of, signed, value_at, value_size, object_place, object_act, plain_act};
ghost use Rattle.cf_dnpobj.specs.Acts.{header_acts, header_count, LeavesActs};
ghost use Rattle.cf_dnpobj.specs.Headers.{headers_in, IsHeader, count_of};
ghost use Rattle.cf_dnpobj.specs.Objects.{is_command, width};
ghost use Rattle.cf_dnpobj.specs.Fragment.{fragment_value};

use crate::fragment::{Fragment, FragmentRefusal};
use crate::header::{count_of, first_header, number_at};
use crate::object::{is_command, layout_of, objects_size, range_size, width};
use cf_view::{Act, View};

/// How many acts a request has that `read_fragment` gave, at least 1. Its code is not 0, since a confirmation does nothing.
pub fn act_count(fragment: &Fragment<'_>) -> u32
    requires size { length fragment.now.objects.bytes ≤ 2046 }
    requires code { fragment.now.code ≢ 0 }
    ensures { result ≡ length (acts (fragment_value fragment.now)) }
{
    if fragment.objects.is_empty() {
        return 1;
    }
    match sum_acts(fragment.code, &fragment.objects) {
        Ok(count) => count as u32,
        Err(_) => 0,
    }
}

/// The act of number `i`, counted from 0, of a request that `read_fragment` gave, in the order of its octets.
pub fn act_at(fragment: &Fragment<'_>, i: u32) -> Act
    requires code { fragment.now.code ≢ 0 }
    requires inside { i < length (acts (fragment_value fragment.now)) }
    ensures { slice_get (acts (fragment_value fragment.now)) i ≡ Some result }
{
    if fragment.objects.is_empty() {
        return plain_act(fragment.code, 0);
    }
    find_act(fragment.code, &fragment.objects, i as usize).unwrap()
}

/// The number of the acts of all headers, or the first fault.
fn sum_acts(code: u8, objects: &View<'_>) -> Result<usize, FragmentRefusal>
    requires { length objects.now.bytes ≤ 2046 }
    ensures value { result ≡ summed code (headers_in code objects.now.bytes) }
    ensures most { IfOk result (λ n. n < 2 ^ 32) }
{
    let len = objects.len();
    let mut at = 0;
    let mut count = 0;
    while at < len {
        let header = first_header(code, &objects.sub(at, len))?;
        count += header_count(code, &header);
        at += header.len();
    }
    Ok(count)
}

/// Act `i` of the headers, if there are so many.
fn find_act(code: u8, objects: &View<'_>, i: usize) -> Option<Act>
    ensures { (headers : List (List ℕ)) → headers_in code objects.now.bytes ≡ Ok headers
        → result ≡ slice_get (flat_map (header_acts code) headers) i }
{
    find_from(code, objects, 0, i)
}

/// The act that so many stand before, behind the headers that end at a place, if there is one.
pub fn find_from(code: u8, objects: &View<'_>, from: usize, before: usize) -> Option<Act>
    requires { from ≤ length objects.now.bytes }
    ensures { (i : ℕ) (headers : List (List ℕ)) → LeavesActs code objects.now.bytes i from before
        → headers_in code objects.now.bytes ≡ Ok headers → result ≡ slice_get (flat_map (header_acts code) headers) i }
{
    let len = objects.len();
    let mut at = from;
    let mut left = before;
    while at < len {
        let Ok(header) = first_header(code, &objects.sub(at, len)) else {
            return None;
        };
        let count = header_count(code, &header);
        if left < count {
            return Some(header_act(code, &header, left));
        }
        left -= count;
        at += header.len();
    }
    None
}

/// The number of the acts of a header.
pub fn header_count(code: u8, header: &View<'_>) -> usize
    requires { IsHeader code header.now.bytes }
    ensures value { result ≡ header_count code header.now.bytes }
    ensures most { result ≤ 65536 }
{
    if is_command(code) {
        count_of(header)
    } else {
        1
    }
}

/// Act `i` of a header.
fn header_act(code: u8, header: &View<'_>, i: usize) -> Act
    requires header { IsHeader code header.now.bytes }
    requires inside { i < header_count code header.now.bytes }
    ensures { slice_get (header_acts code header.now.bytes) i ≡ Some result }
{
    if is_command(code) {
        return object_act(code, header, i);
    }
    plain_act(code, group_of(header))
}

/// The act of object `i` of a command's header.
fn object_act(code: u8, header: &View<'_>, i: usize) -> Act
    requires header { IsHeader code header.now.bytes }
    requires command { is_command code ≡ true }
    requires inside { i < count_of header.now.bytes }
    ensures { result ≡ object_act code header.now.bytes i }
{
    let width = width(header.at(2));
    let place = object_place(code, header, i);
    Act {
        code: u16::from(code),
        group: group_of(header),
        point: number_at(width, header, place) as u32,
        value: value_at(header, place + width),
    }
}

/// Where object `i` of a command's header begins, with its index.
fn object_place(code: u8, header: &View<'_>, i: usize) -> usize
    requires header { IsHeader code header.now.bytes }
    requires command { is_command code ≡ true }
    requires inside { i < count_of header.now.bytes }
    ensures value { result ≡ object_place code header.now.bytes i }
    ensures inside { result + (width (slice_index header.now.bytes 2) + value_size header.now.bytes) ≤ length header.now.bytes }
{
    3 + range_size(header.at(2)) + i * each(code, header)
}

/// The octets of one object with its index.
pub fn each(code: u8, header: &View<'_>) -> usize
    requires { 3 ≤ length header.now.bytes }
    ensures value { result ≡ each code header.now.bytes }
    ensures most { result ≤ 851968 }
{
    match layout_of(code, header.at(0), header.at(1)) {
        Some(layout) => objects_size(layout, header.at(2), 1),
        None => 0,
    }
}

/// The value of the object at a place after its index, if it is one that is read.
fn value_at(header: &View<'_>, place: usize) -> Option<i64>
    requires head { 3 ≤ length header.now.bytes }
    requires inside { place + value_size header.now.bytes ≤ length header.now.bytes }
    ensures { result ≡ value_at header.now.bytes place }
{
    let group = header.at(0);
    let variation = header.at(1);
    if group == 12 && variation == 1 {
        return Some(i64::from(header.at(place)));
    }
    if group == 41 && variation == 1 {
        return Some(signed_32(header.u32_le(place)));
    }
    if group == 41 && variation == 2 {
        return Some(signed_16(header.u16_le(place)));
    }
    None
}

/// 32 bits of two's complement.
fn signed_32(n: u32) -> i64
    ensures { result ≡ signed 32 n }
{
    if n < 0x8000_0000 {
        i64::from(n)
    } else {
        i64::from(n) - 0x1_0000_0000
    }
}

/// 16 bits of two's complement.
fn signed_16(n: u16) -> i64
    ensures { result ≡ signed 16 n }
{
    if n < 0x8000 {
        i64::from(n)
    } else {
        i64::from(n) - 0x1_0000
    }
}

/// Group × 256 + variation.
fn group_of(header: &View<'_>) -> u16
    requires { 3 ≤ length header.now.bytes }
    ensures { result ≡ group_of header.now.bytes }
{
    u16::from(header.at(0)) * 256 + u16::from(header.at(1))
}

/// An act without index and value.
pub fn plain_act(code: u8, group: u16) -> Act
    ensures { result ≡ plain_act code group }
{
    Act {
        code: u16::from(code),
        group,
        point: 0,
        value: None,
    }
}
