//! What was seen, as few rules as a person would have written.
//! The values of a point that were seen are one list, points with the same values are one, and then codes, groups and clients that differ
//! in nothing else. Where that is more than `FEW_RULES`, it is widened: all points of a client's code and group get the span of the values
//! seen of any, then the span of these points, and then clients of one code and group become one list.

ghost use Rattle.std.specs.Prelude.{◌<◌, IfSome, length};

use crate::cover::{Axis, Cover, agree_on, differ_only_in, joined_on};
use crate::spans::{NEXT, hull, one, push_span, single};
use cf_learn::Seen;
use cf_policy::{MOST_SPANS, Protocol, Span};
use std::alloc::{AllocError, Global};

/// The most rules of an asset that a draft has without being widened. This project's own.
pub const FEW_RULES: usize = 32;

/// What was seen, ordered by client, code, group, point and value.
#[derive(Clone, Copy, PartialEq, Eq, PartialOrd, Ord, Debug)]
struct Entry {
    client: u32,
    code: u16,
    group: u16,
    point: u32,
    value: Option<i64>,
}

/// What was widened, each with what stands before it.
#[derive(Clone, Copy, PartialEq, Eq)]
pub(crate) enum Width {
    Nothing,
    Values,
    Points,
    Clients,
}

/// The rules of an asset as they are planned.
#[derive(Drop)]
pub(crate) struct Plan {
    pub(crate) covers: Vec<Cover>,
    pub(crate) width: Width,
}

/// The rules that have what was seen of an asset of a protocol: all of it, and nothing else where nothing is widened.
pub(crate) fn plan_rules(
    alloc: Global,
    protocol: Protocol,
    seen: &[Seen],
) -> Result<Plan, AllocError> {
    let entries = entries_of(alloc, seen)?;
    let entries = entries.as_slice();
    let mut found = plan_at(alloc, protocol, entries, Width::Nothing)?;
    for width in [Width::Values, Width::Points, Width::Clients] {
        if found.covers.len() <= FEW_RULES {
            return Ok(found);
        }
        found = plan_at(alloc, protocol, entries, width)?;
    }
    Ok(found)
}

fn plan_at(
    alloc: Global,
    protocol: Protocol,
    entries: &[Entry],
    width: Width,
) -> Result<Plan, AllocError> {
    let covers = match width {
        Width::Nothing => exact_covers(alloc, entries)?,
        Width::Values => wide_covers(alloc, entries, false)?,
        Width::Points => wide_covers(alloc, entries, true)?,
        Width::Clients => {
            let covers = wide_covers(alloc, entries, true)?;
            gathered(alloc, covers)?
        }
    };
    let covers = merged(alloc, protocol, covers)?;
    Ok(Plan {
        covers: split(alloc, covers)?,
        width,
    })
}

/// What was seen, each once.
fn entries_of(alloc: Global, seen: &[Seen]) -> Result<Vec<Entry>, AllocError> {
    let mut entries = Vec::new(alloc);
    for one in seen {
        entries.push(Entry {
            client: one.kind.client,
            code: one.kind.code,
            group: one.kind.group,
            point: one.point,
            value: one.kind.value,
        })?;
    }
    entries.sort_unstable();
    entries.dedup();
    Ok(entries)
}

fn is_one_kind(a: &Entry, b: &Entry) -> bool {
    a.client == b.client && a.code == b.code && a.group == b.group
}

/// Whether the entry at a place is the last of its client, code and group.
fn ends_kind(entries: &[Entry], place: usize, entry: &Entry) -> bool {
    match entries.get(place.saturating_add(1)) {
        Some(next) => !is_one_kind(entry, next),
        None => true,
    }
}

/// Whether it is the last of its point there.
fn ends_point(entries: &[Entry], place: usize, entry: &Entry) -> bool {
    match entries.get(place.saturating_add(1)) {
        Some(next) => !(is_one_kind(entry, next) && entry.point == next.point),
        None => true,
    }
}

/// The cover of these points and values of a client, a code and a group.
fn cover_of(
    alloc: Global,
    entry: &Entry,
    points: Vec<Span>,
    values: Vec<Span>,
) -> Result<Cover, AllocError> {
    Ok(Cover {
        clients: single(alloc, i64::from(entry.client))?,
        codes: single(alloc, i64::from(entry.code))?,
        groups: single(alloc, i64::from(entry.group))?,
        points,
        values,
    })
}

/// One cover for each client, code, group and list of values, with the points that have exactly these values.
fn exact_covers(alloc: Global, entries: &[Entry]) -> Result<Vec<Cover>, AllocError> {
    let mut covers = Vec::new(alloc);
    let mut values = Vec::new(alloc);
    let mut first = 0;
    for (place, entry) in entries.iter().enumerate() {
        if let Some(value) = entry.value {
            push_span(&mut values, one(value), NEXT)?;
        }
        if ends_point(entries, place, entry) {
            let own = std::mem::replace(&mut values, Vec::new(alloc));
            put_point(alloc, &mut covers, first, entry, own)?;
        }
        if ends_kind(entries, place, entry) {
            first = covers.len();
        }
    }
    Ok(covers)
}

/// Adds a point with these values to the cover that has them, among those from a place on, or as one of its own.
fn put_point(
    alloc: Global,
    covers: &mut Vec<Cover>,
    first: usize,
    entry: &Entry,
    values: Vec<Span>,
) -> Result<(), AllocError> {
    let point = i64::from(entry.point);
    for place in first..covers.len() {
        if covers[place].values.as_slice() == values.as_slice() {
            push_span(&mut covers[place].points, one(point), NEXT)?;
            return Ok(());
        }
    }
    let cover = cover_of(alloc, entry, single(alloc, point)?, values)?;
    covers.push(cover)?;
    Ok(())
}

/// One cover for each client, code and group, with the span of the values, and the points or the span of these.
fn wide_covers(
    alloc: Global,
    entries: &[Entry],
    are_points_wide: bool,
) -> Result<Vec<Cover>, AllocError> {
    let mut covers = Vec::new(alloc);
    let mut points = Vec::new(alloc);
    let mut values: Option<Span> = None;
    for (place, entry) in entries.iter().enumerate() {
        let near = if are_points_wide { i64::MAX } else { NEXT };
        push_span(&mut points, one(i64::from(entry.point)), near)?;
        values = with_value(values, entry.value);
        if ends_kind(entries, place, entry) {
            let own = std::mem::replace(&mut points, Vec::new(alloc));
            let cover = cover_of(alloc, entry, own, list_of(alloc, values)?)?;
            covers.push(cover)?;
            values = None;
        }
    }
    Ok(covers)
}

/// The span with a value more.
fn with_value(values: Option<Span>, value: Option<i64>) -> Option<Span> {
    match (values, value) {
        (Some(span), Some(number)) => Some(Span {
            low: span.low.min(number),
            high: span.high.max(number),
        }),
        (None, Some(number)) => Some(one(number)),
        (_, None) => values,
    }
}

fn list_of(alloc: Global, span: Option<Span>) -> Result<Vec<Span>, AllocError> {
    let mut spans = Vec::new(alloc);
    if let Some(span) = span {
        spans.push(span)?;
    }
    Ok(spans)
}

/// Clients of one code and group as one list, with the span of the points and of the values of all.
fn gathered(alloc: Global, covers: Vec<Cover>) -> Result<Vec<Cover>, AllocError> {
    let mut kept: Vec<Cover> = Vec::new(alloc);
    for cover in covers {
        match place_of_function(kept.as_slice(), &cover) {
            Some(place) => gather(alloc, &mut kept[place], &cover)?,
            None => kept.push(cover)?,
        }
    }
    Ok(kept)
}

fn place_of_function(kept: &[Cover], cover: &Cover) -> Option<usize>
    ensures { IfSome result (λ place. place < length kept.now) }
{
    kept.iter().position(|other| {
        agree_on(other, cover, Axis::Codes)
            && agree_on(other, cover, Axis::Groups)
            && other.values.is_empty() == cover.values.is_empty()
    })
}

fn gather(alloc: Global, kept: &mut Cover, cover: &Cover) -> Result<(), AllocError> {
    let clients = joined_on(alloc, kept, cover, Axis::Clients)?;
    let points = joined_on(alloc, kept, cover, Axis::Points)?;
    let values = joined_on(alloc, kept, cover, Axis::Values)?;
    kept.set(Axis::Clients, clients);
    kept.set(Axis::Points, hull(alloc, points.as_slice())?);
    kept.set(Axis::Values, hull(alloc, values.as_slice())?);
    Ok(())
}

/// Covers that differ in one list alone as one, as long as some do.
fn merged(alloc: Global, protocol: Protocol, covers: Vec<Cover>) -> Result<Vec<Cover>, AllocError> {
    let mut covers = covers;
    for _ in 0..3 {
        for axis in [
            Axis::Codes,
            Axis::Groups,
            Axis::Points,
            Axis::Values,
            Axis::Clients,
        ] {
            covers = merged_on(alloc, protocol, covers, axis)?;
        }
    }
    Ok(covers)
}

fn merged_on(
    alloc: Global,
    protocol: Protocol,
    covers: Vec<Cover>,
    axis: Axis,
) -> Result<Vec<Cover>, AllocError> {
    let mut kept: Vec<Cover> = Vec::new(alloc);
    for cover in covers {
        match place_to_merge(protocol, kept.as_slice(), &cover, axis) {
            Some(place) => {
                let list = joined_on(alloc, &kept[place], &cover, axis)?;
                kept[place].set(axis, list);
            }
            None => kept.push(cover)?,
        }
    }
    Ok(kept)
}

fn place_to_merge(protocol: Protocol, kept: &[Cover], cover: &Cover, axis: Axis) -> Option<usize>
    ensures { IfSome result (λ place. place < length kept.now) }
{
    kept.iter()
        .position(|other| goes_with(protocol, other, cover, axis))
}

/// Whether two make one: they differ in one list alone, which both state, and both write or both read.
fn goes_with(protocol: Protocol, a: &Cover, b: &Cover, axis: Axis) -> bool {
    differ_only_in(a, b, axis)
        && writes(protocol, a) == writes(protocol, b)
        && a.list(axis).is_empty() == b.list(axis).is_empty()
}

/// Whether what it has writes: all that does not ask for data alone.
pub(crate) fn writes(protocol: Protocol, cover: &Cover) -> bool {
    !cover
        .codes
        .as_slice()
        .iter()
        .all(|code| reads(protocol, code.low))
}

/// Whether commands of a code ask for data and change nothing.
fn reads(protocol: Protocol, code: i64) -> bool {
    match protocol {
        Protocol::Modbus => 1 <= code && code <= 4,
        Protocol::Dnp3 => code == 1,
        Protocol::Iec104 => 100 <= code && code <= 102 || code == 107,
    }
}

/// Covers whose lists are short enough for a rule.
fn split(alloc: Global, covers: Vec<Cover>) -> Result<Vec<Cover>, AllocError> {
    let mut covers = covers;
    for axis in [
        Axis::Codes,
        Axis::Groups,
        Axis::Points,
        Axis::Values,
        Axis::Clients,
    ] {
        covers = split_on(alloc, covers, axis)?;
    }
    Ok(covers)
}

fn split_on(alloc: Global, covers: Vec<Cover>, axis: Axis) -> Result<Vec<Cover>, AllocError> {
    let mut short = Vec::new(alloc);
    for cover in covers {
        if cover.list(axis).len() <= MOST_SPANS {
            short.push(cover)?;
        } else {
            push_pieces(alloc, &cover, axis, &mut short)?;
        }
    }
    Ok(short)
}

fn push_pieces(
    alloc: Global,
    cover: &Cover,
    axis: Axis,
    short: &mut Vec<Cover>,
) -> Result<(), AllocError> {
    let mut piece = Vec::new(alloc);
    for span in cover.list(axis) {
        piece.push(*span)?;
        if piece.len() >= MOST_SPANS {
            let full = std::mem::replace(&mut piece, Vec::new(alloc));
            short.push(cover.with(alloc, axis, full)?)?;
        }
    }
    if !piece.is_empty() {
        short.push(cover.with(alloc, axis, piece)?)?;
    }
    Ok(())
}
