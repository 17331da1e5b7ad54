//! The corners of the axes: the numbers at which some rule begins to take or has stopped taking.
//! A span outside its axis, which no policy that was read has, makes the corners that lie on the axis. A write that the second
//! policy allows at every value is shown without one where the first states no values.
ghost use Rattle.std.specs.Prelude.{◌≡◌, ◌++◌, ◌∷◌, [], ◌*◌, ◌+◌, ◌≤◌, map, min, length, filter, IfOk, OnOk};
ghost use Rattle.std.specs.List.{flat_map};
ghost use Rattle.cf_compare.specs.Cells.{is_on, turns, stated_spans, most_cells};
ghost use Rattle.cf_compare.specs.Corners.{AreCorners, AreAllCorners};

use crate::axis::{Axis, axis_spans, highest, lowest};
use crate::count::TOO_MANY;
use cf_policy::{Rule, Span};
use std::alloc::{AllocError, Global};

/// A corner of each axis, where no value is one more corner of the values.
#[derive(Clone, Copy)]
pub(crate) struct Cell {
    pub client: i64,
    pub group: i64,
    pub point: i64,
    pub value: Option<i64>,
}

/// The corners of the four axes, ascending, each once.
#[derive(Drop)]
pub(crate) struct Corners {
    pub clients: Vec<i64>,
    pub groups: Vec<i64>,
    pub points: Vec<i64>,
    pub values: Vec<i64>,
}

/// The corners that the rules of two assets make.
pub(crate) fn all_corners(
    alloc: Global,
    ours: &[&Rule],
    other: &[&Rule],
) -> Result<Corners, AllocError>
    ensures { IfOk result (λ corners. AreAllCorners (map (λ r. r.now) ours.now ++ map (λ r. r.now) other.now) corners) }
{
    Ok(Corners {
        clients: axis_corners(alloc, Axis::Clients, ours, other)?,
        groups: axis_corners(alloc, Axis::Groups, ours, other)?,
        points: axis_corners(alloc, Axis::Points, ours, other)?,
        values: axis_corners(alloc, Axis::Values, ours, other)?,
    })
}

/// The number of cells, or `TOO_MANY` where there are that many or more.
pub(crate) fn cell_count(corners: &Corners) -> u64
    requires clients { 1 ≤ length corners.now.clients.items }
    requires groups { 1 ≤ length corners.now.groups.items }
    requires points { 1 ≤ length corners.now.points.items }
    ensures { result ≡ min (((length corners.now.clients.items * length corners.now.groups.items) * length corners.now.points.items) *
        (length corners.now.values.items + 1)) (most_cells + 1) }
{
    let groups = capped_product(corners.clients.len() as u64, corners.groups.len() as u64);
    let points = capped_product(groups, corners.points.len() as u64);
    capped_product(points, (corners.values.len() as u64).saturating_add(1))
}

/// The product of two numbers that are not 0, or `TOO_MANY` where it is that or more.
fn capped_product(a: u64, b: u64) -> u64
    requires a { 1 ≤ a }
    requires b { 1 ≤ b }
    ensures { result ≡ min (a * b) (most_cells + 1) }
{
    (a.min(TOO_MANY) * b.min(TOO_MANY)).min(TOO_MANY)
}

/// The corners of an axis.
fn axis_corners(
    alloc: Global,
    axis: Axis,
    ours: &[&Rule],
    other: &[&Rule],
) -> Result<Vec<i64>, AllocError>
    ensures { IfOk result (λ corners. AreCorners axis (map (λ r. r.now) ours.now ++ map (λ r. r.now) other.now) corners.items) }
{
    let mut numbers = Vec::new(alloc);
    push_on(&mut numbers, axis, lowest(axis))?;
    push_rules(&mut numbers, axis, ours)?;
    push_rules(&mut numbers, axis, other)?;
    numbers.sort_unstable();
    numbers.dedup();
    Ok(numbers)
}

/// Adds the numbers at which the rules turn.
fn push_rules(numbers: &mut Vec<i64>, axis: Axis, rules: &[&Rule]) -> Result<(), AllocError>
    ensures { OnOk result (numbers.new.items ≡ numbers.old.items
        ++ filter (is_on axis) (flat_map turns (stated_spans axis (map (λ r. r.now) rules.now)))) }
{
    for rule in rules {
        push_spans(numbers, axis, axis_spans(axis, rule).as_slice())?;
    }
    Ok(())
}

/// Adds the numbers at which the spans turn.
fn push_spans(numbers: &mut Vec<i64>, axis: Axis, spans: &[Span]) -> Result<(), AllocError>
    ensures { OnOk result (numbers.new.items ≡ numbers.old.items ++ filter (is_on axis) (flat_map turns spans.now)) }
{
    for span in spans {
        push_turns(numbers, axis, span)?;
    }
    Ok(())
}

/// Adds the number at which the span begins, and the one at which it has ended.
fn push_turns(numbers: &mut Vec<i64>, axis: Axis, span: &Span) -> Result<(), AllocError>
    ensures { OnOk result (numbers.new.items ≡ numbers.old.items ++ filter (is_on axis) (turns span.now)) }
{
    push_on(numbers, axis, span.low)?;
    if span.high < highest(axis) {
        push_on(numbers, axis, span.high + 1)?;
    }
    Ok(())
}

/// Adds the number, if it is one of the axis.
fn push_on(numbers: &mut Vec<i64>, axis: Axis, number: i64) -> Result<(), AllocError>
    ensures { OnOk result (numbers.new.items ≡ numbers.old.items ++ filter (is_on axis) (number ∷ [])) }
{
    if lowest(axis) <= number && number <= highest(axis) {
        numbers.push(number)?;
    }
    Ok(())
}
