//! Where the points of the rules lie, sorted: a rule that alone can take a point of a code is found by halving.
//!
//! Each pair of a code and a rule has one cell, from the least point of the rule to the greatest, on one line on which the points of a code
//! follow those of the code below, so that all codes are one sorted list. A rule is alone where no cell before the last that begins at the
//! point or below reaches it, whatever overlaps elsewhere; where one does, the rules are gone through in their order. So they are for rules
//! whose points lie among one another, as 1, 3 and 2, 4: a cell for each range would take up to 64 times as much.
ghost use Rattle.std.specs.Prelude.{◌≡◌, ℕ, ◌+◌, ◌<◌, ◌≤◌, List, length, All, IfOk, get_or, pos, true};
ghost use Rattle.std.specs.List.Sorted.{IsNonDecreasingBy, IsPartitionPoint};
ghost use Rattle.cf_policy.specs.declared.index.CodePair.{CodePair};
ghost use Rattle.cf_policy.specs.declared.policy.Rule.{Rule};
ghost use Rattle.cf_policy.specs.PointTable.{line_place, HasCells, HasReaches, HasTaker, HasTakerAfter, IsAround, IsCellOf, IsTableOf, AreSortedCells, taker_of};
ghost use Rattle.cf_policy.specs.Verdict.{covers};
ghost use Rattle.cf_policy.specs.Within.{AreSpansWithin, IsRuleWithin, IsSpanWithin, highest_point};

use crate::index::CodePair;
use crate::policy::{Rule, Span};
use cf_view::NoMemory;
use std::alloc::Global;

/// How many points a code has on the line on which the points of each code follow those of the code below.
const POINTS: u64 = 4_294_967_296;

/// A stretch of that line outside of which the rule takes no point of the code.
#[derive(Clone, Copy)]
pub struct PointCell {
    /// The place of its least point on the line.
    pub first: u64,
    /// The place of its greatest point.
    pub last: u64,
    /// The place of the rule among those of its asset, counted from 0.
    pub rule: usize,
}

/// Which rules of a code take certain points.
#[derive(Clone, Copy)]
pub enum Taker {
    /// No rule does.
    Nobody,
    /// No rule but that of this place, counted from 0, does.
    Only(usize),
    /// Several may.
    Unknown,
}

/// Which rules of the code take the points from the first on, and a point at most `last` up to which that is so.
pub(crate) fn find_taker(
    cells: &[PointCell],
    reaches: &[u64],
    code: u16,
    first: u32,
    last: u32,
) -> (Taker, u32)
    requires ordered { first ≤ last }
    ensures taker { (rules : List Rule) (pairs : List CodePair) → IsTableOf rules pairs cells.now reaches.now
        → HasTaker rules pairs code first result.1 result.0 }
    ensures reaches { first ≤ result.1 }
    ensures stays { result.1 ≤ last }
{
    let place = line_place(code, first);
    let count = cells_until(cells, place);
    let room = room_before(cells, count, place, last - first);
    (taker_after(cells, reaches, count, place), first + room)
}

fn line_place(code: u16, point: u32) -> u64
    ensures { result ≡ line_place code point }
{
    u64::from(code) * POINTS + u64::from(point)
}

/// How many cells begin at the place or before it, of cells that ascend.
fn cells_until(cells: &[PointCell], place: u64) -> usize
    ensures inside { result ≤ length cells.now }
    ensures until { IsNonDecreasingBy (λ c. c.first) cells.now
        → IsPartitionPoint (λ c. c.first ≤ place) (λ c. place < c.first) cells.now result }
{
    cells.partition_point(|cell| cell.first <= place)
}

/// How many places follow this one before the next cell begins, of which so many stand before it; at most `most`.
fn room_before(cells: &[PointCell], count: usize, place: u64, most: u32) -> u32
    ensures stays { result ≤ most }
    ensures before { (d : PointCell) → count < length cells.now → place < (get_or cells.now count d).first
        → place + result < (get_or cells.now count d).first }
{
    match cells.get(count) {
        Some(cell) => lesser_room(cell.first, place, most),
        None => most,
    }
}

/// How many places follow this one before an end; at most `most`.
fn lesser_room(end: u64, place: u64, most: u32) -> u32
    ensures stays { result ≤ most }
    ensures before { place < end → place + result < end }
{
    if place < end && end - place - 1 < u64::from(most) {
        (end - place - 1) as u32
    } else {
        most
    }
}

/// What the last of so many cells says of the place.
fn taker_after(cells: &[PointCell], reaches: &[u64], count: usize, place: u64) -> Taker
    ensures { HasTakerAfter cells.now reaches.now count place result }
{
    if count == 0 {
        return Taker::Nobody;
    }
    match (cells.get(count - 1), reaches.get(count - 1)) {
        (Some(cell), Some(reach)) if *reach < place => taker_of(cell, place),
        _ => Taker::Unknown,
    }
}

/// What a cell says of the place, where no other has it.
fn taker_of(cell: &PointCell, place: u64) -> Taker
    ensures { result ≡ taker_of cell.now place }
{
    if cell.last < place {
        Taker::Nobody
    } else {
        Taker::Only(cell.rule)
    }
}

/// A cell for each pair, sorted by where they begin.
pub(crate) fn sorted_cells(
    alloc: Global,
    rules: &[Rule],
    pairs: &[CodePair],
) -> Result<Vec<PointCell>, NoMemory>
    requires within { All IsRuleWithin rules.now }
    ensures { IfOk result (λ cells. AreSortedCells rules.now pairs.now cells.items) }
{
    let mut cells = cells_of(alloc, rules, pairs)?;
    cells.sort_unstable_by_key(|cell| cell.first);
    Ok(cells)
}

/// A cell for each pair, in their order.
fn cells_of(alloc: Global, rules: &[Rule], pairs: &[CodePair]) -> Result<Vec<PointCell>, NoMemory>
    requires within { All IsRuleWithin rules.now }
    ensures { IfOk result (λ cells. HasCells rules.now pairs.now cells.items) }
{
    let Ok(mut cells) = Vec::with_capacity(alloc, pairs.len()) else {
        return Err(NoMemory);
    };
    for pair in pairs {
        if cells.push(cell_of(rules, *pair)).is_err() {
            return Err(NoMemory);
        }
    }
    Ok(cells)
}

/// How far the cells before each one reach: the greatest of their last places, and 0 before the first of them.
pub(crate) fn reaches_of(alloc: Global, cells: &[PointCell]) -> Result<Vec<u64>, NoMemory>
    ensures { IfOk result (λ reaches. HasReaches cells.now reaches.items) }
{
    let Ok(mut reaches) = Vec::with_capacity(alloc, cells.len()) else {
        return Err(NoMemory);
    };
    let mut reach = 0;
    for cell in cells {
        if reaches.push(reach).is_err() {
            return Err(NoMemory);
        }
        reach = reach.max(cell.last);
    }
    Ok(reaches)
}

/// Where the points lie that the pair's rule takes.
fn cell_of(rules: &[Rule], pair: CodePair) -> PointCell
    requires within { All IsRuleWithin rules.now }
    ensures { IsCellOf rules.now pair result }
{
    let (low, high) = match rules.get(pair.rule) {
        Some(rule) => ends_of(rule.points.as_slice()),
        None => (0, u32::MAX),
    };
    PointCell {
        first: line_place(pair.code, low),
        last: line_place(pair.code, high),
        rule: pair.rule,
    }
}

/// Two points between which those of the list lie.
fn ends_of(spans: &[Span]) -> (u32, u32)
    requires within { AreSpansWithin (pos 0) highest_point spans.now }
    ensures { IsAround result.0 result.1 spans.now }
{
    if spans.is_empty() {
        return (0, u32::MAX);
    }
    let mut low = u32::MAX;
    let mut high = 0;
    for span in spans {
        let (lower, higher) = ends_with(span, low, high);
        low = lower;
        high = higher;
    }
    (low, high)
}

/// Two points between which those of the span lie, and these two.
fn ends_with(span: &Span, low: u32, high: u32) -> (u32, u32)
    requires within { IsSpanWithin (pos 0) highest_point span.now }
    ensures around { (point : ℕ) → covers span.now (pos point) ≡ true → (result.0 ≤ point) × (point ≤ result.1) }
    ensures low { result.0 ≤ low }
    ensures high { high ≤ result.1 }
{
    (low.min(span.low as u32), high.max(span.high as u32))
}
