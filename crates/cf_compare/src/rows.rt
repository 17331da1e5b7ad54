//! Rules with tables of what they take. A search asks the same rules about the same corners again and again: a table
//! answers at once, where a long list is gone through each time.
ghost use Rattle.std.specs.Prelude.{◌≡◌, map, slice_get, IfOk};
ghost use Rattle.cf_policy.specs.Verdict.{takes, takes_value, is_allow};
ghost use Rattle.cf_compare.specs.Search.{takes_on};
ghost use Rattle.cf_compare.specs.Tables.{table_of, AreTablesFor, table_at, corners_at};

use crate::axis::{Axis, axis_spans};
use crate::corners::Corners;
use cf_policy::{Action, Items, Rule, Span, takes};
use std::alloc::{AllocError, Global};
use std::marker::Model;

/// The most corners of an axis of which a table says whether a rule takes them; the list itself says it of others.
const LONGEST_TABLE: usize = 1024;

/// Of each axis, whether a rule takes its first corners.
#[derive(Drop)]
pub(crate) struct Tables {
    pub clients: Vec<bool>,
    pub groups: Vec<bool>,
    pub points: Vec<bool>,
    pub values: Vec<bool>,
}

/// A rule with its tables. Contracts see the rule.
#[derive(Drop)]
pub(crate) struct Row<'a> {
    rule: &'a Rule,
    corners: &'a Corners,
    tables: Tables,
}

impl<'a> Model for Row<'a> {
    ghost use Rattle.cf_policy.specs.declared.policy.Rule.{Rule};
    ghost use Rattle.cf_compare.specs.Tables.{AreTablesFor};

    ghost Value = { Rule };

    ghost view = { λ r. r.rule.now };

    ghost invariant = { λ r. AreTablesFor r.rule.now r.corners.now r.tables };
}

impl<'a> Row<'a> {
    fn new(alloc: Global, rule: &'a Rule, corners: &'a Corners) -> Result<Row<'a>, AllocError>
        ensures { IfOk result (λ row. row ≡ rule.now) }
    {
        let tables = tables_of(alloc, rule, corners)?;
        Ok(Row {
            rule,
            corners,
            tables,
        })
    }

    /// Whether the rule allows.
    pub(crate) fn is_allow(&self) -> bool
        ensures { result ≡ is_allow self.now.action }
    {
        self.rule.action == Action::Allow
    }

    /// Where the number stands among the corners of the axis, if it is one.
    pub(crate) fn place(&self, axis: Axis, number: i64) -> usize {
        match corners_at(axis, self.corners).binary_search(&number) {
            Ok(place) | Err(place) => place,
        }
    }

    /// Whether the rule takes the number. It is looked up at this place, if it is the corner that stands there.
    pub(crate) fn takes(&self, axis: Axis, place: usize, number: i64) -> bool
        ensures { result ≡ takes_on axis number self.now }
    {
        takes_corner(
            axis_spans(axis, self.rule),
            corners_at(axis, self.corners),
            table_at(axis, &self.tables),
            place,
            number,
        )
    }

    /// Whether the rule takes the value, or none.
    pub(crate) fn takes_value(&self, place: usize, value: Option<i64>) -> bool
        ensures { result ≡ takes_value self.now.values value }
    {
        match value {
            Some(number) => self.takes(Axis::Values, place, number),
            None => self.rule.values.is_empty(),
        }
    }
}

/// The rules with their tables, in their order.
pub(crate) fn rows_of<'a>(
    alloc: Global,
    rules: &[&'a Rule],
    corners: &'a Corners,
) -> Result<Vec<Row<'a>>, AllocError>
    ensures { IfOk result (λ rows. rows.items ≡ map (λ r. r.now) rules.now) }
{
    let mut rows = Vec::new(alloc);
    for rule in rules {
        rows.push(Row::new(alloc, rule, corners)?)?;
    }
    Ok(rows)
}

/// The rows, lent.
pub(crate) fn lent<'a, 'b>(
    alloc: Global,
    rows: &'a [Row<'b>],
) -> Result<Vec<&'a Row<'b>>, AllocError>
    ensures { IfOk result (λ lent. map (λ r. r.now) lent.items ≡ rows.now) }
{
    rows.iter().collect(alloc)
}

fn tables_of(alloc: Global, rule: &Rule, corners: &Corners) -> Result<Tables, AllocError>
    ensures { IfOk result (AreTablesFor rule.now corners.now) }
{
    Ok(Tables {
        clients: table_of(alloc, &rule.clients, corners.clients.as_slice())?,
        groups: table_of(alloc, &rule.groups, corners.groups.as_slice())?,
        points: table_of(alloc, &rule.points, corners.points.as_slice())?,
        values: table_of(alloc, &rule.values, corners.values.as_slice())?,
    })
}

/// Whether a list takes the first corners.
fn table_of(alloc: Global, spans: &Items<Span>, corners: &[i64]) -> Result<Vec<bool>, AllocError>
    ensures { IfOk result (λ table. table.items ≡ table_of spans.now corners.now) }
{
    corners
        .iter()
        .take(LONGEST_TABLE)
        .map(|corner| takes(spans, *corner))
        .collect(alloc)
}

fn takes_corner(
    spans: &Items<Span>,
    corners: &[i64],
    table: &[bool],
    place: usize,
    number: i64,
) -> bool
    requires { table.now ≡ table_of spans.now corners.now }
    ensures { result ≡ takes spans.now number }
{
    match (corner_of(corners, place), taken_of(table, place)) {
        (Some(corner), Some(taken)) if corner == number => taken,
        _ => takes(spans, number),
    }
}

fn corner_of(corners: &[i64], place: usize) -> Option<i64>
    ensures { result ≡ slice_get corners.now place }
{
    match corners.get(place) {
        Some(corner) => Some(*corner),
        None => None,
    }
}

fn taken_of(table: &[bool], place: usize) -> Option<bool>
    ensures { result ≡ slice_get table.now place }
{
    match table.get(place) {
        Some(taken) => Some(*taken),
        None => None,
    }
}

fn corners_at(axis: Axis, corners: &Corners) -> &[i64]
    ensures { result.now ≡ corners_at axis corners.now }
{
    match axis {
        Axis::Clients => corners.clients.as_slice(),
        Axis::Groups => corners.groups.as_slice(),
        Axis::Points => corners.points.as_slice(),
        Axis::Values => corners.values.as_slice(),
    }
}

fn table_at(axis: Axis, tables: &Tables) -> &[bool]
    ensures { result.now ≡ table_at axis tables.now }
{
    match axis {
        Axis::Clients => tables.clients.as_slice(),
        Axis::Groups => tables.groups.as_slice(),
        Axis::Points => tables.points.as_slice(),
        Axis::Values => tables.values.as_slice(),
    }
}
