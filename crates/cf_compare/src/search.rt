//! The search for the first cell that one asset's rules allow and the other's do not.
ghost use Rattle.std.specs.Prelude.{◌≡◌, map, find, Some, IfOk};
ghost use Rattle.cf_compare.specs.Search.{differs, first_value, point_value, cell_at, group_cell, client_cell, first_cell};

use crate::axis::Axis;
use crate::corners::{Cell, Corners};
use crate::rows::{Row, lent, rows_of};
use crate::rules::{allowed_by, rules_taking};
use cf_policy::Rule;
use std::alloc::{AllocError, Global};

/// The first cell, by client, group, point and value, that the first rules allow and the others do not.
pub(crate) fn found_cell(
    alloc: Global,
    ours: &[&Rule],
    other: &[&Rule],
    corners: &Corners,
) -> Result<Option<Cell>, AllocError>
    ensures { IfOk result (λ found. found ≡ first_cell (map (λ r. r.now) ours.now) (map (λ r. r.now) other.now) corners.now.clients.items
        corners.now.groups.items corners.now.points.items corners.now.values.items) }
{
    let ours = rows_of(alloc, ours, corners)?;
    let other = rows_of(alloc, other, corners)?;
    row_cell(alloc, &ours, &other, corners)
}

fn row_cell(
    alloc: Global,
    ours: &[Row],
    other: &[Row],
    corners: &Corners,
) -> Result<Option<Cell>, AllocError>
    ensures { IfOk result (λ found. found ≡ first_cell ours.now other.now corners.now.clients.items corners.now.groups.items
        corners.now.points.items corners.now.values.items) }
{
    let ours = lent(alloc, ours)?;
    let other = lent(alloc, other)?;
    first_cell(alloc, &ours, &other, corners)
}

/// The first cell.
fn first_cell(
    alloc: Global,
    ours: &[&Row],
    other: &[&Row],
    corners: &Corners,
) -> Result<Option<Cell>, AllocError>
    ensures { IfOk result (λ found. found ≡ first_cell (map (λ r. r.now) ours.now) (map (λ r. r.now) other.now) corners.now.clients.items
        corners.now.groups.items corners.now.points.items corners.now.values.items) }
{
    for client in corners.clients.as_slice() {
        match client_cell(alloc, ours, other, corners, *client)? {
            Some(cell) => return Ok(Some(cell)),
            None => {}
        }
    }
    Ok(None)
}

/// The first cell of a client.
fn client_cell(
    alloc: Global,
    ours: &[&Row],
    other: &[&Row],
    corners: &Corners,
    client: i64,
) -> Result<Option<Cell>, AllocError>
    ensures { IfOk result (λ found. found ≡ client_cell (map (λ r. r.now) ours.now) (map (λ r. r.now) other.now) corners.now.groups.items
        corners.now.points.items corners.now.values.items client) }
{
    let ours = rules_taking(alloc, ours, Axis::Clients, client)?;
    let other = rules_taking(alloc, other, Axis::Clients, client)?;
    for group in corners.groups.as_slice() {
        match group_cell(alloc, &ours, &other, corners, client, *group)? {
            Some(cell) => return Ok(Some(cell)),
            None => {}
        }
    }
    Ok(None)
}

/// The first cell of a client and a group, among rules that take the client.
fn group_cell(
    alloc: Global,
    ours: &[&Row],
    other: &[&Row],
    corners: &Corners,
    client: i64,
    group: i64,
) -> Result<Option<Cell>, AllocError>
    ensures { IfOk result (λ found. found ≡ group_cell client (map (λ r. r.now) ours.now) (map (λ r. r.now) other.now)
        corners.now.points.items corners.now.values.items group) }
{
    let ours = rules_taking(alloc, ours, Axis::Groups, group)?;
    let other = rules_taking(alloc, other, Axis::Groups, group)?;
    for point in corners.points.as_slice() {
        match point_value(alloc, &ours, &other, corners, *point)? {
            Some(value) => return Ok(Some(cell_at(client, group, *point, value))),
            None => {}
        }
    }
    Ok(None)
}

fn cell_at(client: i64, group: i64, point: i64, value: Option<i64>) -> Cell
    ensures { result ≡ cell_at client group point value }
{
    Cell {
        client,
        group,
        point,
        value,
    }
}

/// The first value of a point, among rules that take the client and the group.
fn point_value(
    alloc: Global,
    ours: &[&Row],
    other: &[&Row],
    corners: &Corners,
    point: i64,
) -> Result<Option<Option<i64>>, AllocError>
    ensures { IfOk result (λ found. found ≡ point_value (map (λ r. r.now) ours.now) (map (λ r. r.now) other.now) corners.now.values.items
        point) }
{
    let ours = rules_taking(alloc, ours, Axis::Points, point)?;
    let other = rules_taking(alloc, other, Axis::Points, point)?;
    Ok(first_value(&ours, &other, corners.values.as_slice()))
}

/// The first value, among rules that take the client, the group and the point: none, or a number.
fn first_value(ours: &[&Row], other: &[&Row], values: &[i64]) -> Option<Option<i64>>
    ensures { result ≡ first_value (map (λ r. r.now) ours.now) (map (λ r. r.now) other.now) values.now }
{
    if differs(ours, other, None) {
        Some(None)
    } else {
        first_number(ours, other, values).map(Some)
    }
}

fn first_number(ours: &[&Row], other: &[&Row], values: &[i64]) -> Option<i64>
    ensures { result ≡ find (λ n. differs (map (λ r. r.now) ours.now) (map (λ r. r.now) other.now) (Some n)) values.now }
{
    values
        .iter()
        .copied()
        .find(|number| differs(ours, other, Some(*number)))
}

/// Whether the first rules allow the value, and the others do not.
fn differs(ours: &[&Row], other: &[&Row], value: Option<i64>) -> bool
    ensures { result ≡ differs (map (λ r. r.now) ours.now) (map (λ r. r.now) other.now) value }
{
    allowed_by(ours, value) && !allowed_by(other, value)
}
