//! Lists of rules that have a code, and take a number on an axis.
ghost use Rattle.std.specs.Prelude.{◌≡◌, map, filter, find, IfOk};
ghost use Rattle.cf_policy.specs.Verdict.{takes_value};
ghost use Rattle.cf_compare.specs.Cells.{has_code};
ghost use Rattle.cf_compare.specs.Search.{takes_on, rules_taking, allowed_by};

use crate::axis::Axis;
use crate::rows::Row;
use cf_policy::{Rule, takes};
use std::alloc::{AllocError, Global};

/// The rules that have a code, in their order.
pub(crate) fn with_code<'a>(
    alloc: Global,
    rules: &'a [Rule],
    code: u16,
) -> Result<Vec<&'a Rule>, AllocError>
    ensures { IfOk result (λ named. map (λ r. r.now) named.items ≡ filter (λ r. has_code code r) rules.now) }
{
    rules
        .iter()
        .filter(|rule| takes(&rule.codes, i64::from(code)))
        .collect(alloc)
}

/// Those of the rules that take a number on an axis, in their order.
pub(crate) fn rules_taking<'a, 'b>(
    alloc: Global,
    rules: &[&'a Row<'b>],
    axis: Axis,
    number: i64,
) -> Result<Vec<&'a Row<'b>>, AllocError>
    ensures { IfOk result (λ left. map (λ r. r.now) left.items ≡ rules_taking axis number (map (λ r. r.now) rules.now)) }
{
    rows_taking(alloc, rules, axis, number)
}

fn rows_taking<'a, 'b>(
    alloc: Global,
    rules: &[&'a Row<'b>],
    axis: Axis,
    number: i64,
) -> Result<Vec<&'a Row<'b>>, AllocError>
    ensures { IfOk result (λ left. left.items ≡ filter (λ r. takes_on axis number r.now) rules.now) }
{
    let place = place_of(rules, axis, number);
    rules
        .iter()
        .copied()
        .filter(|row| row.takes(axis, place, number))
        .collect(alloc)
}

/// Whether the first of the rules that takes the value allows it.
pub(crate) fn allowed_by(rules: &[&Row], value: Option<i64>) -> bool
    ensures { result ≡ allowed_by (map (λ r. r.now) rules.now) value }
{
    match first_by(rules, value) {
        Some(rule) => rule.is_allow(),
        None => false,
    }
}

fn first_by<'a, 'b>(rules: &[&'a Row<'b>], value: Option<i64>) -> Option<&'a Row<'b>>
    ensures { result ≡ find (λ r. takes_value r.now.values value) rules.now }
{
    let place = value_place(rules, value);
    rules
        .iter()
        .copied()
        .find(|row| row.takes_value(place, value))
}

fn value_place(rules: &[&Row], value: Option<i64>) -> usize {
    match value {
        Some(number) => place_of(rules, Axis::Values, number),
        None => 0,
    }
}

/// Where the rules' tables may have the number.
fn place_of(rules: &[&Row], axis: Axis, number: i64) -> usize {
    match rules.first() {
        Some(row) => row.place(axis, number),
        None => 0,
    }
}
