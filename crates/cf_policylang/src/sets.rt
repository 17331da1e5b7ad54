//! The sets of points that a document of version 2 names, and the points of a rule beside them.
//! They are spent while the text is read, by one chain of tests for all versions: nothing that judges, compares or learns knows
//! them. A list is tested for its length as it is written, and again with the points of its sets in place, so the first bad entry
//! is told before the second count.
ghost use Rattle.std.specs.Prelude.{◌≡◌, ◌≤◌, ◌++◌, [], IfOk, Ok, bytes_eq, option_map, vec_len, find};
ghost use Rattle.toml.specs.View.{view, table_view, array_view};
ghost use Rattle.cf_policylang.specs.declared.sets.TheConstants.{MOST_SETS};
ghost use Rattle.cf_policylang.specs.Tested.{Answers, AnswersPlainly, and_then};
ghost use Rattle.cf_policylang.specs.Sets.{is_set_taken, named_in, own_span, point_entry, points_from, rule_points, set};
ghost use Rattle.cf_policylang.specs.Sets.{set_items, set_name, set_points, set_spans, sets, sets_from, stated_points};

use crate::fields::{
    Kind, as_array_of, as_table, as_text, count, has_other, is_name, name, required, stated,
};
use crate::lists::{Entries, listed, spans};
use crate::numbers::number_span;
use crate::refusal::{Cause, Key, Place, PolicyFault, PolicyRefusal, refusal};
use cf_policy::{HIGHEST_POINT, Items, MOST_SPANS, Name, Span};
use std::alloc::Global;
use toml::value::Array;
use toml::{Table, Value};

/// The most sets of a document. This project's own limit.
pub const MOST_SETS: usize = 64;

/// The version of a document.
#[derive(Clone, Copy)]
pub(crate) enum Edition {
    /// Version 1, without sets.
    First,
    /// Version 2, in which a rule's points may name sets.
    Second,
    /// Version 3, in which a rule may have a log, codes and groups have names besides, and assets of one endpoint are a site.
    Third,
}

/// A set of points that has a name.
#[derive(Drop)]
pub(crate) struct PointSet {
    pub(crate) name: Name,
    pub(crate) points: Items<Span>,
}

/// What the points of a rule may name.
#[derive(Drop)]
pub(crate) struct Named {
    pub(crate) edition: Edition,
    pub(crate) sets: Items<PointSet>,
}

const SET_KEYS: [Key; 2] = [Key::Name, Key::Points];

const POINTS: Entries = Entries::Numbers {
    low: 0,
    high: HIGHEST_POINT,
};

/// The sets of a document.
pub(crate) fn sets(alloc: Global, table: &Table) -> Result<Items<PointSet>, PolicyFault>
    ensures { Answers (λ s. s) (sets (table_view table.now)) result }
{
    let Some(value) = stated(Key::Set, table) else {
        return Ok(Items::new(Vec::new(alloc)));
    };
    sets_from(alloc, set_array(value)?)
}

/// The array of the sets.
fn set_array(value: &Value) -> Result<&Array, PolicyRefusal>
    ensures items { AnswersPlainly (λ a. array_view a.now) (set_items (Some (view value.now))) result }
    ensures short { IfOk result (λ a. vec_len a.now ≤ MOST_SETS) }
{
    let array = as_array_of(Kind::Table, Key::Set, Place::DOCUMENT, value)?;
    if count(array) > MOST_SETS {
        return Err(refusal(Cause::TooMany, Key::Set, Place::DOCUMENT));
    }
    Ok(array)
}

fn sets_from(alloc: Global, array: &Array) -> Result<Items<PointSet>, PolicyFault>
    requires { vec_len array.now ≤ MOST_SETS }
    ensures { Answers (λ s. s) (sets_from 0 (array_view array.now) []) result }
{
    let mut sets = Vec::new(alloc);
    for (index, value) in array.iter().enumerate() {
        let table = as_table(Key::Set, Place::DOCUMENT, value)?;
        let place = Place::set(index as u32 + 1);
        let set = set(alloc, place, sets.as_slice(), table)?;
        sets.push(set)?;
    }
    Ok(Items::new(sets))
}

/// A set after those that were read.
fn set(
    alloc: Global,
    place: Place,
    earlier: &[PointSet],
    table: &Table,
) -> Result<PointSet, PolicyFault>
    ensures { Answers (λ s. s) (set place earlier.now (table_view table.now)) result }
{
    if has_other(&SET_KEYS, table) {
        return Err(refusal(Cause::UnknownKey, Key::Nothing, place).into());
    }
    let name = set_name(place, earlier, table)?;
    let points = set_points(alloc, place, table)?;
    Ok(PointSet { name, points })
}

fn set_name(place: Place, earlier: &[PointSet], table: &Table) -> Result<Name, PolicyRefusal>
    ensures { AnswersPlainly (λ n. n) (set_name place earlier.now (table_view table.now)) result }
{
    let name = name(place, table)?;
    if is_set_taken(earlier, name.as_str()) {
        return Err(refusal(Cause::Duplicate, Key::Name, place));
    }
    Ok(name)
}

fn is_set_taken(earlier: &[PointSet], text: &str) -> bool
    ensures { result ≡ is_set_taken earlier.now text.now }
{
    for set in earlier {
        if set.name.as_str() == text {
            return true;
        }
    }
    false
}

/// The points of a set, which name no sets.
fn set_points(alloc: Global, place: Place, table: &Table) -> Result<Items<Span>, PolicyFault>
    ensures { Answers (λ s. s) (set_points place (table_view table.now)) result }
{
    let value = required(Key::Points, place, table)?;
    spans(alloc, POINTS, Key::Points, place, value)
}

/// The points of a rule: the spans of a set stand in the place of its name.
pub(crate) fn rule_points(
    alloc: Global,
    named: &Named,
    place: Place,
    table: &Table,
) -> Result<Items<Span>, PolicyFault>
    ensures { Answers (λ s. s) (rule_points named.now place (table_view table.now)) result }
{
    match stated(Key::Points, table) {
        None => Ok(Items::new(Vec::new(alloc))),
        Some(value) => stated_points(alloc, named, place, value),
    }
}

/// The points that a rule states: their form is tested, then each entry, and at last how many spans there are.
fn stated_points(
    alloc: Global,
    named: &Named,
    place: Place,
    value: &Value,
) -> Result<Items<Span>, PolicyFault>
    ensures { Answers (λ s. s) (stated_points named.now place (view value.now)) result }
{
    let array = listed(Kind::Text, Key::Points, place, value)?;
    let spans = points_from(alloc, named, place, array)?;
    if spans.len() > MOST_SPANS {
        return Err(refusal(Cause::TooMany, Key::Points, place).into());
    }
    Ok(spans)
}

fn points_from(
    alloc: Global,
    named: &Named,
    place: Place,
    array: &Array,
) -> Result<Items<Span>, PolicyFault>
    ensures { Answers (λ s. s) (points_from named.now place (array_view array.now) []) result }
{
    let mut spans = Vec::new(alloc);
    for value in array {
        push_points(&mut spans, named, place, value)?;
    }
    Ok(Items::new(spans))
}

/// Appends the spans of an entry.
fn push_points(
    spans: &mut Vec<Span>,
    named: &Named,
    place: Place,
    value: &Value,
) -> Result<(), PolicyFault>
    ensures { Answers (λ _. spans.new.items) (and_then (point_entry named.now place (view value.now)) (λ own. Ok (spans.old.items ++ own)))
        result }
{
    let text = as_text(Key::Points, place, value)?;
    match named_in(named.edition, text) {
        Some(name) => push_set(spans, named.sets.as_slice(), place, name),
        None => push_span(spans, place, text),
    }
}

/// The name after the mark of an entry that names a set.
fn named_in(edition: Edition, text: &str) -> Option<&str>
    ensures { option_map (λ n. n.now) result ≡ named_in edition text.now }
{
    match edition {
        Edition::First => None,
        Edition::Second | Edition::Third => text.strip_prefix("@"),
    }
}

/// Appends the spans of the set of a name.
fn push_set(
    spans: &mut Vec<Span>,
    sets: &[PointSet],
    place: Place,
    name: &str,
) -> Result<(), PolicyFault>
    ensures { Answers (λ _. spans.new.items) (and_then (set_spans sets.now place name.now) (λ own. Ok (spans.old.items ++ own))) result }
{
    if !is_name(name) {
        return Err(refusal(Cause::BadRange, Key::Points, place).into());
    }
    let Some(set) = set_of(sets, name) else {
        return Err(refusal(Cause::UnknownSet, Key::Points, place).into());
    };
    spans.extend_from_slice(set.points.as_slice())?;
    Ok(())
}

fn set_of<'a>(sets: &'a [PointSet], name: &str) -> Option<&'a PointSet>
    ensures { option_map (λ s. s.now) result ≡ find (λ s. bytes_eq s.name name.now) sets.now }
{
    sets.iter().find(|set| set.name.as_str() == name)
}

/// Appends the span of an entry that names no set.
fn push_span(spans: &mut Vec<Span>, place: Place, text: &str) -> Result<(), PolicyFault>
    ensures { Answers (λ _. spans.new.items) (and_then (own_span place text.now) (λ own. Ok (spans.old.items ++ own))) result }
{
    let span = number_span(0, HIGHEST_POINT, text).ok_or(refusal(
        Cause::BadRange,
        Key::Points,
        place,
    ))?;
    spans.push(span)?;
    Ok(())
}
