//! The lists of a rule.
//! A client's range is split at its first `..`: a part that is no address is 5, and 6 comes only where the first is above the
//! second.
ghost use Rattle.std.specs.Prelude.{◌≡◌, []};
ghost use Rattle.toml.specs.View.{view, table_view, array_view};
ghost use Rattle.cf_policylang.specs.Tested.{Answers, AnswersPlainly};
ghost use Rattle.cf_policylang.specs.Lists.{kind_of, address_span, code_entry, code_span, entry, entries_from, group_end};
ghost use Rattle.cf_policylang.specs.Lists.{group_span, listed, named_code_span, optional_spans, spans};

use crate::fields::{Kind, as_array_of, as_number, as_text, count, stated};
use crate::names::{code_named, group_named};
use crate::numbers::{address, ends, number_span, printed_number_in, span, within};
use crate::refusal::{Cause, Key, Place, PolicyFault, PolicyRefusal, refusal};
use cf_policy::{HIGHEST_CODE, HIGHEST_GROUP, Items, MOST_SPANS, Protocol, Span};
use std::alloc::Global;
use toml::value::Array;
use toml::{Table, Value};

/// What the entries of a list are.
#[derive(Clone, Copy)]
pub(crate) enum Entries {
    /// Texts: addresses and ranges of addresses.
    Addresses,
    /// Integers from 0 to `HIGHEST_CODE`.
    Codes,
    /// Such integers, and texts: the names of the protocol's codes.
    NamedCodes(Protocol),
    /// Texts: numbers from `low` to `high`, and ranges of such numbers.
    Numbers { low: i64, high: i64 },
    /// Texts: numbers from 0 to `HIGHEST_GROUP` and names of the protocol's groups, and ranges of such ends.
    NamedGroups(Protocol),
}

impl Entries {
    fn kind(self) -> Kind
        ensures { result ≡ kind_of self }
    {
        match self {
            Entries::Addresses => Kind::Text,
            Entries::Codes => Kind::Number,
            Entries::NamedCodes(_) => Kind::Code,
            Entries::Numbers { .. } => Kind::Text,
            Entries::NamedGroups(_) => Kind::Text,
        }
    }
}

/// The list at a key that may be absent.
pub(crate) fn optional_spans(
    alloc: Global,
    entries: Entries,
    key: Key,
    place: Place,
    table: &Table,
) -> Result<Items<Span>, PolicyFault>
    ensures { Answers (λ s. s) (optional_spans entries key place (table_view table.now)) result }
{
    match stated(key, table) {
        None => Ok(Items::new(Vec::new(alloc))),
        Some(value) => spans(alloc, entries, key, place, value),
    }
}

/// The list that a value is: its form is tested, and then each entry.
pub(crate) fn spans(
    alloc: Global,
    entries: Entries,
    key: Key,
    place: Place,
    value: &Value,
) -> Result<Items<Span>, PolicyFault>
    ensures { Answers (λ s. s) (spans entries key place (view value.now)) result }
{
    let array = listed(entries.kind(), key, place, value)?;
    entries_from(alloc, entries, key, place, array)
}

/// The entries of a list as written: the kind of all of them is tested, then how many there are.
pub(crate) fn listed(
    kind: Kind,
    key: Key,
    place: Place,
    value: &Value,
) -> Result<&Array, PolicyRefusal>
    ensures { AnswersPlainly (λ a. array_view a.now) (listed kind key place (view value.now)) result }
{
    let array = as_array_of(kind, key, place, value)?;
    let entries_count = count(array);
    if entries_count == 0 {
        return Err(refusal(Cause::BadRange, key, place));
    }
    if entries_count > MOST_SPANS {
        return Err(refusal(Cause::TooMany, key, place));
    }
    Ok(array)
}

fn entries_from(
    alloc: Global,
    entries: Entries,
    key: Key,
    place: Place,
    array: &Array,
) -> Result<Items<Span>, PolicyFault>
    ensures { Answers (λ s. s) (entries_from entries key place (array_view array.now) []) result }
{
    let mut spans = Vec::new(alloc);
    for value in array {
        let span = entry(entries, key, place, value)?;
        spans.push(span)?;
    }
    Ok(Items::new(spans))
}

fn entry(entries: Entries, key: Key, place: Place, value: &Value) -> Result<Span, PolicyRefusal>
    ensures { result ≡ entry entries key place (view value.now) }
{
    match entries {
        Entries::Addresses => address_span(key, place, as_text(key, place, value)?),
        Entries::Codes => {
            let number = as_number(key, place, value)?;
            code_span(number).ok_or(refusal(Cause::BadRange, key, place))
        }
        Entries::Numbers { low, high } => {
            let text = as_text(key, place, value)?;
            number_span(low, high, text).ok_or(refusal(Cause::BadRange, key, place))
        }
        Entries::NamedCodes(protocol) => code_entry(protocol, key, place, value),
        Entries::NamedGroups(protocol) => {
            let text = as_text(key, place, value)?;
            group_span(protocol, text).ok_or(refusal(Cause::BadRange, key, place))
        }
    }
}

/// An address or a range of addresses. A part that is no address comes before a first that is above the second.
fn address_span(key: Key, place: Place, text: &str) -> Result<Span, PolicyRefusal>
    ensures { result ≡ address_span key place text.now }
{
    let (first, last) = ends(text);
    let first = address(first).ok_or(refusal(Cause::BadAddress, key, place))?;
    let last = address(last).ok_or(refusal(Cause::BadAddress, key, place))?;
    span(i64::from(first), i64::from(last)).ok_or(refusal(Cause::BadRange, key, place))
}

fn code_span(number: i64) -> Option<Span>
    ensures { result ≡ code_span number }
{
    let code = within(0, HIGHEST_CODE, number)?;
    span(code, code)
}

/// A code as a number or by its name.
fn code_entry(
    protocol: Protocol,
    key: Key,
    place: Place,
    value: &Value,
) -> Result<Span, PolicyRefusal>
    ensures { result ≡ code_entry protocol key place (view value.now) }
{
    match value {
        Value::Integer(number) => { code_span(*number).ok_or(refusal(Cause::BadRange, key, place)) }
        Value::String(name) => {
            named_code_span(protocol, name.as_str()).ok_or(refusal(Cause::BadRange, key, place))
        }
        _ => Err(refusal(Cause::WrongKind, key, place)),
    }
}

fn named_code_span(protocol: Protocol, name: &str) -> Option<Span>
    ensures { result ≡ named_code_span protocol name.now }
{
    code_span(i64::from(code_named(protocol, name)?))
}

/// A group of the protocol, or a range of its groups.
fn group_span(protocol: Protocol, text: &str) -> Option<Span>
    ensures { result ≡ group_span protocol text.now }
{
    let (first, last) = ends(text);
    let first = group_end(protocol, first)?;
    let last = group_end(protocol, last)?;
    span(first, last)
}

/// A group as a number or by its name.
fn group_end(protocol: Protocol, text: &str) -> Option<i64>
    ensures { result ≡ group_end protocol text.now }
{
    match printed_number_in(0, HIGHEST_GROUP, text) {
        Some(number) => Some(number),
        None => Some(i64::from(group_named(protocol, text)?)),
    }
}
