//! The keys of a table and the kinds of their values, as they are tested.
ghost use Rattle.std.specs.Prelude.{◌≡◌, ◌≤◌, IsTrue, length, not, option_map, string_bytes, vec_len};
ghost use Rattle.std.specs.List.{list_all, list_any};
ghost use Rattle.std.specs.BTreeMap.{keys};
ghost use Rattle.toml.specs.View.{view, table_view, array_view};
ghost use Rattle.cf_policy.specs.Names.{is_name, is_name_byte};
ghost use Rattle.cf_policy.specs.Within.{longest_name};
ghost use Rattle.cf_policylang.specs.Tested.{AnswersPlainly};
ghost use Rattle.cf_policylang.specs.Fields.{is_among, has_other, stated, required, as_text, as_number, as_flag, as_table, is_kind, all_kind};
ghost use Rattle.cf_policylang.specs.Fields.{as_array_of, count, name, number_in};

use crate::refusal::{Cause, Key, Place, PolicyRefusal, refusal};
use cf_policy::{LONGEST_NAME, Name};
use toml::value::Array;
use toml::{Table, Value};

/// A kind of values that arrays have here.
#[derive(Clone, Copy)]
pub(crate) enum Kind {
    Text,
    Number,
    /// A number, or a text that names one.
    Code,
    Table,
}

/// Whether the table has a key besides these.
#[tactic(auto, using(crate::proofs::Tables::has_other_view))]
pub(crate) fn has_other(known: &[Key], table: &Table) -> bool
    ensures { result ≡ has_other known.now (table_view table.now) }
{
    some_key_is_other(known, table)
}

fn some_key_is_other(known: &[Key], table: &Table) -> bool
    ensures { result ≡ list_any (λ k. not (is_among known.now (string_bytes k))) (keys table.now) }
{
    table.keys().any(|text| !is_among(known, text.as_str()))
}

fn is_among(known: &[Key], text: &str) -> bool
    ensures { result ≡ is_among known.now text.now }
{
    for key in known {
        if text == key.as_str() {
            return true;
        }
    }
    false
}

/// The value at a key, if the table has it.
pub(crate) fn stated(key: Key, table: &Table) -> Option<&Value>
    ensures { option_map (λ v. view v.now) result ≡ stated key (table_view table.now) }
{
    table.get(key.as_str())
}

/// The value at a key; where the table has none, refusal 3.
pub(crate) fn required(key: Key, place: Place, table: &Table) -> Result<&Value, PolicyRefusal>
    ensures { AnswersPlainly (λ v. view v.now) (required key place (table_view table.now)) result }
{
    stated(key, table).ok_or(refusal(Cause::MissingKey, key, place))
}

/// The text that a value is; of another kind it is refusal 4.
pub(crate) fn as_text(key: Key, place: Place, value: &Value) -> Result<&str, PolicyRefusal>
    ensures { AnswersPlainly (λ s. s.now) (as_text key place (view value.now)) result }
{
    match value {
        Value::String(text) => Ok(text.as_str()),
        _ => Err(refusal(Cause::WrongKind, key, place)),
    }
}

/// The integer of 64 bits that a value is; of another kind it is refusal 4.
pub(crate) fn as_number(key: Key, place: Place, value: &Value) -> Result<i64, PolicyRefusal>
    ensures { result ≡ as_number key place (view value.now) }
{
    match value {
        Value::Integer(number) => Ok(*number),
        _ => Err(refusal(Cause::WrongKind, key, place)),
    }
}

/// The truth value that a value is; of another kind it is refusal 4.
pub(crate) fn as_flag(key: Key, place: Place, value: &Value) -> Result<bool, PolicyRefusal>
    ensures { result ≡ as_flag key place (view value.now) }
{
    match value {
        Value::Boolean(flag) => Ok(*flag),
        _ => Err(refusal(Cause::WrongKind, key, place)),
    }
}

/// The table that a value is; of another kind it is refusal 4.
pub(crate) fn as_table(key: Key, place: Place, value: &Value) -> Result<&Table, PolicyRefusal>
    ensures { AnswersPlainly (λ t. table_view t.now) (as_table key place (view value.now)) result }
{
    match value {
        Value::Table(table) => Ok(table),
        _ => Err(refusal(Cause::WrongKind, key, place)),
    }
}

/// The name of an asset, a rule or a set.
pub(crate) fn name(place: Place, table: &Table) -> Result<Name, PolicyRefusal>
    ensures { AnswersPlainly (λ n. n) (name place (table_view table.now)) result }
{
    let text = as_text(Key::Name, place, required(Key::Name, place, table)?)?;
    if !is_name(text) {
        return Err(refusal(Cause::BadRange, Key::Name, place));
    }
    Ok(Name::from_text(text))
}

/// Whether the text is a name.
pub(crate) fn is_name(text: &str) -> bool
    ensures form { result ≡ is_name text.now }
    ensures short { IsTrue result → length text.now ≤ longest_name }
{
    !text.is_empty() && text.len() <= LONGEST_NAME && all_name_bytes(text.as_bytes())
}

fn all_name_bytes(text: &[u8]) -> bool
    ensures { result ≡ list_all is_name_byte text.now }
{
    text.iter().all(|byte| is_name_byte(*byte))
}

fn is_name_byte(byte: u8) -> bool
    ensures { result ≡ is_name_byte byte }
{
    matches!(byte, b'a'..=b'z' | b'0'..=b'9' | b'_' | b'-')
}

fn is_kind(kind: Kind, value: &Value) -> bool
    ensures { result ≡ is_kind kind (view value.now) }
{
    match kind {
        Kind::Text => matches!(value, Value::String(_)),
        Kind::Number => matches!(value, Value::Integer(_)),
        Kind::Code => matches!(value, Value::Integer(_) | Value::String(_)),
        Kind::Table => matches!(value, Value::Table(_)),
    }
}

#[tactic(auto, using(crate::proofs::Tables::all_kind_view))]
fn all_kind(kind: Kind, array: &Array) -> bool
    ensures { result ≡ all_kind kind (array_view array.now) }
{
    each_is_kind(kind, array.as_slice())
}

fn each_is_kind(kind: Kind, values: &[Value]) -> bool
    ensures { result ≡ list_all (λ v. is_kind kind (view v)) values.now }
{
    for value in values {
        if !is_kind(kind, value) {
            return false;
        }
    }
    true
}

/// An array each of whose entries is of the kind.
pub(crate) fn as_array_of(
    kind: Kind,
    key: Key,
    place: Place,
    value: &Value,
) -> Result<&Array, PolicyRefusal>
    ensures { AnswersPlainly (λ a. array_view a.now) (as_array_of kind key place (view value.now)) result }
{
    match value {
        Value::Array(array) => {
            if all_kind(kind, array) {
                Ok(array)
            } else {
                Err(refusal(Cause::WrongKind, key, place))
            }
        }
        _ => Err(refusal(Cause::WrongKind, key, place)),
    }
}

/// The number of entries.
#[tactic(auto, using(crate::proofs::Tables::count_view))]
pub(crate) fn count(array: &Array) -> usize
    ensures entries { result ≡ count (array_view array.now) }
    ensures len { result ≡ vec_len array.now }
{
    array.len()
}

/// The number, if it is from `low` to `high`.
pub(crate) fn number_in(low: u16, high: u16, number: i64) -> Option<u16>
    ensures { result ≡ number_in low high number }
{
    let natural = u16::try_from(number).ok()?;
    if low <= natural && natural <= high {
        Some(natural)
    } else {
        None
    }
}
