//! A value of another kind than its key's.
use crate::entries::every_fault;
use crate::naming::{Scope, name_hint};
use crate::page::Page;
use crate::quote::push_value;
use cf_policylang::Key;
use toml::Value;

/// What a key's value is.
fn wanted(key: Key, scope: &Scope) -> &'static str {
    match key {
        Key::Codes if scope.names_codes => "a list of whole numbers and names",
        Key::Nothing => "a table",
        Key::Version | Key::Port | Key::Station | Key::Master | Key::Most | Key::Seconds =>
            "a whole number",
        Key::Name | Key::Address | Key::Protocol | Key::Action => "a text between quotation marks",
        Key::Set | Key::Asset | Key::Rule => "a list of tables",
        Key::Clients | Key::Groups | Key::Points | Key::Values => "a list of texts",
        Key::Codes => "a list of whole numbers",
        Key::Log => "true or false",
    }
}

/// What an entry of a key's list is.
fn wanted_entry(key: Key, scope: &Scope) -> &'static str {
    match key {
        Key::Codes if scope.names_codes => "a whole number, or a name between quotation marks",
        Key::Codes => "a whole number",
        Key::Set | Key::Asset | Key::Rule => "a table",
        _ => "a text between quotation marks",
    }
}

/// Whether a value is of the kind that an entry of a key's list has.
fn is_entry(key: Key, scope: &Scope, value: &Value) -> bool {
    match key {
        Key::Codes => match value {
            Value::Integer(_) => true,
            Value::String(_) => scope.names_codes,
            _ => false,
        },
        Key::Set | Key::Asset | Key::Rule => matches!(value, Value::Table(_)),
        _ => matches!(value, Value::String(_)),
    }
}

/// The first entry of another kind, with its number from 1.
fn first_other<'a>(key: Key, scope: &Scope, entries: &'a [Value]) -> Option<(usize, &'a Value)> {
    let mut number = 0usize;
    for entry in entries {
        number = number.saturating_add(1);
        if !is_entry(key, scope, entry) {
            return Some((number, entry));
        }
    }
    None
}

/// The entries of a list; none of what is no list.
pub(crate) fn entries_of(value: &Value) -> &[Value] {
    match value {
        Value::Array(entries) => entries.as_slice(),
        _ => &[],
    }
}

/// The entries of a list where a key takes one; none else.
fn list_for(key: Key, value: &Value) -> &[Value] {
    match key {
        Key::Set
        | Key::Asset
        | Key::Rule
        | Key::Clients
        | Key::Codes
        | Key::Groups
        | Key::Points
        | Key::Values => entries_of(value),
        _ => &[],
    }
}

/// What is wrong with the kind of a value.
pub(crate) fn push_wrong_kind(out: &mut Page, key: Key, scope: &Scope, value: &Value) {
    match first_other(key, scope, list_for(key, value)) {
        Some((number, entry)) => {
            push_entry(out, key, number, entry);
            out.push_all(&[", and has to be ", wanted_entry(key, scope)]);
            push_hint(out, key, scope, entry);
        }
        None => {
            push_keyed(out, key.as_str(), value);
            out.push_all(&[", and has to be ", wanted(key, scope), brackets(key, value)]);
            push_hint(out, key, scope, value);
        }
    }
}

/// What is said of a text for every number, or of a name which this version or this protocol does not read.
fn push_hint(out: &mut Page, key: Key, scope: &Scope, entry: &Value) {
    let Value::String(text) = entry else {
        return;
    };
    let text = text.as_str();
    if let Some(hint) = every_fault(key, scope, text).or(name_hint(key, scope, text)) {
        out.push_all(&["; ", hint]);
    }
}

/// An entry of a key's list, with its number.
pub(crate) fn push_entry(out: &mut Page, key: Key, number: usize, entry: &Value) {
    out.push_number_after("entry ", number as u64);
    out.push_all(&[" of `", key.as_str(), "` is "]);
    push_value(out, entry);
}

/// A key with its value.
pub(crate) fn push_keyed(out: &mut Page, name: &str, value: &Value) {
    out.push_all(&["`", name, "` is "]);
    push_value(out, value);
}

/// A table in single brackets where a list of tables stands.
fn brackets(key: Key, value: &Value) -> &'static str {
    match (key, value) {
        (Key::Set, Value::Table(_)) => ": write [[set]], with two brackets",
        (Key::Asset, Value::Table(_)) => ": write [[asset]], with two brackets",
        (Key::Rule, Value::Table(_)) => ": write [[asset.rule]], with two brackets",
        _ => "",
    }
}
