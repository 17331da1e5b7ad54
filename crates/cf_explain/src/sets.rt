//! What is found of the sets of points of a document: a policy that was read has their points, and no longer their names.
use crate::kinds::entries_of;
use toml::{Table, Value};

/// The sets of a document.
pub(crate) fn sets_of(document: &Table) -> &[Value] {
    list_at(document, "set")
}

/// The list at a key; an empty one where there is none.
pub(crate) fn list_at<'a>(table: &'a Table, key: &str) -> &'a [Value] {
    match table.get(key) {
        Some(value) => entries_of(value),
        None => &[],
    }
}

/// The list at a key of an entry that is a table; an empty one where there is none.
fn list_of<'a>(entry: &'a Value, key: &str) -> &'a [Value] {
    match entry {
        Value::Table(table) => list_at(table, key),
        _ => &[],
    }
}

/// The text at a key; an empty one where there is none.
pub(crate) fn text_at<'a>(table: &'a Table, key: &str) -> &'a str {
    match table.get(key) {
        Some(Value::String(text)) => text.as_str(),
        _ => "",
    }
}

/// The name of a set.
pub(crate) fn name_of(set: &Value) -> &str {
    match set {
        Value::Table(table) => text_at(table, "name"),
        _ => "",
    }
}

/// Whether a rule of the document names the set of this name among its points.
pub(crate) fn is_named(document: &Table, name: &str) -> bool {
    for asset in list_at(document, "asset") {
        for rule in list_of(asset, "rule") {
            if names(rule, name) {
                return true;
            }
        }
    }
    false
}

/// Whether a rule names a set.
fn names(rule: &Value, name: &str) -> bool {
    for entry in list_of(rule, "points") {
        if let Value::String(text) = entry
            && text.strip_prefix('@') == Some(name)
        {
            return true;
        }
    }
    false
}

/// The first of the earlier sets, with its number from 1, that states the same points in the same order as a set.
pub(crate) fn twin_of<'a>(earlier: &'a [Value], set: &Value) -> Option<(usize, &'a Value)> {
    let mut number = 0usize;
    for other in earlier {
        number = number.saturating_add(1);
        if are_same(list_of(other, "points"), list_of(set, "points")) {
            return Some((number, other));
        }
    }
    None
}

/// Whether two lists of points have the same entries in the same order. `7` and `7..7` are one entry.
fn are_same(points: &[Value], others: &[Value]) -> bool {
    if points.len() != others.len() {
        return false;
    }
    for (point, other) in points.iter().zip(others) {
        if ends(point) != ends(other) {
            return false;
        }
    }
    true
}

/// The first and the last number of an entry, as it spells them.
fn ends(entry: &Value) -> (&str, &str) {
    match entry {
        Value::String(text) => text.split_once("..").unwrap_or((text, text)),
        _ => ("", ""),
    }
}
