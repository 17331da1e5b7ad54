//! What is wrong with a policy that is TOML, by the cause of its refusal.
use crate::entries::{address_fault, first_fault, name_fault};
use crate::kinds::{entries_of, push_entry, push_keyed, push_wrong_kind};
use crate::naming::{Scope, push_near_name};
use crate::nearest::{is_near, push_meant};
use crate::page::Page;
use crate::place::table_at;
use crate::quote::{push_quoted, push_value};
use crate::sets::{name_of, sets_of};
use crate::unknown::{Level, push_unknown};
use cf_policy::{MOST_SPANS, Protocol};
use cf_policylang::{Cause, Key, PolicyRefusal};
use toml::{Table, Value};

const ACTIONS: &str = "allow, refuse";

const PROTOCOLS: &str = "modbus, dnp3, iec104";

/// The cause of a number, as a refusal has it.
pub(crate) fn cause_of(number: u8) -> Option<Cause> {
    match number {
        1 => Some(Cause::NotToml),
        2 => Some(Cause::UnknownKey),
        3 => Some(Cause::MissingKey),
        4 => Some(Cause::WrongKind),
        5 => Some(Cause::BadAddress),
        6 => Some(Cause::BadRange),
        7 => Some(Cause::Duplicate),
        8 => Some(Cause::TooMany),
        9 => Some(Cause::Version),
        10 => Some(Cause::UnknownSet),
        _ => None,
    }
}

/// What is known of a refusal: where it stands, and the tables that were read.
#[derive(Clone, Copy)]
pub(crate) struct Case<'a> {
    pub(crate) cause: Cause,
    pub(crate) key: Key,
    pub(crate) asset: u32,
    pub(crate) rule: u32,
    /// The name of the key, also of one that its table does not have.
    pub(crate) name: &'a str,
    pub(crate) document: &'a Table,
    /// The table of the document, of the set, of the asset or of the rule.
    pub(crate) table: &'a Table,
}

/// What is wrong.
pub(crate) fn push_wrong(out: &mut Page, case: &Case<'_>) {
    if case.cause == Cause::UnknownKey {
        push_unknown(out, Level::of(case.asset, case.rule), case.name);
        return;
    }
    match case.table.get(case.name) {
        Some(value) => push_wrong_value(out, case, value),
        None => push_missing(out, case),
    }
}

/// What is wrong with the value of the key.
fn push_wrong_value(out: &mut Page, case: &Case<'_>, value: &Value) {
    match case.cause {
        Cause::WrongKind => push_wrong_kind(out, case.key, &scope_of(case), value),
        Cause::BadAddress | Cause::BadRange => push_bad(out, case, value),
        Cause::Duplicate => push_duplicate(out, case, value),
        Cause::TooMany => push_too_many(out, case, value),
        Cause::UnknownSet => push_unknown_set(out, case, value),
        _ => push_keyed(out, case.name, value),
    }
}

/// A key that is missing, and one that may be meant for it.
fn push_missing(out: &mut Page, case: &Case<'_>) {
    out.push_all(&["`", case.name, "` is missing"]);
    if let Some(key) = key_near(out, case.table, case.name) {
        out.push("; did you write ");
        push_quoted(out, key);
        out.push(" for it?");
    }
}

/// The first key of a table that may be meant for this one.
fn key_near<'a>(out: &mut Page, table: &'a Table, name: &str) -> Option<&'a str> {
    for key in table.keys() {
        if is_near(out, key.as_str(), name) {
            return Some(key.as_str());
        }
    }
    None
}

/// A value outside its range, or an address that is none.
fn push_bad(out: &mut Page, case: &Case<'_>, value: &Value) {
    match value {
        Value::Array(entries) => push_bad_list(out, case, entries.as_slice()),
        Value::String(text) => push_bad_text(out, case.key, text.as_str()),
        _ => {
            push_keyed(out, case.name, value);
            out.push(", out of its range");
        }
    }
}

/// A list without entries, or its first entry that is refused.
fn push_bad_list(out: &mut Page, case: &Case<'_>, entries: &[Value]) {
    if entries.is_empty() {
        out.push_all(&["`", case.name, "` is an empty list"]);
        return;
    }
    let scope = scope_of(case);
    match first_fault(case.key, &scope, entries) {
        Some((number, entry, fault)) => {
            push_entry(out, case.key, number, entry);
            out.push_all(&[": ", fault]);
            push_near_name(out, case.key, &scope, entry);
        }
        None => out.push_all(&["an entry of `", case.name, "` is out of its range"]),
    }
}

/// What the entries of the table's lists may name.
pub(crate) fn scope_of(case: &Case<'_>) -> Scope {
    Scope::of(case.document, case.asset)
}

/// The first entry that names no set of the document, and a set that may be meant.
fn push_unknown_set(out: &mut Page, case: &Case<'_>, value: &Value) {
    let sets = sets_of(case.document);
    match first_unknown(sets, entries_of(value)) {
        Some((number, entry, name)) => {
            push_entry(out, case.key, number, entry);
            out.push(": no set has this name");
            push_near_set(out, name, sets);
        }
        None => push_keyed(out, case.name, value),
    }
}

/// The first entry that names none of the sets, with its number from 1 and that name.
fn first_unknown<'a>(sets: &[Value], entries: &'a [Value]) -> Option<(usize, &'a Value, &'a str)> {
    let mut number = 0usize;
    for entry in entries {
        number = number.saturating_add(1);
        if let Some(name) = set_named(entry) {
            if !is_set(sets, name) {
                return Some((number, entry, name));
            }
        }
    }
    None
}

/// Whether one of the sets has this name.
fn is_set(sets: &[Value], name: &str) -> bool {
    for set in sets {
        if name_of(set) == name {
            return true;
        }
    }
    false
}

/// The name after `@` of an entry that names a set.
fn set_named(entry: &Value) -> Option<&str> {
    match entry {
        Value::String(text) => text.strip_prefix('@'),
        _ => None,
    }
}

/// The first set whose name may be meant by this one.
fn push_near_set(out: &mut Page, name: &str, sets: &[Value]) {
    for set in sets {
        if is_near(out, name, name_of(set)) {
            out.push_all(&["; did you mean \"@", name_of(set), "\"?"]);
            return;
        }
    }
}

/// A text that is none of those that a key takes.
fn push_bad_text(out: &mut Page, key: Key, text: &str) {
    out.push_all(&["`", key.as_str(), "` is "]);
    push_quoted(out, text);
    match text_fault(key, text) {
        Some(fault) => out.push_all(&[": ", fault]),
        None => push_meant(out, text, known_texts(key), "\""),
    }
}

/// Why a text is no name or no address, if it has to be one and is none.
fn text_fault(key: Key, text: &str) -> Option<&'static str> {
    match key {
        Key::Name => name_fault(text),
        Key::Address => address_fault(text),
        _ => None,
    }
}

/// The texts that a key takes, where they are few: an empty one, which nothing is near to, where they are not.
fn known_texts(key: Key) -> &'static str {
    match key {
        Key::Action => ACTIONS,
        Key::Protocol => PROTOCOLS,
        _ => "",
    }
}

/// What an earlier set, asset or rule has and this one may not have, or a name that no rule may have.
fn push_duplicate(out: &mut Page, case: &Case<'_>, value: &Value) {
    match case.key {
        Key::Port | Key::Protocol => push_same_endpoint(out, case, &["address", "port"]),
        Key::Station => push_same_endpoint(out, case, &["address", "port", "station"]),
        _ => push_same_name(out, case, value),
    }
}

/// A name that an earlier set, asset or rule has, or that no rule may have.
fn push_same_name(out: &mut Page, case: &Case<'_>, value: &Value) {
    push_keyed(out, "name", value);
    match earlier_same(case, &["name"]) {
        Some(number) => push_holder(out, Level::of(case.asset, case.rule), number),
        None => out.push(", which the log uses for what is no rule"),
    }
}

/// The set, the asset, or the rule of the same asset, that has a name.
fn push_holder(out: &mut Page, level: Level, number: u32) {
    let which = match level {
        Level::Set => ", which set ",
        Level::Rule => ", which rule ",
        _ => ", which asset ",
    };
    out.push_number_after(which, u64::from(number));
    out.push(match level {
        Level::Rule => " of this asset has",
        _ => " has",
    });
}

/// The first set, asset, or rule of this asset, before this one that has the same values at keys.
fn earlier_same(case: &Case<'_>, keys: &[&str]) -> Option<u32> {
    let end = if case.rule == 0 {
        case.asset
    } else {
        case.rule
    };
    for number in 1..end {
        let place = if case.rule == 0 {
            (number, 0)
        } else {
            (case.asset, number)
        };
        if are_same(case.table, table_at(case.document, place.0, place.1), keys) {
            return Some(number);
        }
    }
    None
}

/// Whether another table has the same values at keys.
fn are_same(table: &Table, other: Option<&Table>, keys: &[&str]) -> bool {
    let Some(other) = other else {
        return false;
    };
    for key in keys {
        if table.get(*key) != other.get(*key) {
            return false;
        }
    }
    true
}

/// The first asset that has the same values at these keys, and why this one may not have them too.
fn push_same_endpoint(out: &mut Page, case: &Case<'_>, keys: &[&str]) {
    match earlier_same(case, keys) {
        Some(number) => out.push_number_after("asset ", u64::from(number)),
        None => out.push("an earlier asset"),
    }
    out.push(match case.key {
        Key::Protocol => " has the same address and port, and another protocol",
        Key::Station => " has the same address, port and station",
        _ => " has the same address and port",
    });
    if case.key == Key::Port && scope_of(case).shares_endpoints {
        out.push(", and another one stands between");
    }
}

/// A list of more entries than it may have, or more rules or assets of a kind.
fn push_too_many(out: &mut Page, case: &Case<'_>, value: &Value) {
    let name = case.name;
    match name {
        "most" => out.push("16 rules of this asset before it have a rate"),
        "protocol" => push_full_site(out, case),
        _ => push_long_list(out, name, value),
    }
}

/// As many assets of one address and port as may be.
fn push_full_site(out: &mut Page, case: &Case<'_>) {
    out.push(match scope_of(case).protocol {
        Some(Protocol::Dnp3) => "8 assets of DNP3",
        _ => "32 assets",
    });
    out.push(" before it have the same address and port");
}

fn push_long_list(out: &mut Page, name: &str, value: &Value) {
    let count = entries_of(value).len();
    out.push_all(&["`", name]);
    out.push_number_after("` has ", count as u64);
    out.push(" entries");
    if count <= MOST_SPANS {
        out.push(", and with the points of the sets that they name more than 64");
    }
}

/// The set, or the asset and the rule, of a refusal, by number and name.
pub(crate) fn push_where(out: &mut Page, document: &Table, refusal: &PolicyRefusal) {
    let (asset, rule) = (refusal.asset, refusal.rule);
    let level = Level::of(asset, rule);
    match level {
        Level::Document => return,
        Level::Set => push_table(out, "set ", rule, table_at(document, 0, rule)),
        _ => push_table(out, "asset ", asset, table_at(document, asset, 0)),
    }
    if let Level::Rule = level {
        push_table(out, ", rule ", rule, table_at(document, asset, rule));
    }
    out.push(": ");
}

/// A table by its number, and its name if it states one.
fn push_table(out: &mut Page, word: &str, number: u32, table: Option<&Table>) {
    out.push_number_after(word, u64::from(number));
    if let Some(table) = table
        && let Some(Value::String(name)) = table.get("name")
    {
        out.push(" ");
        push_quoted(out, name.as_str());
    }
}
