//! What is wrong with an entry of a list, or with a name.
use crate::naming::{Scope, code_fault, group_fault, is_digits, is_group_name};
use cf_policy::{
    HIGHEST_CODE, HIGHEST_GROUP, HIGHEST_POINT, HIGHEST_VALUE, LONGEST_NAME, LOWEST_VALUE,
};
use cf_policylang::{Key, address, group_named};
use toml::Value;

/// Words for every number of a list, which some write in its place.
const EVERY: &str = "any, all, every, *";

/// How a text begins that is no number.
const FRONTS: &str = "\
^+|a number has no plus sign
^0x|numbers are decimal
^0b|numbers are decimal
^0o|numbers are decimal";

/// What a text has that is no number.
const SIGNS: &str = "\
.|numbers are whole, without a decimal point
^@|sets are named in the points of rules alone, and in versions 2 and 3
-|a range has two points between its numbers, as 40..49
 |there are no spaces in it
,|each number or range is a text of its own
_|a number has no underscores";

/// What a text has that is no address.
const NO_ADDRESS: &str = "\
:|the port is a key of its own, and addresses of IPv6 are not served
/|one address stands there, and no network: leave out the slash and what is behind it
..|one address stands there, and no range";

/// Why a text is no number from `low` to `high` as it is printed, if it is none.
fn number_fault(key: Key, low: i64, high: i64, text: &str) -> Option<&'static str> {
    match front_fault(text) {
        Some(fault) => Some(fault),
        None => match text.parse::<i64>() {
            Ok(number) => outside(low, high, number),
            Err(_) => Some(misread(key, text)),
        },
    }
}

/// Why a text begins as no number does, if it does.
fn front_fault(text: &str) -> Option<&'static str> {
    if text.is_empty() {
        Some("a number is missing")
    } else if text == "-0" {
        Some("0 has no sign")
    } else if has_leading_zero(text) {
        Some("a number has no leading zero")
    } else {
        said_of(FRONTS, text)
    }
}

/// What is said of the first of the signs that a text has, which stand in rows before a bar; behind ^ is one that it begins with.
fn said_of(rows: &'static str, text: &str) -> Option<&'static str> {
    for row in rows.lines() {
        let (sign, said) = row.split_once('|')?;
        if has_sign(text, sign) {
            return Some(said);
        }
    }
    None
}

fn has_sign(text: &str, sign: &str) -> bool {
    match sign.strip_prefix('^') {
        Some(front) => text.starts_with(front),
        None => text.contains(sign),
    }
}

/// Whether a text is digits, behind a minus sign or without, of which the first is a zero too many.
fn has_leading_zero(text: &str) -> bool {
    let digits = text.strip_prefix("-").unwrap_or(text);
    digits.len() > 1 && digits.starts_with("0") && is_digits(digits)
}

/// On which side a number is outside a range, if it is.
fn outside(low: i64, high: i64, number: i64) -> Option<&'static str> {
    if number < low {
        Some("the number is too low")
    } else if number > high {
        Some("the number is too high")
    } else {
        None
    }
}

/// What a text may be that is no number.
fn misread(key: Key, text: &str) -> &'static str {
    if key == Key::Groups && (text.contains('.') || text.starts_with('g')) {
        "a group of DNP3 is 256 times the object group, and the variation: 3073 for g12v1"
    } else {
        said_of(SIGNS, text).unwrap_or(if is_digits(text) {
            "the number is too high"
        } else {
            "it is no number"
        })
    }
}

/// Why a text is no number or group and no range of those that a key's list has, if it is neither.
fn span_fault(key: Key, scope: &Scope, text: &str) -> Option<&'static str> {
    let (first, last) = text.split_once("..").unwrap_or((text, text));
    if let Some(fault) = end_fault(key, scope, first) {
        return Some(fault);
    }
    if let Some(fault) = end_fault(key, scope, last) {
        return Some(fault);
    }
    match (end_number(scope, first), end_number(scope, last)) {
        (Some(first), Some(last)) if first > last => Some("the first number is above the second"),
        _ => None,
    }
}

/// Why a text is no number or group of those that a key's list has, if it is none.
fn end_fault(key: Key, scope: &Scope, text: &str) -> Option<&'static str> {
    match key {
        Key::Groups => group_end_fault(scope, text),
        Key::Points => number_fault(key, 0, HIGHEST_POINT, text),
        _ => number_fault(key, LOWEST_VALUE, HIGHEST_VALUE, text),
    }
}

/// Why a text is no group, if it is none.
fn group_end_fault(scope: &Scope, text: &str) -> Option<&'static str> {
    if is_group_name(scope, text) {
        return None;
    }
    let fault = number_fault(Key::Groups, 0, HIGHEST_GROUP, text)?;
    Some(group_fault(scope, text).unwrap_or(fault))
}

/// A number, or that of a group by its name.
fn end_number(scope: &Scope, text: &str) -> Option<i64> {
    match text.parse::<i64>() {
        Ok(number) => Some(number),
        Err(_) => Some(i64::from(group_named(scope.protocol?, text)?)),
    }
}

/// Why a text is no address and no range of addresses, if it is neither.
fn client_fault(text: &str) -> Option<&'static str> {
    if text.contains('/') {
        return Some("a network is written as a range, as 10.0.0.0..10.0.0.255");
    }
    let (first, last) = text.split_once("..").unwrap_or((text, text));
    match (address(first), address(last)) {
        (Some(first), Some(last)) if first > last => Some("the first address is above the second"),
        (Some(_), Some(_)) => None,
        _ if text.contains('-') => {
            Some("a range has two points between its addresses, as 10.0.0.5..10.0.0.9")
        }
        _ => Some("it is no address"),
    }
}

/// Why a text after `@` is no name of a set, if it is none.
fn set_fault(name: &str) -> Option<&'static str> {
    if name.is_empty() {
        return Some("behind @ stands the name of a set");
    }
    name_fault(name)
}

/// Why a text is no point, no range of points and, where sets may be named, no set, if it is none.
fn point_fault(scope: &Scope, text: &str) -> Option<&'static str> {
    match text.strip_prefix("@") {
        Some(name) if scope.names_sets => set_fault(name),
        _ => span_fault(Key::Points, scope, text),
    }
}

/// Whether a text is a word for every number of a list.
fn is_every(text: &str) -> bool {
    for word in EVERY.split(", ") {
        if word.eq_ignore_ascii_case(text) {
            return true;
        }
    }
    false
}

/// What is said of a word that means every number of a list, which no list has.
pub(crate) fn every_fault(key: Key, scope: &Scope, text: &str) -> Option<&'static str> {
    if !is_every(text) {
        return None;
    }
    match key {
        Key::Codes => Some("a rule names each of its codes"),
        Key::Clients => Some("a rule without `clients` is for every client: leave the key out"),
        Key::Groups => Some("a rule without `groups` is for every group: leave the key out"),
        Key::Points if scope.protocol.is_some() => {
            Some("a rule without `points` is for every point: leave the key out")
        }
        Key::Values => Some("a rule without `values` is for every value: leave the key out"),
        _ => None,
    }
}

/// Why an entry of the kind of a key's list is refused, if it is.
fn entry_fault(key: Key, scope: &Scope, value: &Value) -> Option<&'static str> {
    match value {
        Value::Integer(code) if key == Key::Codes => outside(0, HIGHEST_CODE, *code),
        Value::String(text) => {
            every_fault(key, scope, text.as_str()).or(text_fault(key, scope, text.as_str()))
        }
        _ => None,
    }
}

/// Why a text among the entries of a key's list is refused, if it is.
fn text_fault(key: Key, scope: &Scope, text: &str) -> Option<&'static str> {
    match key {
        Key::Codes => code_fault(scope, text),
        Key::Clients => client_fault(text),
        Key::Points => point_fault(scope, text),
        Key::Groups | Key::Values => span_fault(key, scope, text),
        _ => None,
    }
}

/// The first entry of a list that is refused: its number from 1, and why.
pub(crate) fn first_fault<'a>(
    key: Key,
    scope: &Scope,
    entries: &'a [Value],
) -> Option<(usize, &'a Value, &'static str)> {
    let mut number = 0usize;
    for entry in entries {
        number = number.saturating_add(1);
        if let Some(fault) = entry_fault(key, scope, entry) {
            return Some((number, entry, fault));
        }
    }
    None
}

/// Why a text is no name, if it is none.
pub(crate) fn name_fault(text: &str) -> Option<&'static str> {
    if text.is_empty() {
        Some("it is empty")
    } else if text.bytes().any(is_capital) {
        Some("it has capital letters")
    } else if text.contains(' ') {
        Some("it has a space")
    } else if !text.bytes().all(is_of_name) {
        Some("it has a character that names do not have")
    } else if text.len() > LONGEST_NAME {
        Some("it is too long")
    } else {
        None
    }
}

fn is_capital(byte: u8) -> bool {
    byte.is_ascii_uppercase()
}

/// Whether a byte is one that names have.
fn is_of_name(byte: u8) -> bool {
    matches!(byte, b'a'..=b'z' | b'0'..=b'9' | b'_' | b'-')
}

/// Why a text is no address, if it is none.
pub(crate) fn address_fault(text: &str) -> Option<&'static str> {
    if address(text).is_some() {
        return None;
    }
    match said_of(NO_ADDRESS, text) {
        Some(said) => Some(said),
        None => Some(part_fault(text)),
    }
}

/// Why a text is not four numbers with points between them, as an address has them.
fn part_fault(text: &str) -> &'static str {
    let mut count = 0u32;
    let mut has_zero = false;
    for part in text.split('.') {
        count = count.saturating_add(1);
        has_zero |= part.len() > 1 && part.starts_with('0');
    }
    if count != 4 {
        "it has not four numbers"
    } else if has_zero {
        "a number has no leading zero"
    } else {
        "one of its four numbers is not from 0 to 255"
    }
}
