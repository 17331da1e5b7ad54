//! The names of codes and groups: whose name a text is, and which it may have been meant for.
use crate::nearest::{is_nearer, most_edits};
use crate::page::Page;
use crate::place::table_at;
use crate::sets::text_at;
use cf_policy::Protocol;
use cf_policylang::{Key, code_name, code_named, group_named};
use toml::{Table, Value};

/// What the entries of the lists at a place of a document may name.
#[derive(Clone, Copy)]
pub(crate) struct Scope {
    /// Whether points may name sets: in rules of versions 2 and 3.
    pub(crate) names_sets: bool,
    /// Whether codes and groups may be names: in version 3.
    pub(crate) names_codes: bool,
    /// Whether assets may have one address and port: in version 3.
    pub(crate) shares_endpoints: bool,
    /// The protocol of the asset, where there is one.
    pub(crate) protocol: Option<Protocol>,
}

impl Scope {
    /// The scope of an asset's rules; of asset 0 that of the document's sets.
    pub(crate) fn of(document: &Table, asset: u32) -> Scope {
        let version = match document.get("version") {
            Some(Value::Integer(version)) => *version,
            _ => 0,
        };
        Scope {
            names_sets: asset != 0 && (version == 2 || version == 3),
            names_codes: version == 3,
            shares_endpoints: version == 3,
            protocol: protocol_at(document, asset),
        }
    }
}

fn protocol_at(document: &Table, asset: u32) -> Option<Protocol> {
    match text_at(table_at(document, asset, 0)?, "protocol") {
        "modbus" => Some(Protocol::Modbus),
        "dnp3" => Some(Protocol::Dnp3),
        "iec104" => Some(Protocol::Iec104),
        _ => None,
    }
}

/// Whether a text is the name of a code or a group of a protocol.
fn is_named(key: Key, protocol: Protocol, text: &str) -> bool {
    match key {
        Key::Codes => code_named(protocol, text).is_some(),
        Key::Groups => group_named(protocol, text).is_some(),
        _ => false,
    }
}

/// What is said of a text that is a name of another protocol than the asset's.
fn other_name(key: Key, own: Protocol, text: &str) -> Option<&'static str> {
    if is_named(key, own, text) {
        None
    } else if is_named(key, Protocol::Modbus, text) {
        Some("it is a name of Modbus, which is not the protocol of the asset")
    } else if is_named(key, Protocol::Dnp3, text) {
        Some("it is a name of DNP3, which is not the protocol of the asset")
    } else if is_named(key, Protocol::Iec104, text) {
        Some("it is a name of IEC 60870-5-104, which is not the protocol of the asset")
    } else {
        None
    }
}

/// What is said of a name in a version that reads none, or of a name of another protocol.
pub(crate) fn name_hint(key: Key, scope: &Scope, text: &str) -> Option<&'static str> {
    let own = scope.protocol?;
    if !scope.names_codes && is_named(key, own, text) {
        return Some("names of codes and groups are read in version 3: write version = 3");
    }
    other_name(key, own, text)
}

/// Why a text among codes that may be names is refused, if it is.
pub(crate) fn code_fault(scope: &Scope, text: &str) -> Option<&'static str> {
    let own = scope.protocol?;
    if is_named(Key::Codes, own, text) {
        return None;
    }
    if text.is_empty() {
        return Some("a name is missing");
    }
    if is_digits(text) {
        return Some("a number among codes stands without quotation marks");
    }
    Some(other_name(Key::Codes, own, text).unwrap_or("no code of the protocol has this name"))
}

/// Whether a text is the name of a group of the asset's protocol, where names are read.
pub(crate) fn is_group_name(scope: &Scope, text: &str) -> bool {
    match scope.protocol {
        Some(own) => scope.names_codes && is_named(Key::Groups, own, text),
        None => false,
    }
}

/// Why a text that is no number among groups is refused, where names are read or it is one.
pub(crate) fn group_fault(scope: &Scope, text: &str) -> Option<&'static str> {
    let own = scope.protocol?;
    if !scope.names_codes && !is_named(Key::Groups, own, text) {
        return None;
    }
    match (name_hint(Key::Groups, scope, text), own) {
        (Some(hint), _) => Some(hint),
        (None, Protocol::Dnp3) if text.starts_with("g") => Some(
            "a group by its name is an object group and a variation from 0 to 255, without leading zeros, as g12v1",
        ),
        (None, Protocol::Iec104) if !is_numeric(text) => {
            Some("groups by their names are request, activation and deactivation")
        }
        _ => None,
    }
}

/// Whether a text has nothing but what numbers have.
fn is_numeric(text: &str) -> bool {
    for byte in text.bytes() {
        if !matches!(byte, b'0'..=b'9' | b'+' | b'-' | b'.') {
            return false;
        }
    }
    true
}

/// Whether a text has nothing but digits.
pub(crate) fn is_digits(text: &str) -> bool {
    for byte in text.bytes() {
        if !byte.is_ascii_digit() {
            return false;
        }
    }
    true
}

/// Asks whether a name of the protocol was meant by an entry that is none: the same in another case, else the nearest.
pub(crate) fn push_near_name(out: &mut Page, key: Key, scope: &Scope, entry: &Value) {
    let (Some(own), Value::String(text)) = (scope.protocol, entry) else {
        return;
    };
    let text = text.as_str();
    if scope.names_codes
        && name_hint(key, scope, text).is_none()
        && let Some(name) = near_name(out, key, own, text)
    {
        out.push_all(&["; did you mean \"", name, "\"?"]);
    }
}

/// The name of a code or a group of a protocol that a text is but for its case; else the first of the nearest.
fn near_name(out: &mut Page, key: Key, protocol: Protocol, text: &str) -> Option<&'static str> {
    let mut best = None;
    let mut least = most_edits(text);
    for number in 0..256u16 {
        if let Some(name) = name_of(key, protocol, number) {
            if name.eq_ignore_ascii_case(text) {
                return Some(name);
            }
            if is_nearer(out, text, name, &mut least) {
                best = Some(name);
            }
        }
    }
    best
}

/// The name of the code or the group of a number, where names are few.
fn name_of(key: Key, protocol: Protocol, number: u16) -> Option<&'static str> {
    match (key, protocol, number) {
        (Key::Codes, _, _) => code_name(protocol, number),
        (Key::Groups, Protocol::Iec104, 5) => Some("request"),
        (Key::Groups, Protocol::Iec104, 6) => Some("activation"),
        (Key::Groups, Protocol::Iec104, 8) => Some("deactivation"),
        _ => None,
    }
}
