//! A key that its table does not have.
use crate::nearest::{has_word, push_meant};
use crate::page::Page;
use crate::quote::push_quoted;
use toml::Table;

/// The keys of the document, of which version 1 does not have `set`.
const DOCUMENT_KEYS: &str = "version, asset, set";

const SET_KEYS: &str = "name, points";

const ASSET_KEYS: &str = "name, address, port, protocol, station, master, rule";

const RULE_KEYS: &str = "name, action, clients, codes, groups, points, values, most, seconds, log";

/// What keys stand in, the keys, and what is said where they stand in something else.
const HOMES: &str = "\
a rule:action, clients, codes, groups, points, values, most, seconds, log;: it stands in a rule, below [[asset.rule]]
an asset:rule;: a rule is a table [[asset.rule]]
an asset:name, address, port, protocol, station, master;: it stands in an asset, below [[asset]] and above its first [[asset.rule]]
the document:set;: a set of points is a table [[set]]
the document:version, asset;: it stands above the first [[asset]]";

/// What a key stands in.
#[derive(Clone, Copy)]
pub(crate) enum Level {
    Document,
    Set,
    Asset,
    Rule,
}

impl Level {
    /// The level of a refusal's numbers.
    pub(crate) fn of(asset: u32, rule: u32) -> Level {
        match (asset, rule) {
            (0, 0) => Level::Document,
            (0, _) => Level::Set,
            (_, 0) => Level::Asset,
            _ => Level::Rule,
        }
    }

    fn keys(self) -> &'static str {
        match self {
            Level::Document => DOCUMENT_KEYS,
            Level::Set => SET_KEYS,
            Level::Asset => ASSET_KEYS,
            Level::Rule => RULE_KEYS,
        }
    }

    fn name(self) -> &'static str {
        match self {
            Level::Document => "the document",
            Level::Set => "a set of points",
            Level::Asset => "an asset",
            Level::Rule => "a rule",
        }
    }

    /// The keys of this level in words.
    pub(crate) fn allowed(self) -> &'static str {
        match self {
            Level::Document =>
                "above the first table the document has version = 1, and then tables [[asset]]; versions 2 and 3 have tables [[set]] too",
            Level::Set => "a set of points has a name and points, and no other keys",
            Level::Asset => {
                "an asset has name, address, port, protocol, station, for DNP3 master, and tables [[asset.rule]]"
            }
            Level::Rule =>
                "a rule has name, action, codes, and may have clients, groups, points, values, most and seconds, and in version 3 log",
        }
    }
}

/// The first key of a table, in the order of its letters, that its level does not have; else the one that only some tables of the
/// level have: `set` of version 2, `master` of DNP3, `most` of rules that allow.
pub(crate) fn unknown_key(level: Level, table: &Table) -> &str {
    for key in table.keys() {
        if !has_word(level.keys(), key.as_str()) {
            return key.as_str();
        }
    }
    match level {
        Level::Document => "set",
        Level::Rule => if table.contains_key("log") {
            "log"
        } else {
            "most"
        },
        Level::Set | Level::Asset => "master",
    }
}

/// What is wrong with a key that only some tables of a level have.
fn not_here(level: Level, key: &str) -> Option<&'static str> {
    match (level, key) {
        (Level::Document, "set") => Some("`set` is a key of versions 2 and 3 alone"),
        (Level::Rule, "log") => Some(
            "`log` is a key of version 3 alone, and there of rules that allow",
        ),
        (Level::Asset, "master") => Some("`master` is a key of DNP3 assets alone: leave it out"),
        (Level::Rule, "most") => Some(
            "`most` is a key of rules that allow alone: leave it and `seconds` out",
        ),
        _ => None,
    }
}

/// What is wrong with a key, and what may have been meant.
pub(crate) fn push_unknown(out: &mut Page, level: Level, key: &str) {
    if let Some(fault) = not_here(level, key) {
        out.push(fault);
        return;
    }
    push_quoted(out, key);
    out.push_all(&[" is no key of ", level.name()]);
    match other_level(level, key) {
        Some(place) => out.push(place),
        None => push_meant(out, key, level.keys(), "`"),
    }
}

/// Where a key belongs that another level has.
fn other_level(level: Level, key: &str) -> Option<&'static str> {
    if matches!(level, Level::Asset) && key == "stations" {
        return Some(
            ": it has one, as station = 1; in version 3 several assets may have one address and port",
        );
    }
    for home in HOMES.lines() {
        let (place, rest) = home.split_once(':')?;
        let (keys, said) = rest.split_once(';')?;
        if place != level.name() && has_word(keys, key) {
            return Some(said);
        }
    }
    None
}
