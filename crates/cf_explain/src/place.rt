//! Where a table or a key stands in a policy's text.
//!
//! The lines are scanned for what looks like it, and the reader of TOML is the judge: the text before such a line has to be
//! a document without the table or key, and one with it once the line is there. So a place that is told is right, and one
//! in a string, in an inline table or in an unusual spelling is not told.
use crate::sets::list_at;
use std::alloc::Global;
use toml::{Table, Value};

/// How many lines that look right are tried.
const TRIES: u32 = 8;

/// A place in a text: its line and its column, both from 1. A column counts characters.
#[derive(Clone, Copy)]
pub(crate) struct TextPlace {
    pub(crate) line: usize,
    pub(crate) column: usize,
}

impl TextPlace {
    /// The place after so many bytes of a text.
    pub(crate) fn behind(before: &[u8]) -> TextPlace {
        let mut place = TextPlace { line: 1, column: 1 };
        for byte in before {
            if *byte == b'\n' {
                place.line = place.line.saturating_add(1);
                place.column = 1;
            } else if *byte & 0xC0 != 0x80 {
                place.column = place.column.saturating_add(1);
            }
        }
        place
    }
}

/// What is looked for: a table by its numbers as a refusal has them, or a key in it.
#[derive(Clone, Copy)]
pub(crate) struct Target<'a> {
    pub(crate) asset: u32,
    pub(crate) rule: u32,
    pub(crate) key: Option<&'a str>,
}

/// The table of the document (0 and 0), of a set (the asset 0), of an asset (its rule 0) or of a rule.
pub(crate) fn table_at(document: &Table, asset: u32, rule: u32) -> Option<&Table> {
    match (asset, rule) {
        (0, 0) => Some(document),
        (0, _) => entry_at(document, "set", rule),
        (_, 0) => entry_at(document, "asset", asset),
        _ => entry_at(entry_at(document, "asset", asset)?, "rule", rule),
    }
}

/// The table of a number, from 1, in the list at a key.
fn entry_at<'a>(table: &'a Table, key: &str, number: u32) -> Option<&'a Table> {
    let index = (number as usize).checked_sub(1)?;
    match list_at(table, key).get(index) {
        Some(Value::Table(entry)) => Some(entry),
        _ => None,
    }
}

/// Whether a document has what is looked for.
fn has(document: &Table, target: &Target<'_>) -> bool {
    match (table_at(document, target.asset, target.rule), target.key) {
        (Some(table), Some(key)) => table.contains_key(key),
        (Some(_), None) => true,
        (None, _) => false,
    }
}

/// Whether a text is a document, and has what is looked for; nothing where it is none, or memory ran out.
fn text_has(alloc: Global, text: &[u8], target: &Target<'_>) -> Option<bool> {
    match toml::table_from_slice(alloc, text) {
        Ok(document) => Some(has(&document, target)),
        Err(_) => None,
    }
}

/// Whether what is looked for comes with two pieces after a front: those alone add it.
fn comes_with(
    alloc: Global,
    front: &[u8],
    added: &[u8],
    behind: &[u8],
    target: &Target<'_>,
) -> bool {
    if text_has(alloc, front, target) != Some(false) {
        return false;
    }
    match joined(alloc, front, added, behind) {
        Some(text) => text_has(alloc, &text, target) == Some(true),
        None => false,
    }
}

fn joined(alloc: Global, front: &[u8], added: &[u8], behind: &[u8]) -> Option<Vec<u8>> {
    let mut text = Vec::new(alloc);
    let is_whole = text.extend_from_slice(front).is_ok()
        && text.extend_from_slice(added).is_ok()
        && text.extend_from_slice(behind).is_ok();
    is_whole.then_some(text)
}

/// What a line looks like: a table's header with its name, a key with its value, or neither.
#[derive(Clone, Copy)]
enum Look<'a> {
    Header(&'a str),
    Pair(&'a str),
    Other,
}

fn look_of(line: &str) -> Look<'_> {
    let line = line.trim();
    if line.starts_with('[') {
        match line.trim_start_matches('[').split_once(']') {
            Some((name, _)) => Look::Header(name.trim()),
            None => Look::Other,
        }
    } else {
        match line.split_once('=') {
            Some((key, _)) => Look::Pair(key.trim()),
            None => Look::Other,
        }
    }
}

/// A key without the quotation marks that it may stand in.
fn unquoted(key: &str) -> &str {
    key.trim_matches('"').trim_matches('\'')
}

/// The last part of a header's name.
fn last_part(name: &str) -> &str {
    match name.rsplit_once('.') {
        Some((_, last)) => unquoted(last.trim()),
        None => unquoted(name),
    }
}

/// The table whose lines are scanned, numbered as a refusal has it, and how many headers of assets and of sets there were so far.
#[derive(Clone, Copy)]
struct Section {
    asset: u32,
    rule: u32,
    assets: u32,
    sets: u32,
}

impl Section {
    /// The section after a line.
    fn behind(self, look: Look<'_>) -> Section {
        match look {
            Look::Header("set") => {
                let sets = self.sets.saturating_add(1);
                Section {
                    asset: 0,
                    rule: sets,
                    assets: self.assets,
                    sets,
                }
            }
            Look::Header("asset") => {
                let assets = self.assets.saturating_add(1);
                Section {
                    asset: assets,
                    rule: 0,
                    assets,
                    sets: self.sets,
                }
            }
            Look::Header("asset.rule") => Section {
                rule: self.rule.saturating_add(1),
                ..self
            },
            _ => self,
        }
    }

    fn is_at(self, target: &Target<'_>) -> bool {
        self.asset == target.asset && self.rule == target.rule
    }

    /// Whether a line of this section may be where the target stands. `next` is the section after it.
    fn may_have(self, look: Look<'_>, next: Section, target: &Target<'_>) -> bool {
        match (look, target.key) {
            (Look::Pair(key), Some(wanted)) => self.is_at(target) && unquoted(key) == wanted,
            (Look::Header(name), Some(wanted)) => {
                (target.asset == 0 || self.asset == target.asset) && last_part(name) == wanted
            }
            (Look::Header(_), None) => next.is_at(target) && !self.is_at(target),
            _ => false,
        }
    }
}

/// Whether a byte of a text ends a line.
pub(crate) fn is_line_end(byte: &u8) -> bool {
    *byte == b'\n'
}

/// Where a table or a key begins in a text, if a line says so.
pub(crate) fn find_place(alloc: Global, text: &[u8], target: &Target<'_>) -> Option<TextPlace> {
    let mut section = Section {
        asset: 0,
        rule: 0,
        assets: 0,
        sets: 0,
    };
    let mut tries = TRIES;
    let mut start = 0usize;
    for line in text.split(is_line_end) {
        let look = look_of(std::str::from_utf8(line).unwrap_or(""));
        let next = section.behind(look);
        if tries > 0 && section.may_have(look, next, target) {
            tries -= 1;
            if let Some(place) = place_at(alloc, text, start, line, look, target) {
                return Some(place);
            }
        }
        section = next;
        start = start.saturating_add(line.len()).saturating_add(1);
    }
    None
}

/// A value for the key of a line, where it has one.
fn value_behind(look: Look<'_>) -> &'static [u8] {
    match look {
        Look::Pair(_) => b" = 0",
        _ => b"",
    }
}

/// The place of a line's first letter, if what is looked for comes with the line.
fn place_at(
    alloc: Global,
    text: &[u8],
    start: usize,
    line: &[u8],
    look: Look<'_>,
    target: &Target<'_>,
) -> Option<TextPlace> {
    let front = text.get(..start)?;
    let added = match look {
        Look::Header(_) => line.trim_ascii(),
        Look::Pair(key) => key.as_bytes(),
        Look::Other => return None,
    };
    if !comes_with(alloc, front, added, value_behind(look), target) {
        return None;
    }
    let indent = line.len().saturating_sub(line.trim_ascii_start().len());
    let first = text.get(..start.saturating_add(indent))?;
    Some(TextPlace::behind(first))
}
