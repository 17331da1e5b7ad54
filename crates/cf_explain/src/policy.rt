//! Why a policy was refused, and how its text is mended.
use crate::allowed::{allowed, apart};
use crate::foreign::foreign;
use crate::page::Page;
use crate::place::{Target, TextPlace, find_place, is_line_end, table_at};
use crate::quote::push_shown;
use crate::unknown::{Level, unknown_key};
use crate::wrong::{Case, cause_of, push_where, push_wrong, scope_of};
use cf_policylang::{Cause, Key, LONGEST_TEXT, PolicyRefusal};
use std::alloc::{AllocError, Global};
use toml::Table;

/// What the reader of TOML says of octets that are no text in UTF-8.
const NO_UTF8: &str = "invalid UTF-8";

/// What a refusal of a policy's text means to its writer, in two lines: the file with line and column, the asset, the rule
/// and the key, and what is wrong; and then what is allowed there.
///
/// Cause, key, asset and rule are those of the refusal. The place is that of the key, of the table that lacks it, or that
/// of the reader of TOML; it is left out where no line of the text says it. A text without that refusal gets a message all
/// the same, which names the refusal alone.
pub fn policy_message(
    alloc: Global,
    file: &str,
    text: &[u8],
    refusal: &PolicyRefusal,
) -> Result<String, AllocError> {
    let mut out = Page::new(alloc);
    out.push(file);
    if refusal.number == Cause::TooMany.number() && refusal.key == Key::Nothing {
        out.push_number_after(": the file has more than ", LONGEST_TEXT as u64);
        out.push(" bytes");
    } else {
        push_why(&mut out, text, refusal);
    }
    out.finish()
}

/// Why a text is refused, which is no TOML, or a document that means no policy.
fn push_why(out: &mut Page, text: &[u8], refusal: &PolicyRefusal) {
    match toml::table_from_slice(out.alloc, text) {
        Ok(document) => push_refused(out, text, &document, refusal),
        Err(error) => push_no_toml(out, text, &error),
    }
}

/// What a file is that begins as no policy does; else what the reader of TOML says, and the line at which it stopped. Without a place
/// memory ran out.
fn push_no_toml(out: &mut Page, text: &[u8], error: &toml::de::Error) {
    match (error.span(), foreign(text)) {
        (Some(_), Some(what)) => out.push(what),
        (Some(span), None) => push_toml_fault(out, text, span.start, error.message()),
        (None, _) => out.run_out(),
    }
}

/// What the reader of TOML says of a place in a text, with the line.
fn push_toml_fault(out: &mut Page, text: &[u8], start: usize, message: &str) {
    let before = text.get(..start).unwrap_or(text);
    let line = line_of(text, before);
    push_place(out, TextPlace::behind(before));
    out.push(": this is no TOML: ");
    push_line(out, message);
    if message == NO_UTF8 {
        out.push("\n  save the text as UTF-8");
        return;
    }
    if let Some(hint) = toml_hint(line) {
        out.push_all(&["; ", hint]);
    }
    out.push("\n  in the line: ");
    push_shown(out, line);
}

/// What is often meant by a line that is no TOML.
fn toml_hint(line: &str) -> Option<&'static str> {
    if line.contains('\u{201c}') || line.contains('\u{201d}') {
        return Some("quotation marks are the straight ones, as \"allow\"");
    }
    if line.starts_with('[') {
        return Some("write [[asset]] and [[asset.rule]] with two brackets each time");
    }
    let (_, value) = line.split_once('=')?;
    match value.trim().as_bytes().first() {
        Some(first) if first.is_ascii_alphabetic() => {
            Some("a text stands between quotation marks, as \"allow\"")
        }
        _ => None,
    }
}

/// A message in one line.
fn push_line(out: &mut Page, message: &str) {
    for (index, part) in message.lines().enumerate() {
        if index > 0 {
            out.push(", ");
        }
        out.push(part);
    }
}

/// The line of a text in which its front ends; an empty one where it is no UTF-8.
fn line_of<'a>(text: &'a [u8], before: &[u8]) -> &'a str {
    let number = TextPlace::behind(before).line;
    let line = text.split(is_line_end).nth(number.saturating_sub(1));
    std::str::from_utf8(line.unwrap_or(b""))
        .unwrap_or("")
        .trim()
}

fn push_place(out: &mut Page, place: TextPlace) {
    out.push_number_after(":", place.line as u64);
    out.push_number_after(":", place.column as u64);
}

/// What is wrong with a document, and what is allowed.
fn push_refused(out: &mut Page, text: &[u8], document: &Table, refusal: &PolicyRefusal) {
    let table = table_at(document, refusal.asset, refusal.rule);
    match (cause_of(refusal.number), table) {
        (Some(cause), Some(table)) => push_case(
            out,
            text,
            refusal,
            &Case {
                cause,
                key: refusal.key,
                asset: refusal.asset,
                rule: refusal.rule,
                name: name_in(cause, refusal, table),
                document,
                table,
            },
        ),
        _ => {
            out.push(": policy refused ");
            out.push_refusal(refusal);
        }
    }
}

/// The name of the key, also of one that its table does not have.
fn name_in<'a>(cause: Cause, refusal: &PolicyRefusal, table: &'a Table) -> &'a str {
    match cause {
        Cause::UnknownKey => unknown_key(Level::of(refusal.asset, refusal.rule), table),
        _ => refusal.key.as_str(),
    }
}

/// What is wrong at a place of a document, and what is allowed there.
fn push_case(out: &mut Page, text: &[u8], refusal: &PolicyRefusal, case: &Case<'_>) {
    if let Some(place) = case_place(out.alloc, text, case) {
        push_place(out, place);
    }
    out.push(": ");
    push_where(out, case.document, refusal);
    push_wrong(out, case);
    out.push_all(&["\n  ", allowed_at(case)]);
}

/// What is allowed instead.
fn allowed_at(case: &Case<'_>) -> &'static str {
    match case.cause {
        Cause::UnknownKey => Level::of(case.asset, case.rule).allowed(),
        Cause::Duplicate => { apart(case.key, Level::of(case.asset, case.rule), &scope_of(case)) }
        Cause::TooMany if case.key == Key::Protocol => {
            "at most 32 assets have the same address and port, and of DNP3 at most 8"
        }
        Cause::UnknownSet =>
            "a set of points is a table [[set]] with a name and points, and a rule names it as points = [\"@low\"]",
        _ => allowed(case.key, &scope_of(case), case.table),
    }
}

/// The place of the header of an asset's table (its rule 0) or of a rule's.
fn table_place(alloc: Global, text: &[u8], asset: u32, rule: u32) -> Option<TextPlace> {
    let key = None;
    find_place(alloc, text, &Target { asset, rule, key })
}

/// Adds the place of a rule's header, if a line says it.
pub(crate) fn push_rule_place(out: &mut Page, text: &[u8], asset: u64, rule: u64) {
    if let Some(place) = table_place(out.alloc, text, capped(asset), capped(rule)) {
        push_place(out, place);
    }
}

/// A number as a refusal has it.
fn capped(number: u64) -> u32 {
    u32::try_from(number).unwrap_or(u32::MAX)
}

/// The place of the key, or of the table that lacks it.
fn case_place(alloc: Global, text: &[u8], case: &Case<'_>) -> Option<TextPlace> {
    let (asset, rule) = (case.asset, case.rule);
    let key = Some(case.name);
    match find_place(alloc, text, &Target { asset, rule, key }) {
        Some(place) => Some(place),
        None => table_place(alloc, text, asset, rule),
    }
}
