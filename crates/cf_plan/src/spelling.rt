//! The text of a draft: a document of version 3, with names for codes and a comment for each rule.

use crate::cover::Cover;
use crate::merging::Width;
use crate::notes::Note;
use crate::writer::Writer;
use cf_policy::{Asset, Protocol, Span};
use cf_policylang::code_name;

/// Puts what stands at the head of a draft.
pub(crate) fn put_head(text: &mut Writer, has_assets: bool, is_wide: bool) {
    text.put(
        "# A first policy: it allows what was recorded, and also what an intruder did meanwhile. Read it before use.\n",
    );
    if is_wide {
        text.put(
            "# Rules for exactly what was recorded would be too many, so it was not tested whether these allow more.\n",
        );
    }
    text.put("version = 3\n");
    if !has_assets {
        text.put("asset = []\n");
    }
}

/// Puts an asset without its rules, behind what is said of so many of them.
pub(crate) fn put_asset(text: &mut Writer, asset: &Asset, rules: usize, width: Width) {
    text.put("\n");
    put_width(text, width);
    if rules == 0 {
        text.put("# No command to it was recorded.\n");
    }
    text.put("[[asset]]\nname = \"");
    text.put(asset.name.as_str());
    text.put("\"\naddress = \"");
    put_address(text, i64::from(asset.endpoint.address));
    text.put("\"\nport = ");
    text.number(i64::from(asset.endpoint.port));
    text.put("\nprotocol = \"");
    text.put(protocol_text(asset.protocol));
    text.put("\"\nstation = ");
    text.number(i64::from(asset.station));
    if asset.protocol == Protocol::Dnp3 {
        text.put("\nmaster = ");
        text.number(i64::from(asset.master));
    }
    text.put("\n");
}

/// Puts what was widened, if anything was.
fn put_width(text: &mut Writer, width: Width) {
    let what = match width {
        Width::Nothing => return,
        Width::Values => "values are the span of those seen",
        Width::Points => "points and values are the spans of those seen",
        Width::Clients =>
            "points and values are the spans of those seen, and clients of one function share them",
    };
    text.put("# Widened, since what was recorded makes more than 32 rules: ");
    text.put(what);
    text.put(". It allows more than was recorded.\n");
}

/// Puts a rule of this name with what is told of it.
pub(crate) fn put_rule(
    text: &mut Writer,
    protocol: Protocol,
    kind: &str,
    number: usize,
    cover: &Cover,
    note: &Note,
) {
    text.put("\n");
    put_note(text, note);
    text.put("[[asset.rule]]\nname = \"");
    text.put(kind);
    text.number((number % 1_000_000) as i64);
    text.put("\"\naction = \"allow\"\nclients = [");
    put_addresses(text, cover.clients.as_slice());
    text.put("]\ncodes = [");
    put_codes(text, protocol, cover.codes.as_slice());
    text.put("]\ngroups = [");
    put_groups(text, protocol, cover.groups.as_slice());
    put_numbers(text, "]\npoints = [", cover.points.as_slice());
    if !cover.values.is_empty() {
        put_numbers(text, "]\nvalues = [", cover.values.as_slice());
    }
    text.put("]\n");
}

/// Puts how many commands there were, from when to when, and the last.
fn put_note(text: &mut Writer, note: &Note) {
    if note.commands == 0 {
        return;
    }
    text.put("# ");
    text.number((note.commands % 1_000_000_000_000) as i64);
    text.put(if note.commands == 1 {
        " command, "
    } else {
        " commands, "
    });
    put_time(text, note.first);
    if note.first != note.last {
        text.put(" to ");
        put_time(text, note.last);
    }
    text.put(" UTC; the last: ");
    text.hex(note.octets.as_slice());
    if note.goes_on {
        text.put("..");
    }
    text.put("\n");
}

/// Puts a list of numbers and ranges behind its key.
fn put_numbers(text: &mut Writer, key: &str, spans: &[Span]) {
    text.put(key);
    for (place, span) in spans.iter().enumerate() {
        text.put(if place == 0 { "\"" } else { ", \"" });
        text.number(span.low);
        if span.low != span.high {
            text.put("..");
            text.number(span.high);
        }
        text.put("\"");
    }
}

/// Puts a list of codes by their names, where they have some.
fn put_codes(text: &mut Writer, protocol: Protocol, spans: &[Span]) {
    for (place, span) in spans.iter().enumerate() {
        if place != 0 {
            text.put(", ");
        }
        put_code(text, protocol, span.low);
    }
}

fn put_code(text: &mut Writer, protocol: Protocol, code: i64) {
    match code_name(protocol, code.clamp(0, 255) as u16) {
        Some(name) => {
            text.put("\"");
            text.put(name);
            text.put("\"");
        }
        None => text.number(code),
    }
}

/// Puts a list of groups by their names, where they have some.
fn put_groups(text: &mut Writer, protocol: Protocol, spans: &[Span]) {
    for (place, span) in spans.iter().enumerate() {
        text.put(if place == 0 { "\"" } else { ", \"" });
        put_group(text, protocol, span.low);
        if span.low != span.high {
            text.put("..");
            put_group(text, protocol, span.high);
        }
        text.put("\"");
    }
}

fn put_group(text: &mut Writer, protocol: Protocol, group: i64) {
    match (protocol, group) {
        (Protocol::Dnp3, 1..=65_535) => {
            text.put("g");
            text.number(group.wrapping_div(256));
            text.put("v");
            text.number(group & 255);
        }
        (Protocol::Iec104, 5) => text.put("request"),
        (Protocol::Iec104, 6) => text.put("activation"),
        (Protocol::Iec104, 8) => text.put("deactivation"),
        _ => text.number(group),
    }
}

fn put_addresses(text: &mut Writer, spans: &[Span]) {
    for (place, span) in spans.iter().enumerate() {
        text.put(if place == 0 { "\"" } else { ", \"" });
        put_address(text, span.low);
        if span.low != span.high {
            text.put("..");
            put_address(text, span.high);
        }
        text.put("\"");
    }
}

/// Puts an address in its dotted form.
fn put_address(text: &mut Writer, address: i64) {
    text.number(address.wrapping_div(16_777_216) & 255);
    text.put(".");
    text.number(address.wrapping_div(65_536) & 255);
    text.put(".");
    text.number(address.wrapping_div(256) & 255);
    text.put(".");
    text.number(address & 255);
}

/// Puts a time to the second, as the calendar has it.
fn put_time(text: &mut Writer, stamp: u64) {
    let seconds = stamp / 1_000_000;
    put_date(text, seconds / 86_400);
    text.put(" ");
    text.two_digits(seconds / 3_600 % 24);
    text.put(":");
    text.two_digits(seconds / 60 % 60);
    text.put(":");
    text.two_digits(seconds % 60);
}

/// Puts the date of a day, counted from 1970-01-01. The calendar repeats after 146,097 days; its years begin in March here.
fn put_date(text: &mut Writer, day: u64) {
    let days = day.wrapping_add(719_468);
    let era = days / 146_097;
    let of_era = days % 146_097;
    let leaps = (of_era / 1_460)
        .wrapping_sub(of_era / 36_524)
        .wrapping_add(of_era / 146_096);
    let year = of_era.wrapping_sub(leaps) / 365;
    let before = year
        .wrapping_mul(365)
        .wrapping_add(year / 4)
        .wrapping_sub(year / 100);
    let of_year = of_era.wrapping_sub(before) % 366;
    let month = of_year.wrapping_mul(5).wrapping_add(2) / 153;
    let first = month.wrapping_mul(153).wrapping_add(2) / 5;
    let late = if month >= 10 { 1 } else { 0 };
    text.number((era.wrapping_mul(400).wrapping_add(year).wrapping_add(late) % 1_000_000) as i64);
    text.put("-");
    text.two_digits(month.wrapping_add(2) % 12 + 1);
    text.put("-");
    text.two_digits(of_year.wrapping_sub(first).wrapping_add(1));
}

fn protocol_text(protocol: Protocol) -> &'static str {
    match protocol {
        Protocol::Modbus => "modbus",
        Protocol::Dnp3 => "dnp3",
        Protocol::Iec104 => "iec104",
    }
}
