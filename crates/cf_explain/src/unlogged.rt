//! Rules that allow more than reads, and have no log.
use crate::page::Page;
use crate::quote::push_titled;
use cf_covered::some_overlap;
use cf_policy::{Action, Asset, Policy, Protocol, Rule, Span, takes};

/// How many assets have a line, and how many rules are named in one.
const MOST: u64 = 20;

/// The codes other than those of reads: of Modbus without those of function 23, of which one half reads.
const MODBUS: [Span; 3] = [
    Span { low: 5, high: 6 },
    Span { low: 15, high: 16 },
    Span { low: 22, high: 22 },
];

/// Of DNP3 without 1, which reads, and 23, which measures a delay.
const DNP3: [Span; 4] = [
    Span { low: 2, high: 10 },
    Span { low: 13, high: 14 },
    Span { low: 20, high: 22 },
    Span { low: 24, high: 24 },
];

/// Of IEC 60870-5-104 without 100 to 102, which interrogate and read, and 107, which tests.
const IEC104: [Span; 5] = [
    Span { low: 45, high: 51 },
    Span { low: 58, high: 64 },
    Span {
        low: 103,
        high: 103,
    },
    Span {
        low: 105,
        high: 105,
    },
    Span {
        low: 110,
        high: 113,
    },
];

/// A note for each asset with rules that allow codes other than reads and have no log, with their numbers from 1.
pub(crate) fn push_unlogged(out: &mut Page, file: &str, policy: &Policy) {
    let mut count = 0u64;
    for (index, asset) in policy.assets.as_slice().iter().enumerate() {
        if has_unlogged(asset) {
            if count < MOST {
                let number = (index as u64).saturating_add(1);
                push_titled_note(out, file, number, asset);
            }
            count = count.saturating_add(1);
        }
    }
    if count > MOST {
        out.push_all(&[file, ": note: assets with such rules beside these: "]);
        out.push_number(count - MOST);
        out.push("\n");
    }
}

/// The note about an asset, by its number from 1.
fn push_titled_note(out: &mut Page, file: &str, number: u64, asset: &Asset) {
    out.push(file);
    push_titled(out, ": note: asset ", number, asset.name.as_str());
    out.push(" has rules that allow codes other than those of reads, and have no log = true: ");
    push_numbers(out, asset);
    out.push("\n");
}

/// The numbers of an asset's rules without a log, from 1.
fn push_numbers(out: &mut Page, asset: &Asset) {
    let mut count = 0u64;
    for (index, rule) in asset.rules.as_slice().iter().enumerate() {
        if is_unlogged(asset.protocol, rule) {
            if count < MOST {
                let between = if count == 0 { "" } else { ", " };
                out.push_number_after(between, (index as u64).saturating_add(1));
            }
            count = count.saturating_add(1);
        }
    }
    if count > MOST {
        out.push_number_after(" and ", count - MOST);
        out.push(" more");
    }
}

fn has_unlogged(asset: &Asset) -> bool {
    for rule in asset.rules.as_slice() {
        if is_unlogged(asset.protocol, rule) {
            return true;
        }
    }
    false
}

/// Whether a rule allows a code other than that of a read, and has no log.
fn is_unlogged(protocol: Protocol, rule: &Rule) -> bool {
    rule.action == Action::Allow && !rule.log && has_more_than_reads(protocol, rule)
}

fn has_more_than_reads(protocol: Protocol, rule: &Rule) -> bool {
    let codes: &[Span] = match protocol {
        Protocol::Modbus => &MODBUS,
        Protocol::Dnp3 => &DNP3,
        Protocol::Iec104 => &IEC104,
    };
    for span in codes {
        if some_overlap(rule.codes.as_slice(), span) {
            return true;
        }
    }
    protocol == Protocol::Modbus && takes(&rule.codes, 23) && takes(&rule.groups, 1)
}
