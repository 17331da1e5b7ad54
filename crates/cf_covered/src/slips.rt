//! Numbers of a rule that are likely not those that were meant.
use cf_policy::{Protocol, Rule, Span, takes};

/// A number of a rule that is likely a slip.
#[derive(Clone, Copy)]
pub enum Slip {
    /// This group of DNP3 is object group 0 with a variation that no standard names: likely an object group without its variation.
    Group(i64),
    /// This point of Modbus is likely a register of a manual that numbers registers from the second number on.
    Register(i64, i64),
}

/// The last variation of object group 0 before those of device attributes, which begin at 196. IEEE 1815-2012, annex A.1.
const LAST_VARIATION: i64 = 195;

/// The function codes that name holding registers, and input registers. MODBUS Application Protocol Specification V1.1b3, section 6.
const HOLDING: [i64; 5] = [3, 6, 16, 22, 23];

const INPUT: [i64; 1] = [4];

/// Where manuals begin to number holding registers, and input registers.
const FIRST_HOLDING: i64 = 40_001;

const FIRST_INPUT: i64 = 30_001;

/// The most registers that such a number of five digits leaves.
const REGISTERS: i64 = 9_999;

/// A number of a rule that is likely a slip. This project's own.
pub fn likely_slip(protocol: Protocol, rule: &Rule) -> Option<Slip> {
    match protocol {
        Protocol::Modbus => register_slip(rule),
        Protocol::Dnp3 => group_slip(rule),
        Protocol::Iec104 => None,
    }
}

fn group_slip(rule: &Rule) -> Option<Slip> {
    let number = first_within(rule.groups.as_slice(), 1, LAST_VARIATION)?;
    Some(Slip::Group(number))
}

fn register_slip(rule: &Rule) -> Option<Slip> {
    match numbered_from(rule, FIRST_HOLDING, &HOLDING) {
        Some(slip) => Some(slip),
        None => numbered_from(rule, FIRST_INPUT, &INPUT),
    }
}

/// A point of a rule with one of the codes that is likely a register of a manual which numbers them so.
fn numbered_from(rule: &Rule, first: i64, codes: &[i64]) -> Option<Slip> {
    if !codes.iter().any(|code| takes(&rule.codes, *code)) {
        return None;
    }
    let number = first_within(
        rule.points.as_slice(),
        first,
        first.saturating_add(REGISTERS - 1),
    )?;
    Some(Slip::Register(number, first))
}

/// The low end of the first span that lies within others.
fn first_within(spans: &[Span], low: i64, high: i64) -> Option<i64> {
    let span = spans
        .iter()
        .find(|span| low <= span.low && span.high <= high)?;
    Some(span.low)
}
