//! An asset of a policy's file, and how a line names it and its rules.
use crate::difference::{PolicyFile, asset_named};
use crate::page::Page;
use crate::policy::push_rule_place;
use crate::quote::push_titled;
use cf_policy::Asset;

/// An asset of a policy's file, with its number from 1.
#[derive(Clone, Copy)]
pub(crate) struct Seat<'a> {
    pub(crate) source: &'a PolicyFile<'a>,
    pub(crate) number: u64,
    pub(crate) asset: &'a Asset,
}

/// The asset of a name in a policy's file.
pub(crate) fn seat_named<'a>(source: &'a PolicyFile<'a>, name: &str) -> Option<Seat<'a>> {
    let (place, asset) = asset_named(source.policy, name)?;
    Some(Seat {
        source,
        number: u64::from(place).saturating_add(1),
        asset,
    })
}

/// The file, and the number and the name of the asset.
pub(crate) fn push_seat(out: &mut Page, seat: &Seat<'_>) {
    out.push(seat.source.name);
    push_titled(out, ": asset ", seat.number, seat.asset.name.as_str());
}

/// The file, with line and column where the rule at an index begins, the asset behind a word, and the rule.
pub(crate) fn push_rule_of(out: &mut Page, seat: &Seat<'_>, word: &str, index: usize) {
    let number = (index as u64).saturating_add(1);
    out.push(seat.source.name);
    push_rule_place(out, seat.source.text, seat.number, number);
    push_titled(out, word, seat.number, seat.asset.name.as_str());
    match seat.asset.rules.as_slice().get(index) {
        Some(rule) => push_titled(out, ", rule ", number, rule.name.as_str()),
        None => out.push_number_after(", rule ", number),
    }
}
