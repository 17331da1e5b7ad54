//! Rules that decide nothing that a command can have.
ghost use Rattle.std.specs.Prelude.{◌≡◌, ◌<◌, map, filter, length, slice_get, take, Some, IfOk, IfSome, true, [], ◌∷◌};
ghost use Rattle.cf_policy.specs.declared.policy.Rule.{Rule};
ghost use Rattle.cf_covered.specs.Common.{have_common};
ghost use Rattle.cf_covered.specs.Covered.{DecidesNoCommand, IsCover, HaveAllOf};

use crate::common::have_common;
use crate::search::{Search, have_all_of};
use cf_policy::{Asset, Protocol, Rule};
use std::alloc::{AllocError, Global};

/// How much is looked at for a rule before nothing is said of it: spans of the rules before it, each as often as it is asked.
const MOST_LOOKS: u32 = 1_000_000;

/// What has all that a later rule has.
#[derive(Clone, Copy)]
pub enum Cover {
    /// An earlier rule alone, by its number from 0.
    Rule(usize),
    /// The rules before it together.
    Rules,
}

/// What stands before the rule of a number, from 0, and has every act of a command that the rule has, so that the rule decides
/// none, given the rules before it that may have an act in common with it. Nothing is said where the rule decides some, or where
/// too much would have to be looked at. This project's own.
pub fn cover_of(
    alloc: Global,
    asset: &Asset,
    others: &[&Rule],
    number: usize,
) -> Result<Option<Cover>, AllocError>
    requires inside { number < length asset.now.rules }
    requires common { (rule : Rule) → slice_get asset.now.rules number ≡ Some rule
        → map (λ r. r.now) others.now ≡ filter (λ r. have_common r rule) (take number asset.now.rules) }
    ensures never { IfOk result (λ found. IfSome found (λ _. DecidesNoCommand asset.now number)) }
    ensures covers { (rule : Rule) → slice_get asset.now.rules number ≡ Some rule
        → IfOk result (λ found. IfSome found (IsCover asset.now.protocol (take number asset.now.rules) rule)) }
{
    let rules = asset.rules.as_slice();
    let rule = &rules[number];
    cover_among(alloc, asset.protocol, &rules[..number], others, rule)
}

/// What of the rules before a rule has all that it has, given those of them that may have an act in common with it.
fn cover_among(
    alloc: Global,
    protocol: Protocol,
    earlier: &[Rule],
    others: &[&Rule],
    rule: &Rule,
) -> Result<Option<Cover>, AllocError>
    requires { map (λ r. r.now) others.now ≡ filter (λ r. have_common r rule.now) earlier.now }
    ensures { IfOk result (λ found. IfSome found (IsCover protocol earlier.now rule.now)) }
{
    match have_all_of(alloc, protocol, others, rule, steps_over(others, rule)) {
        Ok(Search::All) => {}
        Ok(_) => return Ok(None),
        Err(fault) => return Err(fault),
    }
    match first_alone(alloc, protocol, earlier, rule)? {
        Some(number) => Ok(Some(Cover::Rule(number))),
        None => Ok(Some(Cover::Rules)),
    }
}

/// The number of the first rule that has all that a later one has.
fn first_alone(
    alloc: Global,
    protocol: Protocol,
    earlier: &[Rule],
    rule: &Rule,
) -> Result<Option<usize>, AllocError>
    ensures { IfOk result (λ found. IfSome found (λ number. (number < length earlier.now)
        × ((first : Rule) → slice_get earlier.now number ≡ Some first → HaveAllOf protocol (first ∷ []) rule.now))) }
{
    for number in 0..earlier.len() {
        match has_all_of(alloc, protocol, &earlier[number], rule) {
            Ok(false) => {}
            Ok(true) => return Ok(Some(number)),
            Err(fault) => return Err(fault),
        }
    }
    Ok(None)
}

fn has_all_of(
    alloc: Global,
    protocol: Protocol,
    first: &Rule,
    rule: &Rule,
) -> Result<bool, AllocError>
    ensures { IfOk result (λ all. all ≡ true → HaveAllOf protocol (first.now ∷ []) rule.now) }
{
    if !have_common(first, rule) {
        return Ok(false);
    }
    let others = [first];
    match have_all_of(alloc, protocol, &others, rule, steps_over(&others, rule)) {
        Ok(Search::All) => Ok(true),
        Ok(_) => Ok(false),
        Err(fault) => Err(fault),
    }
}

/// How many regions may be looked at.
fn steps_over(others: &[&Rule], rule: &Rule) -> u32 {
    let mut spans = 1usize;
    for other in others {
        spans = spans.saturating_add(span_count(other));
    }
    let looks = spans.saturating_mul(rule.codes.len());
    MOST_LOOKS / u32::try_from(looks).unwrap_or(u32::MAX).max(1)
}

/// One more than the spans that a rule states, but for its codes.
fn span_count(rule: &Rule) -> usize {
    let places = rule.clients.len().saturating_add(rule.groups.len());
    let numbers = rule.points.len().saturating_add(rule.values.len());
    places.saturating_add(numbers).saturating_add(1)
}
