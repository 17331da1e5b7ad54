//! What is warned of rules.
ghost use Rattle.std.specs.Prelude.{◌<◌, length};
ghost use Rattle.cf_covered.specs.Outlines.{IsTold};

use crate::found::{What, findings};
use cf_covered::{
    Cover, Earlier, Slip, code_end, cover_of, covering, have_common, highest_point, likely_slip,
    outlines,
};
use cf_policy::{Action, Asset, Policy, Rule, Span, takes};
use std::alloc::{AllocError, Global};

/// What is warned of a rule.
#[derive(Clone, Copy)]
pub(crate) enum Warning {
    /// What is found of it.
    Found(What),
    /// Earlier rules have every act of a command that it has.
    Behind(Cover),
    /// It names points above the highest, the second number, of this code.
    Points(u16, i64),
    /// A number of it is likely a slip.
    Slip(Slip),
}

/// What is warned of the rule of a number of an asset, both from 0.
#[derive(Clone, Copy)]
pub(crate) struct Warned {
    pub asset: usize,
    pub rule: usize,
    pub told: Warning,
}

/// What earlier rules do of all that a rule would refuse.
#[derive(Clone, Copy)]
pub(crate) enum Silence {
    /// The rule of this number allows it.
    Rule(usize),
    /// The rule of this number allows it, but for what rules before that may refuse.
    Rest(usize),
    /// Together they allow it.
    All,
    /// Together they decide it, and not all of them refuse.
    Part,
}

/// All that is warned of a policy's rules, in their order.
pub(crate) fn gathered(alloc: Global, policy: &Policy) -> Result<Vec<Warned>, AllocError> {
    let mut all = Vec::new(alloc);
    let mut number = 0usize;
    for asset in policy.assets.as_slice() {
        gather_asset(alloc, &mut all, number, asset)?;
        number = number.saturating_add(1);
    }
    Ok(all)
}

fn gather_asset(
    alloc: Global,
    all: &mut Vec<Warned>,
    number: usize,
    asset: &Asset,
) -> Result<(), AllocError> {
    let outlines = outlines(alloc, asset.rules.as_slice())?;
    for rule in 0..asset.rules.len() {
        let earlier = covering(alloc, outlines.as_slice(), rule)?;
        gather_rule(alloc, all, number, asset, &earlier, rule)?;
    }
    Ok(())
}

/// Adds what is warned of the rule of a number of the asset of a number.
fn gather_rule(
    alloc: Global,
    all: &mut Vec<Warned>,
    asset_number: usize,
    asset: &Asset,
    earlier: &Earlier<'_>,
    number: usize,
) -> Result<(), AllocError>
    requires inside { number < length asset.now.rules }
    requires earlier { IsTold asset.now.rules number earlier.now }
{
    let found = findings(alloc, asset, earlier, number)?;
    put_found(all, asset_number, number, found.as_slice())?;
    if is_never_met(found.as_slice()) {
        return Ok(());
    }
    gather_beside(alloc, all, asset_number, asset, earlier, number)
}

/// Adds what is warned of a rule beside what is found of it.
fn gather_beside(
    alloc: Global,
    all: &mut Vec<Warned>,
    asset_number: usize,
    asset: &Asset,
    earlier: &Earlier<'_>,
    number: usize,
) -> Result<(), AllocError>
    requires inside { number < length asset.now.rules }
    requires earlier { IsTold asset.now.rules number earlier.now }
{
    if let Earlier::Common(others) = earlier {
        let rule = &asset.rules.as_slice()[number];
        let behind = cover_of(alloc, asset, others.as_slice(), number)?;
        let slip = likely_slip(asset.protocol, rule);
        put(all, asset_number, number, behind.map(Warning::Behind))?;
        put(all, asset_number, number, points_told(asset, rule))?;
        put(all, asset_number, number, slip.map(Warning::Slip))?;
    }
    Ok(())
}

fn put_found(
    all: &mut Vec<Warned>,
    asset: usize,
    rule: usize,
    found: &[What],
) -> Result<(), AllocError> {
    for what in found {
        put(all, asset, rule, Some(Warning::Found(*what)))?;
    }
    Ok(())
}

fn put(
    all: &mut Vec<Warned>,
    asset: usize,
    rule: usize,
    told: Option<Warning>,
) -> Result<(), AllocError> {
    if let Some(told) = told {
        all.push(Warned { asset, rule, told })?;
    }
    Ok(())
}

/// Whether what is found says that a rule has no act of a command.
fn is_never_met(found: &[What]) -> bool {
    for what in found {
        if matches!(what, What::Never(_, _)) {
            return true;
        }
    }
    false
}

/// That a rule names points which no act of a command with one of its codes has, beside some that they have.
fn points_told(asset: &Asset, rule: &Rule) -> Option<Warning> {
    for code in 0..code_end(rule) {
        if let Some(high) = passed_point(asset, rule, code) {
            return Some(Warning::Points(code, high));
        }
    }
    None
}

/// The highest point of a code, where a rule with the code has some up to it and some above it.
fn passed_point(asset: &Asset, rule: &Rule, code: u16) -> Option<i64> {
    if !takes(&rule.codes, i64::from(code)) {
        return None;
    }
    let high = highest_point(asset.protocol, code)?;
    if are_beyond(rule.points.as_slice(), high) {
        Some(high)
    } else {
        None
    }
}

/// Whether spans have a number up to this one and a number above it.
fn are_beyond(spans: &[Span], high: i64) -> bool {
    let mut some_below = false;
    let mut some_above = false;
    for span in spans {
        some_below |= span.low <= high;
        some_above |= high < span.high;
    }
    some_below && some_above
}

/// What earlier rules do of all that a rule would refuse, where one of them allows.
pub(crate) fn silence_about(asset: &Asset, warned: &Warned) -> Option<Silence> {
    let rules = asset.rules.as_slice();
    let rule = rules.get(warned.rule)?;
    if rule.action == Action::Allow {
        return None;
    }
    match warned.told {
        Warning::Found(What::Covered(first)) | Warning::Behind(Cover::Rule(first)) => {
            silence_behind(rules, first, rule)
        }
        Warning::Behind(Cover::Rules) => silence_among(rules.get(..warned.rule)?, rule),
        _ => None,
    }
}

fn silence_behind(rules: &[Rule], number: usize, rule: &Rule) -> Option<Silence> {
    let first = rules.get(number)?;
    if first.action == Action::Refuse {
        None
    } else if some_do(rules.get(..number)?, rule, Action::Refuse) {
        Some(Silence::Rest(number))
    } else {
        Some(Silence::Rule(number))
    }
}

fn silence_among(earlier: &[Rule], rule: &Rule) -> Option<Silence> {
    if !some_do(earlier, rule, Action::Allow) {
        None
    } else if some_do(earlier, rule, Action::Refuse) {
        Some(Silence::Part)
    } else {
        Some(Silence::All)
    }
}

/// Whether some of the rules that may have an act in common with another do this.
fn some_do(earlier: &[Rule], rule: &Rule, action: Action) -> bool {
    for first in earlier {
        if first.action == action && have_common(first, rule) {
            return true;
        }
    }
    false
}
