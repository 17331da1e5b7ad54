//! Whether some rules have all that another one has, code by code.
ghost use Rattle.std.specs.Prelude.{◌≡◌, ℕ, map, IfOk, IfSome, true, [], ◌∷◌};
ghost use Rattle.std.specs.List.{list_any};
ghost use Rattle.cf_view.specs.declared.base.Act.{Act};
ghost use Rattle.cf_policy.specs.Verdict.{has_act};
ghost use Rattle.cf_covered.specs.Covered.{HaveAllOf, HaveCodeOf};
ghost use Rattle.cf_covered.specs.Regions.{AreSettled, Begins, is_in};

use crate::codes::code_end;
use crate::regions::{Region, had_part, lacked_region, push_rest, regions_of};
use cf_acts::kinds;
use cf_policy::{Protocol, Rule, takes};
use std::alloc::{AllocError, Global};

/// What a search says.
#[derive(Clone, Copy)]
pub(crate) enum Search {
    /// The others have all that the rule has.
    All,
    /// The rule has an act that none of the others has.
    Alone,
    /// More regions would have to be looked at than may be.
    Stopped,
}

/// Whether each act of a command that a rule has is one of the others' too. Of each code at most so many regions of acts are looked
/// at.
pub(crate) fn have_all_of(
    alloc: Global,
    protocol: Protocol,
    others: &[&Rule],
    rule: &Rule,
    steps: u32,
) -> Result<Search, AllocError>
    ensures { IfOk result (λ found. found ≡ Search.All → HaveAllOf protocol (map (λ r. r.now) others.now) rule.now) }
{
    for code in 0..code_end(rule) {
        match have_code_of(alloc, protocol, others, rule, code, steps) {
            Ok(Search::All) => {}
            Ok(Search::Alone) => return Ok(Search::Alone),
            Ok(Search::Stopped) => return Ok(Search::Stopped),
            Err(fault) => return Err(fault),
        }
    }
    Ok(Search::All)
}

fn have_code_of(
    alloc: Global,
    protocol: Protocol,
    others: &[&Rule],
    rule: &Rule,
    code: u16,
    steps: u32,
) -> Result<Search, AllocError>
    ensures { IfOk result (λ found. found ≡ Search.All → HaveCodeOf protocol (map (λ r. r.now) others.now) rule.now code) }
{
    if !takes(&rule.codes, i64::from(code)) {
        return Ok(Search::All);
    }
    let regions = regions_of(alloc, kinds(protocol, code))?;
    are_settled(regions, others, rule, code, steps)
}

/// Whether each act of some regions that a rule has is one of the others' too. A region whose lowest act the rule lacks, or has
/// together with another rule, is settled as far as that goes on along each of its spans; what it has after that is looked at next.
fn are_settled(
    regions: Vec<Region>,
    others: &[&Rule],
    rule: &Rule,
    code: u16,
    steps: u32,
) -> Result<Search, AllocError>
    ensures { IfOk result (λ found. found ≡ Search.All → AreSettled rule.now (map (λ r. r.now) others.now) code regions.items) }
{
    let mut left = regions;
    for _ in 0..steps {
        match left.pop() {
            None => return Ok(Search::All),
            Some(region) => match settled_part(others, rule, code, &region) {
                None => return Ok(Search::Alone),
                Some(part) => push_rest(&mut left, &region, &part)?,
            },
        }
    }
    Ok(Search::Stopped)
}

/// A part of a region, from its lowest act on, that is settled; none where the rule alone has the lowest.
fn settled_part(others: &[&Rule], rule: &Rule, code: u16, region: &Region) -> Option<Region>
    ensures begins { IfSome result (λ part. Begins part region.now) }
    ensures settled { IfSome result (λ part. AreSettled rule.now (map (λ r. r.now) others.now) code (part ∷ [])) }
{
    match lacked_region(rule, region) {
        Some(part) => Some(part),
        None => shared_part(others, code, region),
    }
}

/// A part of a region, from its lowest act on, that one of the rules has.
fn shared_part(others: &[&Rule], code: u16, region: &Region) -> Option<Region>
    ensures begins { IfSome result (λ part. Begins part region.now) }
    ensures shared { IfSome result (λ part. (client : ℕ) (act : Act) → act.code ≡ code → is_in part client act ≡ true
        → list_any (λ r. has_act r client act) (map (λ r. r.now) others.now) ≡ true) }
{
    for other in others {
        match had_part(other, code, region) {
            Some(part) => return Some(part),
            None => {}
        }
    }
    None
}
