//! Regions of acts: clients, groups, points and values from one number to another each.
//! Of a rule's acts ranges of clients, groups, points and values are taken apart, and of each the lowest act is looked at.
ghost use Rattle.std.specs.Prelude.{◌≡◌, ℕ, ◌++◌, IfSome, IfOk, OnOk, true, false};
ghost use Rattle.std.specs.List.{flat_map};
ghost use Rattle.cf_view.specs.declared.base.Act.{Act};
ghost use Rattle.cf_policy.specs.Verdict.{has_act};
ghost use Rattle.cf_covered.specs.Regions.{is_in, Begins, listed, rest, region_of, kind_regions};
ghost use Rattle.cf_covered.specs.Regions.{with_clients, with_groups, with_points, with_values};

use crate::spans::{behind, lacked_part, lacked_values, taken_part, taken_values, values_behind};
use cf_acts::{Groups, Kind};
use cf_policy::{HIGHEST_ADDRESS, Rule, Span, takes};
use std::alloc::{AllocError, Global};

/// Acts of a code: of these clients, with these groups, points and values, or without a value.
#[derive(Clone, Copy)]
pub(crate) struct Region {
    pub clients: Span,
    pub groups: Span,
    pub points: Span,
    pub values: Option<Span>,
}

/// A part of a region, from its lowest act on, all of which with this code a rule has; none where it lacks the lowest.
pub(crate) fn had_part(rule: &Rule, code: u16, region: &Region) -> Option<Region>
    ensures begins { IfSome result (λ part. Begins part region.now) }
    ensures had { IfSome result (λ part. (client : ℕ) (act : Act) → act.code ≡ code → is_in part client act ≡ true
        → has_act rule.now client act ≡ true) }
{
    if !takes(&rule.codes, i64::from(code)) {
        return None;
    }
    Some(Region {
        clients: taken_part(&rule.clients, region.clients)?,
        groups: taken_part(&rule.groups, region.groups)?,
        points: taken_part(&rule.points, region.points)?,
        values: taken_values(&rule.values, region.values)?,
    })
}

/// A part of a region, from its lowest act on, of which a rule has nothing; none where it has the lowest.
pub(crate) fn lacked_region(rule: &Rule, region: &Region) -> Option<Region>
    ensures begins { IfSome result (λ part. Begins part region.now) }
    ensures lacked { IfSome result (λ part. (client : ℕ) (act : Act) → is_in part client act ≡ true → has_act rule.now client act ≡ false) }
{
    if let Some(clients) = lacked_part(&rule.clients, region.clients) {
        return Some(Region { clients, ..*region });
    }
    if let Some(groups) = lacked_part(&rule.groups, region.groups) {
        return Some(Region { groups, ..*region });
    }
    if let Some(points) = lacked_part(&rule.points, region.points) {
        return Some(Region { points, ..*region });
    }
    let values = lacked_values(&rule.values, region.values)?;
    Some(Region { values, ..*region })
}

/// Adds what a region has after a part with which it begins.
pub(crate) fn push_rest(
    left: &mut Vec<Region>,
    region: &Region,
    part: &Region,
) -> Result<(), AllocError>
    ensures { OnOk result (left.new.items ≡ left.old.items ++ rest region.now part.now) }
{
    let same_clients = Region {
        clients: part.clients,
        ..*region
    };
    let same_groups = Region {
        groups: part.groups,
        ..same_clients
    };
    let rest = [
        with_clients(region, behind(region.clients, part.clients.high)),
        with_groups(&same_clients, behind(region.groups, part.groups.high)),
        with_points(&same_groups, behind(region.points, part.points.high)),
        with_values(part, values_behind(region.values, part.values)),
    ];
    push_some(left, &rest)
}

fn with_clients(region: &Region, clients: Option<Span>) -> Option<Region>
    ensures { result ≡ with_clients region.now clients }
{
    Some(Region {
        clients: clients?,
        ..*region
    })
}

fn with_groups(region: &Region, groups: Option<Span>) -> Option<Region>
    ensures { result ≡ with_groups region.now groups }
{
    Some(Region {
        groups: groups?,
        ..*region
    })
}

fn with_points(region: &Region, points: Option<Span>) -> Option<Region>
    ensures { result ≡ with_points region.now points }
{
    Some(Region {
        points: points?,
        ..*region
    })
}

fn with_values(region: &Region, values: Option<Span>) -> Option<Region>
    ensures { result ≡ with_values region.now values }
{
    Some(Region {
        values: Some(values?),
        ..*region
    })
}

/// Adds those that there are.
fn push_some(left: &mut Vec<Region>, regions: &[Option<Region>]) -> Result<(), AllocError>
    ensures { OnOk result (left.new.items ≡ left.old.items ++ flat_map listed regions.now) }
{
    for region in regions {
        if let Some(region) = region {
            left.push(*region)?;
        }
    }
    Ok(())
}

/// The regions of all that some kinds of acts have, with every client.
pub(crate) fn regions_of(alloc: Global, kinds: &[Kind]) -> Result<Vec<Region>, AllocError>
    ensures { IfOk result (λ regions. regions.items ≡ flat_map kind_regions kinds.now) }
{
    let mut regions = Vec::new(alloc);
    for kind in kinds {
        push_kind(&mut regions, kind)?;
    }
    Ok(regions)
}

fn push_kind(regions: &mut Vec<Region>, kind: &Kind) -> Result<(), AllocError>
    ensures { OnOk result (regions.new.items ≡ regions.old.items ++ kind_regions kind.now) }
{
    match kind.groups {
        Groups::Span(span) => regions.extend_from_slice(&[region_of(kind, span)]),
        Groups::Causes => regions.extend_from_slice(&[
            region_of(kind, single(5)),
            region_of(kind, single(6)),
            region_of(kind, single(8)),
        ]),
    }
}

fn single(number: i64) -> Span
    ensures { result ≡ record { low = number; high = number } }
{
    Span {
        low: number,
        high: number,
    }
}

fn region_of(kind: &Kind, groups: Span) -> Region
    ensures { result ≡ region_of kind.now groups }
{
    Region {
        clients: Span {
            low: 0,
            high: HIGHEST_ADDRESS,
        },
        groups,
        points: kind.points,
        values: kind.values,
    }
}
