//! Rules that one earlier rule covers by its lists, and those that it may have an act in common with.
ghost use Rattle.std.specs.Prelude.{◌≡◌, ◌<◌, ◌++◌, [], ◌∷◌, All, IfOk, OnOk, filter, length, map};
ghost use Rattle.std.specs.List.{list_all};
ghost use Rattle.cf_covered.specs.Common.{have_common};
ghost use Rattle.cf_covered.specs.Including.{includes, includes_rule, is_inside, is_inside_some};
ghost use Rattle.cf_covered.specs.Outlines.{HasHull, IsTold, Tells, rules_of};

use crate::common::{have_common, overlap};
use crate::outline::Outline;
use cf_policy::{Items, Rule, Span};
use std::alloc::{AllocError, Global};

/// What the rules before a rule are to it.
#[derive(Drop)]
pub enum Earlier<'a> {
    /// The first that covers it, by its number from 0: each list that it states has each span of the rule's list inside one span.
    Covering(usize),
    /// No rule alone covers it so. These may have an act in common with it, and no others have.
    Common(Vec<&'a Rule>),
}

/// What the rules before the rule of a number, from 0, are to it. Where one covers it, it never decides. Rules that cover it only
/// together are not found here.
pub fn covering<'a>(
    alloc: Global,
    outlines: &[Outline<'a>],
    number: usize,
) -> Result<Earlier<'a>, AllocError>
    requires inside { number < length outlines.now }
    requires hulls { All HasHull outlines.now }
    ensures told { IfOk result (IsTold (rules_of outlines.now) number) }
{
    look(alloc, &outlines[..number], &outlines[number])
}

/// Whose hulls are apart from that of the rule neither cover it nor have an act in common with it, so nothing else is read of them.
fn look<'a>(
    alloc: Global,
    earlier: &[Outline<'a>],
    outline: &Outline<'_>,
) -> Result<Earlier<'a>, AllocError>
    requires hulls { All HasHull earlier.now }
    requires hull { HasHull outline.now }
    ensures { IfOk result (Tells (rules_of earlier.now) outline.now.rule.now) }
{
    let hull = outline.hull;
    let mut common = Vec::new(alloc);
    for number in 0..earlier.len() {
        let other = &earlier[number];
        if overlap(&other.hull, &hull) {
            if includes_rule(other.rule, outline.rule) {
                return Ok(Earlier::Covering(number));
            }
            push_common(&mut common, other.rule, outline.rule)?;
        }
    }
    Ok(Earlier::Common(common))
}

/// Adds a rule if it may have an act in common with another.
fn push_common<'a>(
    common: &mut Vec<&'a Rule>,
    other: &'a Rule,
    rule: &Rule,
) -> Result<(), AllocError>
    ensures { OnOk result (map (λ r. r.now) common.new.items
        ≡ map (λ r. r.now) common.old.items ++ filter (λ r. have_common r rule.now) (other.now ∷ [])) }
{
    if have_common(other, rule) {
        common.push(other)?;
    }
    Ok(())
}

/// Points are looked at first, as rules of a code mostly differ there.
fn includes_rule(outer: &Rule, inner: &Rule) -> bool
    ensures { result ≡ includes_rule outer.now inner.now }
{
    if !includes(&outer.points, &inner.points) {
        return false;
    }
    includes(&outer.clients, &inner.clients)
        && (includes(&outer.codes, &inner.codes)
            && (includes(&outer.groups, &inner.groups)
                && (includes(&outer.points, &inner.points)
                    && includes(&outer.values, &inner.values))))
}

/// Whether a list that is not stated, or one with each span of the other inside one of its own.
fn includes(outer: &Items<Span>, inner: &Items<Span>) -> bool
    ensures { result ≡ includes outer.now inner.now }
{
    outer.is_empty() || (!inner.is_empty() && all_inside(outer.as_slice(), inner.as_slice()))
}

fn all_inside(outers: &[Span], inners: &[Span]) -> bool
    ensures { result ≡ list_all (is_inside_some outers.now) inners.now }
{
    inners.iter().all(|inner| is_inside_some(outers, inner))
}

fn is_inside_some(outers: &[Span], inner: &Span) -> bool
    ensures { result ≡ is_inside_some outers.now inner.now }
{
    outers.iter().any(|outer| is_inside(outer, inner))
}

fn is_inside(outer: &Span, inner: &Span) -> bool
    ensures { result ≡ is_inside outer.now inner.now }
{
    outer.low <= inner.low && inner.high <= outer.high
}
