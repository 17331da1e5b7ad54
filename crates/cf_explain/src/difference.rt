//! Why one policy is not included in another: which rule of the first allows an act, and why the second refuses it.
use crate::code_words::code_words;
use crate::commands::{Found, Shown, first_of_commands};
use crate::page::Page;
use crate::quote::push_titled;
use crate::seat::{Seat, push_rule_of, push_seat, seat_named};
use cf_acts::{Groups, Kind, kinds};
use cf_compare::{CompareFault, Compared, MOST_CELLS};
use cf_policy::{Asset, Decider, Policy, Protocol, Span, Verdict, verdict};
use cf_view::{Act, Reason};
use std::alloc::{AllocError, Global};

/// A policy's file: its name, its text, and what the text means.
#[derive(Clone, Copy)]
pub struct PolicyFile<'a> {
    pub name: &'a str,
    pub text: &'a [u8],
    pub policy: &'a Policy,
}

/// Why the first policy is not included in the second, in two lines: of the first act that only the first allows, the rule that
/// allows it there, and what refuses it here; or which asset has no partner, or makes too many cells. `answer` is that of their
/// comparison.
pub fn inclusion_message(
    alloc: Global,
    ours: &PolicyFile<'_>,
    other: &PolicyFile<'_>,
    answer: &Result<Compared, CompareFault>,
) -> Result<String, AllocError> {
    let mut out = Page::new(alloc);
    push_answer(&mut out, ours, other, answer);
    out.finish()
}

fn push_answer(
    out: &mut Page,
    ours: &PolicyFile<'_>,
    other: &PolicyFile<'_>,
    answer: &Result<Compared, CompareFault>,
) {
    match answer {
        Ok(Compared::Included) => out.push_all(&[
            ours.name,
            " allows only what ",
            other.name,
            " allows",
        ]),
        Ok(Compared::Missing(place)) => push_lack(out, ours, other, *place, None),
        Ok(Compared::Shown { asset, client, act }) => {
            let shown = Shown {
                client: *client,
                act: *act,
            };
            push_lack(out, ours, other, *asset, Some(&shown));
        }
        Err(CompareFault::Cells(place)) => push_cells(out, ours, other, *place),
        Err(CompareFault::NoMemory) => out.run_out(),
    }
}

/// The asset at a place of a policy, from 0.
fn seat_at<'a>(source: &'a PolicyFile<'a>, place: u32) -> Option<Seat<'a>> {
    let asset = source.policy.assets.as_slice().get(place as usize)?;
    Some(Seat {
        source,
        number: u64::from(place).saturating_add(1),
        asset,
    })
}

/// The asset of a name, with its place from 0.
pub fn asset_named<'a>(policy: &'a Policy, name: &str) -> Option<(u32, &'a Asset)> {
    let mut place = 0u32;
    for asset in policy.assets.as_slice() {
        if asset.name.as_str() == name {
            return Some((place, asset));
        }
        place = place.saturating_add(1);
    }
    None
}

/// Why the asset at a place has no partner, or which act it allows that the partner refuses.
fn push_lack(
    out: &mut Page,
    ours: &PolicyFile<'_>,
    other: &PolicyFile<'_>,
    place: u32,
    shown: Option<&Shown>,
) {
    let Some(here) = seat_at(&*ours, place) else {
        return;
    };
    let there = seat_named(&*other, here.asset.name.as_str());
    match shown {
        Some(shown) => push_difference(out, &here, there, shown),
        None => push_missing(out, &here, other, there),
    }
}

/// That the other policy has no asset of this name, or one that is another controller.
fn push_missing(out: &mut Page, here: &Seat<'_>, other: &PolicyFile<'_>, there: Option<Seat<'_>>) {
    push_seat(out, here);
    out.push(" has no partner\n  ");
    match there {
        None => out.push_all(&[other.name, ": it has no asset of this name"]),
        Some(there) => {
            push_seat(out, &there);
            out.push_all(&[" has another ", what_differs(here.asset, there.asset)]);
        }
    }
}

/// The first key in which two assets of one name are different controllers.
fn what_differs(asset: &Asset, partner: &Asset) -> &'static str {
    if asset.endpoint.address != partner.endpoint.address {
        "address"
    } else if asset.endpoint.port != partner.endpoint.port {
        "port"
    } else if asset.protocol != partner.protocol {
        "protocol"
    } else if asset.station != partner.station {
        "station"
    } else {
        "master"
    }
}

/// That there is too much to compare.
fn push_cells(out: &mut Page, ours: &PolicyFile<'_>, other: &PolicyFile<'_>, place: u32) {
    if let Some(here) = seat_at(&*ours, place) {
        push_seat(out, &here);
        let rules = ": the ends of the ranges in its rules and in those of ";
        out.push_all(&[rules, other.name]);
        out.push_number_after(" make more than ", MOST_CELLS);
        out.push(" cells\n  fewer entries in the rules of one code make fewer");
    }
}

/// Which rule of the first policy allows an act, and what of the second refuses it. Where no command has the act, that is said, and
/// the first that a command has.
fn push_difference(out: &mut Page, here: &Seat<'_>, there: Option<Seat<'_>>, shown: &Shown) {
    push_shown(out, here, there, shown);
    if let Some(there) = there
        && !is_of_command(here.asset.protocol, &shown.act)
    {
        out.push(
            "\n  no command has this act: a comparison goes over all numbers that rules can name",
        );
        push_of_commands(out, here, there);
    }
}

/// An act, the rule that allows it there, and what refuses it here.
pub(crate) fn push_shown(out: &mut Page, here: &Seat<'_>, there: Option<Seat<'_>>, shown: &Shown) {
    push_decider(out, here, shown);
    push_act(out, here.asset.protocol, shown);
    out.push("\n  ");
    if let Some(there) = there {
        push_decider(out, &there, shown);
        out.push("it");
    }
}

/// The first act of a command that is allowed there and refused here, or that this asset has none.
fn push_of_commands(out: &mut Page, here: &Seat<'_>, there: Seat<'_>) {
    match first_of_commands(out, here.asset, there.asset) {
        Found::Beyond(shown) => {
            out.push("\n  the first that a command has:\n");
            push_shown(out, here, Some(there), &shown);
        }
        Found::Nothing => {
            out.push("\n  of the acts that commands have, this asset allows none beyond");
        }
        Found::TooMany => {
            out.push("\n  the acts that commands have are too many to look at: some may differ");
        }
    }
}

/// The file, with line and column where a rule decides, the asset, and the rule and what it does, or that none allows.
fn push_decider(out: &mut Page, seat: &Seat<'_>, shown: &Shown) {
    match verdict(seat.asset, shown.client, &shown.act) {
        Verdict::Allow(index) => push_rule(out, seat, index, " allows "),
        Verdict::Refuse(Decider::Rule(index), _) => push_rule(out, seat, index, " refuses "),
        Verdict::Refuse(_, reason) => {
            push_seat(out, seat);
            out.push_all(&[": ", lacking(reason), ", so default refuses "]);
        }
    }
}

/// The rule at an index, and what it does.
fn push_rule(out: &mut Page, seat: &Seat<'_>, index: usize, does: &str) {
    push_rule_of(out, seat, ": asset ", index);
    out.push(does);
}

/// What no allow rule has.
fn lacking(reason: Reason) -> &'static str {
    match reason {
        Reason::Point => "no allow rule with its client, code and group has the point",
        Reason::Value => "no allow rule with its client, code, group and point has the value",
        _ => "no allow rule has its client, code and group",
    }
}

/// An act of a client in words.
fn push_act(out: &mut Page, protocol: Protocol, shown: &Shown) {
    let act = &shown.act;
    out.push_number_after("code ", u64::from(act.code));
    if let Some(name) = code_words(protocol, act.code) {
        out.push_all(&[" (", name, ")"]);
    }
    out.push_number_after(", group ", u64::from(act.group));
    out.push_number_after(", point ", u64::from(act.point));
    match act.value {
        Some(value) => out.push_signed_after(", value ", value),
        None => out.push(", without a value"),
    }
    out.push(" from ");
    push_address(out, shown.client);
}

fn push_address(out: &mut Page, address: u32) {
    let address = u64::from(address);
    out.push_number(address / 16_777_216);
    out.push_number_after(".", address / 65_536 % 256);
    out.push_number_after(".", address / 256 % 256);
    out.push_number_after(".", address % 256);
}

/// Whether some command of the protocol has the act.
fn is_of_command(protocol: Protocol, act: &Act) -> bool {
    for kind in kinds(protocol, act.code) {
        if is_of_kind(kind, act) {
            return true;
        }
    }
    false
}

fn is_of_kind(kind: &Kind, act: &Act) -> bool {
    has_group(kind.groups, act.group)
        && has(kind.points, i64::from(act.point))
        && has_value(kind.values, act.value)
}

fn has_group(groups: Groups, group: u16) -> bool {
    match groups {
        Groups::Span(span) => has(span, i64::from(group)),
        Groups::Causes => matches!(group, 5 | 6 | 8),
    }
}

fn has_value(values: Option<Span>, value: Option<i64>) -> bool {
    match (values, value) {
        (Some(span), Some(number)) => has(span, number),
        (None, None) => true,
        _ => false,
    }
}

fn has(span: Span, number: i64) -> bool {
    span.low <= number && number <= span.high
}
