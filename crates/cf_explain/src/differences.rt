//! Where else one policy is not included in another: of each asset and code the first act of a command. This project's own.
use crate::commands::{CODES, Found, MOST_OF_CODES, Search};
use crate::difference::{PolicyFile, push_shown};
use crate::page::Page;
use crate::seat::{Seat, seat_named};
use cf_compare::partner_of;
use cf_policy::Asset;
use std::alloc::{AllocError, Global};

/// How many differences are written out.
const MOST: u64 = 20;

/// How many differences are written out so far, and how many acts may still be looked at.
#[derive(Drop)]
struct Told {
    lines: Page,
    count: u64,
    left: u64,
}

/// Two lines for each code of each asset of the first policy of which a command has an act that the asset allows and its partner refuses:
/// the first such act by client, group, point and value, the rule that allows it, and what refuses it. They stand in the order of the
/// assets and then of the codes, behind a line that says so; twenty are written out. Where not all acts can be looked at for them, a last line
/// says so. The text is empty where there are fewer than two. The assets before place `from`, counted from 0, have none, and are not looked
/// at.
pub fn differences_text(
    alloc: Global,
    ours: &PolicyFile<'_>,
    other: &PolicyFile<'_>,
    from: u32,
) -> Result<String, AllocError> {
    let mut told = Told {
        lines: Page::new(alloc),
        count: 0,
        left: MOST_OF_CODES,
    };
    let what = " refuses; of each code of an asset the first act that a command has, at most ";
    told.lines
        .push_all(&[ours.name, " allows more that ", other.name]);
    told.lines.push_number_after(what, MOST);
    told.lines.push(":\n");
    push_assets(&mut told, ours, other, u64::from(from));
    if told.count < 2 {
        told.lines.clear();
    } else if told.left == 0 {
        let most = "there may be more: no more acts are looked at than ";
        told.lines.push_number_after(most, MOST_OF_CODES);
        told.lines.push("\n");
    }
    told.lines.finish()
}

/// The differences of the assets that have a partner, but for the first ones.
fn push_assets(told: &mut Told, ours: &PolicyFile<'_>, other: &PolicyFile<'_>, from: u64) {
    let mut number = 0u64;
    for asset in ours.policy.assets.as_slice() {
        number = number.saturating_add(1);
        if number > from
            && let Some(partner) = partner_of(asset, other.policy)
        {
            let here = Seat {
                source: &*ours,
                number,
                asset,
            };
            push_codes(told, &here, other, partner);
        }
    }
}

/// The differences of an asset from its partner, by codes.
fn push_codes(told: &mut Told, here: &Seat<'_>, other: &PolicyFile<'_>, partner: &Asset) {
    let mut search = Search {
        ours: here.asset,
        other: partner,
        left: told.left,
    };
    let there = seat_named(&*other, here.asset.name.as_str());
    for code in 0..CODES {
        if told.count >= MOST {
            break;
        }
        match search.of_code(&mut told.lines, code) {
            Found::Beyond(shown) => {
                push_shown(&mut told.lines, here, there, &shown);
                told.lines.push("\n");
                told.count = told.count.saturating_add(1);
            }
            Found::Nothing => {}
            Found::TooMany => {
                search.left = 0;
                break;
            }
        }
    }
    told.left = search.left;
}
