//! Which rates and logs of rules differ between a policy and one that it is included in: no comparison looks at them.
use crate::difference::PolicyFile;
use crate::page::Page;
use crate::report::Report;
use crate::seat::{Seat, push_rule_of, seat_named};
use cf_policy::{Asset, Rate, Rule};
use std::alloc::{AllocError, Global};

/// A line for each rule whose rate or log is not that of the rule of its name in the asset of that name of the other policy, where one
/// of the two has a rate or a log: by assets of the first policy, of each the rules of the first, then those of the second alone.
/// Twenty are written out, and after them how many more there are. The text is empty where there is none.
pub fn kept_text(
    alloc: Global,
    ours: &PolicyFile<'_>,
    other: &PolicyFile<'_>,
) -> Result<String, AllocError> {
    let mut report = Report::new(alloc);
    let mut number = 0u64;
    for asset in ours.policy.assets.as_slice() {
        number = number.saturating_add(1);
        if let Some(there) = seat_named(&*other, asset.name.as_str()) {
            let here = Seat {
                source: &*ours,
                number,
                asset,
            };
            push_rules(&mut report, &here, &there, Side::First);
            push_rules(&mut report, &there, &here, Side::Second);
        }
    }
    report.push_more(ours.name, ": note:");
    report.lines.finish()
}

/// Which of two policies a rule is of.
#[derive(Clone, Copy)]
enum Side {
    First,
    Second,
}

/// The rules of an asset that differ from those of their names in another; of the second policy those alone whose names the first
/// does not have.
fn push_rules(report: &mut Report, here: &Seat<'_>, there: &Seat<'_>, side: Side) {
    for (index, rule) in here.asset.rules.as_slice().iter().enumerate() {
        let twin = rule_named(there.asset, rule.name.as_str());
        let is_told = match (side, twin) {
            (Side::First, Some(twin)) => !are_alike(rule, twin),
            (Side::Second, Some(_)) => false,
            (_, None) => rule.rate.is_some() || rule.log,
        };
        if is_told && report.takes() {
            push_rule_of(&mut report.lines, here, ": note: asset ", index);
            push_kept(&mut report.lines, " has ", rule);
            push_twin(&mut report.lines, there.source.name, twin);
        }
    }
}

fn rule_named<'a>(asset: &'a Asset, name: &str) -> Option<&'a Rule> {
    for rule in asset.rules.as_slice() {
        if rule.name.as_str() == name {
            return Some(rule);
        }
    }
    None
}

/// Whether two rules have the same rate and the same log.
fn are_alike(rule: &Rule, other: &Rule) -> bool {
    numbers_of(rule.rate) == numbers_of(other.rate) && rule.log == other.log
}

/// The two numbers of a rate; zeros where there is none.
fn numbers_of(rate: Option<Rate>) -> (u32, u32) {
    match rate {
        Some(rate) => (rate.most, rate.seconds),
        None => (0, 0),
    }
}

/// What the rule of the same name has in the other policy.
fn push_twin(out: &mut Page, file: &str, twin: Option<&Rule>) {
    out.push_all(&["; in ", file]);
    match twin {
        Some(twin) => push_kept(out, " it has ", twin),
        None => out.push(" the asset has no rule of this name"),
    }
    out.push("\n");
}

/// The rate and the log of a rule.
fn push_kept(out: &mut Page, has: &str, rule: &Rule) {
    out.push(has);
    match rule.rate {
        Some(rate) => {
            out.push_number_after("most = ", u64::from(rate.most));
            out.push_number_after(" and seconds = ", u64::from(rate.seconds));
        }
        None => out.push("no rate"),
    }
    out.push(if rule.log {
        ", and log = true"
    } else {
        ", and no log"
    });
}
