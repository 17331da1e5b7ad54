//! What becomes of a command, and of an item of a stream.
ghost use Rattle.std.specs.Prelude.{◌≡◌, ◌<◌, ◌≤◌, ◌∷◌, [], List, ℕ, false, length, replicate};
ghost use Rattle.std.specs.Option.{option_or};
ghost use Rattle.cf_modbus.specs.Acts.{acts};
ghost use Rattle.cf_modbus.specs.Adu.{adu_value};
ghost use Rattle.cf_modbus.specs.Request.{IsRead, request_value};
ghost use Rattle.cf_policy.specs.Index.{IsIndexOf};
ghost use Rattle.cf_policy.specs.Logged.{is_logged};
ghost use Rattle.cf_policy.specs.Verdict.{verdict_of};
ghost use Rattle.cf_policy.specs.Within.{most_rated};
ghost use Rattle.cf_lane.specs.Rings.{IsRulesOf, says_by};
ghost use Rattle.cf_lane.specs.Acts.{GivesActs, by_refusal, fate_of_acts, first_refusal, shown_by, unrated};
ghost use Rattle.cf_lane.specs.Fate.{HasOwnDecider};
ghost use Rattle.cf_lane.specs.Judgement.{fate_of_judgement};
ghost use Rattle.cf_lane.specs.Plain.{HasPlainDecider, IsPlainForm, IsPlainOf, plain_of};
ghost use Rattle.cf_lane.specs.Modbus.{HasCommandFate, station_refusal};

use crate::rules::Rules;
use crate::run::{judge_runs, judge_unrated_runs, takes_any_value};
use cf_audit::{CutReason, Why};
use cf_modbus::{Adu, Request, act_at, act_count, read_request, single_write};
use cf_policy::{Asset, CodeIndex, Decider, MOST_RATED, Verdict, is_logged};
use cf_view::{Act, Reason};

/// Why a command is refused.
#[derive(Clone, Copy)]
pub struct Refusal {
    /// The rule that decided, or what else did.
    pub decider: Decider,
    pub reason: Reason,
    /// The first act that is not allowed. For another station and for a wrong form it stands for the whole command.
    pub act: Act,
}

/// The act that the log shows of an admitted command.
#[derive(Clone, Copy)]
pub struct Shown {
    /// The rule that allowed it, counted from 0, which has a log.
    pub rule: usize,
    pub act: Act,
}

/// What is known of an admitted command.
#[derive(Clone, Copy)]
pub struct Admission {
    /// For each rule with a rate, in their order: whether it decided one of the command's acts.
    pub used: [bool; MOST_RATED],
    /// The first act that a rule with a log allowed, if one did.
    pub shown: Option<Shown>,
}

/// What becomes of an item of a stream.
#[derive(Clone, Copy)]
pub enum Fate {
    /// It goes on unjudged.
    Carried,
    /// A command that goes on.
    Admitted(Admission),
    /// A command that is answered in the controller's place, and goes no further.
    Refused(Refusal),
    /// A DNP3 frame, segment or fragment that goes nowhere.
    Stray(Why),
    /// A DNP3 frame that only lengthens a fragment.
    Lengthens,
    /// The session is cut here.
    Cuts(CutReason),
}

/// What becomes of a command.
#[derive(Clone, Copy)]
pub(crate) enum Judgement {
    /// It goes on.
    Admitted(Admission),
    /// It is answered in the controller's place, and goes no further.
    Refused(Refusal),
}

/// What is known at once of a command.
#[derive(Clone, Copy)]
pub(crate) enum Plain {
    /// It goes on, and nothing of it is put aside.
    Admitted,
    /// It is answered in the controller's place, and goes no further.
    Refused(Refusal),
    /// Nothing: it has to be judged.
    Unknown,
}

/// What becomes of an ADU of the client of the rules, at a moment in microseconds. The station is compared first, then the form is
/// read, then each act is judged in its order; the first that is not allowed decides. This project's own order. Requests that
/// write one point are read in one step.
#[inline(always)]
pub(crate) fn judge(asset: &Asset, rules: &Rules, moment: u64, adu: &Adu<'_>) -> Judgement
    requires at_least { 1 ≤ length adu.now.pdu.bytes }
    requires at_most { length adu.now.pdu.bytes ≤ 253 }
    requires few { length rules.now.rings.items ≤ most_rated }
    ensures fate { (client : ℕ) → IsRulesOf asset.now client rules.now
        → HasCommandFate asset.now (says_by asset.now client rules.now moment) (adu_value adu.now) (fate_of_judgement result) }
    ensures decider { HasOwnDecider asset.now.rules (fate_of_judgement result) }
{
    if u16::from(adu.unit) != asset.station {
        return refused_station(adu);
    }
    if let Some(act) = single_write(adu) {
        if !rules.rings.is_empty() {
            return judge_acts(asset, rules, moment, 1, |_| act);
        }
        return match rules.index.verdict(asset, &act) {
            Verdict::Allow(number) => admitted_by(asset, &act, number),
            Verdict::Refuse(decider, reason) => Judgement::Refused(Refusal {
                decider,
                reason,
                act,
            }),
        };
    }
    judge_form(asset, rules, moment, adu)
}

/// What becomes of a command of one act for the asset's station, where that is known without a moment and nothing of it is put aside: no
/// rule of its asset has a rate, and where it is admitted no rule with a log allowed the act. Else it has to be judged. It is what plants
/// write most.
#[inline(always)]
pub(crate) fn plain_act(asset: &Asset, index: &CodeIndex, act: &Act) -> Plain
    ensures fate { (client : ℕ) → IsIndexOf asset.now client index.now → IsPlainOf asset.now client (act.now ∷ []) result }
    ensures decider { HasPlainDecider asset.now.rules result }
{
    match index.verdict(asset, act) {
        Verdict::Allow(number) => {
            if is_logged(asset.rules.as_slice(), number) {
                return Plain::Unknown;
            }
            Plain::Admitted
        }
        Verdict::Refuse(decider, reason) => Plain::Refused(Refusal {
            decider,
            reason,
            act: *act,
        }),
    }
}

/// The same of an ADU for the asset's station, by its acts. Where its form is wrong it has to be judged.
#[inline(never)]
pub(crate) fn plain_form(asset: &Asset, index: &CodeIndex, adu: &Adu<'_>) -> Plain
    requires at_least { 1 ≤ length adu.now.pdu.bytes }
    requires at_most { length adu.now.pdu.bytes ≤ 253 }
    ensures fate { (client : ℕ) → IsIndexOf asset.now client index.now → IsPlainForm asset.now client (adu_value adu.now) result }
    ensures decider { HasPlainDecider asset.now.rules result }
{
    match read_request(adu) {
        Err(_) => Plain::Unknown,
        Ok(request) => plain_of(&judge_unrated_request(asset, index, &request)),
    }
}

/// What is known of a command at once that is judged so where no rule has a rate.
#[inline(always)]
fn plain_of(judgement: &Judgement) -> Plain
    ensures { result ≡ plain_of judgement.now }
{
    match judgement {
        Judgement::Admitted(admission) => {
            if admission.shown.is_some() {
                return Plain::Unknown;
            }
            Plain::Admitted
        }
        Judgement::Refused(refusal) => Plain::Refused(*refusal),
    }
}

/// What becomes of a request where no rule has a rate.
#[inline(always)]
fn judge_unrated_request(asset: &Asset, index: &CodeIndex, request: &Request<'_>) -> Judgement
    requires read { IsRead (request_value request.now) }
    ensures fate { (client : ℕ) → IsIndexOf asset.now client index.now
        → fate_of_judgement result ≡ by_refusal (unrated asset.now.rules (verdict_of asset.now client) (acts (request_value request.now)))
        (first_refusal (verdict_of asset.now client) (acts (request_value request.now))) }
    ensures decider { HasOwnDecider asset.now.rules (fate_of_judgement result) }
{
    let any_value = takes_any_value(asset, index, request);
    if any_value || request.values.is_empty() {
        return judge_unrated_runs(asset, index, request, any_value);
    }
    judge_unrated(asset, index, act_count(request), |i| act_at(request, i))
}

/// What is known of a command of one act where no rule has a rate. Without a log nothing is put aside.
#[inline(always)]
fn admitted_by(asset: &Asset, act: &Act, number: usize) -> Judgement
    ensures admitted { result ≡ Judgement.Admitted (record
        { used = replicate most_rated false; shown = shown_by asset.now.rules act.now (Verdict.Allow number) }) }
    ensures decider { HasOwnDecider asset.now.rules (fate_of_judgement result) }
{
    if !is_logged(asset.rules.as_slice(), number) {
        return Judgement::Admitted(Admission {
            used: [false; MOST_RATED],
            shown: None,
        });
    }
    Judgement::Admitted(Admission {
        used: [false; MOST_RATED],
        shown: Some(Shown {
            rule: number,
            act: *act,
        }),
    })
}

/// What becomes of an ADU for the asset's station, by its form and its acts.
#[inline(never)]
fn judge_form(asset: &Asset, rules: &Rules, moment: u64, adu: &Adu<'_>) -> Judgement
    requires at_least { 1 ≤ length adu.now.pdu.bytes }
    requires at_most { length adu.now.pdu.bytes ≤ 253 }
    requires few { length rules.now.rings.items ≤ most_rated }
    requires station { adu.now.unit ≡ asset.now.station }
    ensures fate { (client : ℕ) → IsRulesOf asset.now client rules.now
        → HasCommandFate asset.now (says_by asset.now client rules.now moment) (adu_value adu.now) (fate_of_judgement result) }
    ensures decider { HasOwnDecider asset.now.rules (fate_of_judgement result) }
{
    match read_request(adu) {
        Err(refusal) => refused(Decider::Form, refusal.reason(), u16::from(adu.pdu.at(0)), 0),
        Ok(request) => judge_request(asset, rules, moment, &request),
    }
}

/// The refusal of a command for another station.
#[cold]
#[inline(never)]
fn refused_station(adu: &Adu<'_>) -> Judgement
    requires { 1 ≤ length adu.now.pdu.bytes }
    ensures { result ≡ Judgement.Refused (station_refusal (adu_value adu.now)) }
{
    refused(
        Decider::Station,
        Reason::Station,
        u16::from(adu.pdu.at(0)),
        u32::from(adu.unit),
    )
}

/// What becomes of a request. Where some of its acts are known to differ in nothing that rules of its code state but the point, they
/// are judged together.
fn judge_request(asset: &Asset, rules: &Rules, moment: u64, request: &Request<'_>) -> Judgement
    requires read { IsRead (request_value request.now) }
    requires few { length rules.now.rings.items ≤ most_rated }
    ensures fate { (client : ℕ) → IsRulesOf asset.now client rules.now
        → fate_of_judgement result ≡ fate_of_acts asset.now (says_by asset.now client rules.now moment) (acts (request_value request.now)) }
    ensures decider { HasOwnDecider asset.now.rules (fate_of_judgement result) }
{
    let any_value = takes_any_value(asset, &rules.index, request);
    if any_value || request.values.is_empty() {
        return judge_runs(asset, rules, moment, request, any_value);
    }
    judge_acts(asset, rules, moment, act_count(request), |i| {
        act_at(request, i)
    })
}

/// A refusal of a whole command: its act is the function code with this point.
pub(crate) fn refused(decider: Decider, reason: Reason, code: u16, point: u32) -> Judgement
    ensures { result ≡ Judgement.Refused (record
        { decider = decider; reason = reason; act = record { code = code; group = 0; point = point; value = None } }) }
{
    Judgement::Refused(Refusal {
        decider,
        reason,
        act: Act {
            code,
            group: 0,
            point,
            value: None,
        },
    })
}

/// What becomes of a command of so many acts, of which the call gives each by its place: each is judged in its order, and the first
/// that is not allowed decides. Whether there are rules with a rate is asked once.
pub(crate) fn judge_acts<F: Fn(u32) -> Act>(
    asset: &Asset,
    rules: &Rules,
    moment: u64,
    count: u32,
    act_at: F,
) -> Judgement
    requires acts { (i : ℕ) → i < count → F.pre act_at i }
    requires few { length rules.now.rings.items ≤ most_rated }
    ensures fate { (client : ℕ) (acts : List Act) → IsRulesOf asset.now client rules.now → length acts ≡ count
        → GivesActs (F.post act_at) acts
        → fate_of_judgement result ≡ fate_of_acts asset.now (says_by asset.now client rules.now moment) acts }
    ensures decider { HasOwnDecider asset.now.rules (fate_of_judgement result) }
{
    if rules.rings.is_empty() {
        judge_unrated(asset, &rules.index, count, act_at)
    } else {
        judge_rated(asset, rules, moment, count, act_at)
    }
}

/// The same where no rule has a rate.
fn judge_unrated<F: Fn(u32) -> Act>(
    asset: &Asset,
    index: &CodeIndex,
    count: u32,
    act_at: F,
) -> Judgement
    requires acts { (i : ℕ) → i < count → F.pre act_at i }
    ensures fate { (client : ℕ) (acts : List Act) → IsIndexOf asset.now client index.now → length acts ≡ count
        → GivesActs (F.post act_at) acts
        → fate_of_judgement result ≡ by_refusal (unrated asset.now.rules (verdict_of asset.now client) acts)
        (first_refusal (verdict_of asset.now client) acts) }
    ensures decider { HasOwnDecider asset.now.rules (fate_of_judgement result) }
{
    let mut shown = None;
    for i in 0..count {
        let act = act_at(i);
        match index.verdict(asset, &act) {
            Verdict::Allow(number) => show(asset, &act, number, &mut shown),
            Verdict::Refuse(decider, reason) => {
                return Judgement::Refused(Refusal {
                    decider,
                    reason,
                    act,
                });
            }
        }
    }
    Judgement::Admitted(Admission {
        used: [false; MOST_RATED],
        shown,
    })
}

/// The same where a rule that allows an act may be spent, or is marked.
fn judge_rated<F: Fn(u32) -> Act>(
    asset: &Asset,
    rules: &Rules,
    moment: u64,
    count: u32,
    act_at: F,
) -> Judgement
    requires acts { (i : ℕ) → i < count → F.pre act_at i }
    requires few { length rules.now.rings.items ≤ most_rated }
    ensures fate { (client : ℕ) (acts : List Act) → IsRulesOf asset.now client rules.now → length acts ≡ count
        → GivesActs (F.post act_at) acts
        → fate_of_judgement result ≡ fate_of_acts asset.now (says_by asset.now client rules.now moment) acts }
    ensures decider { HasOwnDecider asset.now.rules (fate_of_judgement result) }
{
    let mut used = [false; MOST_RATED];
    let mut shown = None;
    for i in 0..count {
        let act = act_at(i);
        match rules.verdict(asset, moment, &act) {
            Verdict::Allow(number) => {
                rules.mark(number, &mut used);
                show(asset, &act, number, &mut shown);
            }
            Verdict::Refuse(decider, reason) => {
                return Judgement::Refused(Refusal {
                    decider,
                    reason,
                    act,
                });
            }
        }
    }
    Judgement::Admitted(Admission { used, shown })
}

/// The act that the log shows for a rule that allows it: none where the rule has no log.
pub(crate) fn shown_by(asset: &Asset, act: &Act, number: usize) -> Option<Shown>
    ensures { result ≡ shown_by asset.now.rules act.now (Verdict.Allow number) }
{
    if is_logged(asset.rules.as_slice(), number) {
        Some(Shown {
            rule: number,
            act: *act,
        })
    } else {
        None
    }
}

/// Keeps an act that the log shows for a rule that allows it, if it is the first.
pub(crate) fn show(asset: &Asset, act: &Act, number: usize, shown: &mut Option<Shown>)
    ensures { shown.new ≡ option_or shown.old (shown_by asset.now.rules act.now (Verdict.Allow number)) }
{
    if shown.is_none() {
        *shown = shown_by(asset, act, number);
    }
}
