//! The verdict of an asset's rules about an act of a client.
ghost use Rattle.std.specs.Prelude.{◌≡◌, ◌<◌, ◌&&◌, IfSome, get_or, length, option_map, true};
ghost use Rattle.std.specs.List.{list_any};
ghost use Rattle.cf_policy.specs.Verdict.{verdict_of, first_rule, first_number, has_function, has_point, has_act, takes, takes_value};
ghost use Rattle.cf_policy.specs.declared.policy.Span.{Span};
ghost use Rattle.cf_policy.specs.Verdict.{covers, default_reason, rule_reason, is_allow, IsInside};

use crate::lists::Items;
use crate::policy::{Action, Asset, Decider, Rule, Span, Verdict};
use cf_view::{Act, Reason};

/// How many spans of a list are gone through one by one, which takes no longer than halving.
const WALKED: usize = 8;

/// What the asset's rules say about an act of the client with this address, a number of 32 bits whose first octet is
/// the highest. The first rule that has the act decides; where none has it, `Decider::Default` refuses it. The other
/// two deciders never come here. This project's own rule.
pub fn verdict(asset: &Asset, client: u32, act: &Act) -> Verdict
    ensures decides { result ≡ verdict_of asset.now client act.now }
    ensures inside { IsInside asset.now.rules result }
{
    let rules = asset.rules.as_slice();
    match first_rule(rules, client, act) {
        Some((number, rule)) => match rule.action {
            Action::Allow => Verdict::Allow(number),
            Action::Refuse => Verdict::Refuse(Decider::Rule(number), rule_reason(rule)),
        },
        None => Verdict::Refuse(Decider::Default, default_reason(rules, client, act)),
    }
}

fn first_rule<'a>(rules: &'a [Rule], client: u32, act: &Act) -> Option<(usize, &'a Rule)>
    ensures first { option_map (λ p. (p.0, p.1.now)) result ≡ first_rule rules.now client act.now }
    ensures inside { IfSome result (λ p. p.0 < length rules.now) }
{
    let number = first_number(rules, client, act)?;
    Some((number, &rules[number]))
}

fn first_number(rules: &[Rule], client: u32, act: &Act) -> Option<usize>
    ensures { result ≡ first_number rules.now client act.now }
{
    rules.iter().position(|rule| has_act(rule, client, act))
}

/// The reason that a rule which refuses gives: that of the last list that it states, among values and points, else the function.
/// This project's own.
pub(crate) fn rule_reason(rule: &Rule) -> Reason
    ensures { result ≡ rule_reason rule.now }
{
    if !rule.values.is_empty() {
        Reason::Value
    } else if !rule.points.is_empty() {
        Reason::Point
    } else {
        Reason::Function
    }
}

fn default_reason(rules: &[Rule], client: u32, act: &Act) -> Reason
    ensures { result ≡ default_reason rules.now client act.now }
{
    if !some_allows_function(rules, client, act) {
        Reason::Function
    } else if !some_allows_point(rules, client, act) {
        Reason::Point
    } else {
        Reason::Value
    }
}

fn some_allows_function(rules: &[Rule], client: u32, act: &Act) -> bool
    ensures { result ≡ list_any (λ r. is_allow r.action && has_function r client act.now) rules.now }
{
    rules.iter().any(|rule| is_allow(rule.action) && has_function(rule, client, act))
}

fn some_allows_point(rules: &[Rule], client: u32, act: &Act) -> bool
    ensures { result ≡ list_any (λ r. is_allow r.action && has_point r client act.now) rules.now }
{
    rules.iter().any(|rule| is_allow(rule.action) && has_point(rule, client, act))
}

pub(crate) fn is_allow(action: Action) -> bool
    ensures { result ≡ is_allow action }
{
    match action {
        Action::Allow => true,
        Action::Refuse => false,
    }
}

fn has_act(rule: &Rule, client: u32, act: &Act) -> bool
    ensures { result ≡ has_act rule.now client act.now }
{
    has_point(rule, client, act) && takes_value(&rule.values, act.value)
}

fn has_point(rule: &Rule, client: u32, act: &Act) -> bool
    ensures { result ≡ has_point rule.now client act.now }
{
    has_function(rule, client, act) && takes(&rule.points, i64::from(act.point))
}

fn has_function(rule: &Rule, client: u32, act: &Act) -> bool
    ensures { result ≡ has_function rule.now client act.now }
{
    takes(&rule.clients, i64::from(client))
        && takes(&rule.codes, i64::from(act.code))
        && takes(&rule.groups, i64::from(act.group))
}

/// Whether a rule's values take that of an act: an act without one is taken only where the rule states none.
pub(crate) fn takes_value(spans: &Items<Span>, value: Option<i64>) -> bool
    ensures { result ≡ takes_value spans.now value }
{
    match value {
        Some(number) => takes(spans, number),
        None => spans.is_empty(),
    }
}

/// Whether a list of a rule takes this number: one of its spans has it, or the list is empty and so states nothing.
pub fn takes(spans: &Items<Span>, number: i64) -> bool
    ensures { result ≡ takes spans.now number }
{
    spans.is_empty() || some_covers(spans.as_slice(), number)
}

fn some_covers(spans: &[Span], number: i64) -> bool
    ensures { result ≡ list_any (λ s. covers s number) spans.now }
{
    if spans.len() > WALKED {
        return some_of_many_covers(spans, number);
    }
    spans.iter().any(|span| covers(span, number))
}

/// Many spans are not gone through where halving finds one that has the number.
#[inline(never)]
fn some_of_many_covers(spans: &[Span], number: i64) -> bool
    ensures { result ≡ list_any (λ s. covers s number) spans.now }
{
    if halved_cover(spans, number).is_some() {
        return true;
    }
    spans.iter().any(|span| covers(span, number))
}

/// The place of a span that has the number, if spans are many and halving finds one.
pub(crate) fn find_cover(spans: &[Span], number: i64) -> Option<usize>
    ensures inside { IfSome result (λ k. k < length spans.now) }
    ensures covers { IfSome result (λ k. (d : Span) → covers (get_or spans.now k d) number ≡ true) }
{
    if spans.len() > WALKED {
        halved_cover(spans, number)
    } else {
        None
    }
}

/// The place of a span that has the number, found by halving: of spans that ascend, the one that has it. Of others it may be none,
/// though one has it.
fn halved_cover(spans: &[Span], number: i64) -> Option<usize>
    ensures inside { IfSome result (λ k. k < length spans.now) }
    ensures covers { IfSome result (λ k. (d : Span) → covers (get_or spans.now k d) number ≡ true) }
{
    let count = spans.partition_point(|span| span.low <= number);
    if count == 0 {
        return None;
    }
    if covers(&spans[count - 1], number) {
        Some(count - 1)
    } else {
        None
    }
}

fn covers(span: &Span, number: i64) -> bool
    ensures { result ≡ covers span.now number }
{
    span.low <= number && number <= span.high
}
