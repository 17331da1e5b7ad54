//! The rules that allow exactly what was seen.
//! A rule without a value has every value, since code and group settle whether an act has one (`values_are_settled` of
//! `cf_acts`). Runs of points that touch are one span, and a group of more than 64 goes on in the next rule.
ghost use Rattle.std.specs.Prelude.{◌≡◌, ◌≤◌, ◌+◌, ◌++◌, ◌∷◌, [], length, All, Err, IfOk, OnOk};
ghost use Rattle.cf_learn.specs.Seen.{AllowsSeen, IsSeenWithin};
ghost use Rattle.cf_learn.specs.Greatest.{IsGrouped};
ghost use Rattle.cf_policy.specs.Within.{AreRulesWithin};
ghost use Rattle.cf_learn.specs.Rules.{AreLearnedFrom, MakesTooMany, learned_rules, rules_of_runs, goes_in, rule_of, rule_name};
ghost use Rattle.cf_learn.specs.Rules.{value_spans, whole_span};
ghost use Rattle.cf_learn.specs.declared.limit.TheConstants.{MOST_LEARNED};

use crate::limit::{MOST_LEARNED, MOST_RUNS};
use crate::runs::{Run, runs_of, span_of};
use crate::seen::{Kind, Seen, is_same_kind};
use arrayvec::ArrayString;
use cf_policy::{Action, Items, Name, Rule, Span};
use itoa::Buffer;
use std::alloc::{AllocError, Global};

/// Why no rules were learned.
#[derive(Clone, Copy, PartialEq, Eq, Debug)]
pub enum RulesFault {
    /// Memory ran out.
    NoMemory,
    /// The asset would have more rules than a policy may have.
    TooMany,
}

/// The rules of an asset that allow exactly what was seen of it, in whatever order and however often it stands there.
/// What was seen is grouped by client, code, group and value, in this order, ascending, with no value before numbers.
/// Each group gives rules named `r1`, `r2` and so on; each states up to 64 of the group's greatest runs of
/// consecutive points. This project's own.
pub fn learned_rules(alloc: Global, seen: Vec<Seen>) -> Result<Vec<Rule>, RulesFault>
    ensures rules { IfOk result (λ rules. AreLearnedFrom seen.items rules.items) }
    ensures allows { IfOk result (λ rules. AllowsSeen seen.items rules.items) }
    ensures grouped { IfOk result (λ rules. IsGrouped rules.items) }
    ensures within { All IsSeenWithin seen.items → IfOk result (λ rules. AreRulesWithin rules.items) }
    ensures few { IfOk result (λ rules. length rules.items ≤ MOST_LEARNED) }
    ensures many { result ≡ Err RulesFault.TooMany → MakesTooMany seen.items }
{
    let mut sorted = seen;
    sorted.sort_unstable();
    let Ok(rules) = rules_of_sorted(alloc, sorted.as_slice()) else {
        return Err(RulesFault::NoMemory);
    };
    if rules.len() > MOST_LEARNED {
        return Err(RulesFault::TooMany);
    }
    Ok(rules)
}

fn rules_of_sorted(alloc: Global, sorted: &[Seen]) -> Result<Vec<Rule>, AllocError>
    ensures { IfOk result (λ rules. rules.items ≡ learned_rules sorted.now) }
{
    let runs = runs_of(alloc, sorted)?;
    rules_of_runs(alloc, runs.as_slice())
}

/// The rules of runs: each has runs of one kind that stand together, as many as it may.
fn rules_of_runs(alloc: Global, runs: &[Run]) -> Result<Vec<Rule>, AllocError>
    ensures { IfOk result (λ rules. rules.items ≡ rules_of_runs runs.now) }
{
    let mut rules = Vec::new(alloc);
    if runs.is_empty() {
        return Ok(rules);
    }
    let mut kind = runs[0].kind;
    let mut points = single(alloc, span_of(&runs[0]))?;
    for run in &runs[1..] {
        if goes_in(&kind, points.as_slice(), run) {
            points.push(span_of(run))?;
        } else {
            let next = single(alloc, span_of(run))?;
            let done = std::mem::replace(&mut points, next);
            push_rule(alloc, &mut rules, &kind, done)?;
            kind = run.kind;
        }
    }
    push_rule(alloc, &mut rules, &kind, points)?;
    Ok(rules)
}

/// Whether the run is of the kind, and there is room for it beside these points.
fn goes_in(kind: &Kind, points: &[Span], run: &Run) -> bool
    ensures { result ≡ goes_in (record { kind = kind.now; points = points.now }) run.now }
{
    is_same_kind(kind, &run.kind) && points.len() < MOST_RUNS
}

/// Adds the rule of a kind and its points, with the next number.
fn push_rule(
    alloc: Global,
    rules: &mut Vec<Rule>,
    kind: &Kind,
    points: Vec<Span>,
) -> Result<(), AllocError>
    ensures { OnOk result (rules.new.items ≡ rules.old.items ++ rule_of (length rules.old.items + 1)
        (record { kind = kind.now; points = points.items }) ∷ []) }
{
    let rule = rule_of(alloc, rules.len() as u64 + 1, kind, points)?;
    rules.push(rule)?;
    Ok(())
}

fn rule_of(alloc: Global, number: u64, kind: &Kind, points: Vec<Span>) -> Result<Rule, AllocError>
    ensures { IfOk result (λ rule. rule ≡ rule_of number (record { kind = kind.now; points = points.items })) }
{
    Ok(Rule {
        name: rule_name(number),
        action: Action::Allow,
        clients: whole_list(alloc, i64::from(kind.client))?,
        codes: whole_list(alloc, i64::from(kind.code))?,
        groups: whole_list(alloc, i64::from(kind.group))?,
        points: Items::new(points),
        values: value_spans(alloc, kind.value)?,
        rate: None,
        log: false,
    })
}

/// `r` and the number.
fn rule_name(number: u64) -> Name
    ensures { result ≡ rule_name number }
{
    let mut buffer = Buffer::new();
    let mut text = ArrayString::new();
    text.push_str("r");
    text.push_str(buffer.format(number));
    Name::new(text)
}

fn value_spans(alloc: Global, value: Option<i64>) -> Result<Items<Span>, AllocError>
    ensures { IfOk result (λ spans. spans ≡ value_spans value) }
{
    match value {
        Some(number) => whole_list(alloc, number),
        None => Ok(Items::new(Vec::new(alloc))),
    }
}

/// A list of one number.
fn whole_list(alloc: Global, number: i64) -> Result<Items<Span>, AllocError>
    ensures { IfOk result (λ spans. spans ≡ whole_span number ∷ []) }
{
    let spans = single(
        alloc,
        Span {
            low: number,
            high: number,
        },
    )?;
    Ok(Items::new(spans))
}

fn single(alloc: Global, span: Span) -> Result<Vec<Span>, AllocError>
    ensures { IfOk result (λ spans. spans.items ≡ span ∷ []) }
{
    let mut spans = Vec::new(alloc);
    spans.push(span)?;
    Ok(spans)
}
