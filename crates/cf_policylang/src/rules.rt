//! The rules of an asset.
ghost use Rattle.std.specs.Prelude.{◌≡◌, ◌+◌, ◌<◌, ◌≤◌, [], IfOk, vec_len};
ghost use Rattle.toml.specs.View.{view, table_view, array_view};
ghost use Rattle.cf_policy.specs.Within.{most_rules};
ghost use Rattle.cf_policy.specs.Names.{is_reserved};
ghost use Rattle.cf_policylang.specs.Tested.{Answers, AnswersPlainly, at_rule};
ghost use Rattle.cf_policylang.specs.Fields.{has_other};
ghost use Rattle.cf_policylang.specs.Rules.{rule_keys};
ghost use Rattle.cf_policylang.specs.Rules.{is_rule_taken, rule_name, action_of, action, client_spans, code_entries};
ghost use Rattle.cf_policylang.specs.Rules.{code_spans, group_entries, group_spans, rule_lists};
ghost use Rattle.cf_policylang.specs.Rules.{value_spans, rule, rules_from, rule_items, rules};

use crate::earlier::Earlier;
use crate::fields::{
    Kind, as_array_of, as_table, as_text, count, has_other, name, required, stated,
};
use crate::lists::{Entries, optional_spans, spans};
use crate::logs::log;
use crate::rates::rate;
use crate::refusal::{Cause, Key, Place, PolicyFault, PolicyRefusal, refusal};
use crate::sets::{Edition, Named, rule_points};
use cf_policy::{
    Action, HIGHEST_GROUP, HIGHEST_VALUE, Items, LOWEST_VALUE, MOST_RULES, Name, Protocol, Rule,
    Span,
};
use std::alloc::Global;
use toml::value::Array;
use toml::{Table, Value};

const EARLIER_KEYS: [Key; 9] = [
    Key::Name,
    Key::Action,
    Key::Clients,
    Key::Codes,
    Key::Groups,
    Key::Points,
    Key::Values,
    Key::Most,
    Key::Seconds,
];

const THIRD_KEYS: [Key; 10] = [
    Key::Name,
    Key::Action,
    Key::Clients,
    Key::Codes,
    Key::Groups,
    Key::Points,
    Key::Values,
    Key::Most,
    Key::Seconds,
    Key::Log,
];

/// The lists of a rule.
#[derive(Drop)]
pub(crate) struct RuleLists {
    pub(crate) clients: Items<Span>,
    pub(crate) codes: Items<Span>,
    pub(crate) groups: Items<Span>,
    pub(crate) points: Items<Span>,
    pub(crate) values: Items<Span>,
}

/// A rule after those of its asset that were read, which has the protocol.
fn rule(
    alloc: Global,
    named: &Named,
    protocol: Protocol,
    place: Place,
    earlier: &Earlier,
    table: &Table,
) -> Result<Rule, PolicyFault>
    ensures { Answers (λ r. r) (rule named.now protocol place earlier.now (table_view table.now)) result }
{
    if has_other_key(named.edition, table) {
        return Err(refusal(Cause::UnknownKey, Key::Nothing, place).into());
    }
    let name = rule_name(place, earlier, table)?;
    let action = action(place, table)?;
    let lists = rule_lists(alloc, named, protocol, place, table)?;
    let rate = rate(place, earlier.as_slice(), action, table)?;
    let log = log(place, action, table)?;
    let RuleLists {
        clients,
        codes,
        groups,
        points,
        values,
    } = lists;
    Ok(Rule {
        name,
        action,
        clients,
        codes,
        groups,
        points,
        values,
        rate,
        log,
    })
}

/// Whether a rule has a key that its document's version does not have.
fn has_other_key(edition: Edition, table: &Table) -> bool
    ensures { result ≡ has_other (rule_keys edition) (table_view table.now) }
{
    match edition {
        Edition::First | Edition::Second => has_other(&EARLIER_KEYS, table),
        Edition::Third => has_other(&THIRD_KEYS, table),
    }
}

fn rule_name(place: Place, earlier: &Earlier, table: &Table) -> Result<Name, PolicyRefusal>
    ensures { AnswersPlainly (λ n. n) (rule_name place earlier.now (table_view table.now)) result }
{
    let name = name(place, table)?;
    if is_rule_taken(earlier, name.as_str()) {
        return Err(refusal(Cause::Duplicate, Key::Name, place));
    }
    Ok(name)
}

/// Whether the name stands for another decider or an earlier rule has it. A number made of it is compared with those of
/// the earlier rules, so an asset of `MOST_RULES` rules takes about half a million comparisons of numbers that lie
/// together, and hardly one of names. Names that were chosen so that their numbers are equal take half a million
/// comparisons of at most `LONGEST_NAME` bytes besides.
fn is_rule_taken(earlier: &Earlier, text: &str) -> bool
    ensures { result ≡ is_rule_taken earlier.now text.now }
{
    is_reserved(text) || earlier.has(text)
}

fn is_reserved(text: &str) -> bool
    ensures { result ≡ is_reserved text.now }
{
    text == "default" || text == "station" || text == "form"
}

fn action(place: Place, table: &Table) -> Result<Action, PolicyRefusal>
    ensures { result ≡ action place (table_view table.now) }
{
    let text = as_text(Key::Action, place, required(Key::Action, place, table)?)?;
    action_of(text).ok_or(refusal(Cause::BadRange, Key::Action, place))
}

fn action_of(text: &str) -> Option<Action>
    ensures { result ≡ action_of text.now }
{
    match text {
        "allow" => Some(Action::Allow),
        "refuse" => Some(Action::Refuse),
        _ => None,
    }
}

/// The lists of a rule, which are tested in this order.
fn rule_lists(
    alloc: Global,
    named: &Named,
    protocol: Protocol,
    place: Place,
    table: &Table,
) -> Result<RuleLists, PolicyFault>
    ensures { Answers (λ l. l) (rule_lists named.now protocol place (table_view table.now)) result }
{
    let clients = client_spans(alloc, place, table)?;
    let codes = code_spans(alloc, named.edition, protocol, place, table)?;
    let groups = group_spans(alloc, named.edition, protocol, place, table)?;
    let points = rule_points(alloc, named, place, table)?;
    let values = value_spans(alloc, place, table)?;
    Ok(RuleLists {
        clients,
        codes,
        groups,
        points,
        values,
    })
}

fn client_spans(alloc: Global, place: Place, table: &Table) -> Result<Items<Span>, PolicyFault>
    ensures { Answers (λ s. s) (client_spans place (table_view table.now)) result }
{
    optional_spans(alloc, Entries::Addresses, Key::Clients, place, table)
}

fn code_spans(
    alloc: Global,
    edition: Edition,
    protocol: Protocol,
    place: Place,
    table: &Table,
) -> Result<Items<Span>, PolicyFault>
    ensures { Answers (λ s. s) (code_spans edition protocol place (table_view table.now)) result }
{
    let value = required(Key::Codes, place, table)?;
    let codes = code_entries(edition, protocol);
    spans(alloc, codes, Key::Codes, place, value)
}

/// What codes are in a version: version 3 names them.
fn code_entries(edition: Edition, protocol: Protocol) -> Entries
    ensures { result ≡ code_entries edition protocol }
{
    match edition {
        Edition::First | Edition::Second => Entries::Codes,
        Edition::Third => Entries::NamedCodes(protocol),
    }
}

fn group_spans(
    alloc: Global,
    edition: Edition,
    protocol: Protocol,
    place: Place,
    table: &Table,
) -> Result<Items<Span>, PolicyFault>
    ensures { Answers (λ s. s) (group_spans edition protocol place (table_view table.now)) result }
{
    let groups = group_entries(edition, protocol);
    optional_spans(alloc, groups, Key::Groups, place, table)
}

/// What groups are in a version: version 3 names them.
fn group_entries(edition: Edition, protocol: Protocol) -> Entries
    ensures { result ≡ group_entries edition protocol }
{
    match edition {
        Edition::First | Edition::Second => Entries::Numbers {
            low: 0,
            high: HIGHEST_GROUP,
        },
        Edition::Third => Entries::NamedGroups(protocol),
    }
}

fn value_spans(alloc: Global, place: Place, table: &Table) -> Result<Items<Span>, PolicyFault>
    ensures { Answers (λ s. s) (value_spans place (table_view table.now)) result }
{
    let values = Entries::Numbers {
        low: LOWEST_VALUE,
        high: HIGHEST_VALUE,
    };
    optional_spans(alloc, values, Key::Values, place, table)
}

/// The rules of the asset of this number, which has the protocol.
pub(crate) fn rules(
    alloc: Global,
    named: &Named,
    protocol: Protocol,
    asset: u32,
    table: &Table,
) -> Result<Items<Rule>, PolicyFault>
    ensures { Answers (λ r. r) (rules named.now protocol asset (table_view table.now)) result }
{
    let Some(value) = stated(Key::Rule, table) else {
        return Ok(Items::new(Vec::new(alloc)));
    };
    rules_from(
        alloc,
        named,
        protocol,
        asset,
        rule_array(Place::asset(asset), value)?,
    )
}

/// The array of the rules.
fn rule_array(place: Place, value: &Value) -> Result<&Array, PolicyRefusal>
    ensures items { AnswersPlainly (λ a. array_view a.now) (rule_items place (Some (view value.now))) result }
    ensures short { IfOk result (λ a. vec_len a.now ≤ most_rules) }
{
    let array = as_array_of(Kind::Table, Key::Rule, place, value)?;
    if count(array) > MOST_RULES {
        return Err(refusal(Cause::TooMany, Key::Rule, place));
    }
    Ok(array)
}

fn rules_from(
    alloc: Global,
    named: &Named,
    protocol: Protocol,
    asset: u32,
    array: &Array,
) -> Result<Items<Rule>, PolicyFault>
    requires { vec_len array.now ≤ most_rules }
    ensures { Answers (λ r. r) (rules_from named.now protocol asset 0 (array_view array.now) []) result }
{
    let mut earlier = Earlier::new(alloc);
    for (index, value) in array.iter().enumerate() {
        let table = as_table(Key::Rule, Place::asset(asset), value)?;
        let place = rule_place(asset, index);
        let rule = rule(alloc, named, protocol, place, &earlier, table)?;
        earlier = earlier.with(rule)?;
    }
    Ok(earlier.into_items())
}

/// The place of the rule at an index of its asset's array.
fn rule_place(asset: u32, index: usize) -> Place
    requires { index < most_rules }
    ensures { result ≡ at_rule asset (index + 1) }
{
    Place {
        asset,
        rule: index as u32 + 1,
    }
}
