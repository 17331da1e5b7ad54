//! Rules, sets and assets as tables of TOML.
ghost use Rattle.std.specs.Prelude.{◌≡◌, ◌+◌, ◌<◌, ◌^◌, ◌≤◌, ◌++◌, codes, IfOk, OnOk, pos, IfSome, string_bytes, length};
ghost use Rattle.toml.specs.View.{array_view, table_view, view};
ghost use Rattle.std.specs.List.{All};
ghost use Rattle.toml.specs.Data.{array, integer, item, no_items, no_members, string};
ghost use Rattle.cf_view.specs.Text.{dotted};
ghost use Rattle.cf_policy.specs.Within.{IsAssetWithin, IsRuleWithin, IsSpanWithin, highest_address};
ghost use Rattle.cf_policylang.specs.declared.sets.TheConstants.{MOST_SETS};
ghost use Rattle.cf_policylang.specs.Spelling.{action_text, address_text, are_same, asset_table, number_text, numbers, point_items};
ghost use Rattle.cf_policylang.specs.Spelling.{protocol_text, rule_table, rule_tables, set_place, set_table, set_text, texts, with_key};
ghost use Rattle.cf_policylang.specs.Spelling.{with_list, with_log, with_master, with_rate};

use crate::refusal::Key;
use arrayvec::ArrayString;
use cf_policy::{Action, Asset, Items, Protocol, Rate, Rule, Span};
use cf_view::push_u32;
use std::alloc::{AllocError, Global};
use toml::value::Array;
use toml::{Table, Value};

/// Gives an empty table what an asset has, with its rules, whose points name the sets of these lists.
pub(crate) fn fill_asset(
    alloc: Global,
    table: &mut Table,
    lists: &[Items<Span>],
    asset: &Asset,
) -> Result<(), AllocError>
    requires empty { table_view table.old ≡ no_members }
    requires within { IsAssetWithin asset.now }
    requires few { length lists.now ≤ MOST_SETS }
    ensures { OnOk result (table_view table.new ≡ asset_table lists.now asset.now) }
{
    insert_text(alloc, table, Key::Name, asset.name.as_str())?;
    let address = dotted(alloc, asset.endpoint.address)?;
    insert(alloc, table, Key::Address, Value::String(address))?;
    insert_number(alloc, table, Key::Port, i64::from(asset.endpoint.port))?;
    insert_text(alloc, table, Key::Protocol, protocol_text(asset.protocol))?;
    insert_number(alloc, table, Key::Station, i64::from(asset.station))?;
    insert_master(alloc, table, asset.protocol, asset.master)?;
    let rules = rule_tables(alloc, lists, asset.rules.as_slice())?;
    insert_list(alloc, table, Key::Rule, rules)
}

/// The name of the set of this number, counted from 0, and its points.
pub(crate) fn set_table(alloc: Global, number: usize, points: &[Span]) -> Result<Table, AllocError>
    requires { number < 2 ^ 32 }
    ensures { IfOk result (λ t. table_view t ≡ set_table number points.now) }
{
    let mut table = Table::new(alloc);
    let name = set_text(alloc, number)?;
    insert(alloc, &mut table, Key::Name, Value::String(name))?;
    insert_numbers(alloc, &mut table, Key::Points, points)?;
    Ok(table)
}

/// Gives a table a value at a key.
pub(crate) fn insert(
    alloc: Global,
    table: &mut Table,
    key: Key,
    value: Value,
) -> Result<(), AllocError>
    ensures { OnOk result (table_view table.new ≡ with_key key (view value) (table_view table.old)) }
{
    let key = String::from_str(alloc, key.as_str())?;
    table.insert(key, value)?;
    Ok(())
}

/// Gives a table a list at a key, if the list has an entry.
#[tactic(auto, using(crate::proofs::Written::list_none, crate::proofs::Written::list_some))]
pub(crate) fn insert_list(
    alloc: Global,
    table: &mut Table,
    key: Key,
    values: Array,
) -> Result<(), AllocError>
    ensures { OnOk result (table_view table.new ≡ with_list key (array_view values) (table_view table.old)) }
{
    if values.is_empty() {
        return Ok(());
    }
    insert(alloc, table, key, Value::Array(values))
}

fn insert_text(alloc: Global, table: &mut Table, key: Key, text: &str) -> Result<(), AllocError>
    ensures { OnOk result (table_view table.new ≡ with_key key (string text.now) (table_view table.old)) }
{
    insert(alloc, table, key, Value::string(alloc, text)?)
}

fn insert_number(alloc: Global, table: &mut Table, key: Key, number: i64) -> Result<(), AllocError>
    ensures { OnOk result (table_view table.new ≡ with_key key (integer number) (table_view table.old)) }
{
    insert(alloc, table, key, Value::Integer(number))
}

fn insert_master(
    alloc: Global,
    table: &mut Table,
    protocol: Protocol,
    master: u16,
) -> Result<(), AllocError>
    ensures { OnOk result (table_view table.new ≡ with_master protocol master (table_view table.old)) }
{
    match protocol {
        Protocol::Dnp3 => insert_number(alloc, table, Key::Master, i64::from(master)),
        Protocol::Modbus | Protocol::Iec104 => Ok(()),
    }
}

fn rule_tables(alloc: Global, lists: &[Items<Span>], rules: &[Rule]) -> Result<Array, AllocError>
    requires within { All IsRuleWithin rules.now }
    requires few { length lists.now ≤ MOST_SETS }
    ensures { IfOk result (λ a. array_view a ≡ rule_tables lists.now rules.now) }
{
    let mut tables = Vec::new(alloc);
    for rule in rules {
        let mut table = Table::new(alloc);
        fill_rule(alloc, &mut table, lists, rule)?;
        tables.push(Value::Table(table))?;
    }
    Ok(tables)
}

/// Gives an empty table what a rule has.
fn fill_rule(
    alloc: Global,
    table: &mut Table,
    lists: &[Items<Span>],
    rule: &Rule,
) -> Result<(), AllocError>
    requires empty { table_view table.old ≡ no_members }
    requires within { IsRuleWithin rule.now }
    requires few { length lists.now ≤ MOST_SETS }
    ensures { OnOk result (table_view table.new ≡ rule_table lists.now rule.now) }
{
    insert_text(alloc, table, Key::Name, rule.name.as_str())?;
    insert_text(alloc, table, Key::Action, action_text(rule.action))?;
    insert_addresses(alloc, table, Key::Clients, rule.clients.as_slice())?;
    insert_codes(alloc, table, Key::Codes, rule.codes.as_slice())?;
    insert_numbers(alloc, table, Key::Groups, rule.groups.as_slice())?;
    insert_points(alloc, table, lists, rule.points.as_slice())?;
    insert_numbers(alloc, table, Key::Values, rule.values.as_slice())?;
    insert_rate(alloc, table, rule.rate)?;
    insert_log(alloc, table, rule.log)
}

fn insert_log(alloc: Global, table: &mut Table, log: bool) -> Result<(), AllocError>
    ensures { OnOk result (table_view table.new ≡ with_log log (table_view table.old)) }
{
    if log {
        insert(alloc, table, Key::Log, Value::Boolean(true))
    } else {
        Ok(())
    }
}

fn insert_rate(alloc: Global, table: &mut Table, rate: Option<Rate>) -> Result<(), AllocError>
    ensures { OnOk result (table_view table.new ≡ with_rate rate (table_view table.old)) }
{
    let Some(rate) = rate else {
        return Ok(());
    };
    insert_number(alloc, table, Key::Most, i64::from(rate.most))?;
    insert_number(alloc, table, Key::Seconds, i64::from(rate.seconds))
}

/// Gives a table the points of a rule: the name of their set, if one of the lists is the same, and else each span.
fn insert_points(
    alloc: Global,
    table: &mut Table,
    lists: &[Items<Span>],
    points: &[Span],
) -> Result<(), AllocError>
    requires { length lists.now ≤ MOST_SETS }
    ensures { OnOk result (table_view table.new ≡ with_list Key.Points (point_items lists.now points.now) (table_view table.old)) }
{
    match set_place(lists, points) {
        None => insert_numbers(alloc, table, Key::Points, points),
        Some(number) => insert_set_name(alloc, table, number),
    }
}

/// Gives a table the name of the set of this number, counted from 0, as the one entry of a rule's points.
fn insert_set_name(alloc: Global, table: &mut Table, number: usize) -> Result<(), AllocError>
    requires { number < 2 ^ 32 }
    ensures { OnOk result (table_view table.new ≡ with_key Key.Points (array (item (string (codes "@" ++ set_text number)) no_items)) (table_view table.old)) }
{
    let entry = set_entry(alloc, number)?;
    let mut entries = Vec::new(alloc);
    entries.push(Value::String(entry))?;
    insert(alloc, table, Key::Points, Value::Array(entries))
}

/// The first of these lists that is the same.
fn set_place(lists: &[Items<Span>], points: &[Span]) -> Option<usize>
    ensures place { result ≡ set_place lists.now points.now }
    ensures within { IfSome result (λ i. i < length lists.now) }
{
    lists
        .iter()
        .position(|list| are_same(list.as_slice(), points))
}

/// The entry that names the set of this number, counted from 0.
fn set_entry(alloc: Global, number: usize) -> Result<String, AllocError>
    requires { number < 2 ^ 32 }
    ensures { IfOk result (λ t. string_bytes t ≡ codes "@" ++ set_text number) }
{
    format!(in alloc; "@set{}", number + 1)
}

/// The name of the set of this number, counted from 0.
fn set_text(alloc: Global, number: usize) -> Result<String, AllocError>
    requires { number < 2 ^ 32 }
    ensures { IfOk result (λ t. string_bytes t ≡ set_text number) }
{
    format!(in alloc; "set{}", number + 1)
}

/// Whether two lists have the same spans in the same order.
pub(crate) fn are_same(a: &[Span], b: &[Span]) -> bool
    ensures { result ≡ are_same a.now b.now }
{
    a == b
}

fn insert_numbers(
    alloc: Global,
    table: &mut Table,
    key: Key,
    spans: &[Span],
) -> Result<(), AllocError>
    ensures { OnOk result (table_view table.new ≡ with_list key (texts number_text spans.now) (table_view table.old)) }
{
    let mut texts = Vec::new(alloc);
    for span in spans {
        texts.push(Value::String(number_text(alloc, *span)?))?;
    }
    insert_list(alloc, table, key, texts)
}

fn number_text(alloc: Global, span: Span) -> Result<String, AllocError>
    ensures { IfOk result (λ t. string_bytes t ≡ number_text span) }
{
    if span.low == span.high {
        return format!(in alloc; "{}", span.low);
    }
    format!(in alloc; "{}..{}", span.low, span.high)
}

fn insert_addresses(
    alloc: Global,
    table: &mut Table,
    key: Key,
    spans: &[Span],
) -> Result<(), AllocError>
    requires { All (IsSpanWithin (pos 0) highest_address) spans.now }
    ensures { OnOk result (table_view table.new ≡ with_list key (texts address_text spans.now) (table_view table.old)) }
{
    let mut texts = Vec::new(alloc);
    for span in spans {
        texts.push(Value::String(address_text(alloc, *span)?))?;
    }
    insert_list(alloc, table, key, texts)
}

fn address_text(alloc: Global, span: Span) -> Result<String, AllocError>
    requires { IsSpanWithin (pos 0) highest_address span }
    ensures { IfOk result (λ t. string_bytes t ≡ address_text span) }
{
    let low = dotted(alloc, span.low as u32)?;
    if span.low == span.high {
        return Ok(low);
    }
    let high = dotted(alloc, span.high as u32)?;
    format!(in alloc; "{}..{}", low, high)
}

/// An address in its dotted form.
fn dotted(alloc: Global, address: u32) -> Result<String, AllocError>
    ensures { IfOk result (λ t. string_bytes t ≡ dotted address) }
{
    let mut text = ArrayString::<64>::new();
    push_u32(&mut text, address / 16_777_216);
    text.push_str(".");
    push_u32(&mut text, address / 65_536 % 256);
    text.push_str(".");
    push_u32(&mut text, address / 256 % 256);
    text.push_str(".");
    push_u32(&mut text, address % 256);
    String::from_str(alloc, text.as_str())
}

/// Codes, which are spans of one number.
fn insert_codes(
    alloc: Global,
    table: &mut Table,
    key: Key,
    spans: &[Span],
) -> Result<(), AllocError>
    ensures { OnOk result (table_view table.new ≡ with_list key (numbers spans.now) (table_view table.old)) }
{
    let mut numbers = Vec::new(alloc);
    for span in spans {
        numbers.push(code_value(span))?;
    }
    insert_list(alloc, table, key, numbers)
}

fn code_value(span: &Span) -> Value
    ensures { view result ≡ integer span.now.low }
{
    Value::Integer(span.low)
}

fn action_text(action: Action) -> &'static str
    ensures { result.now ≡ action_text action }
{
    match action {
        Action::Allow => "allow",
        Action::Refuse => "refuse",
    }
}

fn protocol_text(protocol: Protocol) -> &'static str
    ensures { result.now ≡ protocol_text protocol }
{
    match protocol {
        Protocol::Modbus => "modbus",
        Protocol::Dnp3 => "dnp3",
        Protocol::Iec104 => "iec104",
    }
}
