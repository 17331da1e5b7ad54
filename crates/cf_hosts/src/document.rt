//! The policy of a world: a table of TOML, its text, and what the text means.
ghost use Rattle.std.specs.Prelude.{◌≡◌, [], IfOk, OnOk, string_bytes};
ghost use Rattle.cf_policy.specs.Within.{IsWithin};
ghost use Rattle.cf_policylang.specs.Spelling.{with_member};
ghost use Rattle.cf_hosts.specs.Document.{IsDocument, made_policy};
ghost use Rattle.cf_hosts.specs.Tables.{asset_items, asset_table, bare_asset_table, document_table, grouped_rule_table, only, rule_table};
ghost use Rattle.cf_hosts.specs.Tables.{w0_table, w1_table, w2_table};
ghost use Rattle.toml.specs.Data.{no_members, string};
ghost use Rattle.toml.specs.View.{array_view, table_view, view};

use cf_policy::Policy;
use cf_policylang::{PolicyFault, document_text, read_policy};
use std::alloc::{AllocError, Global};
use toml::value::Array;
use toml::{Table, Value};

/// The policy of a world.
#[derive(Drop)]
pub struct Document {
    /// The text of its file: TOML, in UTF-8.
    pub text: String,
    /// What the text means.
    pub policy: Policy,
}

/// Makes the policy of a world: three assets, one a protocol, each with a rule `ok` that allows ten points. The text is
/// what `toml` prints of the document's table, and the policy is read from it. This project's own.
pub fn make_document(alloc: Global) -> Result<Document, AllocError>
    ensures text { IfOk result (λ d. IsDocument (string_bytes d.text)) }
    ensures policy { IfOk result (λ d. d.policy ≡ made_policy) }
    ensures within { IfOk result (λ d. IsWithin d.policy) }
{
    let text = made_text(alloc)?;
    match read_policy(alloc, text.as_bytes()) {
        Ok(policy) => Ok(Document { text, policy }),
        Err(PolicyFault::NoMemory) => Err(AllocError),
        Err(PolicyFault::Refused(_)) => unreachable!(),
    }
}

fn made_text(alloc: Global) -> Result<String, AllocError>
    ensures { IfOk result (λ t. IsDocument (string_bytes t)) }
{
    let table = document_table(alloc)?;
    let text = document_text(alloc, &table)?;
    Ok(text)
}

fn document_table(alloc: Global) -> Result<Table, AllocError>
    ensures { IfOk result (λ t. table_view t ≡ document_table) }
{
    let mut document = Table::new(alloc);
    insert(alloc, &mut document, "version", Value::Integer(1))?;
    insert(alloc, &mut document, "asset", Value::Array(assets(alloc)?))?;
    Ok(document)
}

fn assets(alloc: Global) -> Result<Array, AllocError>
    ensures { IfOk result (λ a. array_view a ≡ asset_items) }
{
    let mut assets = Vec::new(alloc);
    push_assets(alloc, &mut assets)?;
    Ok(assets)
}

fn push_assets(alloc: Global, assets: &mut Array) -> Result<(), AllocError>
    requires { assets.old.items ≡ [] }
    ensures { OnOk result (array_view assets.new ≡ asset_items) }
{
    assets.push(Value::Table(w0(alloc)?))?;
    assets.push(Value::Table(w1(alloc)?))?;
    assets.push(Value::Table(w2(alloc)?))?;
    Ok(())
}

/// The asset that speaks Modbus.
fn w0(alloc: Global) -> Result<Table, AllocError>
    ensures { IfOk result (λ t. table_view t ≡ w0_table) }
{
    let rule = rule(alloc, 6, "0..9")?;
    asset(alloc, "w0", "10.2.0.1", 502, "modbus", 1, rule)
}

/// The asset that speaks DNP3, which has a master besides.
fn w1(alloc: Global) -> Result<Table, AllocError>
    ensures { IfOk result (λ t. table_view t ≡ w1_table) }
{
    let rule = grouped_rule(alloc, 5, "3073", "0..9")?;
    let mut asset = asset(alloc, "w1", "10.2.0.2", 20000, "dnp3", 10, rule)?;
    insert(alloc, &mut asset, "master", Value::Integer(1))?;
    Ok(asset)
}

/// The asset that speaks IEC 60870-5-104.
fn w2(alloc: Global) -> Result<Table, AllocError>
    ensures { IfOk result (λ t. table_view t ≡ w2_table) }
{
    let rule = grouped_rule(alloc, 45, "6", "1000..1009")?;
    asset(alloc, "w2", "10.2.0.3", 2404, "iec104", 1, rule)
}

/// An asset with one rule, and without a master.
fn asset(
    alloc: Global,
    name: &str,
    address: &str,
    port: i64,
    protocol: &str,
    station: i64,
    rule: Table,
) -> Result<Table, AllocError>
    ensures { IfOk result (λ t. table_view t ≡ asset_table name.now address.now port protocol.now station (table_view rule)) }
{
    let rules = only(alloc, Value::Table(rule))?;
    let mut asset = Table::new(alloc);
    fill_asset(alloc, &mut asset, name, address, port, protocol, station)?;
    insert(alloc, &mut asset, "rule", rules)?;
    Ok(asset)
}

/// Gives an empty table what an asset has but for its rules.
fn fill_asset(
    alloc: Global,
    asset: &mut Table,
    name: &str,
    address: &str,
    port: i64,
    protocol: &str,
    station: i64,
) -> Result<(), AllocError>
    requires { table_view asset.old ≡ no_members }
    ensures { OnOk result (table_view asset.new ≡ bare_asset_table name.now address.now port protocol.now station) }
{
    insert_text(alloc, asset, "name", name)?;
    insert_text(alloc, asset, "address", address)?;
    insert(alloc, asset, "port", Value::Integer(port))?;
    insert_text(alloc, asset, "protocol", protocol)?;
    insert(alloc, asset, "station", Value::Integer(station))
}

/// The rule `ok`, which allows a code at points.
fn rule(alloc: Global, code: i64, points: &str) -> Result<Table, AllocError>
    ensures { IfOk result (λ t. table_view t ≡ rule_table code points.now) }
{
    let mut rule = Table::new(alloc);
    fill_rule(alloc, &mut rule, code, points)?;
    Ok(rule)
}

/// Gives an empty table what that rule has.
fn fill_rule(alloc: Global, rule: &mut Table, code: i64, points: &str) -> Result<(), AllocError>
    requires { table_view rule.old ≡ no_members }
    ensures { OnOk result (table_view rule.new ≡ rule_table code points.now) }
{
    insert_text(alloc, rule, "name", "ok")?;
    insert_text(alloc, rule, "action", "allow")?;
    let codes = only(alloc, Value::Integer(code))?;
    insert(alloc, rule, "codes", codes)?;
    let points = only(alloc, Value::string(alloc, points)?)?;
    insert(alloc, rule, "points", points)
}

/// The rule `ok`, which allows a code of a group at points.
fn grouped_rule(alloc: Global, code: i64, group: &str, points: &str) -> Result<Table, AllocError>
    ensures { IfOk result (λ t. table_view t ≡ grouped_rule_table code group.now points.now) }
{
    let mut rule = rule(alloc, code, points)?;
    let group = only(alloc, Value::string(alloc, group)?)?;
    insert(alloc, &mut rule, "groups", group)?;
    Ok(rule)
}

/// An array of one value.
fn only(alloc: Global, value: Value) -> Result<Value, AllocError>
    ensures { IfOk result (λ a. view a ≡ only (view value)) }
{
    let mut values = Vec::new(alloc);
    values.push(value)?;
    Ok(Value::Array(values))
}

/// Gives a table a text at a key.
fn insert_text(alloc: Global, table: &mut Table, key: &str, text: &str) -> Result<(), AllocError>
    ensures { OnOk result (table_view table.new ≡ with_member key.now (string text.now) (table_view table.old)) }
{
    insert(alloc, table, key, Value::string(alloc, text)?)
}

/// Gives a table a value at a key.
fn insert(alloc: Global, table: &mut Table, key: &str, value: Value) -> Result<(), AllocError>
    ensures { OnOk result (table_view table.new ≡ with_member key.now (view value) (table_view table.old)) }
{
    let key = String::from_str(alloc, key)?;
    table.insert(key, value)?;
    Ok(())
}
