//! A policy as the text of a document of version 2 or 3.
ghost use Rattle.std.specs.Prelude.{◌≡◌, ◌≤◌, ◌<◌, ◌++◌, [], false, IfOk, IsTrue, Ok, OnOk, length, map, pos, string_bytes, vec_len};
ghost use Rattle.std.specs.List.{All, list_any};
ghost use Rattle.toml.specs.Text.{IsDocumentText};
ghost use Rattle.toml.specs.View.{array_view, table_view};
ghost use Rattle.cf_policy.specs.declared.policy.Policy.{Policy};
ghost use Rattle.cf_policy.specs.Within.{IsWithin, IsAssetWithin};
ghost use Rattle.cf_policylang.specs.declared.sets.TheConstants.{MOST_SETS};
ghost use Rattle.cf_policylang.specs.Documents.{text_meaning};
ghost use Rattle.cf_policylang.specs.Migrating.{all_points, gets_set, has_list, has_log, has_site, later_document, migrated};
ghost use Rattle.cf_policylang.specs.Migrating.{needs_third, sets_behind};
ghost use Rattle.cf_policylang.specs.Migrating.{version_for, with_set};
ghost use Rattle.cf_policylang.specs.Spelling.{asset_tables, set_tables};

use crate::printing::document_text;
use crate::refusal::Key;
use crate::sets::MOST_SETS;
use crate::sites::has_asset_at;
use crate::spelling::{are_same, fill_asset, insert, insert_list, set_table};
use cf_policy::{Asset, Items, Policy, Rule, Span};
use cf_view::NoMemory;
use std::alloc::{AllocError, Global};
use toml::value::Array;
use toml::{Table, Value};

/// Writes a policy as a document of version 2, or of version 3 where that alone can state it. Each list of points that two rules state at least is a set, in the order of
/// the first such rule, the first `MOST_SETS` of them; every other list is stated with an entry for each span. The text is
/// what `toml` prints of that table, and it means exactly the given policy, if its size is left aside: it may be longer than
/// a policy's file may be. Only want of memory gives none. The layout is this project's own; TOML 1.1 is that of `toml`.
///
/// Lists are compared with each other until `MOST_SETS` are found, so 80,000 rules of different points take about three
/// thousand million comparisons, most of which end at the first span.
pub fn migrated_text(alloc: Global, policy: &Policy) -> Result<String, NoMemory>
    requires { IsWithin policy.now }
    ensures text { IfOk result (λ t. IsDocumentText false (migrated policy.now) (string_bytes t)) }
    ensures meaning { IfOk result (λ t. text_meaning (string_bytes t) ≡ Ok policy.now) }
{
    let assets = policy.assets.as_slice();
    let third = needs_third(assets);
    let Ok(lists) = set_lists(alloc, assets) else {
        return Err(NoMemory);
    };
    let Ok(sets) = set_tables(alloc, lists.as_slice()) else {
        return Err(NoMemory);
    };
    let Ok(assets) = asset_tables(alloc, lists.as_slice(), assets) else {
        return Err(NoMemory);
    };
    match printed(alloc, third, sets, assets) {
        Ok(text) => Ok(text),
        Err(_) => Err(NoMemory),
    }
}

/// The text of the document that has these sets and assets. It means a policy whose document that is.
fn printed(alloc: Global, third: bool, sets: Array, assets: Array) -> Result<String, AllocError>
    ensures text { IfOk result (λ t. IsDocumentText false (later_document third (array_view sets) (array_view assets)) (string_bytes t)) }
    ensures meaning { IfOk result (λ t. (p : Policy) → IsWithin p → later_document third (array_view sets) (array_view assets) ≡ migrated p
        → text_meaning (string_bytes t) ≡ Ok p) }
{
    document_text(alloc, &later_document(alloc, third, sets, assets)?)
}

/// Whether version 3 alone can state a policy with these assets.
fn needs_third(assets: &[Asset]) -> bool
    ensures { result ≡ needs_third assets.now }
{
    has_log(assets) || has_site(assets)
}

/// Whether what some rule admits is written to the log.
fn has_log(assets: &[Asset]) -> bool
    ensures { result ≡ has_log assets.now }
{
    assets.iter().any(|asset| some_logs(asset.rules.as_slice()))
}

fn some_logs(rules: &[Rule]) -> bool
    ensures { result ≡ list_any (λ r. r.log) rules.now }
{
    for rule in rules {
        if rule.log {
            return true;
        }
    }
    false
}

/// Whether two assets have one endpoint.
fn has_site(assets: &[Asset]) -> bool
    ensures { result ≡ has_site assets.now }
{
    match assets.split_first() {
        Some((asset, rest)) => has_asset_at(rest, asset.endpoint) || has_site(rest),
        None => false,
    }
}

fn version_for(third: bool) -> i64
    ensures { result ≡ pos (version_for third) }
{
    if third { 3 } else { 2 }
}

/// The document of version 2, or 3, that has these sets and assets.
fn later_document(
    alloc: Global,
    third: bool,
    sets: Array,
    assets: Array,
) -> Result<Table, AllocError>
    ensures { IfOk result (λ t. table_view t ≡ later_document third (array_view sets) (array_view assets)) }
{
    let mut table = Table::new(alloc);
    insert(
        alloc,
        &mut table,
        Key::Version,
        Value::Integer(version_for(third)),
    )?;
    insert_list(alloc, &mut table, Key::Set, sets)?;
    insert(alloc, &mut table, Key::Asset, Value::Array(assets))?;
    Ok(table)
}

/// The lists of points of these assets' rules that get a set, in the order of the sets.
fn set_lists(alloc: Global, assets: &[Asset]) -> Result<Vec<Items<Span>>, AllocError>
    ensures sets { IfOk result (λ lists. lists.items ≡ sets_behind [] (all_points assets.now)) }
    ensures few { IfOk result (λ lists. vec_len lists ≤ MOST_SETS) }
{
    let points = all_points(alloc, assets)?;
    shared_lists(alloc, points.as_slice())
}

/// Copies of the lists of points of all rules in their order.
fn all_points(alloc: Global, assets: &[Asset]) -> Result<Vec<Items<Span>>, AllocError>
    ensures { IfOk result (λ v. v.items ≡ all_points assets.now) }
{
    let mut points = Vec::new(alloc);
    for asset in assets {
        push_points(&mut points, asset.rules.as_slice())?;
    }
    Ok(points)
}

/// Appends a copy of the points of each rule.
fn push_points(points: &mut Vec<Items<Span>>, own: &[Rule]) -> Result<(), AllocError>
    ensures { OnOk result (points.new.items ≡ points.old.items ++ map (λ r. r.points) own.now) }
{
    for rule in own {
        let copy = copied(*points.allocator(), rule.points.as_slice())?;
        points.push(copy)?;
    }
    Ok(())
}

fn copied(alloc: Global, spans: &[Span]) -> Result<Items<Span>, AllocError>
    ensures { IfOk result (λ list. list ≡ spans.now) }
{
    let mut copy = Vec::new(alloc);
    copy.extend_from_slice(spans)?;
    Ok(Items::new(copy))
}

/// The different lists that stand here twice at least, in the order of the first of them, as many as there may be sets.
fn shared_lists(alloc: Global, points: &[Items<Span>]) -> Result<Vec<Items<Span>>, AllocError>
    ensures sets { IfOk result (λ lists. lists.items ≡ sets_behind [] points.now) }
    ensures few { IfOk result (λ lists. vec_len lists ≤ MOST_SETS) }
{
    let mut seen = Vec::new(alloc);
    for (index, list) in points.iter().enumerate() {
        push_set(alloc, &mut seen, list.as_slice(), &points[index + 1..])?;
    }
    Ok(seen)
}

/// Appends a list that gets a set.
fn push_set(
    alloc: Global,
    seen: &mut Vec<Items<Span>>,
    points: &[Span],
    later: &[Items<Span>],
) -> Result<(), AllocError>
    requires { vec_len seen.old ≤ MOST_SETS }
    ensures sets { OnOk result (seen.new.items ≡ with_set seen.old.items points.now later.now) }
    ensures few { vec_len seen.new ≤ MOST_SETS }
{
    if gets_set(seen.as_slice(), points, later) {
        seen.push(copied(alloc, points)?)?;
    }
    Ok(())
}

/// Whether a list gets a set: it is stated and has none, there is room, and a later rule has it too.
fn gets_set(seen: &[Items<Span>], points: &[Span], later: &[Items<Span>]) -> bool
    ensures set { result ≡ gets_set seen.now points.now later.now }
    ensures room { IsTrue result → length seen.now < MOST_SETS }
{
    seen.len() < MOST_SETS
        && !points.is_empty()
        && !has_list(seen, points)
        && has_list(later, points)
}

fn has_list(lists: &[Items<Span>], points: &[Span]) -> bool
    ensures { result ≡ has_list lists.now points.now }
{
    for list in lists {
        if are_same(list.as_slice(), points) {
            return true;
        }
    }
    false
}

fn set_tables(alloc: Global, lists: &[Items<Span>]) -> Result<Array, AllocError>
    requires { length lists.now ≤ MOST_SETS }
    ensures { IfOk result (λ a. array_view a ≡ set_tables lists.now) }
{
    let mut tables = Vec::new(alloc);
    for (number, list) in lists.iter().enumerate() {
        tables.push(Value::Table(set_table(alloc, number, list.as_slice())?))?;
    }
    Ok(tables)
}

fn asset_tables(alloc: Global, lists: &[Items<Span>], assets: &[Asset]) -> Result<Array, AllocError>
    requires within { All IsAssetWithin assets.now }
    requires few { length lists.now ≤ MOST_SETS }
    ensures { IfOk result (λ a. array_view a ≡ asset_tables lists.now assets.now) }
{
    let mut tables = Vec::new(alloc);
    for asset in assets {
        let mut table = Table::new(alloc);
        fill_asset(alloc, &mut table, lists, asset)?;
        tables.push(Value::Table(table))?;
    }
    Ok(tables)
}
