//! The document of a policy, and its text.
ghost use Rattle.std.specs.Prelude.{◌≡◌, ◌≤◌, IfOk, vec_len};
ghost use Rattle.toml.specs.View.{table_view, array_view};
ghost use Rattle.cf_policy.specs.Within.{IsWithin, most_assets};
ghost use Rattle.cf_policylang.specs.Tested.{Answers, AnswersPlainly, or_refused, at_document};
ghost use Rattle.cf_policylang.specs.Fields.{has_other};
ghost use Rattle.cf_policylang.specs.Documents.{document_keys, edition_of, version, asset_items, document, toml_of, text_meaning};
ghost use Rattle.cf_policylang.specs.Documents.{policy_meaning};

use crate::assets::assets_from;
use crate::fields::{Kind, as_array_of, as_number, count, has_other, required};
use crate::refusal::{Cause, Key, Place, PolicyFault, PolicyRefusal, refusal};
use crate::sets::{Edition, Named, sets};
use cf_policy::{MOST_ASSETS, Policy};
use std::alloc::Global;
use toml::Table;
use toml::value::Array;

/// The most bytes that a policy's text has. This project's own limit.
pub const LONGEST_TEXT: usize = 4_194_304;

const FIRST_KEYS: [Key; 2] = [Key::Version, Key::Asset];

const LATER_KEYS: [Key; 3] = [Key::Version, Key::Asset, Key::Set];

/// Reads a policy from its text: a TOML 1.1 document in UTF-8 with the keys of this project's own policy language.
///
/// The answer is exactly the text's meaning, or exactly the first refusal in the order of the tests; only want of
/// memory comes besides. The whole text is tested first, then the document's keys, then each asset with its rules.
/// A policy that is read has its names apart, its assets of one endpoint as a site, and every number in its range.
pub fn read_policy(alloc: Global, bytes: &[u8]) -> Result<Policy, PolicyFault>
    ensures meaning { Answers (λ p. p) (policy_meaning bytes.now) result }
    ensures within { IfOk result (λ p. IsWithin p) }
{
    if bytes.len() > LONGEST_TEXT {
        return Err(refusal(Cause::TooMany, Key::Nothing, Place::DOCUMENT).into());
    }
    text_meaning(alloc, bytes)
}

/// What a text of any size means.
fn text_meaning(alloc: Global, bytes: &[u8]) -> Result<Policy, PolicyFault>
    ensures { Answers (λ p. p) (text_meaning bytes.now) result }
{
    document(alloc, &toml_of(alloc, bytes)?)
}

/// The table that bytes in UTF-8 are as TOML.
fn toml_of(alloc: Global, bytes: &[u8]) -> Result<Table, PolicyFault>
    ensures { Answers (λ t. table_view t) (or_refused Cause.NotToml Key.Nothing at_document (toml_of bytes.now)) result }
{
    match toml::table_from_slice(alloc, bytes) {
        Ok(table) => Ok(table),
        Err(error) => {
            if error.is_memory() {
                Err(PolicyFault::NoMemory)
            } else {
                Err(refusal(Cause::NotToml, Key::Nothing, Place::DOCUMENT).into())
            }
        }
    }
}

fn document(alloc: Global, table: &Table) -> Result<Policy, PolicyFault>
    ensures { Answers (λ p. p) (document (table_view table.now)) result }
{
    let edition = version(table)?;
    if has_other_key(edition, table) {
        return Err(refusal(Cause::UnknownKey, Key::Nothing, Place::DOCUMENT).into());
    }
    let sets = sets(alloc, table)?;
    let named = Named { edition, sets };
    let assets = assets_from(alloc, &named, asset_array(table)?)?;
    Ok(Policy { assets })
}

/// The version of the document, which is 1, 2 or 3.
fn version(table: &Table) -> Result<Edition, PolicyRefusal>
    ensures { result ≡ version (table_view table.now) }
{
    let value = required(Key::Version, Place::DOCUMENT, table)?;
    let number = as_number(Key::Version, Place::DOCUMENT, value)?;
    edition_of(number).ok_or(refusal(Cause::Version, Key::Version, Place::DOCUMENT))
}

fn edition_of(number: i64) -> Option<Edition>
    ensures { result ≡ edition_of number }
{
    match number {
        1 => Some(Edition::First),
        2 => Some(Edition::Second),
        3 => Some(Edition::Third),
        _ => None,
    }
}

/// Whether the document has a key that its version does not have.
fn has_other_key(edition: Edition, table: &Table) -> bool
    ensures { result ≡ has_other (document_keys edition) (table_view table.now) }
{
    match edition {
        Edition::First => has_other(&FIRST_KEYS, table),
        Edition::Second | Edition::Third => has_other(&LATER_KEYS, table),
    }
}

fn asset_array(table: &Table) -> Result<&Array, PolicyRefusal>
    ensures items { AnswersPlainly (λ a. array_view a.now) (asset_items (table_view table.now)) result }
    ensures short { IfOk result (λ a. vec_len a.now ≤ most_assets) }
{
    let value = required(Key::Asset, Place::DOCUMENT, table)?;
    let array = as_array_of(Kind::Table, Key::Asset, Place::DOCUMENT, value)?;
    if count(array) > MOST_ASSETS {
        return Err(refusal(Cause::TooMany, Key::Asset, Place::DOCUMENT));
    }
    Ok(array)
}
