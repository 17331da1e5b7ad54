//! Whether one policy allows only what another allows.
ghost use Rattle.std.specs.Prelude.{◌≡◌, ◌<◌, pos, ◌≤ℤ◌, nat_abs, All, Contains, Decides, Ok, IfOk, IfSome, IfNone};
ghost use Rattle.cf_policy.specs.Within.{IsWithin, IsAssetWithin, AreAssetsWithin, highest_address, highest_group, highest_point};
ghost use Rattle.cf_compare.specs.Inclusion.{IsIncludedIn, IsSameController, IsFirstDifference};
ghost use Rattle.cf_compare.specs.Outcome.{Answers, HasNothing, IsIncludedUnlessMemory};
ghost use Rattle.cf_compare.specs.Parts.{AnswersFor, AnswersWith, IsCodeSearched};

use crate::corners::{Cell, all_corners};
use crate::count::{CODES, MOST_CELLS, cells};
use crate::rules::with_code;
use crate::search::found_cell;
use cf_policy::{Asset, Policy};
use cf_view::{Act, NoMemory};
use std::alloc::{AllocError, Global};

/// What a comparison says.
#[derive(Clone, Copy, Debug)]
pub enum Compared {
    /// The first policy allows only what the second allows.
    Included,
    /// The second policy has no asset with the name, endpoint, protocol, station and master of this one of the first.
    Missing(u32),
    /// The first policy allows the client's act at this asset, and the second refuses it: the first such act by code,
    /// client, group, point and value, where no value stands before numbers.
    Shown { asset: u32, client: u32, act: Act },
}

/// Why a comparison was not made.
#[derive(Clone, Copy, Debug)]
pub enum CompareFault {
    /// Memory ran out.
    NoMemory,
    /// The rules of this asset of the first policy and of its partner make more than `MOST_CELLS` cells.
    Cells(u32),
}

/// What is said of one asset.
#[derive(Clone, Copy)]
enum AssetAnswer {
    Passes,
    Missing,
    Cells,
    Shown(u32, Act),
}

/// Whether the first policy allows only what the second allows, for every client and every act, with a value or none.
/// It goes through the assets of the first policy; the first that has no partner, makes too many cells with it, or
/// allows what the partner refuses, is the answer. Assets are counted from 0. This project's own.
pub fn compare(alloc: Global, ours: &Policy, other: &Policy) -> Result<Compared, CompareFault>
    requires ours { IsWithin ours.now }
    requires other { IsWithin other.now }
    ensures answers { Answers ours.now other.now result }
    ensures included { result ≡ Ok Compared.Included → IsIncludedIn ours.now other.now }
    ensures nothing { result ≡ Ok Compared.Included → All (HasNothing other.now) ours.now.assets }
    ensures complete { All (HasNothing other.now) ours.now.assets → IsIncludedUnlessMemory result }
{
    first_answer(alloc, ours.assets.as_slice(), other)
}

fn first_answer(alloc: Global, assets: &[Asset], other: &Policy) -> Result<Compared, CompareFault>
    requires ours { AreAssetsWithin assets.now }
    requires other { IsWithin other.now }
    ensures { Answers (record { assets = assets.now }) other.now result }
{
    for (place, asset) in assets.iter().enumerate() {
        match asset_answer(alloc, asset, other) {
            Err(NoMemory) => return Err(CompareFault::NoMemory),
            Ok(AssetAnswer::Missing) => return Ok(Compared::Missing(place as u32)),
            Ok(AssetAnswer::Cells) => return Err(CompareFault::Cells(place as u32)),
            Ok(AssetAnswer::Shown(client, act)) => {
                return Ok(Compared::Shown {
                    asset: place as u32,
                    client,
                    act,
                });
            }
            Ok(AssetAnswer::Passes) => {}
        }
    }
    Ok(Compared::Included)
}

fn asset_answer(alloc: Global, asset: &Asset, other: &Policy) -> Result<AssetAnswer, NoMemory>
    requires ours { IsAssetWithin asset.now }
    requires other { IsWithin other.now }
    ensures { IfOk result (AnswersFor other.now asset.now) }
{
    match partner_of(asset, other) {
        Some(partner) => partner_answer(alloc, asset, partner),
        None => Ok(AssetAnswer::Missing),
    }
}

fn partner_answer(alloc: Global, asset: &Asset, partner: &Asset) -> Result<AssetAnswer, NoMemory>
    requires ours { IsAssetWithin asset.now }
    requires other { IsAssetWithin partner.now }
    ensures { IfOk result (AnswersWith asset.now partner.now) }
{
    if cells(alloc, asset, partner)? > MOST_CELLS {
        return Ok(AssetAnswer::Cells);
    }
    match first_difference(alloc, asset, partner)? {
        Some((client, act)) => Ok(AssetAnswer::Shown(client, act)),
        None => Ok(AssetAnswer::Passes),
    }
}

/// The asset's partner: that of the policy with the same name, endpoint, protocol, station and master.
pub fn partner_of<'a>(asset: &Asset, other: &'a Policy) -> Option<&'a Asset>
    ensures found { IfSome result (λ partner. Contains other.now.assets partner.now × IsSameController asset.now partner.now) }
    ensures none { IfNone result (All (λ b. IsSameController asset.now b → ⊥) other.now.assets) }
{
    let assets = other.assets.as_slice();
    assets.iter().find(|partner| is_same(asset, partner))
}

fn is_same(asset: &Asset, partner: &Asset) -> bool
    ensures { Decides result (IsSameController asset.now partner.now) }
{
    asset.name.as_str() == partner.name.as_str()
        && asset.endpoint == partner.endpoint
        && asset.protocol == partner.protocol
        && asset.station == partner.station
        && asset.master == partner.master
}

/// The first client and act, by code, client, group, point and value, that the first asset allows and the second
/// refuses; no value stands before numbers. It takes time for each of their `cells`.
pub fn first_difference(
    alloc: Global,
    ours: &Asset,
    other: &Asset,
) -> Result<Option<(u32, Act)>, NoMemory>
    requires ours { IsAssetWithin ours.now }
    requires other { IsAssetWithin other.now }
    ensures { IfOk result (IsFirstDifference ours.now other.now) }
{
    for code in 0..CODES {
        match code_difference(alloc, ours, other, code) {
            Ok(None) => {}
            Ok(Some(found)) => return Ok(Some(found)),
            Err(_) => return Err(NoMemory),
        }
    }
    Ok(None)
}

/// The first difference of a code. A client and an act that differ have corners at or below their numbers that
/// differ too, since each rule has both or neither: so the first difference is one of corners.
fn code_difference(
    alloc: Global,
    ours: &Asset,
    other: &Asset,
    code: u16,
) -> Result<Option<(u32, Act)>, AllocError>
    requires ours { IsAssetWithin ours.now }
    requires other { IsAssetWithin other.now }
    requires code { code < 256 }
    ensures { IfOk result (IsCodeSearched ours.now other.now code) }
{
    let ours = with_code(alloc, ours.rules.as_slice(), code)?;
    let other = with_code(alloc, other.rules.as_slice(), code)?;
    let corners = all_corners(alloc, &ours, &other)?;
    match found_cell(alloc, &ours, &other, &corners)? {
        Some(cell) => Ok(Some(found_at(code, &cell))),
        None => Ok(None),
    }
}

/// The client and the act of a cell.
fn found_at(code: u16, cell: &Cell) -> (u32, Act)
    requires client { (pos 0 ≤ℤ cell.now.client) × (cell.now.client ≤ℤ highest_address) }
    requires group { (pos 0 ≤ℤ cell.now.group) × (cell.now.group ≤ℤ highest_group) }
    requires point { (pos 0 ≤ℤ cell.now.point) × (cell.now.point ≤ℤ highest_point) }
    ensures { result ≡ (
      nat_abs cell.now.client,
      record {
        code = code;
        group = nat_abs cell.now.group;
        point = nat_abs cell.now.point;
        value
            = cell.now.value;
      },
    ) }
{
    let act = Act {
        code,
        group: cell.group as u16,
        point: cell.point as u32,
        value: cell.value,
    };
    (cell.client as u32, act)
}
