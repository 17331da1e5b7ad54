//! The policy that a file holds.
ghost use Rattle.std.specs.Prelude.{◌≡◌, ◌≢◌, ◌∷◌, [], Err, IfErr, IfNone, IfOk, IfSome, None, Some, bytes_eq, find, option_and_then, option_map, slice_get};
ghost use Rattle.cf_words.specs.Command.{Command, policy_file};
ghost use Rattle.cf_box.specs.Ends.{StopsFor};
ghost use Rattle.cf_ending.specs.Outside.{ReadsOnly, SinkValue, files_value, outside};
ghost use Rattle.cf_box.specs.PolicyFile.{HasPolicy, StopsPolicy, WritesPolicy, asset_named, counted, rule_count, site_named};
ghost use Rattle.cf_outside.specs.Frames.{OnlyWrites};
ghost use Rattle.cf_outside.specs.PairValue.{PairValue};
ghost use Rattle.cf_policy.specs.Site.{IsSiteWithin, site_at};
ghost use Rattle.cf_policy.specs.Within.{AreAssetsWithin, IsWithin};
ghost use Rattle.cf_policy.specs.declared.Asset.{Asset};

use cf_ending::{AssetName, Done, Stop};
use cf_outside::{Files, WholeFault, read_whole, write_whole};
use cf_policy::{Asset, Policy, Site, site_at};
use cf_policylang::{Cause, Key, PolicyFault, PolicyRefusal, migrated_text, read_policy};
use cf_view::WriteFault;
use std::alloc::Global;

/// How many bytes a policy file has at most.
const POLICY_LIMIT: u64 = 4_194_304;

/// The refusal of a file of more bytes: of the document as a whole.
const TOO_LONG: PolicyRefusal = PolicyRefusal {
    number: Cause::TooMany as u8,
    key: Key::Nothing,
    asset: 0,
    rule: 0,
};

/// Reads the policy of a file, or says why each command that reads it stops. Changes no file.
#[tactic(auto, using(crate::proofs::Reading::policy_laws))]
pub(crate) fn load_policy<F: Files>(
    alloc: Global,
    name: &str,
    files: &mut F,
) -> Result<Policy, Stop>
    ensures has { IfOk result (λ p. HasPolicy (F.content files.old name.now) p) }
    ensures within { IfOk result (λ p. IsWithin p) }
    ensures stop { IfErr result (λ s. (c : Command) (sink : SinkValue) (pair : PairValue) → policy_file c ≡ Some name.now
        → StopsFor c (outside (files_value F.Files files.old) sink pair) (outside (files_value F.Files files.new) sink pair) s) }
    ensures unwritten { IfErr result (λ s. s ≢ Stop.WriteFault) }
    ensures early { IfErr result StopsPolicy }
    ensures only { ReadsOnly (name.now ∷ []) (files_value F.Files files.old) (files_value F.Files files.new) }
{
    let bytes = match read_whole(alloc, name, POLICY_LIMIT, files) {
        Ok(bytes) => bytes,
        Err(WholeFault::Read) => return Err(Stop::ReadFault),
        Err(WholeFault::TooLong) => return Err(Stop::PolicyRefused(TOO_LONG)),
        Err(WholeFault::NoMemory) => return Err(Stop::NoMemory),
    };
    match read_policy(alloc, &bytes) {
        Ok(policy) => Ok(policy),
        Err(PolicyFault::Refused(refusal)) => Err(Stop::PolicyRefused(refusal)),
        Err(PolicyFault::NoMemory) => Err(Stop::NoMemory),
    }
}

/// The site that has an asset of the name: all assets behind the address and port of that one.
pub(crate) fn find_site<'a>(policy: &'a Policy, name: &str) -> Option<Site<'a>>
    requires { IsWithin policy.now }
    ensures named { result ≡ site_named name.now policy.now }
    ensures none { IfNone result (asset_named name.now policy.now ≡ None) }
    ensures within { IfSome result IsSiteWithin }
{
    site_in(policy.assets.as_slice(), name)
}

/// The site, among these assets, that has one of the name.
fn site_in<'a>(assets: &'a [Asset], name: &str) -> Option<Site<'a>>
    requires { AreAssetsWithin assets.now }
    ensures named { result ≡ option_and_then (λ a. site_at assets.now a.endpoint) (find (λ a. bytes_eq a.name name.now) assets.now) }
    ensures none { IfNone result (find (λ a. bytes_eq a.name name.now) assets.now ≡ None) }
    ensures within { IfSome result IsSiteWithin }
{
    match find_in(assets, name) {
        Some(asset) => site_at(assets, &asset.endpoint),
        None => None,
    }
}

fn find_in<'a>(assets: &'a [Asset], name: &str) -> Option<&'a Asset>
    ensures { option_map (λ a. a.now) result ≡ find (λ a. bytes_eq a.name name.now) assets.now }
{
    assets.iter().find(|asset| asset.name.as_str() == name)
}

/// The name of the asset at a place of a policy, from 0.
pub(crate) fn name_at(policy: &Policy, place: u32) -> AssetName
    ensures { (asset : Asset) → slice_get policy.now.assets place ≡ Some asset → result.bytes ≡ asset.name }
{
    let mut text = AssetName::new();
    if let Some(asset) = policy.assets.as_slice().get(place as usize) {
        text.push_str(asset.name.as_str());
    }
    text
}

/// Writes a policy to a file, which is created after all else, as a document of version 2, or 3, that means exactly the
/// policy.
pub(crate) fn write_policy<F: Files>(
    alloc: Global,
    policy: &Policy,
    out: &str,
    files: &mut F,
) -> Result<Done, Stop>
    requires { IsWithin policy.now }
    ensures writes { WritesPolicy policy.now (F.content files.old out.now) (F.content files.new out.now) result }
    ensures unwritten { result ≡ Err Stop.NoMemory → F.content files.new ≡ F.content files.old }
    ensures only { OnlyWrites (out.now ∷ []) F.content F.read_faults F.write_faults files.old files.new (result ≡ Err Stop.WriteFault) }
{
    match migrated_text(alloc, policy) {
        Ok(text) => match write_whole(out, text.as_bytes(), files) {
            Ok(()) => Ok(counted(policy)),
            Err(WriteFault) => Err(Stop::WriteFault),
        },
        Err(_) => Err(Stop::NoMemory),
    }
}

/// The numbers of a policy's assets and of all its rules.
pub(crate) fn counted(policy: &Policy) -> Done
    requires { IsWithin policy.now }
    ensures { result ≡ counted policy.now }
{
    let assets = policy.assets.as_slice();
    Done::Checked {
        assets: assets.len() as u64,
        rules: count_rules(assets),
    }
}

/// How many rules all assets have.
pub(crate) fn count_rules(assets: &[Asset]) -> u64
    requires { AreAssetsWithin assets.now }
    ensures { result ≡ rule_count assets.now }
{
    let mut count = 0;
    for asset in assets {
        count += asset.rules.len() as u64;
    }
    count
}
