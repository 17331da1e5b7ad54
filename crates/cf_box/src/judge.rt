//! `judge POLICY CAPTURE`: whether what clients sent in a capture keeps a policy.
ghost use Rattle.std.specs.Prelude.{[], ◌≡◌, ◌≤◌, All, Some, length, map, slice_get, ◌∷◌};
ghost use Rattle.std.specs.Option.{option_map_or};
ghost use Rattle.cf_words.specs.Command.{Judge};
ghost use Rattle.cf_box.specs.Ends.{Meets};
ghost use Rattle.cf_box.specs.Judge.{IsTold, IsToldAs, SaysOfFlows};
ghost use Rattle.cf_ending.specs.Outside.{FilesNeverFall, SinkValue, files_value, outside};
ghost use Rattle.cf_outside.specs.PairValue.{PairValue};
ghost use Rattle.cf_policy.specs.Names.{name_of};
ghost use Rattle.cf_policy.specs.Within.{IsWithin};
ghost use Rattle.cf_policy.specs.declared.Asset.{Asset as AssetOf};
ghost use Rattle.cf_policy.specs.declared.limits.TheConstants.{LONGEST_NAME};
ghost use Rattle.cf_watch.specs.FlowValue.{IsForAsset, flow_value};

use crate::policy_file::load_policy;
use crate::watching::fault_stop;
use cf_ending::{AssetName, Denial, Done, Ground, Objected, Stop};
use cf_judge::{Complaint, Objection, judge};
use cf_outside::Files;
use cf_policy::{Asset, Decider, Policy, Rule};
use cf_watch::{Flow, watch};
use std::alloc::Global;

/// Reads the policy and the capture, and judges its flows. Changes no file.
#[tactic(auto, using(crate::proofs::Reading::rises_one))]
pub(crate) fn judge_capture<F: Files>(
    alloc: Global,
    policy: &str,
    capture: &str,
    files: &mut F,
) -> Result<Done, Stop>
    ensures meets { (sink : SinkValue) (pair : PairValue) → Meets (Judge policy.now capture.now)
        (outside (files_value F.Files files.old) sink pair) (outside (files_value F.Files files.new) sink pair) result }
    ensures later { FilesNeverFall (policy.now ∷ capture.now ∷ []) (files_value F.Files files.old)
        (files_value F.Files files.new) }
{
    let meaning = match load_policy(alloc, policy, files) {
        Ok(meaning) => meaning,
        Err(stop) => return Err(stop),
    };
    let flows = match watch(alloc, &meaning, capture, files) {
        Ok(flows) => flows,
        Err(fault) => return Err(fault_stop(fault)),
    };
    judge_flows(alloc, &meaning, flows.as_slice())
}

/// What is said of flows.
fn judge_flows(alloc: Global, policy: &Policy, flows: &[Flow]) -> Result<Done, Stop>
    requires within { IsWithin policy.now }
    requires flows { All (IsForAsset policy.now.assets) (map flow_value flows.now) }
    ensures { SaysOfFlows policy.now (map flow_value flows.now) result }
{
    match judge(alloc, policy, flows) {
        Ok(judged) => match judged.objection {
            None => Ok(Done::Unobjected {
                flows: judged.flows,
                commands: judged.commands,
            }),
            Some(objection) => Err(Stop::Denied(Denial::Objects(objection_told(
                policy, &objection,
            )))),
        },
        Err(_) => Err(Stop::NoMemory),
    }
}

/// An objection, with the names that the policy has.
fn objection_told(policy: &Policy, objection: &Objection) -> Objected
    ensures { (asset : AssetOf) → slice_get policy.now.assets objection.now.asset ≡ Some asset → IsTold asset objection.now result }
{
    match policy.assets.as_slice().get(objection.asset as usize) {
        Some(asset) => told_of(asset, objection),
        None => Objected {
            at_record: objection.at_record,
            client: objection.client,
            asset: AssetName::new(),
            what: Ground::Conflict(0),
        },
    }
}

fn told_of(asset: &Asset, objection: &Objection) -> Objected
    ensures { IsTold asset.now objection.now result }
{
    Objected {
        at_record: objection.at_record,
        client: objection.client,
        asset: name_text(asset.name.as_str()),
        what: complaint_told(asset, &objection.what),
    }
}

fn complaint_told(asset: &Asset, complaint: &Complaint) -> Ground
    ensures { IsToldAs asset.now complaint.now result }
{
    match complaint {
        Complaint::Conflict(position) => Ground::Conflict(*position),
        Complaint::Broken(reason) => Ground::Broken(*reason),
        Complaint::Refused(decider, reason) => Ground::Refused {
            rule: rule_name(asset, decider),
            reason: *reason,
        },
        Complaint::Stray(why) => Ground::Stray(*why),
    }
}

/// The name of what decided.
fn rule_name(asset: &Asset, decider: &Decider) -> AssetName
    ensures { result.bytes ≡ name_of asset.now.rules decider.now }
{
    match decider {
        Decider::Rule(number) => name_of_rule(asset.rules.as_slice(), *number),
        Decider::Spent(number) => name_of_rule(asset.rules.as_slice(), *number),
        Decider::Default => name_text("default"),
        Decider::Station => name_text("station"),
        Decider::Form => name_text("form"),
    }
}

/// The name of the rule at a place; an empty one where there is none.
fn name_of_rule(rules: &[Rule], place: usize) -> AssetName
    ensures { result.bytes ≡ option_map_or (λ r. r.name) (slice_get rules.now place) [] }
{
    match rules.get(place) {
        Some(rule) => name_text(rule.name.as_str()),
        None => AssetName::new(),
    }
}

fn name_text(name: &str) -> AssetName
    requires { length name.now ≤ LONGEST_NAME }
    ensures { result.bytes ≡ name.now }
{
    let mut text = AssetName::new();
    text.push_str(name);
    text
}
