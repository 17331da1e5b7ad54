//! `learn POLICY CAPTURE OUT`: a policy is written that allows exactly what a capture shows.
ghost use Rattle.std.specs.Prelude.{map, ◌∷◌, []};
ghost use Rattle.cf_words.specs.Command.{Learn};
ghost use Rattle.cf_box.specs.Ends.{Meets};
ghost use Rattle.cf_box.specs.Learn.{LearnsAs};
ghost use Rattle.cf_ending.specs.Outside.{FilesNeverFall, SinkValue, files_value, outside};
ghost use Rattle.cf_outside.specs.PairValue.{PairValue};
ghost use Rattle.cf_policy.specs.Within.{IsWithin};
ghost use Rattle.cf_watch.specs.FlowValue.{flow_value};

use crate::policy_file::{load_policy, name_at, write_policy};
use crate::watching::fault_stop;
use cf_ending::{Done, Stop};
use cf_learn::{LearnFault, learn};
use cf_outside::Files;
use cf_policy::Policy;
use cf_watch::{Flow, watch};
use std::alloc::Global;

/// Reads a policy and a capture, learns the policy that allows exactly what the capture shows, and writes it to a file that is created
/// last.
#[tactic(auto, using(crate::proofs::Reading::rises_one))]
pub(crate) fn learn_capture<F: Files>(
    alloc: Global,
    policy_file: &str,
    capture: &str,
    out: &str,
    files: &mut F,
) -> Result<Done, Stop>
    ensures meets { (sink : SinkValue) (pair : PairValue) → Meets (Learn policy_file.now capture.now out.now)
        (outside (files_value F.Files files.old) sink pair) (outside (files_value F.Files files.new) sink pair) result }
    ensures later { FilesNeverFall (policy_file.now ∷ capture.now ∷ []) (files_value F.Files files.old)
        (files_value F.Files files.new) }
{
    let policy = match load_policy(alloc, policy_file, files) {
        Ok(policy) => policy,
        Err(stop) => return Err(stop),
    };
    let flows = match watch(alloc, &policy, capture, files) {
        Ok(flows) => flows,
        Err(fault) => return Err(fault_stop(fault)),
    };
    match learned(alloc, &policy, flows.as_slice()) {
        Ok(policy) => write_policy(alloc, &policy, out, files),
        Err(stop) => Err(stop),
    }
}

/// The policy that flows make of a policy, or why none is learned.
#[tactic(auto, using(crate::proofs::Learning::first_named))]
fn learned(alloc: Global, policy: &Policy, flows: &[Flow]) -> Result<Policy, Stop>
    requires within { IsWithin policy.now }
    ensures { LearnsAs policy.now (map flow_value flows.now) result }
{
    match learn(alloc, policy, flows) {
        Ok(policy) => Ok(policy),
        Err(LearnFault::NoMemory) => Err(Stop::NoMemory),
        Err(LearnFault::Many(place)) => Err(Stop::TooManyRules(name_at(policy, place))),
    }
}
