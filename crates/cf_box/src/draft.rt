//! `draft POLICY OUT CAPTURE..`: a first policy is written that allows what captures show.
ghost use Rattle.std.specs.Prelude.{◌≡◌, ◌∷◌, [], Err, IfErr, IfOk, map, string_bytes};
ghost use Rattle.cf_words.specs.Command.{Draft as DraftCommand};
ghost use Rattle.cf_box.specs.Draft.{DraftsAs, IsReadOf, WritesDraftText, counted_draft};
ghost use Rattle.cf_box.specs.Recording.{StopsReading};
ghost use Rattle.cf_box.specs.Ends.{Meets};
ghost use Rattle.cf_ending.specs.Outside.{FilesNeverFall, ReadsOnly, SinkValue, files_value, outside};
ghost use Rattle.cf_outside.specs.Frames.{OnlyWrites};
ghost use Rattle.cf_outside.specs.PairValue.{PairValue};
ghost use Rattle.cf_policy.specs.Within.{IsWithin};
ghost use Rattle.cf_watch.specs.FlowValue.{flow_value};

use crate::policy_file::{count_rules, load_policy, name_at};
use crate::recording::read_recording;
use cf_draft::{Draft, Parts, draft_policy, read_parts};
use cf_ending::{Done, Stop};
use cf_learn::LearnFault;
use cf_outside::{Files, write_whole};
use cf_policy::Policy;
use cf_view::WriteFault;
use std::alloc::Global;

/// Reads a policy and the captures as one recording, drafts a policy that allows all that they show, and writes it to a file that is
/// created last.
pub(crate) fn draft_captures<F: Files>(
    alloc: Global,
    policy_file: &str,
    out: &str,
    captures: &[String],
    files: &mut F,
) -> Result<Done, Stop>
    ensures meets { (sink : SinkValue) (pair : PairValue) → Meets (DraftCommand policy_file.now out.now (map string_bytes captures.now))
        (outside (files_value F.Files files.old) sink pair) (outside (files_value F.Files files.new) sink pair) result }
    ensures later { FilesNeverFall (policy_file.now ∷ map string_bytes captures.now) (files_value F.Files files.old)
        (files_value F.Files files.new) }
{
    let policy = match load_policy(alloc, policy_file, files) {
        Ok(policy) => policy,
        Err(stop) => return Err(stop),
    };
    let parts = match read_captures(alloc, &policy, captures, files) {
        Ok(parts) => parts,
        Err(stop) => return Err(stop),
    };
    match drafted(alloc, &policy, &parts) {
        Ok(draft) => write_draft(&draft, out, files),
        Err(stop) => Err(stop),
    }
}

/// What is read of the flows of captures, which are one recording, and of their other stretches. Changes no file.
fn read_captures<F: Files>(
    alloc: Global,
    policy: &Policy,
    captures: &[String],
    files: &mut F,
) -> Result<Parts, Stop>
    requires within { IsWithin policy.now }
    ensures read { IfOk result (λ parts. IsReadOf policy.now.assets (F.content files.old) (map string_bytes captures.now)
        (map flow_value parts.flows.items)) }
    ensures stop { IfErr result (λ s. StopsReading (map string_bytes captures.now) (files_value F.Files files.old)
        (files_value F.Files files.new) s) }
    ensures only { ReadsOnly (map string_bytes captures.now) (files_value F.Files files.old) (files_value F.Files files.new) }
{
    let recording = match read_recording(alloc, policy, captures, files) {
        Ok(recording) => recording,
        Err(stop) => return Err(stop),
    };
    match read_parts(alloc, policy, &recording) {
        Ok(parts) => Ok(parts),
        Err(_) => Err(Stop::NoMemory),
    }
}

/// The draft of a policy by what was read, or why there is none.
#[tactic(auto, using(crate::proofs::Learning::first_named))]
fn drafted(alloc: Global, policy: &Policy, parts: &Parts) -> Result<Draft, Stop>
    requires within { IsWithin policy.now }
    ensures { DraftsAs policy.now (map flow_value parts.now.flows.items) result }
{
    match draft_policy(alloc, policy, parts) {
        Ok(draft) => Ok(draft),
        Err(LearnFault::NoMemory) => Err(Stop::NoMemory),
        Err(LearnFault::Many(place)) => Err(Stop::TooManyRules(name_at(policy, place))),
    }
}

/// Writes the text of a draft to a file, which is created after all else.
fn write_draft<F: Files>(draft: &Draft, out: &str, files: &mut F) -> Result<Done, Stop>
    requires { IsWithin draft.now.policy }
    ensures writes { WritesDraftText draft.now (F.content files.old out.now) (F.content files.new out.now) result }
    ensures only { OnlyWrites (out.now ∷ []) F.content F.read_faults F.write_faults files.old files.new (result ≡ Err Stop.WriteFault) }
{
    match write_whole(out, draft.text.as_bytes(), files) {
        Ok(()) => Ok(counted_draft(draft)),
        Err(WriteFault) => Err(Stop::WriteFault),
    }
}

/// The numbers of a draft's assets and rules, and of the assets that were widened.
fn counted_draft(draft: &Draft) -> Done
    requires { IsWithin draft.now.policy }
    ensures { result ≡ counted_draft draft.now }
{
    let assets = draft.policy.assets.as_slice();
    Done::Drafted {
        assets: assets.len() as u64,
        rules: count_rules(assets),
        widened: draft.widened,
    }
}
