//! `run POLICY CAPTURE OUT LOG`: a policy is run over a capture.
ghost use Rattle.std.specs.Prelude.{◌≡◌, ◌∷◌, []};
ghost use Rattle.cf_words.specs.Command.{Run};
ghost use Rattle.cf_box.specs.Ends.{Meets};
ghost use Rattle.cf_ending.specs.Outside.{FilesNeverFall, SinkValue, files_value, outside};
ghost use Rattle.cf_outside.specs.PairValue.{PairValue};
ghost use Rattle.cf_run.specs.RunCapture.{AreApart, run_names_value};
ghost use Rattle.cf_box.specs.Run.{run_stop};

use crate::policy_file::load_policy;
use cf_ending::{CaptureRefusal, Done, Stop};
use cf_outside::Files;
use cf_run::{RunFault, RunNames, RunRefusal, run_capture};
use std::alloc::Global;

/// Why a run stops.
fn run_stop(fault: RunFault) -> Stop
    ensures { result ≡ run_stop fault }
{
    match fault {
        RunFault::NoMemory => Stop::NoMemory,
        RunFault::Read => Stop::ReadFault,
        RunFault::Write => Stop::WriteFault,
        RunFault::Refused(RunRefusal::Header(refusal)) => Stop::from(refusal),
        RunFault::Refused(RunRefusal::Block(refusal)) => Stop::from(refusal),
        RunFault::Refused(RunRefusal::TooLong) => { Stop::CaptureRefused(CaptureRefusal::TooLong) }
        RunFault::Refused(RunRefusal::Clock) => Stop::CaptureRefused(CaptureRefusal::Clock),
        RunFault::Refused(RunRefusal::Large) => Stop::CaptureRefused(CaptureRefusal::Large),
        RunFault::Cut { at, summary } => Stop::RunCut(at, summary),
    }
}

/// Reads the policy, and runs it over the capture.
#[tactic(auto, using(crate::proofs::Reading::rises_one))]
pub(crate) fn run<F: Files>(
    alloc: Global,
    policy_file: &str,
    names: &RunNames<'_>,
    files: &mut F,
) -> Result<Done, Stop>
    requires { AreApart (run_names_value names.now) }
    ensures meets { (sink : SinkValue) (pair : PairValue) → Meets (Run policy_file.now (run_names_value names.now))
        (outside (files_value F.Files files.old) sink pair) (outside (files_value F.Files files.new) sink pair) result }
    ensures later { FilesNeverFall (policy_file.now ∷ names.now.capture.now ∷ []) (files_value F.Files files.old)
        (files_value F.Files files.new) }
{
    let policy = match load_policy(alloc, policy_file, files) {
        Ok(policy) => policy,
        Err(stop) => return Err(stop),
    };
    match run_capture(alloc, &policy, names, files) {
        Ok(summary) => Ok(Done::Ran(summary)),
        Err(fault) => Err(run_stop(fault)),
    }
}
