//! `world SEED SESSIONS POLICY CAPTURE OUT LOG`: a policy and a capture are made from a number, and the policy is run over the
//! capture.
ghost use Rattle.std.specs.Prelude.{◌≡◌, ◌∷◌, []};
ghost use Rattle.cf_words.specs.Command.{World};
ghost use Rattle.cf_box.specs.Ends.{Meets};
ghost use Rattle.cf_ending.specs.Outside.{FilesNeverFall, SinkValue, files_value, outside};
ghost use Rattle.cf_words.specs.Forms.{IsFitWorld};
ghost use Rattle.cf_outside.specs.PairValue.{PairValue};
ghost use Rattle.cf_run.specs.RunCapture.{run_names_value};
ghost use Rattle.cf_box.specs.World.{world_stop};

use crate::run::run;
use cf_ending::{Done, Stop};
use cf_outside::Files;
use cf_run::RunNames;
use cf_world::{WorldFault, WorldNames, make_world};
use std::alloc::Global;

/// Why the making of a world stops.
fn world_stop(fault: WorldFault) -> Stop
    ensures { result ≡ world_stop fault }
{
    match fault {
        WorldFault::NoMemory => Stop::NoMemory,
        WorldFault::Write => Stop::WriteFault,
    }
}

/// Makes the policy and the capture, and runs the one over the other as `run` does.
pub(crate) fn world<F: Files>(
    alloc: Global,
    seed: u64,
    sessions: u64,
    policy: &str,
    names: &RunNames<'_>,
    files: &mut F,
) -> Result<Done, Stop>
    requires { IsFitWorld sessions policy.now (run_names_value names.now) }
    ensures meets { (sink : SinkValue) (pair : PairValue) → Meets (World seed sessions policy.now (run_names_value names.now))
        (outside (files_value F.Files files.old) sink pair) (outside (files_value F.Files files.new) sink pair) result }
    ensures later { FilesNeverFall (policy.now ∷ names.now.capture.now ∷ []) (files_value F.Files files.old)
        (files_value F.Files files.new) }
{
    let made = WorldNames {
        policy,
        capture: names.capture,
    };
    match make_world(alloc, seed, sessions as u32, &made, files) {
        Ok(()) => run(alloc, policy, names, files),
        Err(fault) => Err(world_stop(fault)),
    }
}
