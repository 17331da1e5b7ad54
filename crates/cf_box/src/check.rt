//! `check POLICY`: a policy is read, and its assets and rules are counted.
ghost use Rattle.std.specs.Prelude.{◌∷◌, []};
ghost use Rattle.cf_words.specs.Command.{Check};
ghost use Rattle.cf_box.specs.Ends.{Meets};
ghost use Rattle.cf_ending.specs.Outside.{FilesNeverFall, SinkValue, files_value, outside};
ghost use Rattle.cf_outside.specs.PairValue.{PairValue};

use crate::policy_file::{counted, load_policy};
use cf_ending::{Done, Stop};
use cf_outside::Files;
use std::alloc::Global;

/// Reads a policy, and counts its assets and rules. Changes no file.
pub(crate) fn check<F: Files>(alloc: Global, policy_file: &str, files: &mut F) -> Result<Done, Stop>
    ensures meets { (sink : SinkValue) (pair : PairValue) →
        Meets (Check policy_file.now) (outside (files_value F.Files files.old) sink pair)
        (outside (files_value F.Files files.new) sink pair) result }
    ensures later { FilesNeverFall (policy_file.now ∷ []) (files_value F.Files files.old)
        (files_value F.Files files.new) }
{
    let policy = match load_policy(alloc, policy_file, files) {
        Ok(policy) => policy,
        Err(stop) => return Err(stop),
    };
    Ok(counted(&policy))
}
