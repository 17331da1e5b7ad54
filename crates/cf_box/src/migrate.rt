//! `migrate POLICY OUT`: a policy is written as a document of version 2, or 3, that means the same.
ghost use Rattle.std.specs.Prelude.{◌∷◌, []};
ghost use Rattle.cf_words.specs.Command.{Migrate};
ghost use Rattle.cf_box.specs.Ends.{Meets};
ghost use Rattle.cf_ending.specs.Outside.{FilesNeverFall, SinkValue, files_value, outside};
ghost use Rattle.cf_outside.specs.PairValue.{PairValue};

use crate::policy_file::{load_policy, write_policy};
use cf_ending::{Done, Stop};
use cf_outside::Files;
use std::alloc::Global;

/// Reads a policy, and writes it to a file that is created last.
pub(crate) fn migrate<F: Files>(
    alloc: Global,
    policy_file: &str,
    out: &str,
    files: &mut F,
) -> Result<Done, Stop>
    ensures meets { (sink : SinkValue) (pair : PairValue) → Meets (Migrate policy_file.now out.now)
        (outside (files_value F.Files files.old) sink pair) (outside (files_value F.Files files.new) sink pair) result }
    ensures later { FilesNeverFall (policy_file.now ∷ []) (files_value F.Files files.old)
        (files_value F.Files files.new) }
{
    match load_policy(alloc, policy_file, files) {
        Ok(policy) => write_policy(alloc, &policy, out, files),
        Err(stop) => Err(stop),
    }
}
