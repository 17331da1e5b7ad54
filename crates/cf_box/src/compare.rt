//! `compare POLICY OTHER`: whether the first policy allows only what the second allows.
ghost use Rattle.std.specs.Prelude.{◌∷◌, []};
ghost use Rattle.cf_words.specs.Command.{Compare};
ghost use Rattle.cf_box.specs.Compare.{Says};
ghost use Rattle.cf_box.specs.Ends.{Meets};
ghost use Rattle.cf_ending.specs.Outside.{FilesNeverFall, SinkValue, files_value, outside};
ghost use Rattle.cf_outside.specs.PairValue.{PairValue};
ghost use Rattle.cf_policy.specs.Within.{IsWithin};

use crate::policy_file::{load_policy, name_at};
use cf_compare::{CompareFault, Compared, compare};
use cf_ending::{Denial, Done, Stop};
use cf_outside::Files;
use cf_policy::Policy;
use std::alloc::Global;

/// Reads both policies, and compares the first with the second. Changes no file.
pub(crate) fn compare_files<F: Files>(
    alloc: Global,
    policy: &str,
    other: &str,
    files: &mut F,
) -> Result<Done, Stop>
    ensures meets { (sink : SinkValue) (pair : PairValue) → Meets (Compare policy.now other.now)
        (outside (files_value F.Files files.old) sink pair) (outside (files_value F.Files files.new) sink pair) result }
    ensures later { FilesNeverFall (policy.now ∷ other.now ∷ []) (files_value F.Files files.old)
        (files_value F.Files files.new) }
{
    let ours = match load_policy(alloc, policy, files) {
        Ok(ours) => ours,
        Err(stop) => return Err(stop),
    };
    let theirs = match load_policy(alloc, other, files) {
        Ok(theirs) => theirs,
        Err(stop) => return Err(stop),
    };
    compared(alloc, &ours, &theirs)
}

/// What is said of two policies.
fn compared(alloc: Global, ours: &Policy, theirs: &Policy) -> Result<Done, Stop>
    requires ours { IsWithin ours.now }
    requires theirs { IsWithin theirs.now }
    ensures { Says ours.now theirs.now result }
{
    match compare(alloc, ours, theirs) {
        Ok(Compared::Included) => Ok(Done::Included),
        Ok(Compared::Missing(place)) => Err(Stop::Denied(Denial::NoPartner(name_at(ours, place)))),
        Ok(Compared::Shown { asset, client, act }) => {
            let name = name_at(ours, asset);
            Err(Stop::Denied(Denial::Allows { name, client, act }))
        }
        Err(CompareFault::Cells(place)) => Err(Stop::TooManyCells(name_at(ours, place))),
        Err(CompareFault::NoMemory) => Err(Stop::NoMemory),
    }
}
