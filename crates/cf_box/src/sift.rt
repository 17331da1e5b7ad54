//! `sift POLICY ASSET CLIENT STREAM OUT REPLIES LOG`: the stored stream of one client is filtered.
ghost use Rattle.std.specs.Prelude.{◌≡◌, ◌∷◌, []};
ghost use Rattle.cf_words.specs.Command.{Sift};
ghost use Rattle.cf_box.specs.Ends.{Meets};
ghost use Rattle.cf_ending.specs.Outside.{FilesNeverFall, SinkValue, files_value, outside};
ghost use Rattle.cf_outside.specs.PairValue.{PairValue};
ghost use Rattle.cf_sift.specs.Names.{AreApart, sift_names_value};
ghost use Rattle.cf_box.specs.Sift.{sift_stop};

use crate::policy_file::{find_site, load_policy};
use cf_ending::{Done, Stop};
use cf_outside::Files;
use cf_policylang::address;
use cf_sift::{SiftFault, SiftNames, sift_stream};
use std::alloc::Global;

/// Why the filter of a stored stream stops.
fn sift_stop(fault: SiftFault) -> Stop
    ensures { result ≡ sift_stop fault }
{
    match fault {
        SiftFault::NoMemory => Stop::NoMemory,
        SiftFault::Read => Stop::ReadFault,
        SiftFault::Write => Stop::WriteFault,
    }
}

/// Reads the policy, and filters the stream for its site of a name.
#[tactic(auto, using(crate::proofs::Reading::rises_one))]
pub(crate) fn sift<F: Files>(
    alloc: Global,
    policy_file: &str,
    asset_name: &str,
    client: u32,
    names: &SiftNames<'_>,
    files: &mut F,
) -> Result<Done, Stop>
    requires { AreApart (sift_names_value names.now) }
    ensures meets { (sink : SinkValue) (pair : PairValue) → Meets (Sift policy_file.now asset_name.now client (sift_names_value names.now))
        (outside (files_value F.Files files.old) sink pair) (outside (files_value F.Files files.new) sink pair) result }
    ensures later { FilesNeverFall (policy_file.now ∷ names.now.stream.now ∷ []) (files_value F.Files files.old)
        (files_value F.Files files.new) }
{
    let policy = match load_policy(alloc, policy_file, files) {
        Ok(policy) => policy,
        Err(stop) => return Err(stop),
    };
    let Some(site) = find_site(&policy, asset_name) else {
        return Err(Stop::UnknownAsset);
    };
    let done = match sift_stream(alloc, &site, client, names, files) {
        Ok(done) => done,
        Err(fault) => return Err(sift_stop(fault)),
    };
    match done.cut {
        Some(reason) => Err(Stop::Cut(reason)),
        None => Ok(Done::Sifted {
            admitted: done.admitted,
            refused: done.refused,
        }),
    }
}
