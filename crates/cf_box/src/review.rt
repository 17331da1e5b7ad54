//! `review POLICY CAPTURE.. LOG`: all that a policy objects to in what clients sent in captures is written, a line each.
ghost use Rattle.std.specs.Prelude.{◌∷◌, IfErr, IfOk, List, map, string_bytes};
ghost use Rattle.cf_words.specs.Command.{Review};
ghost use Rattle.cf_box.specs.Ends.{Meets};
ghost use Rattle.cf_ending.specs.Outside.{FilesNeverFall, ReadsOnly, SinkValue, files_value, outside};
ghost use Rattle.cf_box.specs.Recording.{StopsReading};
ghost use Rattle.cf_box.specs.Review.{AnswersBy};
ghost use Rattle.cf_outside.specs.PairValue.{PairValue};
ghost use Rattle.cf_policy.specs.Within.{IsWithin};
ghost use Rattle.cf_records.specs.Capture.{Record};
ghost use Rattle.cf_review.specs.Remark.{remark_value};
ghost use Rattle.cf_review.specs.Reviewer.{IsReviewed};
ghost use Rattle.cf_review.specs.Stamps.{AreKnown};
ghost use Rattle.cf_watch.specs.Recorded.{HaveRecords};

use crate::policy_file::load_policy;
use crate::recording::read_each;
use cf_ending::{Denial, Done, Stop};
use cf_outside::Files;
use cf_policy::Policy;
use cf_review::{Reviewed, Reviewer, Stamps, count, write_lines};
use cf_view::NoMemory;
use std::alloc::Global;

/// Reads the policy, reviews the captures as one recording, its flows and their other stretches, and writes the lines of all remarks into
/// the log, which is created last.
pub(crate) fn review_captures<F: Files>(
    alloc: Global,
    policy_file: &str,
    captures: &[String],
    log: &str,
    files: &mut F,
) -> Result<Done, Stop>
    ensures meets { (sink : SinkValue) (pair : PairValue) → Meets (Review policy_file.now (map string_bytes captures.now) log.now)
        (outside (files_value F.Files files.old) sink pair) (outside (files_value F.Files files.new) sink pair) result }
    ensures later { FilesNeverFall (policy_file.now ∷ map string_bytes captures.now) (files_value F.Files files.old)
        (files_value F.Files files.new) }
{
    let policy = match load_policy(alloc, policy_file, files) {
        Ok(policy) => policy,
        Err(stop) => return Err(stop),
    };
    let (reviewed, stamps) = match review_records(alloc, &policy, captures, files) {
        Ok(reviewed) => reviewed,
        Err(stop) => return Err(stop),
    };
    let remarks = reviewed.remarks.as_slice();
    match write_lines(&policy, &stamps, remarks, log, files) {
        Ok(()) => answer(&reviewed),
        Err(_) => Err(Stop::WriteFault),
    }
}

/// The review of captures, which are one recording, and the stamps of the records of its remarks. Changes no file.
fn review_records<F: Files>(
    alloc: Global,
    policy: &Policy,
    captures: &[String],
    files: &mut F,
) -> Result<(Reviewed, Stamps), Stop>
    requires within { IsWithin policy.now }
    ensures reviewed { IfOk result (λ r. (records : List Record) × HaveRecords (F.content files.old) (map string_bytes captures.now) records
        × IsReviewed policy.now.assets records r.0 r.1) }
    ensures known { IfOk result (λ r. AreKnown r.1 (map remark_value r.0.remarks.items)) }
    ensures stop { IfErr result (λ s. StopsReading (map string_bytes captures.now) (files_value F.Files files.old)
        (files_value F.Files files.new) s) }
    ensures only { ReadsOnly (map string_bytes captures.now) (files_value F.Files files.old) (files_value F.Files files.new) }
{
    let mut reviewer = Reviewer::new(alloc);
    match read_each(alloc, policy, captures, &mut reviewer, files) {
        Ok(()) => match reviewer.finish(alloc, policy) {
            Ok(reviewed) => Ok(reviewed),
            Err(NoMemory) => Err(Stop::NoMemory),
        },
        Err(stop) => Err(stop),
    }
}

/// The answer about a review whose lines were written.
fn answer(reviewed: &Reviewed) -> Result<Done, Stop>
    ensures { AnswersBy reviewed.now result }
{
    let counts = count(reviewed);
    if reviewed.remarks.is_empty() {
        return Ok(Done::Reviewed(counts));
    }
    Err(Stop::Denied(Denial::Remarks(counts)))
}
