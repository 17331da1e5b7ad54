//! Laws of stored streams: each is the contract of a function that does nothing.
ghost use Rattle.cf_sift.specs.Laws.{HasOneCut};

use cf_lane::has_one_judgement;

/// A history is cut at one place, for one reason, or not at all.
pub fn has_one_cut()
    ensures { HasOneCut }
{
    has_one_judgement();
}
