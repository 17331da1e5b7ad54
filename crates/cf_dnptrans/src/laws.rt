//! What holds of fragments in segments and of segments put together.
ghost use Rattle.std.specs.Prelude.{◌≡◌, ℕ, ◌+◌, ◌<◌, ◌≤◌, List, ◌++◌, length, Some, None};
ghost use Rattle.std.specs.List.{AllByRecursion};
ghost use Rattle.cf_dnptrans.specs.declared.assembly.SegmentAnswer.TheVariants as answer_;
ghost use Rattle.cf_dnptrans.specs.Segments.{count_of, segment_of, first_segments, segments_of};
ghost use Rattle.cf_dnptrans.specs.Passing.{IsSent, all_segments, PutTogether};
ghost use Rattle.cf_dnptrans.specs.Transport.{answer_to, last_fragment, unfinished};

/// A law: a fragment of 1 to 2,048 octets, sent in segments, is put together to the same fragment, whatever sequence they start
/// at and whatever came before; all segments but the last one are answered by `More`, the last one by `Whole`. The call does
/// nothing.
pub fn segments_are_put_together()
    ensures same { (fragment : List ℕ) (start : ℕ) (earlier : List (List ℕ)) → 0 < length fragment → length fragment ≤ 2048
        → last_fragment (segments_of fragment start ++ earlier) ≡ Some fragment }
    ensures more { (fragment : List ℕ) (start i : ℕ) (earlier : List (List ℕ)) → length fragment ≤ 2048
        → i + 1 < count_of (length fragment)
        → answer_to (first_segments fragment start i ++ earlier) (segment_of fragment start i) ≡ answer_.More }
    ensures whole { (fragment : List ℕ) (start i : ℕ) (earlier : List (List ℕ)) → length fragment ≤ 2048
        → i + 1 ≡ count_of (length fragment)
        → answer_to (first_segments fragment start i ++ earlier) (segment_of fragment start i) ≡ answer_.Whole }
{}

/// A law: any number of segments, from the front, of fragments that are sent one after the other is put together to the first
/// of these fragments, in order, and leaves at most one more unfinished. The call does nothing.
pub fn first_segments_make_the_first_fragments()
    ensures { (earlier : List (List ℕ)) (start : ℕ) (fragments segments more : List (List ℕ)) → unfinished earlier ≡ None
        → AllByRecursion IsSent fragments → all_segments start fragments ≡ segments ++ more
        → PutTogether earlier start fragments segments }
{}
