//! What holds of a queue over every list of calls from `new` on.
ghost use Rattle.std.specs.Prelude.{◌≡◌, ℕ, List, [], ◌∷◌, ◌++◌, take, min, None};
ghost use Rattle.cf_stream.specs.Stream.{letters, letter_count};
ghost use Rattle.cf_outq.specs.SendQueue.{Queue, IsQueueOf, after_push};
ghost use Rattle.cf_outq.specs.QueueCalls.{QueueCall, NextPiece, after, IsQueueRun, pushed_by, sent_by, Repeats};

/// Over every list of calls the queue stands for all that was pushed. The new pieces carry its letters in order, each
/// once, up to those that count as sent; where there is no new piece, all letters below the greatest edge shown have been
/// sent. Pieces that are sent again, and copies, carry its letters too.
pub fn every_queue_run()
    ensures stands { (calls : List QueueCall) → IsQueueRun calls → IsQueueOf (after calls) (pushed_by calls) }
    ensures once { (calls : List QueueCall) → IsQueueRun calls → sent_by (pushed_by calls) calls
        ≡ take (after calls).sent (letters (pushed_by calls)) }
    ensures stops { (calls : List QueueCall) (mss : ℕ) → IsQueueRun (NextPiece mss None ∷ calls)
        → (after calls).sent ≡ min (after calls).shown (letter_count (pushed_by calls)) }
    ensures repeats { (calls : List QueueCall) → IsQueueRun calls → Repeats (pushed_by calls) calls }
{}

/// Bytes pushed in two calls are pushed as in one, and pushing none changes nothing.
pub fn pushes_join()
    ensures none { (q : Queue) → after_push q [] ≡ q }
    ensures both { (q : Queue) (xs ys : List ℕ) → after_push (after_push q xs) ys ≡ after_push q (xs ++ ys) }
{}
