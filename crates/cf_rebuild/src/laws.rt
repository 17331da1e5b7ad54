//! What holds of a window over every list of calls from `new` on.
ghost use Rattle.std.specs.Prelude.{◌≡◌, List, drop};
ghost use Rattle.cf_stream.specs.FirstCopy.{first_copy, IsTaken};
ghost use Rattle.cf_stream.specs.Stream.{Stream, letter_count};
ghost use Rattle.cf_rebuild.specs.ReceiveWindow.{Window, IsWindowOf, base_of};
ghost use Rattle.cf_rebuild.specs.WindowCalls.{WindowCall, IsWindowRun, edge_by, consumed_by, offers_by};

/// Over every list of calls the window stands for the offers that were made, each with the edge as it stood then. So the
/// base counts the letters taken of these offers, the pending bytes are those of them that were not consumed, and the
/// window has ended where they have.
pub fn every_window_run()
    ensures stands { (calls : List WindowCall) (w : Window) → IsWindowRun calls w → IsWindowOf w (offers_by calls) }
    ensures edge { (calls : List WindowCall) (w : Window) → IsWindowRun calls w → w.edge ≡ edge_by calls }
    ensures consumed { (calls : List WindowCall) (w : Window) → IsWindowRun calls w → w.consumed ≡ consumed_by calls }
    ensures base { (calls : List WindowCall) (w : Window) (s : Stream) → IsWindowRun calls w → IsTaken (first_copy (offers_by calls)) s
        → base_of w ≡ letter_count s }
    ensures pending { (calls : List WindowCall) (w : Window) (s : Stream) → IsWindowRun calls w → IsTaken (first_copy (offers_by calls)) s
        → w.pending ≡ drop (consumed_by calls) s.bytes }
    ensures ended { (calls : List WindowCall) (w : Window) (s : Stream) → IsWindowRun calls w → IsTaken (first_copy (offers_by calls)) s
        → w.ended ≡ s.ended }
{}
