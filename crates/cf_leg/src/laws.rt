//! Laws of the definitions.
ghost use Rattle.std.specs.Prelude.{◌≡◌, ℕ, ◌+◌, ◌^◌, ◌<◌, ◌≤◌, min, max, true, Bool, List, ◌∷◌};
ghost use Rattle.cf_packet.specs.Packet.{PacketValue};
ghost use Rattle.cf_stream.specs.Stream.{Stream, letter_count};
ghost use Rattle.cf_leg.specs.Emits.{IsRight, Pieces};
ghost use Rattle.cf_leg.specs.Calls.{AreQuietBeforeDue};
ghost use Rattle.cf_leg.specs.OneStream.{IsRightRun};
ghost use Rattle.cf_leg.specs.LegValue.{Marks, IsLegOf, LegValue};
ghost use Rattle.cf_rebuild.specs.ReceiveWindow.{base_of};
ghost use Rattle.cf_stream.specs.FirstCopy.{IsTaken, first_copy};
ghost use Rattle.cf_leg.specs.Event.{Ending, LegEvent, spoke, begun, is_settled, stream_after};
ghost use Rattle.cf_leg.specs.Heard.{opened, offers, shown};
ghost use Rattle.cf_leg.specs.declared.ends.Role.{Role};
ghost use Rattle.cf_leg.specs.declared.ends.Role.TheVariants as role;
ghost use Rattle.std.specs.Option.{is_some};
ghost use Rattle.cf_leg.specs.Told.{letters_sent, is_greeted, syn_ack, told_by_all, letters_sent_by_all};
ghost use Rattle.cf_leg.specs.declared.ends.Ends.{Ends};
ghost use Rattle.cf_leg.specs.declared.ends.Advertised.{Advertised};
ghost use Rattle.cf_leg.specs.declared.ends.Way.{Way};

/// Before it is due a clock call of a leg is quiet, and leaves the leg as it is.
#[tactic(auto, using(crate::proofs::Clocked::quiet_before))]
pub fn clocks_are_quiet_before_due()
    ensures { AreQuietBeforeDue }
{}

/// Segments that carry what was not sent are read as that, and as telling one base and edge.
pub fn pieces_are_read()
    ensures told { (way : Way) (t b : Advertised) (whole : Stream) (mss edge from : ℕ) (outs : List PacketValue) → t.base ≤ t.edge
        → b.base ≤ t.base → t.base < b.base + 2 ^ 31 → from < min edge (letter_count whole) → Pieces way t whole mss edge from outs
        → told_by_all way.other b outs ≡ t }
    ensures carried { (way : Way) (t : Advertised) (whole : Stream) (mss edge from : ℕ) (outs : List PacketValue) → t.base ≤ t.edge
        → Pieces way t whole mss edge from outs → letters_sent_by_all way.own from outs ≡ max from (min edge (letter_count whole)) }
{}

/// A leg that is open has greeted its peer.
pub fn open_legs_have_greeted()
    ensures { (r : Role) (es : List LegEvent) → opened r es ≡ true → is_greeted es ≡ true }
{}

/// An active leg is open where a SYN ACK for its SYN has come since it greeted.
pub fn active_legs_open_by_a_syn_ack()
    ensures { (own : ℕ) (es : List LegEvent) → opened (role.Active own) es ≡ is_some (syn_ack own es) }
{}

/// An event may begin without a clock call, where the last one is over.
pub fn events_begin()
    ensures { (leg : LegValue) (m : Marks) (tick : ℕ) (es : List LegEvent) → is_settled es ≡ true → IsLegOf leg m es
        → IsLegOf leg m (begun tick ∷ es) }
{}

/// What is taken of a leg's events is counted by its window's base.
pub fn base_counts_the_taken()
    ensures { (leg : LegValue) (m : Marks) (es : List LegEvent) (s : Stream) → IsLegOf leg m es
        → IsTaken (first_copy (offers leg.ends.role es)) s → base_of leg.window ≡ letter_count s }
{}

/// What a leg sends is fixed by the events before, what came, the list of its queue and whether there is room.
pub fn sends_are_fixed()
    ensures fired { (ends : Ends) (es : List LegEvent) (e : LegEvent) (fired : List PacketValue) (n : Ending) → IsRight ends es e
        → IsRight ends es (record e { fired = fired; ending = n }) → fired ≡ e.fired }
    ensures speech { (ends : Ends) (es : List LegEvent) (e : LegEvent) (whole : Stream) (roomy : Bool) (xs ys : List PacketValue)
        → IsRight ends es (spoke e whole roomy xs) → IsRight ends es (spoke e whole roomy ys) → xs ≡ ys }
{}

/// Between two events of an open leg every letter that the peer lets in was sent: the letters sent are those of its queue's list
/// below the greatest edge shown.
pub fn speeches_reach()
    ensures { (ends : Ends) (es : List LegEvent) (whole : Stream) → IsRightRun ends es whole → is_settled es ≡ true
        → opened ends.role es ≡ true → letters_sent ends.role es ≡ min (shown ends.role es) (letter_count (stream_after es)) }
{}
