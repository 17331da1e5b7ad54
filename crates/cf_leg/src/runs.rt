//! What holds over every list of right events of an end.
ghost use Rattle.std.specs.Prelude.{◌≡◌, ℕ, ◌<◌, ◌≤◌, ◌==◌, ◌&&◌, ◌||◌, if◌then◌else◌, true, Bool, List, ◌∷◌, Some};
ghost use Rattle.cf_packet.specs.Packet.{PacketValue};
ghost use Rattle.cf_stream.specs.Stream.{Stream, Letter, letter_at, letter_count};
ghost use Rattle.cf_leg.specs.Emits.{AllRight, IsRight, differs, empties, letters_of_all, to_tell};
ghost use Rattle.cf_leg.specs.Asked.{AllAsked};
ghost use Rattle.cf_leg.specs.OneStream.{IsOneStream, IsRightRun, first_carried, first_in};
ghost use Rattle.cf_stream.specs.FirstCopy.{IsTaken, first_copy};
ghost use Rattle.cf_leg.specs.Event.{LegEvent, spoke};
ghost use Rattle.cf_leg.specs.Heard.{opened, offers, owed, shown};
ghost use Rattle.cf_leg.specs.declared.ends.Role.{Role};
ghost use Rattle.cf_leg.specs.declared.ends.Role.TheVariants as role;
ghost use Rattle.cf_leg.specs.Told.{letters_sent, own_number, told, told_at};
ghost use Rattle.cf_leg.specs.declared.ends.Ends.{Ends};

/// Over every list of right events in which the queue's list only grows, all segments carry one stream, the one that this
/// list goes on to: each has at each of its places the letter that stands there, End included. Every letter that counts as
/// sent has gone out, and what went out first at a place is the stream's letter there.
pub fn segments_carry_one_stream()
    ensures one { (ends : Ends) (es : List LegEvent) (whole : Stream) → IsRightRun ends es whole → IsOneStream whole ends.role es }
    ensures first { (whole : Stream) (r : Role) (es : List LegEvent) (place : ℕ) (l : Letter) → IsOneStream whole r es
        → first_carried r es place ≡ Some l → letter_at whole place ≡ Some l }
    ensures all { (ends : Ends) (es : List LegEvent) (whole : Stream) (place : ℕ) → IsRightRun ends es whole
        → place < letters_sent ends.role es → (l : Letter) × (first_carried ends.role es place ≡ Some l) }
{}

/// A segment of a firing has at each of its places the letter that went out there first.
pub fn repeats_carry_what_was_carried()
    ensures { (ends : Ends) (e : LegEvent) (es : List LegEvent) (whole : Stream) (place : ℕ) (l : Letter) → IsRightRun ends (e ∷ es) whole
        → first_in (own_number ends.role es) (letters_sent ends.role es) e.fired place ≡ Some l → first_carried ends.role es place
        ≡ Some l }
{}

/// What was sent never passes the greatest edge shown.
pub fn nothing_passes_the_edge()
    ensures { (ends : Ends) (es : List LegEvent) (whole : Stream) → IsRightRun ends es whole
        → letters_sent ends.role es ≤ shown ends.role es }
{}

/// A speech of an open end has one segment without letters where it has no letter and one is owed, or the base or the edge
/// to be told differs from that told; and none elsewhere.
pub fn one_empty_segment_where_owed()
    ensures { (ends : Ends) (es : List LegEvent) (e : LegEvent) (whole : Stream) (roomy : Bool) (outs : List PacketValue) (taken : Stream)
        → IsRight ends es (spoke e whole roomy outs) → opened ends.role (spoke e whole roomy outs ∷ es) ≡ true
        → IsTaken (first_copy (offers ends.role (spoke e whole roomy outs ∷ es))) taken
        → empties outs ≡ (if (letters_of_all outs == 0)
        && (owed ends.role es e || differs (told_at ends.role es e) (to_tell (told_at ends.role es e) (letter_count taken) roomy)) then 1
        else 0) }
{}

/// What must be sent is a function of the events so far: two lists of right events in which the same is asked are one.
pub fn events_fix_what_is_sent()
    ensures { (ends : Ends) (es fs : List LegEvent) → AllRight ends es → AllRight ends fs → AllAsked es fs → es ≡ fs }
{}

/// Neither the base nor the edge told ever moves back.
pub fn edges_never_move_back()
    ensures base { (ends : Ends) (e : LegEvent) (es : List LegEvent) → AllRight ends (e ∷ es)
        → (told ends.role es).base ≤ (told ends.role (e ∷ es)).base }
    ensures edge { (ends : Ends) (e : LegEvent) (es : List LegEvent) → AllRight ends (e ∷ es)
        → (told ends.role es).edge ≤ (told ends.role (e ∷ es)).edge }
{}
