//! Laws of the definitions. A law is a function with nothing to do: what it ensures holds of every stream, every list of
//! offers and every number.
ghost use Rattle.std.specs.Prelude.{◌≡◌, ℕ, ◌+◌, ◌^◌, ◌<◌, ◌≤◌, ◌++◌, if◌then◌else◌, Bool, false, List, length, take, drop, slice_get};
ghost use Rattle.std.specs.Prelude.{Option, ℤ, pos, negsuc, ◌+ℤ◌, ◌≤ℤ◌, ◌<ℤ◌};
ghost use Rattle.cf_stream.specs.Stream.{Stream, Letter, letter_at, letter_count, letters, part, IsPart, Carries, Extends, with_bytes};
ghost use Rattle.cf_stream.specs.Stream.{with_end};
ghost use Rattle.cf_stream.specs.FirstCopy.{Offer, first_copy, IsTaken};
ghost use Rattle.cf_stream.specs.Position.{sequence_number, position};

/// The letters of a stream in their order are the letters at its places.
pub fn letters_stand_in_order()
    ensures place { (s : Stream) (p : ℕ) → slice_get (letters s) p ≡ letter_at s p }
    ensures count { (s : Stream) → length (letters s) ≡ letter_count s }
{}

/// Where a stream goes on, each letter stays at its place.
pub fn letters_stay()
    ensures { (s t : Stream) (p : ℕ) (l : Letter) → Extends s t → letter_at s p ≡ Some l → letter_at t p ≡ Some l }
{}

/// A stream goes on by what is added to it, step by step.
pub fn streams_go_on()
    ensures none { (s : Stream) → Extends s s }
    ensures both { (s t u : Stream) → Extends s t → Extends t u → Extends s u }
    ensures bytes { (s : Stream) (more : List ℕ) → s.ended ≡ false → Extends s (with_bytes s more) }
    ensures end { (s : Stream) → s.ended ≡ false → Extends s (with_end s) }
{}

/// A part of a stream carries the letters that the stream has there.
pub fn parts_carry()
    ensures places { (s : Stream) (a n : ℕ) (ended : Bool) → IsPart s a n ended → Carries s (pos a) (part s a n ended) }
    ensures letters { (s : Stream) (a n : ℕ) (ended : Bool) → IsPart s a n ended
        → letters (part s a n ended) ≡ take (n + (if ended then 1 else 0)) (drop a (letters s)) }
{}

/// Further offers change no first copy.
pub fn first_copies_stay()
    ensures { (newer earlier : List Offer) (p : ℕ) (l : Letter) → first_copy earlier p ≡ Some l → first_copy (newer ++ earlier) p ≡ Some l }
{}

/// For every list of offers there are letters that are taken of it.
pub fn taken_exists()
    ensures { (offers : List Offer) → (s : Stream) × IsTaken (first_copy offers) s }
{}

/// There is one stream that is taken.
pub fn taken_is_one()
    ensures { (copy : ℕ → Option Letter) (s t : Stream) → IsTaken copy s → IsTaken copy t → s ≡ t }
{}

/// Each letter that is taken is the first copy at its place.
pub fn taken_letters_are_copies()
    ensures { (copy : ℕ → Option Letter) (s : Stream) (p : ℕ) (l : Letter) → IsTaken copy s → letter_at s p ≡ Some l → copy p ≡ Some l }
{}

/// Further offers only extend what was taken.
pub fn taken_only_grows()
    ensures { (newer earlier : List Offer) (s t : Stream) → IsTaken (first_copy earlier) s → IsTaken (first_copy (newer ++ earlier)) t
        → Extends s t }
{}

/// The sequence number of a place less than 2^31 past the base is read as that place.
pub fn positions_ahead()
    ensures { (origin base p : ℕ) → base ≤ p → p < base + 2 ^ 31 → position (sequence_number origin p) origin base ≡ pos p }
{}

/// The sequence number of a place at most 2^31 before the base is read as that place.
pub fn positions_behind()
    ensures { (origin base p : ℕ) → p < base → base ≤ p + 2 ^ 31 → position (sequence_number origin p) origin base ≡ pos p }
{}

/// A sequence number is read as a place that has it, from 2^31 before the base to 2^31 - 1 past it.
pub fn positions_near()
    ensures number { (number origin base p : ℕ) → number < 2 ^ 32 → position number origin base ≡ pos p
        → sequence_number origin p ≡ number }
    ensures before { (number origin base : ℕ) → number < 2 ^ 32 → pos base ≤ℤ (position number origin base +ℤ pos (2 ^ 31)) }
    ensures past { (number origin base : ℕ) → number < 2 ^ 32 → position number origin base <ℤ pos (base + 2 ^ 31) }
{}

/// Two sequence numbers read by hand about the base 2^30 with the origin 1000: that of the base itself, 1001 + 2^30, and
/// that of the SYN, which stands before the first letter.
pub fn positions_by_hand()
    ensures base { position 1073742825 1000 1073741824 ≡ pos 1073741824 }
    ensures before { position 1000 1000 1073741824 ≡ negsuc 0 }
{}
