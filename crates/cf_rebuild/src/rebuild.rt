//! The window over a ring of slots.
ghost use Rattle.std.specs.Prelude.{◌≡◌, ◌+◌, ◌-◌, ◌%◌, ◌^◌, ◌≤◌, IfOk, List, [], ◌∷◌, length, min, drop, pos, negsuc, ◌≤ℤ◌};
ghost use Rattle.cf_stream.specs.FirstCopy.{Offer, first_copy, IsTaken};
ghost use Rattle.cf_stream.specs.Position.{place_or_zero};
ghost use Rattle.cf_stream.specs.Sizes.{window_size};
ghost use Rattle.cf_stream.specs.Stream.{Stream, letter_count, Extends};
ghost use Rattle.cf_rebuild.specs.ReceiveWindow.{IsNew, IsWindow, TakesIn, Consumes, IsWindowOf, base_of, unread};

use crate::ring::{PLACES, empty, lend, release, take_in};
use cf_view::{NoMemory, View};
use std::alloc::Global;
use std::marker::Model;

/// What one TCP end has received: the first copy of each letter that was offered below the edge.
///
/// Places count letters from 0, the one after the peer's SYN. No call but `new` takes memory, and none moves a byte that
/// it keeps: the letter at place p has slot p mod 32,768.
/// RFC 9293, sections 3.3.1 and 3.10.7.4; that a letter which came ahead of its turn stays is this project's own.
#[derive(Drop)]
pub struct Rebuild {
    /// A bit for each slot, 64 a word, low bits first: a byte is kept there.
    kept: Vec<u64>,
    /// A bit for each slot alike: End is kept there.
    ends: Vec<u64>,
    /// The byte of each slot so far; the others have none yet, and there is room for all 32,768.
    bytes: Vec<u8>,
    /// How many bytes were taken and not consumed. RCV.NXT as a place is `consumed + ready`, and one more where `ended` holds.
    ready: usize,
    /// How many bytes were consumed since the beginning: the place of the first byte that is kept.
    consumed: u64,
    /// RCV.NXT + RCV.WND as the peer was told it, as a place (RFC 9293, section 3.3.1): no letter at or past it is kept.
    edge: u64,
    /// End was taken: the letter that FIN carries, and all before it.
    ended: bool,
}

impl Model for Rebuild {
    ghost use Rattle.std.specs.Prelude.{◌≡◌, ◌+◌, ◌-◌, ◌%◌, ◌≤◌, length, min, take, vec_capacity};
    ghost use Rattle.cf_rebuild.specs.Ring.{place_at, places, turned, full};
    ghost use Rattle.cf_rebuild.specs.ReceiveWindow.{Window, IsWindow};

    ghost Value = { Window };

    ghost view = { λ a. record {
      consumed = a.consumed;
      pending = take a.ready (turned (a.consumed % 32768) (full a.bytes.items));
      ended = a.ended;
      ahead = places (place_at a.kept.items a.ends.items a.bytes.items (a.consumed % 32768)) a.ready (32768 - a.ready);
      edge = a.edge;
    } };

    ghost invariant = { λ a. (length a.kept.items ≡ 512) × (length a.ends.items ≡ 512) × (length a.bytes.items ≤ 32768)
        × (32768 ≤ vec_capacity a.bytes) × (min (a.consumed % 32768 + a.ready) 32768 ≤ length a.bytes.items) × (a.ready ≤ 32768)
        × IsWindow (record {
          consumed = a.consumed;
          pending = take a.ready (turned (a.consumed % 32768) (full a.bytes.items));
          ended = a.ended;
          ahead = places (place_at a.kept.items a.ends.items a.bytes.items (a.consumed % 32768)) a.ready (32768 - a.ready);
          edge = a.edge;
        }) };
}

impl Rebuild {
    /// A window that has taken nothing and lets nothing in.
    pub fn new(alloc: Global) -> Result<Rebuild, NoMemory>
        ensures value { IfOk result IsNew }
        ensures stands { IfOk result (λ w. IsWindowOf w []) }
    {
        let (kept, ends, bytes) = empty(alloc)?;
        Ok(Rebuild {
            kept,
            ends,
            bytes,
            ready: 0,
            consumed: 0,
            edge: 0,
            ended: false,
        })
    }

    /// The number of letters taken: the place of the next one.
    #[tactic(auto, using(crate::proofs::Places::length_front))]
    pub fn base(&self) -> i64
        ensures value { result ≡ pos (base_of self.now) }
        ensures taken { (offers : List Offer) (s : Stream) → IsWindowOf self.now offers → IsTaken (first_copy offers) s
            → result ≡ pos (letter_count s) }
        ensures bounds { IsWindow self.now }
    {
        (self.consumed + self.ready as u64 + u64::from(self.ended)) as i64
    }

    /// The place below which letters are let in.
    pub fn edge(&self) -> i64
        ensures value { result ≡ pos self.now.edge }
        ensures bounds { IsWindow self.now }
    {
        self.edge as i64
    }

    /// Whether End was taken.
    pub fn ended(&self) -> bool
        ensures value { result ≡ self.now.ended }
        ensures taken { (offers : List Offer) (s : Stream) → IsWindowOf self.now offers → IsTaken (first_copy offers) s → result ≡ s.ended }
    {
        self.ended
    }

    /// The slot of the first byte that is not consumed.
    fn start(&self) -> usize
        ensures { result ≡ self.now.consumed % 32768 }
    {
        (self.consumed % PLACES as u64) as usize
    }

    /// The bytes that were taken and not consumed. They are lent, and not copied: the pieces are the ring's own.
    pub fn pending(&self) -> View<'_>
        ensures value { result.bytes ≡ self.now.pending }
        ensures split { result.split ≡ min (length self.now.pending) (32768 - self.now.consumed % 32768) }
        ensures taken { (offers : List Offer) (s : Stream) → IsWindowOf self.now offers → IsTaken (first_copy offers) s
            → result.bytes ≡ drop self.now.consumed s.bytes }
    {
        lend(&self.bytes, self.start(), self.ready)
    }

    /// Lets in the letters below an edge that is not below the old one, at most 16,384 past the base, at most 32,768 past
    /// the first byte that is not consumed, and at most 2^31.
    pub fn open_to(&mut self, edge: i64)
        requires grows { pos self.old.edge ≤ℤ edge }
        requires near { edge ≤ℤ pos (base_of self.old + window_size) }
        requires room { edge ≤ℤ pos (self.old.consumed + 32768) }
        requires limit { edge ≤ℤ pos (2 ^ 31) }
        ensures new { self.new ≡ record self.old { edge = place_or_zero edge } }
        ensures stands { (offers : List Offer) → IsWindowOf self.old offers → IsWindowOf self.new offers }
    {
        self.edge = edge as u64;
    }

    /// Offers the letters of a text from position `at` on, End after it where `end` holds. Those from the base on and
    /// below the edge are kept where no letter is kept, and then those are taken that follow the base without a gap, up
    /// to End.
    #[tactic(auto, using(crate::proofs::Places::length_front))]
    pub fn offer(&mut self, at: i64, text: &[u8], end: bool)
        requires lowest { negsuc (2 ^ 32 - 1) ≤ℤ at }
        requires highest { at ≤ℤ pos (2 ^ 32) }
        requires text { length text.now ≤ 65535 }
        ensures takes { TakesIn self.old (record { at = at; text = record { bytes = text.now; ended = end }; edge = self.old.edge })
            self.new }
        ensures stands { (offers : List Offer) → IsWindowOf self.old offers
            → IsWindowOf self.new (record { at = at; text = record { bytes = text.now; ended = end }; edge = self.old.edge } ∷ offers) }
        ensures grows { Extends (unread self.old) (unread self.new) }
    {
        let room = (self.edge - self.consumed) as usize;
        let from = at - self.consumed as i64;
        let start = self.start();
        let ready = self.ready;
        (self.ready, self.ended) = take_in(
            &mut self.kept,
            &mut self.ends,
            &mut self.bytes,
            start,
            ready,
            room,
            from,
            text,
            end,
        );
    }

    /// Consumes the first `n` pending bytes. No byte is moved.
    pub fn consume(&mut self, n: usize)
        requires { n ≤ length self.old.pending }
        ensures consumes { Consumes self.old n self.new }
        ensures stands { (offers : List Offer) → IsWindowOf self.old offers → IsWindowOf self.new offers }
    {
        let start = self.start();
        release(&mut self.kept, &mut self.ends, start, n);
        self.ready -= n;
        self.consumed += n as u64;
    }
}
