//! Fragments put together.
//! A segment is judged by all segments of its side so far: one with no octet changes nothing; one out of order, a repeat too, or
//! too long leaves nothing unfinished; FIR begins anew with any sequence; one with FIR and FIN may itself have up to 2,048
//! octets.
ghost use Rattle.std.specs.Prelude.{◌≡◌, ℕ, ◌+◌, ◌<◌, ◌≤◌, ◌↔◌, true, List, [], ◌∷◌, ◌++◌, length, take, drop, IfOk};
ghost use Rattle.std.specs.Prelude.{Some, IsSome, IsTrue};
ghost use Rattle.cf_dnptrans.specs.Transport.{answer_to, unfinished, last_fragment};
ghost use Rattle.cf_dnptrans.specs.AssemblyValue.{IsAssemblyOf, Steps, Adds};
ghost use Rattle.cf_dnptrans.specs.declared.assembly.SegmentAnswer.TheVariants as answer_;

use crate::buffer::put;
use crate::octet::{MODULUS, is_final, is_first, sequence};
use cf_view::{NoMemory, View};
use std::alloc::Global;
use std::marker::Model;

/// The most octets of a fragment that is taken. This project's own choice.
const CAPACITY: usize = 2_048;

/// Why a segment is dropped. This project's own, where IEEE 1815-2012, section 8.2.2, only says that it is.
#[derive(Clone, Copy)]
pub enum DropReason {
    /// It has no octet.
    Empty,
    /// It has no FIR, and no fragment is unfinished.
    NoFirst,
    /// Its sequence is not the one after the last, modulo 64. A repeat of the last segment is among these.
    Order,
    /// The fragment would have more than 2,048 octets.
    TooLong,
}

/// What became of a segment. IEEE 1815-2012, section 8.2; which segments are dropped is this project's own.
#[derive(Clone, Copy)]
pub enum SegmentAnswer {
    /// The fragment is whole.
    Whole,
    /// The fragment is unfinished.
    More,
    /// The segment counts for nothing.
    Dropped(DropReason),
}

/// The fragment of one side of a session that is put together from the segments of that side. IEEE 1815-2012, section 8.2.
#[derive(Drop)]
pub struct Assembly {
    buffer: Vec<u8>,
    len: usize,
    begun: bool,
    whole: bool,
    last: u8,
}

impl Model for Assembly {
    ghost use Rattle.std.specs.Prelude.{◌≡◌, ◌≤◌, ◌<◌, take, length};
    ghost use Rattle.cf_dnptrans.specs.AssemblyValue.{AssemblyValue};

    ghost Value = { AssemblyValue };

    ghost view = { λ a. record { octets = take a.len a.buffer.items; begun = a.begun; whole = a.whole; last = a.last } };

    ghost invariant = { λ a. (length a.buffer.items ≡ 2048) × (a.len ≤ 2048) × (a.last < 64) };
}

impl Assembly {
    /// One to which no segment has come. It takes its 2,048 octets of memory here, and none afterwards.
    ///
    /// `NoMemory`: they could not be had.
    pub fn new(alloc: Global) -> Result<Assembly, NoMemory>
        ensures stands { IfOk result (λ v. IsAssemblyOf v []) }
    {
        let Ok(buffer) = Vec::from_elem(alloc, 0, CAPACITY) else {
            return Err(NoMemory);
        };
        Ok(Assembly {
            buffer,
            len: 0,
            begun: false,
            whole: false,
            last: 0,
        })
    }

    /// Takes a segment: the user octets of one data frame, the first of which is the transport header.
    ///
    /// A segment with FIR begins a fragment with any sequence, and what was unfinished is gone. After `Dropped(Empty)` what was
    /// unfinished stays; after `Dropped(Order)` and `Dropped(TooLong)` nothing is unfinished. IEEE 1815-2012, section 8.2.
    pub fn segment(&mut self, user: View<'_>) -> SegmentAnswer
        ensures answer { (earlier : List (List ℕ)) → IsAssemblyOf self.old earlier → result ≡ answer_to earlier user.entry.bytes }
        ensures stands { (earlier : List (List ℕ)) → IsAssemblyOf self.old earlier → IsAssemblyOf self.new (user.entry.bytes ∷ earlier) }
        ensures whole { (self.new.whole ≡ true) ↔ (result ≡ answer_.Whole) }
    {
        self.take(&user)
    }

    /// The fragment that the last segment completed, 0 to 2,048 octets, where that was answered by `Whole`.
    pub fn fragment(&self) -> View<'_>
        requires { self.now.whole ≡ true }
        ensures octets { result.bytes ≡ self.now.octets }
        ensures one { result.split ≡ length result.bytes }
        ensures at_most { length result.bytes ≤ 2048 }
        ensures fragment { (segments : List (List ℕ)) → IsAssemblyOf self.now segments → last_fragment segments ≡ Some result.bytes }
    {
        View::one(&self.buffer[..self.len])
    }

    /// Whether a fragment is begun and not whole. One with no octet yet counts.
    pub fn unfinished(&self) -> bool
        ensures { (segments : List (List ℕ)) → IsAssemblyOf self.now segments → IsTrue result ↔ IsSome (unfinished segments) }
    {
        self.begun
    }

    /// What `segment` does, to what is kept.
    fn take(&mut self, user: &View<'_>) -> SegmentAnswer
        ensures { Steps self.old user.now.bytes result self.new }
    {
        self.whole = false;
        if user.is_empty() {
            return SegmentAnswer::Dropped(DropReason::Empty);
        }
        let octet = user.at(0);
        if is_first(octet) {
            return self.add(0, user);
        }
        if !self.begun {
            return SegmentAnswer::Dropped(DropReason::NoFirst);
        }
        if sequence(octet) != (self.last + 1) % MODULUS {
            self.begun = false;
            return SegmentAnswer::Dropped(DropReason::Order);
        }
        self.add(self.len, user)
    }

    /// Puts the octets of a segment after the first `len`.
    fn add(&mut self, len: usize, user: &View<'_>) -> SegmentAnswer
        requires len { len ≤ length self.old.octets }
        requires user { 0 < length user.now.bytes }
        ensures { Adds (take len self.old.octets ++ drop 1 user.now.bytes) user.now.bytes result self.new }
    {
        let octet = user.at(0);
        self.begun = false;
        self.whole = false;
        if user.len() - 1 > CAPACITY - len {
            return SegmentAnswer::Dropped(DropReason::TooLong);
        }
        put(&mut self.buffer, len, user);
        self.len = len + (user.len() - 1);
        self.last = sequence(octet);
        self.whole = is_final(octet);
        self.begun = !self.whole;
        if self.whole {
            SegmentAnswer::Whole
        } else {
            SegmentAnswer::More
        }
    }
}
