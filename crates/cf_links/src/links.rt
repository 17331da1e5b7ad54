//! Many pairs of byte streams, one pair for each session.
ghost use Rattle.std.specs.Prelude.{◌≡◌, ◌<◌, List, Option, ℕ, length, true};
ghost use Rattle.cf_outside.specs.Faults.{HasCause};
ghost use Rattle.cf_outside.specs.Pair.{FaultsBy};
ghost use Rattle.cf_links.specs.Links.{Finishes, Gives, LinksEntry, LinksPlace, Reaches, Takes, TellsMoment};

use cf_outside::{GiveAnswer, MomentAnswer, TakeAnswer, WriteAnswer};
use cf_view::{Endpoint, Side};

/// What a session's controller answers.
#[derive(Clone, Copy)]
pub enum ReachAnswer {
    /// The controller was reached, for the client at this endpoint.
    Met(Endpoint),
    /// The controller has not answered yet.
    Waiting,
    /// The client's stream ended or failed before the controller was reached.
    Gone,
    Failed,
}

/// The streams of sessions, each named by its number. What the object tells of its answers, in their order over all sessions,
/// is optional. No count falls; each stays where a `u64` ends. This project's own interface.
pub trait Links {
    /// The answers so far but the failed ones, where the object tells them.
    ghost told: { Self → Option (List LinksEntry) };

    /// How often a call on a session failed. It rises in such calls alone.
    ghost faults: { Self → ℕ };

    /// How often the answer was `Idle`.
    ghost idles: { Self → ℕ };

    /// Which sessions the object has, the reference that it writes through, where it writes through one, and how often a call that is
    /// of no session failed.
    ghost place: { Self → LinksPlace };

    /// Asks whether the controller of a session is reached, as the listening port and the peer of its meeting; a client that has gone
    /// before is told of instead.
    fn meet(&mut self, session: u64, listen: u16, peer: Endpoint) -> ReachAnswer
        requires serves { LinksPlace.serves (place self.old) session ≡ true }
        ensures place { place self.new ≡ place self.old }
        ensures entry { Reaches listen peer (record { session = session; list = told self.old })
            (record { session = session; list = told self.new }) result }
        ensures cause { FaultsBy (faults self.old) (faults self.new) (result ≡ ReachAnswer.Failed) }
        ensures idle { idles self.new ≡ idles self.old };

    /// The moment of a turn of a session, in microseconds.
    fn moment(&mut self, session: u64) -> MomentAnswer
        requires serves { LinksPlace.serves (place self.old) session ≡ true }
        ensures place { place self.new ≡ place self.old }
        ensures entry { TellsMoment (record { session = session; list = told self.old })
            (record { session = session; list = told self.new }) result }
        ensures cause { FaultsBy (faults self.old) (faults self.new) (result ≡ MomentAnswer.Failed) }
        ensures idle { idles self.new ≡ idles self.old };

    /// Takes bytes that came from a side of a session, into a buffer that is not empty.
    fn take(&mut self, session: u64, side: Side, buf: &mut [u8]) -> TakeAnswer
        requires serves { LinksPlace.serves (place self.old) session ≡ true }
        requires some { 0 < length buf.old }
        ensures place { place self.new ≡ place self.old }
        ensures entry { Takes side buf.new (record { session = session; list = told self.old })
            (record { session = session; list = told self.new }) result }
        ensures cause { FaultsBy (faults self.old) (faults self.new) (result ≡ TakeAnswer.Failed) }
        ensures idle { HasCause (idles self.old) (idles self.new) (result ≡ TakeAnswer.Idle) };

    /// Gives a side of a session bytes, of which there is at least one.
    fn give(&mut self, session: u64, side: Side, bytes: &[u8]) -> GiveAnswer
        requires serves { LinksPlace.serves (place self.old) session ≡ true }
        requires some { 0 < length bytes.now }
        ensures place { place self.new ≡ place self.old }
        ensures entry { Gives side bytes.now (record { session = session; list = told self.old })
            (record { session = session; list = told self.new }) result }
        ensures cause { FaultsBy (faults self.old) (faults self.new) (result ≡ GiveAnswer.Failed) }
        ensures idle { HasCause (idles self.old) (idles self.new) (result ≡ GiveAnswer.Idle) };

    /// Closes a side of a session for sending.
    fn finish(&mut self, session: u64, side: Side) -> WriteAnswer
        requires serves { LinksPlace.serves (place self.old) session ≡ true }
        ensures place { place self.new ≡ place self.old }
        ensures entry { Finishes side (record { session = session; list = told self.old })
            (record { session = session; list = told self.new }) result }
        ensures cause { FaultsBy (faults self.old) (faults self.new) (result ≡ WriteAnswer.Failed) }
        ensures idle { idles self.new ≡ idles self.old };
}
