//! Links whose sessions come at listening places and go.
ghost use Rattle.std.specs.Prelude.{◌≡◌, false, IfSome, true};
ghost use Rattle.cf_links.specs.Links.{LinksPlace};
ghost use Rattle.cf_links.specs.Service.{Arrives, ChangesPlace, FaultsPlace, IsServedFrom, Leaves, LosesSession, Opens, TellsReady, Wakes};

use crate::links::Links;
use cf_outside::MomentAnswer;
use cf_view::Endpoint;

/// What a listening place answers.
#[derive(Clone, Copy)]
pub enum ArriveAnswer {
    /// A client from this endpoint, which is a session from here on.
    Came(Endpoint),
    /// None that can be taken now.
    Nobody,
}

/// Links whose sessions come at listening places, each named by its number from 0, and go when they are left. None of these calls
/// changes the counts of the calls on a session. How often `listen` or `wait` failed is a count of its own, `round_faults` of `place`:
/// it rises in such calls alone. This project's own interface.
pub trait Service: Links {
    /// Listens for clients at an address and a port of this machine, from here on, and tells the moment in microseconds.
    fn listen(&mut self, place: u32, at: Endpoint) -> MomentAnswer
        ensures entry { Opens place (Self.told self.old) (Self.told self.new) result }
        ensures place { FaultsPlace (Self.place self.old) (Self.place self.new) (result ≡ MomentAnswer.Failed) }
        ensures faults { Self.faults self.new ≡ Self.faults self.old }
        ensures idles { Self.idles self.new ≡ Self.idles self.old };

    /// Waits until a client is there, or something can move for a session or a second has passed since its last turn, and tells the
    /// moment in microseconds. A session that rests is waited for until the next second begins.
    fn wait(&mut self) -> MomentAnswer
        ensures entry { Wakes (Self.told self.old) (Self.told self.new) result }
        ensures place { FaultsPlace (Self.place self.old) (Self.place self.new) (result ≡ MomentAnswer.Failed) }
        ensures faults { Self.faults self.new ≡ Self.faults self.old }
        ensures idles { Self.idles self.new ≡ Self.idles self.old };

    /// Takes a client that came to a listening place, as the session of a number that the object does not have.
    fn arrive(&mut self, place: u32, session: u64) -> ArriveAnswer
        requires unused { LinksPlace.serves (Self.place self.old) session ≡ false }
        ensures entry { Arrives session place (Self.told self.old) (Self.told self.new) result }
        ensures place { ChangesPlace session (Self.place self.old) (Self.place self.new) result }
        ensures faults { Self.faults self.new ≡ Self.faults self.old }
        ensures idles { Self.idles self.new ≡ Self.idles self.old };

    /// The first session, of those with this number and those behind it, for which something can move or since whose last turn a second
    /// has passed; none of those between is ready. Tells nothing.
    fn next_ready(&mut self, from: u64) -> Option<u64>
        ensures next { IfSome result (IsServedFrom from (Self.place self.old)) }
        ensures told { Self.told self.new ≡ Self.told self.old }
        ensures place { Self.place self.new ≡ Self.place self.old }
        ensures faults { Self.faults self.new ≡ Self.faults self.old }
        ensures idles { Self.idles self.new ≡ Self.idles self.old };

    /// Whether something can move for a session, or a second has passed since its last turn.
    fn is_ready(&mut self, session: u64) -> bool
        requires serves { LinksPlace.serves (Self.place self.old) session ≡ true }
        ensures entry { TellsReady session (Self.told self.old) (Self.told self.new) result }
        ensures place { Self.place self.new ≡ Self.place self.old }
        ensures faults { Self.faults self.new ≡ Self.faults self.old }
        ensures idles { Self.idles self.new ≡ Self.idles self.old };

    /// Has a session be looked at again once the next second begins, and not before: it is asked for nothing until then.
    fn rest(&mut self, session: u64)
        requires serves { LinksPlace.serves (Self.place self.old) session ≡ true }
        ensures told { Self.told self.new ≡ Self.told self.old }
        ensures place { Self.place self.new ≡ Self.place self.old }
        ensures faults { Self.faults self.new ≡ Self.faults self.old }
        ensures idles { Self.idles self.new ≡ Self.idles self.old };

    /// Closes both connections of a session, which the object does not have from here on.
    fn leave(&mut self, session: u64)
        requires serves { LinksPlace.serves (Self.place self.old) session ≡ true }
        ensures entry { Leaves session (Self.told self.old) (Self.told self.new) }
        ensures place { LosesSession session (Self.place self.old) (Self.place self.new) }
        ensures faults { Self.faults self.new ≡ Self.faults self.old }
        ensures idles { Self.idles self.new ≡ Self.idles self.old };
}
