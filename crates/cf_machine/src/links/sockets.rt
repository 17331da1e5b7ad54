//! The sockets of a service, and its clock.
ghost use Rattle.std.specs.List.{HoldsAt};
ghost use Rattle.std.specs.Prelude.{◌≡◌, ◌<◌, IfOk, IfSome, length};
ghost use Rattle.cf_machine.specs.Moved.{IsOn};

use crate::links::place::Place;
use crate::links::session::{Leaving, Reached, Session, is_at, session_of};
use crate::links::sides::Moved;
use crate::links::supervisor::Supervisor;
use crate::links::turns::Turns;
use cf_view::{Endpoint, Side};
use mio::{Events, Poll, Token};
use std::alloc::Global;
use std::io;
use std::net::{IpAddr, Net, SocketAddr};
use std::time::{Clock, Duration, Instant, SystemTime};

/// How many events of the system are taken at once.
const EVENTS: usize = 1024;

/// How many sessions there is room for from the start.
const SESSIONS: usize = 256;

/// How many microseconds a second has.
const SECOND_MICROS: u64 = 1_000_000;

/// How many milliseconds pass at most without a round, so that the lines of a minute do not wait for news.
const LONGEST_WAIT: u64 = 5_000;

/// How many sessions that were left are read away at once at most.
const LEAVING: usize = 256;

/// The places in their order, the sessions, and those that were left, over one `poll`. This project's own.
#[derive(Drop)]
pub(crate) struct Sockets<'a, R: Net + Clock> {
    rt: &'a R,
    supervisor: Option<Supervisor>,
    poll: Poll,
    events: Events,
    places: Vec<Place>,
    /// In the order of their numbers, which count up.
    sessions: Vec<Session>,
    /// Where among them the session stands that was asked for its turn last. They are asked in their order, so that the next one stands
    /// there or behind it.
    asked: usize,
    turns: Turns,
    /// In the order in which they were left.
    leaving: Vec<Leaving>,
    /// Something may have come for one of them that was not read away.
    may_drain: bool,
    begun: Instant,
    /// The moment at which it began, in microseconds since 1970, by the clock that may be set.
    begun_at: u64,
    /// Milliseconds since it began, as the round began.
    now: u64,
    /// The moment at which the round began, in microseconds since 1970: since it began the clock that only goes forward counts.
    moment: u64,
}

impl<'a, R: Net + Clock> Sockets<'a, R> {
    /// Sockets of no place and no session, with room for 256 sessions and as many that were left. An error is that of the clock or
    /// of making the `poll`, or want of memory.
    pub fn new(rt: &'a R, alloc: Global, supervisor: Option<Supervisor>) -> io::Result<Self> {
        let begun_at = wall_moment(rt)?;
        Ok(Sockets {
            rt,
            supervisor,
            poll: Poll::new(rt)?,
            events: Events::with_capacity(alloc, EVENTS)?,
            places: Vec::new(alloc),
            sessions: Vec::with_capacity(alloc, SESSIONS)?,
            asked: 0,
            // One that is closed as it comes stands beside all others.
            turns: Turns::new(alloc, SESSIONS + 1)?,
            leaving: Vec::with_capacity(alloc, LEAVING)?,
            may_drain: false,
            begun: Instant::now(rt)?,
            begun_at,
            now: 0,
            moment: begun_at,
        })
    }

    /// The moment at which the round began, in microseconds since 1970.
    pub fn moment(&self) -> u64 {
        self.moment
    }

    /// A side of a session whose connection has failed where no other call of its turn tells of it, and what the system says.
    pub fn failure(&self, session: u64) -> Option<(Side, io::Error)> {
        let at = self.seat_of(session)?;
        self.sessions[at].failure()
    }

    /// The address and port from which the client of a session came; nothing of a number that no session has.
    pub fn client_of(&self, session: u64) -> Option<Endpoint> {
        let at = self.seat_of(session)?;
        Some(self.sessions[at].client_at)
    }

    /// Where a session stands: in the place of the one whose turn it was last or in the next, or where a search finds it.
    fn seat_of(&self, session: u64) -> Option<usize>
        ensures inside { IfSome result (λ at. at < length self.entry.now.sessions.items) }
        ensures own { IfSome result (HoldsAt (λ found. found.number ≡ session) self.entry.now.sessions.items) }
    {
        seat_near(&self.sessions, self.asked, session)
    }

    /// The first session, of those with this number or a later one, that has a turn in this round.
    pub fn next_ready(&self, from: u64) -> Option<u64> {
        self.turns.next(from)
    }

    /// Whether a session has a turn now, which begins with this. One of a number that no session has has one, so that its next call
    /// tells.
    pub fn begin_turn(&mut self, session: u64) -> bool {
        match self.seat_of(session) {
            Some(at) => {
                self.asked = at;
                self.sessions[at].begin_turn(self.now)
            }
            None => true,
        }
    }

    /// Has a session wait for the next second.
    pub fn rest(&mut self, session: u64) {
        let until = self.next_second();
        if let Some(at) = self.seat_of(session) {
            self.sessions[at].rest_until(until);
        }
    }

    /// The millisecond since it began in which the second behind that of the round begins.
    fn next_second(&self) -> u64 {
        let left = SECOND_MICROS - self.moment % SECOND_MICROS;
        let begins = self.moment.saturating_add(left);
        begins.saturating_sub(self.begun_at).div_ceil(1000)
    }

    /// Listens at an address, as the next place; tells at which the system listens, and the moment in microseconds since 1970.
    pub fn open(&mut self, at: SocketAddr) -> io::Result<(SocketAddr, u64)> {
        let token = place_token(self.places.len());
        let place = Place::new(self.rt, at, self.poll.registry(), token)?;
        let here = place.address()?;
        self.places.push(place)?;
        self.read_clock()?;
        Ok((here, self.moment))
    }

    /// Waits for what a round can move, and reads the clock. A supervisor is told before that the service stands.
    pub fn wait_for_news(&mut self) -> io::Result<u64> {
        let now = self.now;
        if let Some(supervisor) = &mut self.supervisor {
            supervisor.tell(now);
        }
        self.drain_left();
        self.turns.settle(&self.sessions, now);
        let wait = self.longest_wait().map(Duration::from_millis);
        for place in self.places.iter_mut() {
            place.begin_round();
        }
        self.poll.poll(&mut self.events, wait)?;
        self.read_clock()?;
        self.note_events()?;
        self.turns.look(&self.sessions, self.now)?;
        Ok(self.moment)
    }

    /// Reads away what came for those that were left, where the system said that something did or the time of one is over.
    fn drain_left(&mut self) {
        let now = self.now;
        let is_over = match self.leaving.first() {
            Some(oldest) => oldest.longest_wait(now) == 0,
            None => false,
        };
        if self.may_drain || is_over {
            self.leaving.retain_mut(|leaving| !leaving.drain(now));
            self.may_drain = some_may_read(self.leaving.as_slice());
        }
    }

    /// How many milliseconds may pass before the next round, where the system has no news before.
    fn longest_wait(&self) -> Option<u64> {
        let mut wait = Some(LONGEST_WAIT);
        if let Some(supervisor) = &self.supervisor {
            wait = sooner(wait, supervisor.longest_wait(self.now));
        }
        for place in self.places.iter() {
            wait = sooner(wait, place.longest_wait(self.now));
        }
        wait = sooner(wait, Some(self.turns.longest_wait(self.now)));
        if self.may_drain {
            return Some(0);
        }
        match self.leaving.first() {
            Some(oldest) => sooner(wait, Some(oldest.longest_wait(self.now))),
            None => wait,
        }
    }

    /// Reads the clock that only goes forward, for the round: milliseconds since the service began, and the moment since 1970.
    fn read_clock(&mut self) -> io::Result<()> {
        let passed = self.begun.elapsed(self.rt)?;
        self.now = u64::try_from(passed.as_millis()).unwrap_or(u64::MAX);
        self.moment = self.begun_at.saturating_add(micros_of(passed));
        Ok(())
    }

    /// Hands what the system says to the places and sessions, and to those that were left. What it says late of one that is gone is no
    /// one's. An error is want of memory.
    fn note_events(&mut self) -> io::Result<()> {
        for event in self.events.iter() {
            let token = event.token().0;
            if let Some(place) = self.places.get_mut(usize::MAX - token) {
                place.note(event);
                continue;
            }
            let number = (token / 2) as u64;
            if let Some(at) = seat_near(&self.sessions, self.asked, number) {
                let session = &mut self.sessions[at];
                session.note(side_of(token), event);
                if session.longest_wait(self.now) == 0 {
                    self.turns.wake(number)?;
                }
            } else if note_left(&mut self.leaving, number) {
                self.may_drain = true;
            }
        }
        Ok(())
    }

    /// Whether a client may wait at a place, counted from 0.
    pub fn may_take(&mut self, place: u32) -> bool {
        match self.places.get_mut(place as usize) {
            Some(place) => place.may_take(self.now),
            None => false,
        }
    }

    /// Takes a client that waits at a place, counted from 0, as the session of this number; nobody where none waits or there is no
    /// such place. An error is that of its socket, or want of memory: the client is then closed.
    pub fn take_client(&mut self, place: u32, session: u64) -> io::Result<Option<Endpoint>> {
        let Some(place) = self.places.get_mut(place as usize) else {
            return Ok(None);
        };
        let Some((stream, from)) = place.accept(self.now) else {
            return Ok(None);
        };
        let client = endpoint_of(from);
        let taken = Session::new(session, client, stream, self.poll.registry())?;
        self.turns.wake(session)?;
        match self.sessions.push(taken) {
            Ok(()) => Ok(Some(client)),
            Err(error) => {
                self.turns.forget(session);
                Err(error.into())
            }
        }
    }

    /// Asks whether the controller of a session took the connection, and begins to connect where that was not begun. `NotConnected`
    /// for a number that no session has.
    pub fn reach(&mut self, session: u64, controller: SocketAddr) -> io::Result<Reached> {
        match self.seat_of(session) {
            Some(at) => {
                self.sessions[at].reach(self.rt, self.poll.registry(), self.now, controller)
            }
            None => Err(no_session()),
        }
    }

    /// Reads what came from a side of a session; no octets at its end, nothing where none came.
    pub fn read(&mut self, session: u64, side: Side, buf: &mut [u8]) -> io::Result<Option<Moved>>
        ensures { IfOk result (λ moved. IfSome moved (IsOn session side (length buf.new))) }
    {
        match self.seat_of(session) {
            Some(at) => self.sessions[at].read(side, buf),
            None => Err(no_session()),
        }
    }

    /// Writes to a side of a session what it takes now; nothing where it takes none.
    pub fn write(&mut self, session: u64, side: Side, bytes: &[u8]) -> io::Result<Option<Moved>>
        ensures { IfOk result (λ moved. IfSome moved (IsOn session side (length bytes.now))) }
    {
        match self.seat_of(session) {
            Some(at) => self.sessions[at].write(side, bytes),
            None => Err(no_session()),
        }
    }

    /// Ends what is sent to a side of a session, which may send on.
    pub fn close(&self, session: u64, side: Side) -> io::Result<()> {
        match self.seat_of(session) {
            Some(at) => self.sessions[at].close(side),
            None => Err(no_session()),
        }
    }

    /// Leaves both connections of a session.
    pub fn drop_session(&mut self, session: u64) {
        if let Some(at) = self.seat_of(session) {
            self.turns.forget(session);
            let leaving = self.sessions.remove(at).leave(self.now);
            if self.leaving.len() < LEAVING {
                // There is room for it.
                let _ = self.leaving.push(leaving);
                self.may_drain = true;
            }
        }
    }
}

/// The side of a session whose token this is.
fn side_of(token: usize) -> Side {
    if token % 2 == 0 {
        Side::Client
    } else {
        Side::Controller
    }
}

/// Notes that something may have come for a session that was left; whether there is one of this number.
fn note_left(all: &mut [Leaving], number: u64) -> bool {
    for leaving in all.iter_mut() {
        if leaving.number == number {
            leaving.may_read = true;
            return true;
        }
    }
    false
}

/// Whether something may have come for one of the connections that were left.
fn some_may_read(all: &[Leaving]) -> bool {
    for leaving in all {
        if leaving.may_read {
            return true;
        }
    }
    false
}

/// Where the session of a number stands: in a place or in the next, or where a search finds it.
fn seat_near(sessions: &[Session], near: usize, number: u64) -> Option<usize>
    ensures inside { IfSome result (λ at. at < length sessions.now) }
    ensures own { IfSome result (HoldsAt (λ found. found.number ≡ number) sessions.now) }
{
    let next = near.saturating_add(1);
    if is_at(sessions, near, number) {
        Some(near)
    } else if is_at(sessions, next, number) {
        Some(next)
    } else {
        session_of(sessions, number)
    }
}

/// The moment by the clock that may be set, in microseconds since 1970.
fn wall_moment(clock: &impl Clock) -> io::Result<u64> {
    match SystemTime::now(clock)?.duration_since(SystemTime::UNIX_EPOCH) {
        Ok(since) => Ok(micros_of(since)),
        Err(_) => Err(io::Error::from(io::ErrorKind::InvalidData)),
    }
}

/// Microseconds, at most 2^64 - 1.
fn micros_of(duration: Duration) -> u64 {
    u64::try_from(duration.as_micros()).unwrap_or(u64::MAX)
}

/// The shorter of two waits, of which one that is nothing has no end.
fn sooner(wait: Option<u64>, other: Option<u64>) -> Option<u64> {
    match (wait, other) {
        (Some(wait), Some(other)) => Some(wait.min(other)),
        (None, other) => other,
        (wait, None) => wait,
    }
}

/// The token of a place: far above those of sessions.
fn place_token(place: usize) -> Token {
    Token(usize::MAX - place)
}

fn no_session() -> io::Error {
    io::Error::from(io::ErrorKind::NotConnected)
}

/// The endpoint of an IPv4 address; that of another one, which a listener of IPv4 does not have, is 0.0.0.0.
fn endpoint_of(address: SocketAddr) -> Endpoint {
    let bits = match address.ip() {
        IpAddr::V4(ip) => ip.to_bits(),
        IpAddr::V6(_) => 0,
    };
    Endpoint {
        address: bits,
        port: address.port(),
    }
}
