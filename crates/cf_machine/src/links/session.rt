//! The two connections of a session of a service.
//! One that was left is read for two seconds, so that what was given to it gets there before the system answers unread octets
//! with a reset. One that failed ends its session in the next turn, by the take or give that meets it, or, where a queue is full,
//! by the moment. A side that has ended has not failed: what is queued for the other goes out.
ghost use Rattle.std.specs.List.{HoldsAt};
ghost use Rattle.std.specs.Prelude.{◌≡◌, ◌<◌, IfOk, IfSome, IsTrue, length};
ghost use Rattle.cf_machine.specs.Moved.{IsOn};

use crate::links::sides::{ClientStream, ControllerStream, Moved};
use crate::links::watch::watch_over;
use crate::peer::{Peer, Rest};
use cf_view::{Endpoint, Side};
use mio::event::Event;
use mio::net::TcpStream as Begun;
use mio::{Interest, Registry, Token};
use std::io;
use std::net::{Net, SocketAddr, TcpStream};
use std::os::fd::{AsRawFd, OwnedFd};

/// How long the controller has to take the connection, in milliseconds.
const CONNECT_MILLIS: u64 = 10_000;

/// How long a session in which nothing moves waits for its turn, in milliseconds, where nothing was asked in the last one.
const TURN_MILLIS: u64 = 1000;

/// How long it waits for each answer in the last one that nothing came, or that nothing was taken, in milliseconds. The service ends a
/// session after twice SECONDS such answers in a row, so each of them stands for half a second.
const IDLE_MILLIS: u64 = 500;

/// How long a connection that is left is read, in milliseconds.
const LEAVE_MILLIS: u64 = 2000;

/// How far the connection with the controller is.
#[derive(Drop)]
enum Reach {
    /// It was not begun: before the client's own turn to be heard of, or behind it.
    Wanted {
        is_seen: bool,
    },
    /// It was begun, and has until this moment; the system has said something of it.
    Begun {
        stream: Begun,
        until: u64,
        is_told: bool,
    },
    Reached(ControllerStream),
}

/// What came of asking for a controller, where the system told no error.
#[derive(Clone, Copy)]
pub(crate) enum Reached {
    Waiting,
    /// The client has gone before.
    Gone,
    Met(Endpoint),
}

/// A client's connection and that with its controller, by the number of the session. Times are milliseconds since the service
/// began. This project's own.
#[derive(Drop)]
pub(crate) struct Session {
    pub number: u64,
    pub client_at: Endpoint,
    client: ClientStream,
    controller: Reach,
    /// A stream was asked or given something in this turn.
    is_used: bool,
    /// Something came or went in this turn.
    has_moved: bool,
    /// When its last turn began, in milliseconds.
    turn_at: u64,
    /// How often something was asked or given in this turn that did not move.
    idles: u64,
    /// It is not waited for before this moment, in milliseconds.
    rests_until: u64,
}

/// The tokens of a session's sides. A number is never used again, so what is told late of a connection that is gone is told of no
/// other.
pub(crate) fn token_of(number: u64, side: Side) -> Token {
    match side {
        Side::Client => Token((number as usize).wrapping_mul(2)),
        Side::Controller => Token((number as usize).wrapping_mul(2).wrapping_add(1)),
    }
}

/// Whether the session of this number stands at a place among these.
pub(crate) fn is_at(sessions: &[Session], at: usize, number: u64) -> bool
    ensures inside { IsTrue result → at < length sessions.now }
    ensures own { IsTrue result → HoldsAt (λ found. found.number ≡ number) sessions.now at }
{
    match sessions.get(at) {
        Some(session) => session.number == number,
        None => false,
    }
}

/// The place of a session among these, which stand in the order of their numbers.
pub(crate) fn session_of(sessions: &[Session], number: u64) -> Option<usize>
    ensures inside { IfSome result (λ at. at < length sessions.now) }
    ensures own { IfSome result (HoldsAt (λ found. found.number ≡ number) sessions.now) }
{
    let at = sessions
        .binary_search_by_key(&number, |session| session.number)
        .ok()?;
    if sessions[at].number == number {
        Some(at)
    } else {
        None
    }
}

impl Session {
    /// A session of a client that just came, whose controller is not asked for yet. An error is that of making the connection's
    /// calls not wait, or of entering it in the registry.
    pub fn new(
        number: u64,
        client_at: Endpoint,
        stream: Begun,
        registry: &Registry,
    ) -> io::Result<Self> {
        Ok(Session {
            number,
            client_at,
            client: ClientStream {
                peer: peer_of(stream, registry, token_of(number, Side::Client))?,
            },
            controller: Reach::Wanted { is_seen: false },
            is_used: false,
            has_moved: false,
            turn_at: 0,
            idles: 0,
            rests_until: 0,
        })
    }

    /// Begins to connect, once the system has had a round to say that the client has gone, and then says whether the controller
    /// took the connection; it has ten seconds, and then the error is `TimedOut`. A client that has gone before is not connected,
    /// and what it sent is read by nobody.
    pub fn reach(
        &mut self,
        net: &impl Net,
        registry: &Registry,
        now: u64,
        controller: SocketAddr,
    ) -> io::Result<Reached> {
        if self.client.peer.is_gone() && !self.is_reached() {
            return Ok(Reached::Gone);
        }
        match std::mem::replace(&mut self.controller, Reach::Wanted { is_seen: true }) {
            Reach::Wanted { is_seen: false } => Ok(Reached::Waiting),
            Reach::Wanted { is_seen: true } => {
                let mut stream = Begun::connect(net, controller)?;
                let both = Interest::READABLE | Interest::WRITABLE;
                registry.register(&mut stream, token_of(self.number, Side::Controller), both)?;
                let until = now.saturating_add(CONNECT_MILLIS);
                self.controller = Reach::Begun {
                    stream,
                    until,
                    is_told: false,
                };
                Ok(Reached::Waiting)
            }
            Reach::Begun {
                stream,
                until,
                is_told,
            } => self.look_at(registry, now, stream, until, is_told),
            Reach::Reached(stream) => {
                self.controller = Reach::Reached(stream);
                Ok(Reached::Met(self.client_at))
            }
        }
    }

    fn is_reached(&self) -> bool {
        match &self.controller {
            Reach::Reached(_) => true,
            _ => false,
        }
    }

    /// Whether a connection that was begun is made, which is asked where the system has said something of it. The error is that of
    /// the connection, or `TimedOut` at the moment `until`.
    fn look_at(
        &mut self,
        registry: &Registry,
        now: u64,
        mut stream: Begun,
        until: u64,
        is_told: bool,
    ) -> io::Result<Reached> {
        if is_told {
            if let Some(error) = stream.take_error()? {
                return Err(error);
            }
            if stream.peer_addr().is_ok() {
                registry.deregister(&mut stream)?;
                let token = token_of(self.number, Side::Controller);
                let peer = peer_of(stream, registry, token)?;
                self.controller = Reach::Reached(ControllerStream { peer });
                return Ok(Reached::Met(self.client_at));
            }
        }
        if now >= until {
            return Err(io::Error::from(io::ErrorKind::TimedOut));
        }
        self.controller = Reach::Begun {
            stream,
            until,
            is_told: false,
        };
        Ok(Reached::Waiting)
    }

    /// A side whose connection has failed where no other call of the turn tells of it, and what the system says.
    pub fn failure(&self) -> Option<(Side, io::Error)> {
        if let Some(error) = self.client.peer.failure() {
            return Some((Side::Client, error));
        }
        match &self.controller {
            Reach::Reached(stream) => Some((Side::Controller, stream.peer.failure()?)),
            _ => None,
        }
    }

    /// Notes an event of `poll` of a side's connection; of a controller that is not reached, that the system has said something.
    pub fn note(&mut self, side: Side, event: &Event) {
        match side {
            Side::Client => self.client.peer.note(event),
            Side::Controller => match &mut self.controller {
                Reach::Wanted { .. } => {}
                Reach::Begun { is_told, .. } => *is_told = true,
                Reach::Reached(stream) => stream.peer.note(event),
            },
        }
    }

    /// Whether its next turn can move something, ask for its controller, or tell of a failure, so that nothing waits.
    fn has_news(&self) -> bool {
        let moved = self.has_moved || !self.is_used;
        match &self.controller {
            Reach::Wanted { .. } => true,
            Reach::Begun { is_told, .. } => *is_told || self.client.peer.is_gone(),
            Reach::Reached(controller) => {
                self.client.peer.has_news_behind(moved) || controller.peer.has_news_behind(moved)
            }
        }
    }

    /// Has it wait until a moment, in milliseconds, whatever comes for it.
    pub fn rest_until(&mut self, until: u64) {
        self.rests_until = until;
    }

    /// How many milliseconds may pass before its next turn: 0 where that can move something.
    pub fn longest_wait(&self, now: u64) -> u64 {
        if now < self.rests_until {
            return self.rests_until - now;
        }
        if self.has_news() {
            0
        } else {
            self.next_turn().saturating_sub(now)
        }
    }

    /// The latest moment of its next turn, in milliseconds: a second after its last one, or half a second for each of its idle
    /// answers, and where its controller is asked for no later than the end of the ten seconds.
    fn next_turn(&self) -> u64 {
        let pause = match self.idles {
            0 => TURN_MILLIS,
            idles => idles.saturating_mul(IDLE_MILLIS),
        };
        let turn_by = self.turn_at.saturating_add(pause);
        match &self.controller {
            Reach::Begun { until, .. } => turn_by.min(*until),
            _ => turn_by,
        }
    }

    /// Whether it has a turn now: something can move, or its time has come. The turn begins with this.
    pub fn begin_turn(&mut self, now: u64) -> bool {
        let has_news = self.has_news();
        if !has_news && now < self.next_turn() {
            return false;
        }
        let moved = self.has_moved || !self.is_used;
        self.client.peer.begin_turn(moved);
        if !has_news {
            self.client.peer.look_again();
        }
        if let Reach::Reached(controller) = &mut self.controller {
            controller.peer.begin_turn(moved);
            if !has_news {
                controller.peer.look_again();
            }
        }
        self.is_used = false;
        self.has_moved = false;
        self.turn_at = now;
        self.idles = 0;
        true
    }

    /// Reads what came from a side; no octets at its end, nothing where none came.
    pub fn read(&mut self, side: Side, buf: &mut [u8]) -> io::Result<Option<Moved>>
        ensures { IfOk result (λ moved. IfSome moved (IsOn self.old.number side (length buf.new))) }
    {
        let moved = match side {
            Side::Client => self.client.read(self.number, buf)?,
            Side::Controller => match &mut self.controller {
                Reach::Reached(stream) => stream.read(self.number, buf)?,
                _ => return Err(not_connected()),
            },
        };
        self.note_move(moved.is_some());
        Ok(moved)
    }

    /// Writes to a side what it takes now; nothing where it takes none.
    pub fn write(&mut self, side: Side, bytes: &[u8]) -> io::Result<Option<Moved>>
        ensures { IfOk result (λ moved. IfSome moved (IsOn self.old.number side (length bytes.now))) }
    {
        let moved = match side {
            Side::Client => self.client.write(self.number, bytes)?,
            Side::Controller => match &mut self.controller {
                Reach::Reached(stream) => stream.write(self.number, bytes)?,
                _ => return Err(not_connected()),
            },
        };
        self.note_move(moved.is_some());
        Ok(moved)
    }

    fn note_move(&mut self, moved: bool) {
        self.is_used = true;
        self.has_moved = self.has_moved || moved;
        if !moved {
            self.idles = self.idles.saturating_add(1);
        }
    }

    /// Ends what is sent to a side (`shutdown` for writing), which may send on. `NotConnected` for a controller that is not
    /// reached.
    pub fn close(&self, side: Side) -> io::Result<()> {
        match side {
            Side::Client => self.client.peer.close(),
            Side::Controller => match &self.controller {
                Reach::Reached(stream) => stream.peer.close(),
                _ => Err(not_connected()),
            },
        }
    }

    /// Ends what is sent to both sides, and leaves them to be read away for two seconds; what was given to them gets there.
    pub fn leave(self, now: u64) -> Leaving {
        let _ = self.client.peer.close();
        let controller = match self.controller {
            Reach::Reached(stream) => {
                let _ = stream.peer.close();
                Some(stream.peer)
            }
            _ => None,
        };
        Leaving {
            number: self.number,
            may_read: true,
            client: Some(self.client.peer),
            controller,
            until: now.saturating_add(LEAVE_MILLIS),
        }
    }
}

/// Connections that were left, which are read for a while: the system would drop what was sent to them where something that came was
/// not read.
#[derive(Drop)]
pub(crate) struct Leaving {
    /// That of the session.
    pub number: u64,
    /// Something may have come that was not read away.
    pub may_read: bool,
    client: Option<Peer<TcpStream>>,
    controller: Option<Peer<TcpStream>>,
    until: u64,
}

impl Leaving {
    /// Reads away a part of what came (65,536 octets a side at most), where something may have come; whether both connections are
    /// gone, as they ended, or two seconds have passed.
    pub fn drain(&mut self, now: u64) -> bool {
        if now >= self.until {
            return true;
        }
        if self.may_read {
            let has_more = drain_side(&mut self.client);
            self.may_read = drain_side(&mut self.controller) || has_more;
        }
        self.client.is_none() && self.controller.is_none()
    }

    /// How many milliseconds of the two seconds are left.
    pub fn longest_wait(&self, now: u64) -> u64 {
        self.until.saturating_sub(now)
    }
}

/// Reads away a part of what came from one side, which is dropped at its end; whether more may have come.
fn drain_side(side: &mut Option<Peer<TcpStream>>) -> bool {
    let rest = match side {
        Some(peer) => peer.drain(),
        None => return false,
    };
    match rest {
        Rest::Over => {
            *side = None;
            false
        }
        Rest::Later => false,
        Rest::Now => true,
    }
}

/// The peer of a connection that was just made, whose vanishing the system finds out (`watch_over`).
fn peer_of(stream: Begun, registry: &Registry, token: Token) -> io::Result<Peer<TcpStream>> {
    let stream = TcpStream::from(OwnedFd::from(stream));
    watch_over(stream.as_raw_fd());
    Peer::new(stream, registry, token)
}

fn not_connected() -> io::Error {
    io::Error::from(io::ErrorKind::NotConnected)
}
