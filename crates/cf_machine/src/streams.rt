//! Both TCP connections of a relay, and the wait for them.
ghost use Rattle.std.specs.Prelude.{◌≤◌, IfOk, IfSome, length};

use crate::peer::Peer;
use cf_view::Side;
use mio::{Events, Poll, Token};
use std::alloc::Global;
use std::io;
use std::io::{Read, Write};
use std::net::{Net, OpenStream};
use std::os::fd::AsRawFd;
use std::time::{Clock, Duration, Instant};

/// How long a turn in which nothing moves lasts, in milliseconds.
const QUIET_MILLIS: u64 = 5;

const CLIENT: Token = Token(0);

const CONTROLLER: Token = Token(1);

/// A connection with a client and one with a controller. Reads and writes do not wait; a turn does as it begins, where it is not
/// known that something can move.
#[derive(Drop)]
pub struct Streams<S: Read + Write + OpenStream + AsRawFd + Drop> {
    client: Peer<S>,
    controller: Peer<S>,
    poll: Poll,
    events: Events,
    /// A stream was asked or given something in this turn.
    is_used: bool,
    /// Something came or went in this turn.
    has_moved: bool,
}

impl<S: Read + Write + OpenStream + AsRawFd + Drop> Streams<S> {
    /// Over two connections that were just made. An error is that of a call that makes the `poll` or enters them, or want of
    /// memory.
    pub fn new(net: &impl Net, alloc: Global, client: S, controller: S) -> io::Result<Self> {
        let poll = Poll::new(net)?;
        Ok(Streams {
            client: Peer::new(client, poll.registry(), CLIENT)?,
            controller: Peer::new(controller, poll.registry(), CONTROLLER)?,
            events: Events::with_capacity(alloc, 2)?,
            poll,
            is_used: false,
            has_moved: false,
        })
    }

    /// Begins a turn: waits until it can move something, 5 milliseconds at most.
    pub fn begin_turn(&mut self, clock: &impl Clock) -> io::Result<()> {
        let moved = self.has_moved || !self.is_used;
        self.client.begin_turn(moved);
        self.controller.begin_turn(moved);
        self.is_used = false;
        self.has_moved = false;
        if self.has_news() {
            return Ok(());
        }
        self.wait(clock)
    }

    /// Whether the turn that has begun can move something on either side.
    fn has_news(&self) -> bool {
        self.client.has_news() || self.controller.has_news()
    }

    /// Waits for what a turn can move. What the system says beside that ends no wait.
    fn wait(&mut self, clock: &impl Clock) -> io::Result<()> {
        let quiet = Duration::from_millis(QUIET_MILLIS);
        let begun = Instant::now(clock)?;
        let mut left = quiet;
        for _ in 0..u64::MAX {
            self.poll.poll(&mut self.events, Some(left))?;
            self.note_events();
            if self.has_news() {
                return Ok(());
            }
            left = quiet.saturating_sub(begun.elapsed(clock)?);
            if self.events.is_empty() || left.is_zero() {
                break;
            }
        }
        self.client.look_again();
        self.controller.look_again();
        Ok(())
    }

    fn note_events(&mut self) {
        for event in self.events.iter() {
            if event.token() == CLIENT {
                self.client.note(event);
            } else {
                self.controller.note(event);
            }
        }
    }

    /// Reads what came from a side; 0 at its end, nothing where none came.
    pub fn read(&mut self, side: Side, buf: &mut [u8]) -> io::Result<Option<usize>>
        ensures { IfOk result (λ count. IfSome count (λ n. n ≤ length buf.new)) }
    {
        let count = match side {
            Side::Client => self.client.read(buf)?,
            Side::Controller => self.controller.read(buf)?,
        };
        self.note_move(count.is_some());
        Ok(count)
    }

    /// Writes to a side what it takes now; nothing where it takes none.
    pub fn write(&mut self, side: Side, bytes: &[u8]) -> io::Result<Option<usize>>
        ensures { IfOk result (λ count. IfSome count (λ n. n ≤ length bytes.now)) }
    {
        let count = match side {
            Side::Client => self.client.write(bytes)?,
            Side::Controller => self.controller.write(bytes)?,
        };
        self.note_move(count.is_some());
        Ok(count)
    }

    fn note_move(&mut self, moved: bool) {
        self.is_used = true;
        self.has_moved = self.has_moved || moved;
    }

    /// Ends what is sent to a side (`shutdown` for writing), which may send on.
    pub fn close(&self, side: Side) -> io::Result<()> {
        match side {
            Side::Client => self.client.close(),
            Side::Controller => self.controller.close(),
        }
    }
    /// Leaves both sides: closes them for sending and reads away what they sent, so that what was given to them gets there.
    pub fn leave(&mut self) {
        self.client.leave();
        self.controller.leave();
    }
}
