//! One TCP connection of a relay, and what is known of what it has and takes.
ghost use Rattle.std.specs.Prelude.{◌≡◌, ◌≤◌, IfOk, IfSome, Ok, length};

use mio::event::Event;
use mio::unix::SourceFd;
use mio::{Interest, Registry, Token};
use std::io;
use std::io::{Read, Write};
use std::net::{OpenStream, Shutdown};
use std::os::fd::AsRawFd;

/// How often a connection that is left is read at most: what the system keeps for it is less.
const LAST_READS: u32 = 4096;

/// How often it is read at most before others have their turn.
const DRAIN_READS: u32 = 16;

/// What there may be to read of a connection that was left.
#[derive(Clone, Copy)]
pub(crate) enum Rest {
    /// Nothing more: it has ended or failed.
    Over,
    /// Nothing until the system says so.
    Later,
    /// More that came.
    Now,
}

/// A connection whose reads and writes do not wait, and what `poll` has said of it. This project's own.
#[derive(Drop)]
pub struct Peer<S: Read + Write + OpenStream + AsRawFd + Drop> {
    stream: S,
    /// A read may find bytes, the end or a failure; else the system says when it will.
    may_read: bool,
    /// What comes has ended or failed, be it after bytes that were not read.
    is_ending: bool,
    /// The connection has failed.
    has_failed: bool,
    /// It has failed, and nothing was asked of it in a turn that moved nothing: no other call tells.
    is_lost: bool,
    /// It was asked for bytes in this turn.
    is_asked: bool,
    /// What comes is waited for.
    is_watched: bool,
    /// It took no bytes when it was last given some.
    is_full: bool,
    /// The system has said that it takes bytes again.
    takes_again: bool,
}

impl<S: Read + Write + OpenStream + AsRawFd + Drop> Peer<S> {
    /// Over a connection that was just made, whose reads and writes it keeps from waiting, and whose segments from being gathered
    /// (`TCP_NODELAY`). What becomes ready is reported to the registry under the token. An error is that of one of these calls.
    pub fn new(stream: S, registry: &Registry, token: Token) -> io::Result<Self> {
        stream.set_nonblocking(true)?;
        stream.set_nodelay(true)?;
        let both = Interest::READABLE | Interest::WRITABLE;
        registry.register(&mut SourceFd(&stream.as_raw_fd()), token, both)?;
        Ok(Peer {
            stream,
            may_read: false,
            is_ending: false,
            has_failed: false,
            is_lost: false,
            is_asked: false,
            is_watched: false,
            is_full: false,
            takes_again: false,
        })
    }

    /// Begins a turn; `moved` says whether the turn before moved something. Where it moved nothing, one that was not asked in it
    /// will not be in this one.
    pub fn begin_turn(&mut self, moved: bool) {
        self.is_lost = self.has_failed && !moved && !self.is_asked;
        self.is_watched = moved || self.is_asked;
        self.is_asked = false;
        self.takes_again = false;
    }

    /// Whether a turn can move something, or tell of a failure, that begins behind one that moved something or nothing.
    pub fn has_news_behind(&self, moved: bool) -> bool {
        ((moved || self.is_asked) && self.may_read) || self.takes_again || self.has_failed
    }

    /// Whether the turn that has begun can move something: a read of one that is watched may find something, or it takes bytes
    /// again.
    pub fn has_news(&self) -> bool {
        (self.is_watched && self.may_read) || self.takes_again
    }

    /// Notes an event of `poll` of this connection: a failure, the end of what comes, something to read, or room to write where it
    /// had taken no bytes.
    pub fn note(&mut self, event: &Event) {
        self.has_failed = self.has_failed || event.is_error();
        self.is_ending = self.is_ending || event.is_read_closed() || event.is_error();
        self.may_read = self.may_read || event.is_readable() || self.is_ending;
        if self.is_full && event.is_writable() {
            self.is_full = false;
            self.takes_again = true;
        }
    }

    /// Whether the system has said that what comes from it has ended or failed.
    pub fn is_gone(&self) -> bool {
        self.is_ending
    }

    /// What the system says of a connection that has failed, where no other call of the turn tells of it.
    pub fn failure(&self) -> Option<io::Error> {
        if !self.is_lost {
            return None;
        }
        match self.stream.take_error() {
            Ok(Some(error)) | Err(error) => Some(error),
            Ok(None) => Some(io::Error::from(io::ErrorKind::ConnectionReset)),
        }
    }

    /// Has the next read ask the system, also where no event said that it finds something.
    pub fn look_again(&mut self) {
        self.may_read = true;
    }

    /// Reads what came; 0 at its end, nothing where none came. A read that does not fill the buffer has all that came but the
    /// end.
    pub fn read(&mut self, buf: &mut [u8]) -> io::Result<Option<usize>>
        ensures { IfOk result (λ count. IfSome count (λ n. n ≤ length buf.new)) }
    {
        self.is_asked = true;
        if !self.may_read {
            return Ok(None);
        }
        let size = buf.len();
        let count = unless_waiting(self.stream.read(buf))?;
        self.may_read = match count {
            Some(count) => count == 0 || count == size || self.is_ending,
            None => false,
        };
        Ok(count)
    }

    /// Writes what it takes now, and how many octets that are; nothing where it would have to wait, and then `poll` says when it
    /// takes some again.
    pub fn write(&mut self, bytes: &[u8]) -> io::Result<Option<usize>>
        ensures { IfOk result (λ count. IfSome count (λ n. n ≤ length bytes.now)) }
    {
        let count = unless_waiting(self.stream.write(bytes))?;
        self.is_full = count.is_none();
        Ok(count)
    }

    /// Ends what is sent to it (`shutdown` for writing); it may send on.
    pub fn close(&self) -> io::Result<()> {
        self.stream.shutdown(Shutdown::Write)
    }

    /// Reads away up to 16 times 4,096 octets of what came; answers what there may be behind them.
    pub(crate) fn drain(&mut self) -> Rest {
        let mut rest = [0u8; 4096];
        for _ in 0..DRAIN_READS {
            match unless_waiting(self.stream.read(&mut rest)) {
                Ok(Some(count)) if count > 0 => {}
                Ok(None) => return Rest::Later,
                _ => return Rest::Over,
            }
        }
        Rest::Now
    }

    /// Closes it for sending, and reads away up to 4,096 times 4,096 octets of what came, without waiting: the system would drop
    /// what was sent to it where something that came was not read.
    pub fn leave(&mut self) {
        let mut rest = [0u8; 4096];
        let _ = self.close();
        for _ in 0..LAST_READS {
            match self.stream.read(&mut rest) {
                Ok(count) if count > 0 => {}
                _ => return,
            }
        }
    }
}

/// How many bytes moved, or nothing where the call would have to wait.
fn unless_waiting(moved: io::Result<usize>) -> io::Result<Option<usize>>
    ensures { IfOk result (λ count. IfSome count (λ n. moved ≡ Ok n)) }
{
    match moved {
        Ok(count) => Ok(Some(count)),
        Err(error) => match error.kind() {
            io::ErrorKind::WouldBlock | io::ErrorKind::Interrupted => Ok(None),
            _ => Err(error),
        },
    }
}
