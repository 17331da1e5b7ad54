//! A place at which a service listens.

use mio::event::Event;
use mio::net::{TcpListener, TcpStream};
use mio::{Interest, Registry, Token};
use std::io;
use std::net::{Net, SocketAddr};

/// How long a place rests where the system could not take a client, in milliseconds.
const REST_MILLIS: u64 = 1000;

/// A socket that listens, and what is known of the clients that wait at it.
#[derive(Drop)]
pub(crate) struct Place {
    listener: TcpListener,
    /// A client may wait; else the system says when one comes.
    may_accept: bool,
    /// It was asked for a client in this round.
    is_asked: bool,
    /// It is not asked before this moment, in milliseconds.
    rests_until: u64,
}

impl Place {
    /// Binds to an address and port of this machine, and listens; 0.0.0.0 is every address of IPv4. An error is that of the system:
    /// the port is in use, or there is no right to it.
    pub fn new(
        net: &impl Net,
        at: SocketAddr,
        registry: &Registry,
        token: Token,
    ) -> io::Result<Self> {
        let mut listener = TcpListener::bind(net, at)?;
        registry.register(&mut listener, token, Interest::READABLE)?;
        Ok(Place {
            listener,
            may_accept: false,
            is_asked: false,
            rests_until: 0,
        })
    }

    /// The address and port at which it listens, as the system tells it.
    pub fn address(&self) -> io::Result<SocketAddr> {
        self.listener.local_addr()
    }

    /// Notes an event of `poll`: a client waits, or the listener has failed, which the next `accept` tells.
    pub fn note(&mut self, event: &Event) {
        self.may_accept = self.may_accept || event.is_readable() || event.is_error();
    }

    /// Begins a round, in which it was not asked for a client yet.
    pub fn begin_round(&mut self) {
        self.is_asked = false;
    }

    /// How many milliseconds may pass before it is asked again, 1,000 at most; nothing where the system says when, or none asks.
    pub fn longest_wait(&self, now: u64) -> Option<u64> {
        if self.may_accept && self.is_asked {
            Some(self.rests_until.saturating_sub(now))
        } else {
            None
        }
    }

    /// Asks whether a client may wait that can be taken now, in milliseconds.
    pub fn may_take(&mut self, now: u64) -> bool {
        self.is_asked = true;
        self.may_accept && now >= self.rests_until
    }

    /// Takes a client, if one waits; `now` is in milliseconds. Where the system could not take one, for want of descriptors say,
    /// the place rests for a second, and is asked again then.
    pub fn accept(&mut self, now: u64) -> Option<(TcpStream, SocketAddr)> {
        if !self.may_take(now) {
            return None;
        }
        match self.listener.accept() {
            Ok(taken) => Some(taken),
            Err(error) => {
                match error.kind() {
                    io::ErrorKind::WouldBlock => self.may_accept = false,
                    io::ErrorKind::Interrupted | io::ErrorKind::ConnectionAborted => {}
                    _ => self.rests_until = now.saturating_add(REST_MILLIS),
                }
                None
            }
        }
    }
}
