//! The supervisor of a service, as systemd is one: it is told when the service is ready, and that it goes on. sd_notify(3).

use libc::net as c;
use std::env;
use std::env::Env;

/// Where the name stands in the address of a Unix socket.
const NAME_AT: usize = 2;

/// How many octets a name has at most.
const LONGEST_NAME: usize = 107;

/// How many octets an address has at most.
const LONGEST_ADDRESS: u32 = 110;

/// A supervisor that wants to be told, by datagrams of a Unix socket. sd_notify(3).
#[derive(Drop)]
pub struct Supervisor {
    socket: i32,
    address: [u8; c::_SS_SIZE],
    length: u32,
    is_ready: bool,
    /// How many milliseconds pass between two signs of life, half of those for which it waits; nothing where it wants none.
    every: Option<u64>,
    /// The millisecond of the next sign of life.
    next: u64,
}

impl Supervisor {
    /// The one that the environment names in `NOTIFY_SOCKET`, with half the time of `WATCHDOG_USEC` between two signs of life. Nothing
    /// where it names none, or there is no socket to tell it by.
    pub fn of_environment(rt: &(impl Env + AllocGlobal)) -> Option<Self> {
        let name = env::var(rt, "NOTIFY_SOCKET").ok()?;
        Supervisor::at(name.as_str().as_bytes(), signs_every(rt))
    }

    /// The one at an address: a path, or `@` and an abstract name, of at most 107 octets. Nothing for another one, or where no
    /// socket is made.
    fn at(name: &[u8], every: Option<u64>) -> Option<Self> {
        let is_abstract = match name.first() {
            Some(b'@') => true,
            Some(b'/') => false,
            _ => return None,
        };
        if name.len() > LONGEST_NAME {
            return None;
        }
        let mut address = [0u8; c::_SS_SIZE];
        address[..NAME_AT].copy_from_slice(&(c::AF_UNIX as u16).to_ne_bytes());
        address[NAME_AT..NAME_AT + name.len()].copy_from_slice(name);
        if is_abstract {
            address[NAME_AT] = 0;
        }
        let socket = unsafe { c::socket(c::AF_UNIX, c::SOCK_DGRAM | c::SOCK_CLOEXEC, 0) };
        if socket < 0 {
            return None;
        }
        Some(Supervisor {
            socket,
            address,
            length: (NAME_AT + name.len()) as u32,
            is_ready: false,
            every,
            next: 0,
        })
    }

    /// Tells once that the service is ready, and that it goes on as often as that is wanted; `now` is in milliseconds. A datagram
    /// that is not taken is lost.
    pub(crate) fn tell(&mut self, now: u64) {
        if !self.is_ready {
            self.is_ready = true;
            self.say(b"READY=1");
        }
        if let Some(every) = self.every
            && now >= self.next
        {
            self.next = now.saturating_add(every);
            self.say(b"WATCHDOG=1");
        }
    }

    /// How many milliseconds may pass before the next sign of life; nothing where none is wanted.
    pub(crate) fn longest_wait(&self, now: u64) -> Option<u64> {
        match self.every {
            Some(_) => Some(self.next.saturating_sub(now)),
            None => None,
        }
    }

    /// Says something, where that does not have to wait.
    fn say(&self, words: &[u8]) {
        let length = self.length.min(LONGEST_ADDRESS);
        unsafe {
            c::sendto(
                self.socket,
                words,
                c::MSG_NOSIGNAL | c::MSG_DONTWAIT,
                &self.address,
                length,
            );
        }
    }
}

/// How many milliseconds are to pass between two signs of life; nothing where none is wanted.
fn signs_every(rt: &(impl Env + AllocGlobal)) -> Option<u64> {
    let waits = env::var(rt, "WATCHDOG_USEC").ok()?;
    match waits.as_str().parse::<u64>() {
        Ok(0) | Err(_) => None,
        Ok(micros) => Some((micros / 2_000).max(1)),
    }
}
