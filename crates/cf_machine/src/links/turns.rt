//! Whose turn it is: the sessions that may have one, kept so that a round costs those alone.

use crate::links::session::{Session, session_of};
use std::alloc::Global;
use std::io;

/// The sessions that have a turn in a round, and until when no other one has one unless the system says something of it. Times are
/// milliseconds since the service began. This project's own.
#[derive(Drop)]
pub(crate) struct Turns {
    /// Their numbers, in their order.
    awake: Vec<u64>,
    quiet_until: u64,
}

impl Turns {
    /// Of no session, with room for so many.
    pub fn new(alloc: Global, room: usize) -> io::Result<Self> {
        Ok(Turns {
            awake: Vec::with_capacity(alloc, room)?,
            quiet_until: u64::MAX,
        })
    }

    /// The first of those with this number or a later one.
    pub fn next(&self, from: u64) -> Option<u64> {
        match self.awake.binary_search(&from) {
            Ok(_) => Some(from),
            Err(at) => self.awake.get(at).copied(),
        }
    }

    /// A session has a turn.
    pub fn wake(&mut self, number: u64) -> io::Result<()> {
        match self.awake.binary_search(&number) {
            Ok(_) => {}
            Err(at) => self.awake.insert(at, number)?,
        }
        Ok(())
    }

    /// A session is gone.
    pub fn forget(&mut self, number: u64) {
        if let Ok(at) = self.awake.binary_search(&number) {
            self.awake.remove(at);
        }
    }

    /// Ends a round: of those that had a turn, the ones stay that can go on at once, and the others are waited for.
    pub fn settle(&mut self, sessions: &[Session], now: u64) {
        let mut until = self.quiet_until;
        self.awake.retain(|number| match session_of(sessions, *number) {
            Some(at) => {
                let wait = sessions[at].longest_wait(now);
                if wait > 0 {
                    until = until.min(now.saturating_add(wait));
                }
                wait == 0
            }
            None => false,
        });
        self.quiet_until = until;
    }

    /// Begins a round: where the moment of a session may have come, each is looked at.
    pub fn look(&mut self, sessions: &[Session], now: u64) -> io::Result<()> {
        if now < self.quiet_until {
            return Ok(());
        }
        self.quiet_until = u64::MAX;
        self.awake.clear();
        for session in sessions.iter() {
            let wait = session.longest_wait(now);
            if wait == 0 {
                self.awake.push(session.number)?;
            } else {
                self.quiet_until = self.quiet_until.min(now.saturating_add(wait));
            }
        }
        Ok(())
    }

    /// How many milliseconds may pass before one has a turn, where the system says nothing before.
    pub fn longest_wait(&self, now: u64) -> u64 {
        if self.awake.is_empty() {
            self.quiet_until.saturating_sub(now)
        } else {
            0
        }
    }
}
