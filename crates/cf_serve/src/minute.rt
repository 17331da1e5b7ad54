//! The line of a minute: how many sessions of each listening place stand, and how many commands of all its sessions were admitted and
//! refused.
ghost use Rattle.std.specs.Prelude.{◌≡◌, ◌<◌, set};
ghost use Rattle.cf_serve.specs.Minute.{is_over, last_behind, no_minutes, tally_at, tally_with};

use crate::door::PLACES;

/// How long the listening places have one line each, in microseconds. This project's own choice.
const MINUTE_MICROS: u64 = 60_000_000;

/// Numbers of commands.
#[derive(Clone, Copy)]
pub(crate) struct Tally {
    pub(crate) admitted: u64,
    pub(crate) refused: u64,
}

/// What is kept for the lines of a minute: the moment of the last ones in microseconds, or that of the first round where none were yet, and
/// the commands of all sessions of each listening place so far.
#[derive(Drop)]
pub(crate) struct Minutes {
    pub(crate) last: Option<u64>,
    pub(crate) tallies: [Tally; PLACES],
}

impl Minutes {
    /// No round was yet.
    pub(crate) fn new() -> Minutes
        ensures { result ≡ no_minutes }
    {
        let tally = Tally {
            admitted: 0,
            refused: 0,
        };
        Minutes {
            last: None,
            tallies: [tally; PLACES],
        }
    }

    /// A round was at a moment. Answers whether a minute is over since the last lines, or since the first round; or the clock was set back.
    pub(crate) fn note(&mut self, moment: u64) -> bool
        ensures over { result ≡ is_over self.old.last moment }
        ensures minutes { self.new ≡ record self.old { last = last_behind self.old.last moment } }
    {
        match self.last {
            None => {
                self.last = Some(moment);
                false
            }
            Some(last) => {
                let over = moment < last || moment - last >= MINUTE_MICROS;
                if over {
                    self.last = Some(moment);
                }
                over
            }
        }
    }

    /// The commands of a listening place.
    pub(crate) fn tally_at(&self, place: usize) -> Tally
        requires { place < 256 }
        ensures { result ≡ tally_at self.now.tallies place }
    {
        self.tallies[place]
    }

    /// A session of a listening place had a turn: its commands were so many before it, and are so many behind it.
    pub(crate) fn add(&mut self, place: usize, before: Tally, after: Tally)
        requires { place < 256 }
        ensures { self.new ≡ record self.old { tallies = set self.old.tallies place (tally_with (tally_at self.old.tallies place) before after) } }
    {
        let tally = self.tallies[place];
        self.tallies[place] = Tally {
            admitted: tally
                .admitted
                .saturating_add(after.admitted.saturating_sub(before.admitted)),
            refused: tally
                .refused
                .saturating_add(after.refused.saturating_sub(before.refused)),
        };
    }
}
