//! What is counted over events.
//! A count that has reached 2^64 - 1 stays there.
ghost use Rattle.std.specs.Prelude.{◌≡◌};
ghost use Rattle.cf_run.specs.Counted.{counted};

use crate::second_half::Outcome;

/// What was counted over the events so far; the last four counts are told, and not printed. A count that would pass `u64::MAX` stays
/// there.
#[derive(Clone, Copy, PartialEq, Eq, Debug, Default)]
pub struct Summary {
    /// Records.
    pub records: u64,
    /// Those whose octets are no packet.
    pub dropped: u64,
    /// Packets of no session.
    pub outside: u64,
    /// Packets that would have begun a session, and found no room in the table.
    pub full: u64,
    /// Sessions that began.
    pub sessions: u64,
    /// Commands admitted.
    pub admitted: u64,
    /// Commands refused.
    pub refused: u64,
    /// Sessions cut.
    pub cuts: u64,
    /// Packets of no session of which neither end, or both, is an asset's.
    pub foreign: u64,
    /// Sessions that closed.
    pub closed: u64,
    /// Packets of sessions that acknowledged what the box had not sent.
    pub above: u64,
    /// Packets of sessions that ended beyond the edge that the box had told.
    pub beyond: u64,
}

/// What happened in an event, as the counts have it.
#[derive(Clone, Copy)]
pub struct Happened {
    /// How many sessions the first half cut.
    pub cuts: u64,
    /// What became of the packet.
    pub outcome: Outcome,
}

impl Summary {
    /// Counts an event.
    pub(crate) fn count(&mut self, happened: &Happened)
        ensures { self.new ≡ counted self.old happened.now }
    {
        self.records = self.records.saturating_add(1);
        self.cuts = self.cuts.saturating_add(happened.cuts);
        match happened.outcome {
            Outcome::Dropped => self.dropped = self.dropped.saturating_add(1),
            Outcome::Full => self.full = self.full.saturating_add(1),
            Outcome::Outside { foreign } => {
                self.outside = self.outside.saturating_add(1);
                self.foreign = self.foreign.saturating_add(foreign);
            }
            Outcome::Begun => self.sessions = self.sessions.saturating_add(1),
            Outcome::Went {
                admitted,
                refused,
                cuts,
                closed,
                above,
                beyond,
            } => {
                self.admitted = self.admitted.saturating_add(admitted);
                self.refused = self.refused.saturating_add(refused);
                self.cuts = self.cuts.saturating_add(cuts);
                self.closed = self.closed.saturating_add(closed);
                self.above = self.above.saturating_add(above);
                self.beyond = self.beyond.saturating_add(beyond);
            }
        }
    }
}
