//! Links in memory whose clock is set back.
ghost use Rattle.std.specs.Prelude.{None, Some};
ghost use Rattle.cf_links.specs.MemoryLinks.{entries_told, serves_in};

use cf_links::{ArriveAnswer, Links, MemoryLinks, ReachAnswer, Service};
use cf_outside::{GiveAnswer, MomentAnswer, TakeAnswer, WriteAnswer};
use cf_view::{Endpoint, Side};

/// Links in memory whose clock is set to 0 once, before a wait.
#[derive(Drop)]
pub(crate) struct SetBack {
    pub(crate) links: MemoryLinks,
    /// How many waits are still answered before that.
    pub(crate) waits: u64,
}

impl Links for SetBack {
    ghost told = { λ s. Some (entries_told s.links.told.items) };

    ghost faults = { λ s. s.links.faults };

    ghost idles = { λ s. s.links.idles };

    ghost place = { λ s. record { serves = serves_in s.links; lender = None; round_faults = s.links.round_faults } };

    fn meet(&mut self, session: u64, listen: u16, peer: Endpoint) -> ReachAnswer {
        self.links.meet(session, listen, peer)
    }

    fn moment(&mut self, session: u64) -> MomentAnswer {
        self.links.moment(session)
    }

    fn take(&mut self, session: u64, side: Side, buf: &mut [u8]) -> TakeAnswer {
        self.links.take(session, side, buf)
    }

    fn give(&mut self, session: u64, side: Side, bytes: &[u8]) -> GiveAnswer {
        self.links.give(session, side, bytes)
    }

    fn finish(&mut self, session: u64, side: Side) -> WriteAnswer {
        self.links.finish(session, side)
    }
}

impl Service for SetBack {
    fn listen(&mut self, place: u32, at: Endpoint) -> MomentAnswer {
        self.links.listen(place, at)
    }

    fn wait(&mut self) -> MomentAnswer {
        if self.waits == 0 {
            self.waits = u64::MAX;
            self.links.clock = 0;
            return self.links.wait();
        }
        self.waits -= 1;
        self.links.wait()
    }

    fn arrive(&mut self, place: u32, session: u64) -> ArriveAnswer {
        self.links.arrive(place, session)
    }

    fn next_ready(&mut self, from: u64) -> Option<u64> {
        self.links.next_ready(from)
    }

    fn is_ready(&mut self, session: u64) -> bool {
        self.links.is_ready(session)
    }

    fn rest(&mut self, session: u64) {
        self.links.rest(session);
    }

    fn leave(&mut self, session: u64) {
        self.links.leave(session);
    }
}
