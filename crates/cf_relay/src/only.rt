//! A lent pair as the links of one session.
ghost use Rattle.std.specs.Prelude.{◌≡◌, ℕ, ◌<◌, ◌==◌, Some, true, IfErr, OnOk, length};
ghost use Rattle.cf_outside.specs.Desk.{DeskValue};
ghost use Rattle.cf_policy.specs.Site.{IsSiteWithin};
ghost use Rattle.cf_relay.specs.declared.limit.TheConstants.{MOST_BYTES};
ghost use Rattle.cf_relay.specs.Only.{only_links, only_told};
ghost use Rattle.cf_relay.specs.Relaying.{AreClosed, IsSound, relaying_value};
ghost use Rattle.cf_relay.specs.Scene.{DoesBetween, StopsBetween, scene};
ghost use Rattle.cf_relay.specs.Taken.{StaysWhole};
ghost use Rattle.cf_relay.specs.Turn.{turns};

use crate::directions::Directions;
use crate::relaying::Relaying;
use crate::stop::Stop;
use cf_links::{Links, ReachAnswer};
use cf_outside::{Desk, GiveAnswer, MeetAnswer, MomentAnswer, Pair, TakeAnswer, WriteAnswer};
use cf_policy::Site;
use cf_view::{Endpoint, Side};

/// A lent pair, as the links of the session 0, the only one.
#[derive(Drop)]
pub(crate) struct OnlyPair<'a, P> {
    pub(crate) pair: &'a mut P,
}

#[tactic(auto, using(crate::proofs::OnePair::only_entry, crate::proofs::OnePair::only_same))]
impl<'a, P: Pair> Links for OnlyPair<'a, P> {
    ghost told = { λ o. only_told (P.told o.pair.now) };

    ghost faults = { λ o. P.faults o.pair.now };

    ghost idles = { λ o. P.idles o.pair.now };

    ghost place = { λ o. record { serves = λ session. session == 0; lender = Some o.pair.ghost_name; round_faults = 0 } };

    fn meet(&mut self, _session: u64, listen: u16, peer: Endpoint) -> ReachAnswer {
        match self.pair.meet(listen, peer) {
            MeetAnswer::Met(client) => ReachAnswer::Met(client),
            MeetAnswer::Failed => ReachAnswer::Failed,
        }
    }

    fn moment(&mut self, _session: u64) -> MomentAnswer {
        self.pair.moment()
    }

    fn take(&mut self, _session: u64, side: Side, buf: &mut [u8]) -> TakeAnswer {
        self.pair.take(side, buf)
    }

    fn give(&mut self, _session: u64, side: Side, bytes: &[u8]) -> GiveAnswer {
        self.pair.give(side, bytes)
    }

    fn finish(&mut self, _session: u64, side: Side) -> WriteAnswer {
        self.pair.finish(side)
    }
}

impl Relaying {
    /// Turns between the two streams of a pair, until both sides are closed or the relay stops.
    pub(crate) fn run_pair<P: Pair, D: Desk>(
        &mut self,
        site: &Site<'_>,
        most: u64,
        buf: &mut [u8],
        pair: &mut P,
        desk: &mut D,
    ) -> Result<(), Stop>
        requires within { IsSiteWithin site.now }
        requires sound { IsSound site.now most (relaying_value self.old) }
        requires still { AreClosed (relaying_value self.old) → ⊥ }
        requires whole { DeskValue.whole (D.value desk.old) ≡ true }
        requires buffer { length buf.old ≡ MOST_BYTES }
        ensures goes { OnOk result ((n : ℕ) × DoesBetween site.now most (turns Directions.Together n)
            (scene (relaying_value self.old) (only_links P.Pair pair.old) (D.value desk.old))
            (scene (relaying_value self.new) (only_links P.Pair pair.new) (D.value desk.new))) }
        ensures stops { IfErr result (λ stop. (n : ℕ) × StopsBetween site.now most (turns Directions.Together n) stop
            (scene (relaying_value self.old) (only_links P.Pair pair.old) (D.value desk.old))
            (scene (relaying_value self.new) (only_links P.Pair pair.new) (D.value desk.new))) }
        ensures closed { OnOk result (AreClosed (relaying_value self.new)) }
        ensures few { OnOk result (self.new.idle < most) }
        ensures whole { StaysWhole result (D.value desk.new) }
    {
        let mut links = OnlyPair { pair };
        self.run(site, most, buf, 0, &mut links, desk)
    }
}
