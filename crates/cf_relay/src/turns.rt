//! The turns of a relay. This project's own.
ghost use Rattle.std.specs.Prelude.{◌≡◌, ℕ, ◌<◌, ◌⊎◌, true, ◌↔◌, IfErr, IsTrue, List, OnOk, length};
ghost use Rattle.cf_links.specs.Links.{LinksPlace};
ghost use Rattle.cf_outside.specs.Desk.{DeskValue};
ghost use Rattle.cf_policy.specs.Site.{IsSiteWithin, SiteValue};
ghost use Rattle.cf_relay.specs.declared.limit.TheConstants.{MOST_BYTES};
ghost use Rattle.cf_relay.specs.Relaying.{AreClosed, IsSound, RelayingValue, progress, relaying_value};
ghost use Rattle.cf_lane.specs.Caller.{RateMoments};
ghost use Rattle.cf_lane.specs.Handled.{IsLaneOf, LaneValue};
ghost use Rattle.cf_lane.specs.Judged.{Judged};
ghost use Rattle.cf_lane.specs.Rings.{AreRingsOf, KnowRings, KnowsRules};
ghost use Rattle.cf_lane.specs.SiteRates.{used_at};
ghost use Rattle.cf_relay.specs.Scene.{DoesBetween, StopsBetween, scene_of};
ghost use Rattle.cf_relay.specs.Taken.{KeepsLane, StaysWhole};
ghost use Rattle.cf_relay.specs.Turn.{turn, turns};

use crate::directions::Directions;
use crate::relaying::Relaying;
use crate::stop::Stop;
use cf_lane::Rings;
use cf_links::Links;
use cf_outside::Desk;
use cf_policy::Site;
use cf_view::Side;

impl Relaying {
    /// Turns, until both sides are closed or the relay stops. Its directions are together.
    pub(crate) fn run<L: Links, D: Desk>(
        &mut self,
        site: &Site<'_>,
        most: u64,
        buf: &mut [u8],
        session: u64,
        links: &mut L,
        desk: &mut D,
    ) -> Result<(), Stop>
        requires serves { LinksPlace.serves (L.place links.old) session ≡ true }
        requires within { IsSiteWithin site.now }
        requires sound { IsSound site.now most (relaying_value self.old) }
        requires still { AreClosed (relaying_value self.old) → ⊥ }
        requires whole { DeskValue.whole (D.value desk.old) ≡ true }
        requires buffer { length buf.old ≡ MOST_BYTES }
        ensures place { L.place links.new ≡ L.place links.old }
        ensures goes { OnOk result ((n : ℕ) × DoesBetween site.now most (turns Directions.Together n)
            (scene_of L.Links session D.Desk self.old links.old desk.old)
            (scene_of L.Links session D.Desk self.new links.new desk.new)) }
        ensures stops { IfErr result (λ stop. (n : ℕ) × StopsBetween site.now most (turns Directions.Together n) stop
            (scene_of L.Links session D.Desk self.old links.old desk.old)
            (scene_of L.Links session D.Desk self.new links.new desk.new)) }
        ensures closed { OnOk result (AreClosed (relaying_value self.new)) }
        ensures few { OnOk result (self.new.idle < most) }
        ensures whole { StaysWhole result (D.value desk.new) }
    {
        'turns: loop {
            self.turn(site, Directions::Together, most, buf, session, links, desk)?;
            if self.is_closed() {
                return Ok(());
            }
        }
    }

    /// Whether both sides are closed for sending: then each was given all that was for it, and no further turn is made.
    pub fn is_closed(&self) -> bool
        ensures { IsTrue result ↔ AreClosed (relaying_value self.now) }
    {
        self.finished.client && self.finished.controller
    }

    /// The greatest moment told, in microseconds.
    pub fn moment(&self) -> u64
        ensures { result ≡ RelayingValue.moment (relaying_value self.now) }
    {
        self.moment
    }

    /// How many commands were admitted.
    pub fn admitted(&self) -> u64
        ensures { result ≡ LaneValue.admitted (RelayingValue.lane (relaying_value self.now)) }
    {
        self.lane.admitted()
    }

    /// How many commands were refused.
    pub fn refused(&self) -> u64
        ensures { result ≡ LaneValue.refused (RelayingValue.lane (relaying_value self.now)) }
    {
        self.lane.refused()
    }

    /// The rings that the session leaves, as it ends, to a later one of its client.
    pub fn into_rings(self) -> Rings
        ensures of_site { (site : SiteValue) → IsLaneOf site (RelayingValue.lane (relaying_value self)) → AreRingsOf site result }
        ensures know { (site : SiteValue) (past : RateMoments) (judged : List Judged)
            → KnowsRules site past (LaneValue.rules (RelayingValue.lane (relaying_value self))) judged
            → KnowRings result (used_at site past judged) }
    {
        self.lane.into_rings()
    }

    /// One turn of a session: the moment; what the client and then the controller sends, at most `MOST_BYTES` each, of a side that
    /// may be read, by `directions`; what is queued for the controller and then for the client, until a queue is empty or its side answers `Idle`. The lines of items
    /// go to the desk, with the greatest moment told so far, in microseconds. As many answers `Idle` as `most`, with none
    /// between them that moves a letter, stop it. The buffer has `MOST_BYTES` bytes, and what stands in it does not matter. After an
    /// error no further turn is made, and the last line, such as that of a cut, is the caller's to write.
    pub fn turn<L: Links, D: Desk>(
        &mut self,
        site: &Site<'_>,
        directions: Directions,
        most: u64,
        buf: &mut [u8],
        session: u64,
        links: &mut L,
        desk: &mut D,
    ) -> Result<(), Stop>
        requires serves { LinksPlace.serves (L.place links.old) session ≡ true }
        requires within { IsSiteWithin site.now }
        requires sound { IsSound site.now most (relaying_value self.old) }
        requires still { AreClosed (relaying_value self.old) → ⊥ }
        requires whole { DeskValue.whole (D.value desk.old) ≡ true }
        requires buffer { length buf.old ≡ MOST_BYTES }
        ensures place { L.place links.new ≡ L.place links.old }
        ensures goes { OnOk result (DoesBetween site.now most (turn directions)
            (scene_of L.Links session D.Desk self.old links.old desk.old)
            (scene_of L.Links session D.Desk self.new links.new desk.new)) }
        ensures stops { IfErr result (λ stop. StopsBetween site.now most (turn directions) stop
            (scene_of L.Links session D.Desk self.old links.old desk.old)
            (scene_of L.Links session D.Desk self.new links.new desk.new)) }
        ensures sound { OnOk result (IsSound site.now most (relaying_value self.new)) }
        ensures lane { IfErr result (KeepsLane site.now (RelayingValue.lane (relaying_value self.new))) }
        ensures moves { OnOk result ((progress most (relaying_value self.old) < progress most (relaying_value self.new))
            ⊎ AreClosed (relaying_value self.new)) }
        ensures whole { StaysWhole result (D.value desk.new) }
        ensures buffer { length buf.new ≡ MOST_BYTES }
    {
        self.tell(session, links)?;
        self.take(
            site,
            directions,
            Side::Client,
            most,
            buf,
            session,
            links,
            desk,
        )?;
        self.take(
            site,
            directions,
            Side::Controller,
            most,
            buf,
            session,
            links,
            desk,
        )?;
        self.serve(Side::Controller, most, buf, session, links)?;
        self.serve(Side::Client, most, buf, session, links)
    }
}
