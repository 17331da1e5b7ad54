//! A relay between two stages of a turn, and each stage. This project's own.
//! A session's moment in the log is the greatest that was told so far.
ghost use Rattle.std.specs.Prelude.{◌≡◌, ℕ, ◌<◌, [], ◌∷◌, List, Option, true, IfErr, OnOk, length};
ghost use Rattle.cf_lane.specs.Caller.{RateMoments};
ghost use Rattle.cf_links.specs.LinkValue.{link_value};
ghost use Rattle.cf_links.specs.Links.{LinksPlace};
ghost use Rattle.cf_outq.specs.SendQueue.{IsQueue, empty, queue_length};
ghost use Rattle.cf_outside.specs.Desk.{DeskValue};
ghost use Rattle.cf_outside.specs.Pair.{Moment, met_at};
ghost use Rattle.cf_policy.specs.Site.{IsSiteWithin, SiteValue};
ghost use Rattle.cf_relay.specs.declared.limit.TheConstants.{MOST_BYTES};
ghost use Rattle.cf_relay.specs.Relaying.{AreClosed, AsksOrRests, IsShort, IsSound, RelayingValue, ServesOrRests, Unmoved, begun_value};
ghost use Rattle.cf_relay.specs.Relaying.{relaying_value};
ghost use Rattle.cf_relay.specs.Scene.{DoesBetween, StopsBetween, scene, scene_of};
ghost use Rattle.cf_relay.specs.Stands.{IsNewLane, StandsFor};
ghost use Rattle.cf_relay.specs.Taken.{KeepsLane, LimitBy, StaysWhole};
ghost use Rattle.cf_relay.specs.Turn.{Finishing, Giving, Taking, Telling};
ghost use Rattle.cf_view.specs.declared.Endpoint.{Endpoint as EndpointOf};

use crate::directions::Directions;
use crate::give::{finish_to, give_to};
use crate::sides::Sides;
use crate::stop::Stop;
use crate::take::take_from;
use cf_driver::{Heard, length_cut};
use cf_lane::{LETTER_LIMIT, Lane, streams_go_on};
use cf_links::Links;
use cf_outq::Outq;
use cf_outside::{Desk, MomentAnswer};
use cf_policy::Site;
use cf_view::Side;

/// A relay between two stages: its lane, and for each side the queue to it, the bytes of it that are no whole unit, and how
/// many of its letters were taken.
#[derive(Drop)]
pub struct Relaying {
    pub(crate) lane: Lane,
    /// The queue to each side.
    pub(crate) to: Sides<Outq>,
    pub(crate) from: Sides<Heard>,
    /// Whether each side was closed for sending.
    pub(crate) finished: Sides<bool>,
    /// The greatest moment told, in microseconds.
    pub(crate) moment: u64,
    /// How many answers `Idle` came since the last that was none.
    pub(crate) idle: u64,
}

impl Relaying {
    /// A relay that has met its client and was told its first moment, in microseconds, with a new lane and two new queues.
    /// Nothing of either side was taken yet, and the line of its beginning is the caller's to write.
    pub fn begun(moment: u64, lane: Lane, to_client: Outq, to_controller: Outq) -> Relaying
        requires to_client { to_client ≡ empty }
        requires to_controller { to_controller ≡ empty }
        ensures value { relaying_value result ≡ begun_value lane moment }
        ensures stands { (site : SiteValue) (past : RateMoments) (listen : ℕ) (client : EndpointOf) (first : Option (List (List ℕ)))
            → IsNewLane site past client lane → StandsFor site past first (met_at listen site.first.endpoint client ∷ Moment moment ∷ [])
            (relaying_value result) first }
        ensures sound { (site : SiteValue) (past : RateMoments) (client : EndpointOf) (most : ℕ) → 0 < most
            → IsNewLane site past client lane → IsSound site most (relaying_value result) }
        ensures still { AreClosed (relaying_value result) → ⊥ }
    {
        Relaying {
            lane,
            to: Sides {
                client: to_client,
                controller: to_controller,
            },
            from: Sides {
                client: Heard::none(),
                controller: Heard::none(),
            },
            finished: Sides {
                client: false,
                controller: false,
            },
            moment,
            idle: 0,
        }
    }

    /// Asks for the moment, and keeps the greatest.
    pub(crate) fn tell<L: Links>(&mut self, session: u64, links: &mut L) -> Result<(), Stop>
        requires serves { LinksPlace.serves (L.place links.old) session ≡ true }
        requires still { AreClosed (relaying_value self.old) → ⊥ }
        ensures place { L.place links.new ≡ L.place links.old }
        ensures goes { OnOk result ((site : SiteValue) (most : ℕ) (desk : DeskValue) → self.old.idle < most →
            DoesBetween site most (Telling ∷ [])
            (scene (relaying_value self.old) (link_value L.Links session links.old) desk)
            (scene (relaying_value self.new) (link_value L.Links session links.new) desk)) }
        ensures stops { IfErr result (λ stop. (site : SiteValue) (most : ℕ) (desk : DeskValue) → self.old.idle < most →
            StopsBetween site most (Telling ∷ []) stop
            (scene (relaying_value self.old) (link_value L.Links session links.old) desk)
            (scene (relaying_value self.new) (link_value L.Links session links.new) desk)) }
        ensures sound { (site : SiteValue) (most : ℕ) → IsSound site most (relaying_value self.old) → IsSound site most
            (relaying_value self.new) }
        ensures unmoved { Unmoved (relaying_value self.old) (relaying_value self.new) }
        ensures lane { RelayingValue.lane (relaying_value self.new) ≡ RelayingValue.lane (relaying_value self.old) }
    {
        match links.moment(session) {
            MomentAnswer::Told(now) => {
                self.moment = self.moment.max(now);
                Ok(())
            }
            MomentAnswer::Failed => Err(Stop::Link),
        }
    }

    /// Asks a side for bytes, where it may be read, and hands the lane what comes.
    pub(crate) fn take<L: Links, D: Desk>(
        &mut self,
        site: &Site<'_>,
        directions: Directions,
        side: Side,
        most: u64,
        buf: &mut [u8],
        session: u64,
        links: &mut L,
        desk: &mut D,
    ) -> Result<(), Stop>
        requires serves { LinksPlace.serves (L.place links.old) session ≡ true }
        requires within { IsSiteWithin site.now }
        requires sound { IsSound site.now most (relaying_value self.old) }
        requires whole { DeskValue.whole (D.value desk.old) ≡ true }
        requires buffer { length buf.old ≡ MOST_BYTES }
        ensures place { L.place links.new ≡ L.place links.old }
        ensures goes { OnOk result (DoesBetween site.now most (Taking directions side ∷ [])
            (scene_of L.Links session D.Desk self.old links.old desk.old)
            (scene_of L.Links session D.Desk self.new links.new desk.new)) }
        ensures stops { IfErr result (λ stop. StopsBetween site.now most (Taking directions side ∷ []) stop
            (scene_of L.Links session D.Desk self.old links.old desk.old)
            (scene_of L.Links session D.Desk self.new links.new desk.new)) }
        ensures sound { OnOk result (IsSound site.now most (relaying_value self.new)) }
        ensures moves { OnOk result (AsksOrRests directions site.now side most (relaying_value self.old) (relaying_value self.new)) }
        ensures lane { IfErr result (KeepsLane site.now (RelayingValue.lane (relaying_value self.new))) }
        ensures whole { StaysWhole result (D.value desk.new) }
        ensures buffer { length buf.new ≡ MOST_BYTES }
    {
        streams_go_on();
        take_from(
            site,
            directions,
            self.moment,
            side,
            &mut self.lane,
            self.from.of_mut(side),
            &mut self.to.client,
            &mut self.to.controller,
            &mut self.idle,
            most,
            buf,
            session,
            links,
            desk,
        )?;
        self.check_limit()
    }

    /// Cuts where a stream has as many letters as the limit.
    fn check_limit(&self) -> Result<(), Stop>
        ensures limit { LimitBy (self.now.from.client).letters (self.now.from.controller).letters
            (queue_length self.now.to.client) (queue_length self.now.to.controller) result }
        ensures short { OnOk result (IsShort (relaying_value self.now)) }
        ensures to_client { IsQueue self.now.to.client }
        ensures to_controller { IsQueue self.now.to.controller }
    {
        let cut = length_cut(
            LETTER_LIMIT,
            self.from.client.letters,
            self.from.controller.letters,
            &self.to.client,
            &self.to.controller,
        );
        match cut {
            Some(reason) => Err(Stop::Cut(reason)),
            None => Ok(()),
        }
    }

    /// Gives a side what is queued for it, and closes it for sending where that is all.
    pub(crate) fn serve<L: Links>(
        &mut self,
        side: Side,
        most: u64,
        buf: &mut [u8],
        session: u64,
        links: &mut L,
    ) -> Result<(), Stop>
        requires serves { LinksPlace.serves (L.place links.old) session ≡ true }
        requires few { self.old.idle < most }
        requires buffer { length buf.old ≡ MOST_BYTES }
        ensures place { L.place links.new ≡ L.place links.old }
        ensures goes { OnOk result ((site : SiteValue) (desk : DeskValue) → DoesBetween site most
            (Giving side ∷ Finishing side ∷ [])
            (scene (relaying_value self.old) (link_value L.Links session links.old) desk)
            (scene (relaying_value self.new) (link_value L.Links session links.new) desk)) }
        ensures stops { IfErr result (λ stop. (site : SiteValue) (desk : DeskValue) → StopsBetween site most
            (Giving side ∷ Finishing side ∷ []) stop
            (scene (relaying_value self.old) (link_value L.Links session links.old) desk)
            (scene (relaying_value self.new) (link_value L.Links session links.new) desk)) }
        ensures sound { OnOk result ((site : SiteValue) → IsSound site most (relaying_value self.old) → IsSound site most
            (relaying_value self.new)) }
        ensures moves { OnOk result (ServesOrRests side most (relaying_value self.old) (relaying_value self.new)) }
        ensures lane { RelayingValue.lane (relaying_value self.new) ≡ RelayingValue.lane (relaying_value self.old) }
        ensures buffer { length buf.new ≡ MOST_BYTES }
    {
        let queue = self.to.of_mut(side);
        give_to(side, queue, &mut self.idle, most, buf, session, links)?;
        finish_to(side, queue, self.finished.of_mut(side), session, links)
    }
}
