//! A session of a service, and its turns.
//! A client is looked at once, for a round, before its controller is asked, since the system tells an end a round after the
//! client was taken.
ghost use Rattle.std.specs.Prelude.{◌≡◌, ◌<◌, ◌∷◌, [], IfOk, IfSome, IsErr, Err, List, false, None, Ok, OnErr, OnOk, Option, Some, is_some, length, not, option_map, true};
ghost use Rattle.cf_audit.specs.Line.{what_value};
ghost use Rattle.cf_lane.specs.Caller.{RateMoments};
ghost use Rattle.cf_lane.specs.Handled.{IsLaneOf, LaneValue, MayHaveMore, WritesLog, debt};
ghost use Rattle.cf_lane.specs.Log.{with_lines};
ghost use Rattle.cf_lane.specs.Ring.{RingValue};
ghost use Rattle.cf_lane.specs.Rings.{AreRingsOf, IsLeft};
ghost use Rattle.cf_links.specs.LinkValue.{told_of};
ghost use Rattle.cf_links.specs.Links.{LinksPlace, SessionTold, with_entry};
ghost use Rattle.cf_outside.specs.Desk.{DeskValue};
ghost use Rattle.cf_outside.specs.Faults.{HasCause, Rose};
ghost use Rattle.cf_outq.specs.SendQueue.{empty};
ghost use Rattle.cf_outside.specs.Pair.{Moment, met_at};
ghost use Rattle.cf_policy.specs.Site.{IsSiteWithin};
ghost use Rattle.cf_relay.specs.declared.limit.TheConstants.{MOST_BYTES};
ghost use Rattle.cf_relay.specs.Stands.{IsNewLane};
ghost use Rattle.cf_serve.specs.Failing.{MissesReach, MissesTurn};
ghost use Rattle.cf_serve.specs.Debt.{must_rest};
ghost use Rattle.cf_serve.specs.Lending.{MayLend};
ghost use Rattle.cf_serve.specs.Phase.{BeginsFree, HasLane, IsSoundBegun, LinkedValue, MayTurn, Owes, Phase, ReachDoes, ReachKeeps, TurnDoes, TurnKeeps};
ghost use Rattle.cf_serve.specs.Phase.{again_line, counts_at, debt_at, end_of, last_value, linked_value, listening_of, phase_of, rings_for};
ghost use Rattle.cf_serve.specs.Phase.{seat_at};
ghost use Rattle.cf_serve.specs.Rounds.{has_rates, is_later};
ghost use Rattle.cf_relay.specs.Relaying.{relaying_value};
ghost use Rattle.cf_view.specs.declared.Endpoint.{Endpoint as EndpointOf};

use crate::debt::Debt;
use crate::end::SessionEnd;
use crate::kept::Keeping;
use crate::lending::{lend_rings, may_begin};
use crate::minute::Tally;
use cf_audit::What;
use cf_driver::log_line;
use cf_lane::{Lane, Rings};
use cf_links::{Links, ReachAnswer};
use cf_outq::Outq;
use cf_outside::{Desk, MomentAnswer};
use cf_policy::Site;
use cf_relay::{Directions, Relaying, Stop};
use cf_view::{Endpoint, NoMemory, WriteFault};
use std::alloc::Global;

/// A relay whose controller was reached, the client that was met, and what it has to pay for.
#[derive(Drop)]
pub(crate) struct Linked {
    pub(crate) met: Endpoint,
    pub(crate) relaying: Relaying,
    pub(crate) debt: Debt,
}

/// A session: its number, the number of its listening place, the endpoint from which its client came, and its relay once the
/// controller is reached.
#[derive(Drop)]
pub(crate) struct Served {
    pub(crate) number: u64,
    pub(crate) place: usize,
    pub(crate) client: Endpoint,
    pub(crate) linked: Option<Linked>,
}

/// What a turn needs of its service: the site of the session, the number of its listening place and the port at which its clients
/// come, the moment of the round in microseconds, and how many answers `Idle` in a row end it.
#[derive(Drop)]
pub(crate) struct Terms<'a> {
    pub(crate) site: &'a Site<'a>,
    pub(crate) place: usize,
    pub(crate) port: u16,
    pub(crate) moment: u64,
    pub(crate) most: u64,
}

/// What a session is made of as its controller is reached.
#[derive(Drop)]
struct Parts {
    lane: Lane,
    to_client: Outq,
    to_controller: Outq,
}

/// How a session ends by what its relay answered; `closed` says whether both its sides are.
fn end_by(answer: Result<(), Stop>, closed: bool) -> Result<Option<SessionEnd>, WriteFault>
    ensures end { IfOk result (λ end. end ≡ end_of answer closed) }
    ensures again { IfOk result (λ end. end ≡ Some SessionEnd.Again → ⊥) }
    ensures fine { OnOk result (answer ≡ Err Stop.Write → ⊥) }
    ensures write { OnErr result (answer ≡ Err Stop.Write) }
{
    match answer {
        Ok(()) => Ok(if closed {
            Some(SessionEnd::Closed)
        } else {
            None
        }),
        Err(Stop::Idle) => Ok(Some(SessionEnd::Silent)),
        Err(Stop::Link) => Ok(Some(SessionEnd::Lost)),
        Err(Stop::Cut(reason)) => Ok(Some(SessionEnd::Cut(reason))),
        Err(Stop::Write) => Err(WriteFault),
    }
}

/// What the last line of a session says, with its numbers of commands.
fn last_what(end: SessionEnd, admitted: u64, refused: u64) -> What<'static>
    ensures { what_value result ≡ last_value end admitted refused }
{
    match end {
        SessionEnd::Closed => What::Close { admitted, refused },
        SessionEnd::Cut(reason) => What::Cut(reason),
        SessionEnd::Silent => What::Silent { admitted, refused },
        SessionEnd::Lost => What::Lost { admitted, refused },
        SessionEnd::Unreached => What::Unreached,
        SessionEnd::Gone => What::Gone,
        SessionEnd::Again => What::Again { admitted, refused },
        SessionEnd::NoMemory => What::NoMemory,
    }
}

/// What came of asking for a session's controller.
#[derive(Drop)]
enum Reached {
    Waiting,
    Begun(Linked),
    Ended(SessionEnd),
}

/// The two queues of a session and its lane, with all their memory. Its rules begin with the rings that were left, which are lost where
/// memory is wanting.
fn make_parts(
    alloc: Global,
    site: &Site<'_>,
    met: Endpoint,
    left: Option<Rings>,
) -> Result<Parts, NoMemory>
    requires within { IsSiteWithin site.now }
    requires left { IfSome left (AreRingsOf site.now) }
    ensures lane { IfOk result (λ parts. (before : RateMoments) → IsLeft left before → IsNewLane site.now before met (Parts.lane parts)) }
    ensures of_site { IfOk result (λ parts. IsLaneOf site.now (Parts.lane parts)) }
    ensures counts { IfOk result (λ parts. (LaneValue.admitted (Parts.lane parts) ≡ 0) × (LaneValue.refused (Parts.lane parts) ≡ 0)
        × (debt (Parts.lane parts) ≡ 0)) }
    ensures to_client { IfOk result (λ parts. Parts.to_client parts ≡ empty) }
    ensures to_controller { IfOk result (λ parts. Parts.to_controller parts ≡ empty) }
{
    let to_client = Outq::new(alloc)?;
    let to_controller = Outq::new(alloc)?;
    let lane = Lane::new(alloc, site, met, left)?;
    Ok(Parts {
        lane,
        to_client,
        to_controller,
    })
}

/// Begins the relay of a session at its first moment: the rings that were left to its client are lent to it; its memory, and its open
/// line.
fn open_relay<D: Desk>(
    alloc: Global,
    session: u64,
    client: Endpoint,
    met: Endpoint,
    moment: u64,
    terms: &Terms<'_>,
    keeping: &mut Keeping,
    desk: &mut D,
) -> Result<Reached, WriteFault>
    requires within { IsSiteWithin terms.now.site.now }
    requires most { 0 < terms.now.most }
    requires fits { IfSome (rings_for terms.now.site.now keeping.old terms.now.place client.address) (AreRingsOf terms.now.site.now) }
    requires free { has_rates terms.now.site.now ≡ true → MayLend terms.now.place client.address keeping.old }
    requires address { met.address ≡ client.address }
    requires whole { DeskValue.whole (D.value desk.old) ≡ true }
    ensures does { IfOk result (λ reached. (told : SessionTold) → ReachDoes (listening_of terms.now)
        (rings_for terms.now.site.now keeping.old terms.now.place client.address) terms.now.most client
        (met_at terms.now.port terms.now.site.now.first.endpoint met ∷ Moment moment ∷ []) told told
        (DeskValue.lines (D.value desk.old)) (DeskValue.lines (D.value desk.new)) reached) }
    ensures breaks { OnErr result ((told : SessionTold) → MissesReach (listening_of terms.now) terms.now.most client
        (met_at terms.now.port terms.now.site.now.first.endpoint met ∷ Moment moment ∷ []) told told
        (DeskValue.lines (D.value desk.old)) (DeskValue.lines (D.value desk.new)) (DeskValue.line_part (D.value desk.new))) }
    ensures may { IfOk result (λ reached. IsSoundBegun (listening_of terms.now) terms.now.most reached) }
    ensures free { IfOk result (λ reached. BeginsFree client reached) }
    ensures keeps { IfOk result (λ reached. ReachKeeps terms.now.site.now (seat_at session terms.now.place client) terms.now.moment
        keeping.old keeping.new reached) }
    ensures again { IfOk result (λ reached. reached ≡ Reached.Ended SessionEnd.Again → ⊥) }
    ensures met { (result ≡ Ok (Reached.Ended SessionEnd.Unreached) → ⊥) × (result ≡ Ok (Reached.Ended SessionEnd.Gone) → ⊥) }
    ensures whole { OnOk result (DeskValue.whole (D.value desk.new) ≡ true) }
    ensures log { WritesLog (D.value desk.old) (D.value desk.new) }
    ensures cause { HasCause (DeskValue.faults (D.value desk.old)) (DeskValue.faults (D.value desk.new)) (IsErr result) }
{
    let left = lend_rings(session, client, terms, keeping);
    let parts = match make_parts(alloc, terms.site, met, left) {
        Ok(parts) => parts,
        Err(_) => {
            log_line(terms.site, met, terms.moment, What::NoMemory, desk)?;
            return Ok(Reached::Ended(SessionEnd::NoMemory));
        }
    };
    log_line(terms.site, met, moment, What::Begun, desk)?;
    let relaying = Relaying::begun(moment, parts.lane, parts.to_client, parts.to_controller);
    Ok(Reached::Begun(Linked {
        met,
        relaying,
        debt: Debt::none(),
    }))
}

/// The end of a session whose connection failed before its first moment, or that met a client of another address.
fn lose<D: Desk>(met: Endpoint, terms: &Terms<'_>, desk: &mut D) -> Result<Reached, WriteFault>
    requires within { IsSiteWithin terms.now.site.now }
    requires most { 0 < terms.now.most }
    requires whole { DeskValue.whole (D.value desk.old) ≡ true }
    ensures end { IfOk result (λ reached. reached ≡ Reached.Ended SessionEnd.Lost) }
    ensures does { IfOk result (λ reached. (left : Option (List (List RingValue))) (client : EndpointOf) (told : SessionTold)
        → ReachDoes (listening_of terms.now) left terms.now.most client
        (met_at terms.now.port terms.now.site.now.first.endpoint met ∷ []) told told
        (DeskValue.lines (D.value desk.old)) (DeskValue.lines (D.value desk.new)) reached) }
    ensures breaks { OnErr result ((client : EndpointOf) (told : SessionTold) → MissesReach (listening_of terms.now) terms.now.most client
        (met_at terms.now.port terms.now.site.now.first.endpoint met ∷ []) told told
        (DeskValue.lines (D.value desk.old)) (DeskValue.lines (D.value desk.new)) (DeskValue.line_part (D.value desk.new))) }
    ensures whole { OnOk result (DeskValue.whole (D.value desk.new) ≡ true) }
    ensures log { WritesLog (D.value desk.old) (D.value desk.new) }
    ensures cause { HasCause (DeskValue.faults (D.value desk.old)) (DeskValue.faults (D.value desk.new)) (IsErr result) }
{
    let what = What::Lost {
        admitted: 0,
        refused: 0,
    };
    log_line(terms.site, met, 0, what, desk)?;
    Ok(Reached::Ended(SessionEnd::Lost))
}

/// The end of a session for whose client nothing more can be kept, or whose client's rings are lost.
fn refuse<D: Desk>(client: Endpoint, terms: &Terms<'_>, desk: &mut D) -> Result<Reached, WriteFault>
    requires within { IsSiteWithin terms.now.site.now }
    requires whole { DeskValue.whole (D.value desk.old) ≡ true }
    ensures end { IfOk result (λ reached. reached ≡ Reached.Ended SessionEnd.NoMemory) }
    ensures does { IfOk result (λ reached. (left : Option (List (List RingValue))) (told : SessionTold)
        → ReachDoes (listening_of terms.now) left terms.now.most client [] told told
        (DeskValue.lines (D.value desk.old)) (DeskValue.lines (D.value desk.new)) reached) }
    ensures breaks { OnErr result ((told : SessionTold) → MissesReach (listening_of terms.now) terms.now.most client [] told told
        (DeskValue.lines (D.value desk.old)) (DeskValue.lines (D.value desk.new)) (DeskValue.line_part (D.value desk.new))) }
    ensures whole { OnOk result (DeskValue.whole (D.value desk.new) ≡ true) }
    ensures log { WritesLog (D.value desk.old) (D.value desk.new) }
    ensures cause { HasCause (DeskValue.faults (D.value desk.old)) (DeskValue.faults (D.value desk.new)) (IsErr result) }
{
    log_line(terms.site, client, terms.moment, What::NoMemory, desk)?;
    Ok(Reached::Ended(SessionEnd::NoMemory))
}

/// The first moment of a session, where the client that was met has the address that came.
fn first_moment<L: Links>(
    session: u64,
    client: Endpoint,
    met: Endpoint,
    links: &mut L,
) -> Option<u64>
    requires serves { LinksPlace.serves (L.place links.old) session ≡ true }
    ensures place { L.place links.new ≡ L.place links.old }
    ensures moment { IfSome result (λ moment. told_of L.Links session links.new
        ≡ with_entry (told_of L.Links session links.old) (Moment moment)) }
    ensures address { is_some result ≡ true → met.address ≡ client.address }
    ensures none { result ≡ None → told_of L.Links session links.new ≡ told_of L.Links session links.old }
{
    if met.address != client.address {
        return None;
    }
    match links.moment(session) {
        MomentAnswer::Told(moment) => Some(moment),
        MomentAnswer::Failed => None,
    }
}

/// Begins the relay of a session whose controller was reached, at its first moment. What is kept is of the address that came: a client of
/// another one is not served.
fn begin<L: Links, D: Desk>(
    alloc: Global,
    session: u64,
    client: Endpoint,
    met: Endpoint,
    terms: &Terms<'_>,
    keeping: &mut Keeping,
    links: &mut L,
    desk: &mut D,
) -> Result<Reached, WriteFault>
    requires serves { LinksPlace.serves (L.place links.old) session ≡ true }
    requires within { IsSiteWithin terms.now.site.now }
    requires most { 0 < terms.now.most }
    requires fits { IfSome (rings_for terms.now.site.now keeping.old terms.now.place client.address) (AreRingsOf terms.now.site.now) }
    requires free { has_rates terms.now.site.now ≡ true → MayLend terms.now.place client.address keeping.old }
    requires whole { DeskValue.whole (D.value desk.old) ≡ true }
    ensures place { L.place links.new ≡ L.place links.old }
    ensures does { IfOk result (λ reached. ReachDoes (listening_of terms.now)
        (rings_for terms.now.site.now keeping.old terms.now.place client.address) terms.now.most client
        (met_at terms.now.port terms.now.site.now.first.endpoint met ∷ [])
        (told_of L.Links session links.old) (told_of L.Links session links.new)
        (DeskValue.lines (D.value desk.old)) (DeskValue.lines (D.value desk.new)) reached) }
    ensures breaks { OnErr result (MissesReach (listening_of terms.now) terms.now.most client
        (met_at terms.now.port terms.now.site.now.first.endpoint met ∷ [])
        (told_of L.Links session links.old) (told_of L.Links session links.new)
        (DeskValue.lines (D.value desk.old)) (DeskValue.lines (D.value desk.new)) (DeskValue.line_part (D.value desk.new))) }
    ensures may { IfOk result (λ reached. IsSoundBegun (listening_of terms.now) terms.now.most reached) }
    ensures free { IfOk result (λ reached. BeginsFree client reached) }
    ensures keeps { IfOk result (λ reached. ReachKeeps terms.now.site.now (seat_at session terms.now.place client) terms.now.moment
        keeping.old keeping.new reached) }
    ensures again { IfOk result (λ reached. reached ≡ Reached.Ended SessionEnd.Again → ⊥) }
    ensures met { (result ≡ Ok (Reached.Ended SessionEnd.Unreached) → ⊥) × (result ≡ Ok (Reached.Ended SessionEnd.Gone) → ⊥) }
    ensures whole { OnOk result (DeskValue.whole (D.value desk.new) ≡ true) }
    ensures log { WritesLog (D.value desk.old) (D.value desk.new) }
    ensures cause { HasCause (DeskValue.faults (D.value desk.old)) (DeskValue.faults (D.value desk.new)) (IsErr result) }
{
    match first_moment(session, client, met, links) {
        Some(moment) => open_relay(alloc, session, client, met, moment, terms, keeping, desk),
        None => lose(met, terms, desk),
    }
}

/// Asks for the controller of a session, where what is kept of its client may be lent to it.
fn reach<L: Links, D: Desk>(
    alloc: Global,
    session: u64,
    client: Endpoint,
    terms: &Terms<'_>,
    keeping: &mut Keeping,
    links: &mut L,
    desk: &mut D,
) -> Result<Reached, WriteFault>
    requires serves { LinksPlace.serves (L.place links.old) session ≡ true }
    requires within { IsSiteWithin terms.now.site.now }
    requires most { 0 < terms.now.most }
    requires fits { IfSome (rings_for terms.now.site.now keeping.old terms.now.place client.address) (AreRingsOf terms.now.site.now) }
    requires whole { DeskValue.whole (D.value desk.old) ≡ true }
    ensures place { L.place links.new ≡ L.place links.old }
    ensures does { IfOk result (λ reached. ReachDoes (listening_of terms.now)
        (rings_for terms.now.site.now keeping.old terms.now.place client.address) terms.now.most client []
        (told_of L.Links session links.old) (told_of L.Links session links.new)
        (DeskValue.lines (D.value desk.old)) (DeskValue.lines (D.value desk.new)) reached) }
    ensures breaks { OnErr result (MissesReach (listening_of terms.now) terms.now.most client []
        (told_of L.Links session links.old) (told_of L.Links session links.new)
        (DeskValue.lines (D.value desk.old)) (DeskValue.lines (D.value desk.new)) (DeskValue.line_part (D.value desk.new))) }
    ensures may { IfOk result (λ reached. IsSoundBegun (listening_of terms.now) terms.now.most reached) }
    ensures free { IfOk result (λ reached. BeginsFree client reached) }
    ensures keeps { IfOk result (λ reached. ReachKeeps terms.now.site.now (seat_at session terms.now.place client) terms.now.moment
        keeping.old keeping.new reached) }
    ensures again { IfOk result (λ reached. reached ≡ Reached.Ended SessionEnd.Again → ⊥) }
    ensures unreached { result ≡ Ok (Reached.Ended SessionEnd.Unreached) → Rose (L.faults links.old) (L.faults links.new) }
    ensures gone { result ≡ Ok (Reached.Ended SessionEnd.Gone) → L.faults links.new ≡ L.faults links.old }
    ensures whole { OnOk result (DeskValue.whole (D.value desk.new) ≡ true) }
    ensures log { WritesLog (D.value desk.old) (D.value desk.new) }
    ensures cause { HasCause (DeskValue.faults (D.value desk.old)) (DeskValue.faults (D.value desk.new)) (IsErr result) }
{
    if !may_begin(client, terms, keeping) {
        return refuse(client, terms, desk);
    }
    match links.meet(session, terms.port, terms.site.first().endpoint) {
        ReachAnswer::Met(met) => begin(alloc, session, client, met, terms, keeping, links, desk),
        ReachAnswer::Waiting => Ok(Reached::Waiting),
        ReachAnswer::Gone => {
            log_line(terms.site, client, terms.moment, What::Gone, desk)?;
            Ok(Reached::Ended(SessionEnd::Gone))
        }
        ReachAnswer::Failed => {
            log_line(terms.site, client, terms.moment, What::Unreached, desk)?;
            Ok(Reached::Ended(SessionEnd::Unreached))
        }
    }
}

impl Linked {
    /// The relay.
    pub(crate) fn into_relaying(self) -> Relaying
        ensures { relaying_value result ≡ LinkedValue.now (linked_value self) }
    {
        self.relaying
    }

    /// A turn of the relay, and the line of its end where it is the last.
    pub(crate) fn turn<L: Links, D: Desk>(
        &mut self,
        terms: &Terms<'_>,
        buf: &mut [u8],
        session: u64,
        links: &mut L,
        desk: &mut D,
    ) -> Result<Option<SessionEnd>, WriteFault>
        requires serves { LinksPlace.serves (L.place links.old) session ≡ true }
        requires within { IsSiteWithin terms.now.site.now }
        requires may { MayTurn (listening_of terms.now) terms.now.most (Some (linked_value self.old)) }
        requires no_rest { must_rest self.old.debt terms.now.moment ≡ false }
        requires whole { DeskValue.whole (D.value desk.old) ≡ true }
        requires buffer { length buf.old ≡ MOST_BYTES }
        ensures place { L.place links.new ≡ L.place links.old }
        ensures does { IfOk result (λ end. (left : Option (List (List RingValue))) (client : EndpointOf)
            → TurnDoes (listening_of terms.now) left terms.now.most client
            (told_of L.Links session links.old) (told_of L.Links session links.new)
            (DeskValue.lines (D.value desk.old)) (DeskValue.lines (D.value desk.new))
            (Some (linked_value self.old)) (Some (linked_value self.new)) end) }
        ensures breaks { OnErr result ((client : EndpointOf) → MissesTurn (listening_of terms.now) terms.now.most client
            (told_of L.Links session links.old) (told_of L.Links session links.new)
            (DeskValue.lines (D.value desk.old)) (DeskValue.lines (D.value desk.new)) (DeskValue.line_part (D.value desk.new))
            (Some (linked_value self.old))) }
        ensures may { IfOk result (λ end. end ≡ None → MayTurn (listening_of terms.now) terms.now.most (Some (linked_value self.new))) }
        ensures again { IfOk result (λ end. end ≡ Some SessionEnd.Again → ⊥) }
        ensures lane { OnOk result (HasLane terms.now.site.now (Some (linked_value self.new))) }
        ensures owes { IfOk result (λ end. end ≡ None
            → Owes terms.now.moment (Some (linked_value self.old)) (Some (linked_value self.new))) }
        ensures whole { OnOk result (DeskValue.whole (D.value desk.new) ≡ true) }
        ensures log { WritesLog (D.value desk.old) (D.value desk.new) }
        ensures cause { HasCause (DeskValue.faults (D.value desk.old)) (DeskValue.faults (D.value desk.new)) (IsErr result) }
        ensures buffer { length buf.new ≡ MOST_BYTES }
    {
        let earlier = self.relaying.refused();
        let answer = self.relaying.turn(
            terms.site,
            Directions::Separate,
            terms.most,
            buf,
            session,
            links,
            desk,
        );
        let end = match end_by(answer, self.relaying.is_closed())? {
            Some(end) => end,
            None => {
                let refused = self.relaying.refused().saturating_sub(earlier);
                self.debt.add(terms.moment, refused);
                return Ok(None);
            }
        };
        let what = last_what(end, self.relaying.admitted(), self.relaying.refused());
        log_line(terms.site, self.met, self.relaying.moment(), what, desk)?;
        Ok(Some(end))
    }
}

impl Served {
    /// Its relay, if its controller was reached.
    pub(crate) fn into_linked(self) -> Option<Linked>
        ensures { option_map linked_value result ≡ Phase.linked (phase_of self) }
    {
        self.linked
    }

    /// Whether it is of this client, and came later than a number.
    pub(crate) fn is_later(&self, place: usize, client: Endpoint, number: u64) -> bool
        ensures { result ≡ is_later (seat_at number place client) (Phase.seat (phase_of self.now)) }
    {
        self.place == place && self.client.address == client.address && number < self.number
    }

    /// Whether it has too many refused commands to pay for at a moment to have a turn.
    pub(crate) fn must_rest(&self, moment: u64) -> bool
        ensures { result ≡ must_rest (debt_at (Phase.linked (phase_of self.now))) moment }
    {
        match &self.linked {
            Some(linked) => linked.debt.must_rest(moment),
            None => false,
        }
    }

    /// How many of its commands were admitted and refused so far.
    pub(crate) fn counts(&self) -> Tally
        ensures { result ≡ counts_at (Phase.linked (phase_of self.now)) }
    {
        match &self.linked {
            Some(linked) => Tally {
                admitted: linked.relaying.admitted(),
                refused: linked.relaying.refused(),
            },
            None => Tally {
                admitted: 0,
                refused: 0,
            },
        }
    }

    /// The last line of a session whose client came again.
    pub(crate) fn end_again<D: Desk>(
        &self,
        terms: &Terms<'_>,
        desk: &mut D,
    ) -> Result<(), WriteFault>
        requires within { IsSiteWithin terms.now.site.now }
        requires whole { DeskValue.whole (D.value desk.old) ≡ true }
        ensures lines { OnOk result (DeskValue.lines (D.value desk.new) ≡ with_lines (DeskValue.lines (D.value desk.old))
            (again_line terms.now.site.now self.now.client terms.now.moment (Phase.linked (phase_of self.now)) ∷ [])) }
        ensures fails { OnErr result (MayHaveMore
            (again_line terms.now.site.now self.now.client terms.now.moment (Phase.linked (phase_of self.now)) ∷ [])
            (DeskValue.lines (D.value desk.old)) (DeskValue.lines (D.value desk.new)) (DeskValue.line_part (D.value desk.new))) }
        ensures whole { OnOk result (DeskValue.whole (D.value desk.new) ≡ true) }
        ensures log { WritesLog (D.value desk.old) (D.value desk.new) }
        ensures cause { HasCause (DeskValue.faults (D.value desk.old)) (DeskValue.faults (D.value desk.new)) (IsErr result) }
    {
        let tally = self.counts();
        let what = last_what(SessionEnd::Again, tally.admitted, tally.refused);
        log_line(terms.site, self.client, terms.moment, what, desk)
    }

    /// One turn: its controller is asked for, or its relay has its turn; and the last line where it ends.
    pub(crate) fn turn<L: Links, D: Desk>(
        &mut self,
        alloc: Global,
        terms: &Terms<'_>,
        buf: &mut [u8],
        keeping: &mut Keeping,
        links: &mut L,
        desk: &mut D,
    ) -> Result<Option<SessionEnd>, WriteFault>
        requires serves { LinksPlace.serves (L.place links.old) self.old.number ≡ true }
        requires within { IsSiteWithin terms.now.site.now }
        requires most { 0 < terms.now.most }
        requires may { MayTurn (listening_of terms.now) terms.now.most (Phase.linked (phase_of self.old)) }
        requires fits { IfSome (rings_for terms.now.site.now keeping.old terms.now.place self.old.client.address)
            (AreRingsOf terms.now.site.now) }
        requires no_rest { must_rest (debt_at (Phase.linked (phase_of self.old))) terms.now.moment ≡ false }
        requires whole { DeskValue.whole (D.value desk.old) ≡ true }
        requires buffer { length buf.old ≡ MOST_BYTES }
        ensures place { L.place links.new ≡ L.place links.old }
        ensures does { IfOk result (λ end. TurnDoes (listening_of terms.now)
            (rings_for terms.now.site.now keeping.old terms.now.place self.old.client.address) terms.now.most self.old.client
            (told_of L.Links self.old.number links.old) (told_of L.Links self.old.number links.new)
            (DeskValue.lines (D.value desk.old)) (DeskValue.lines (D.value desk.new))
            (Phase.linked (phase_of self.old)) (Phase.linked (phase_of self.new)) end) }
        ensures breaks { OnErr result (MissesTurn (listening_of terms.now) terms.now.most self.old.client
            (told_of L.Links self.old.number links.old) (told_of L.Links self.old.number links.new)
            (DeskValue.lines (D.value desk.old)) (DeskValue.lines (D.value desk.new)) (DeskValue.line_part (D.value desk.new))
            (Phase.linked (phase_of self.old))) }
        ensures may { IfOk result (λ end. end ≡ None → MayTurn (listening_of terms.now) terms.now.most (Phase.linked (phase_of self.new))) }
        ensures owes { IfOk result (λ end. end ≡ None
            → Owes terms.now.moment (Phase.linked (phase_of self.old)) (Phase.linked (phase_of self.new))) }
        ensures again { IfOk result (λ end. end ≡ Some SessionEnd.Again → ⊥) }
        ensures keeps { IfOk result (λ end. TurnKeeps terms.now.site.now (seat_at self.old.number terms.now.place self.old.client)
            terms.now.moment keeping.old keeping.new (not (is_some end)) (Phase.linked (phase_of self.old)) (Phase.linked (phase_of self.new))) }
        ensures same { self.new ≡ record self.old { linked = self.new.linked } }
        ensures whole { OnOk result (DeskValue.whole (D.value desk.new) ≡ true) }
        ensures log { WritesLog (D.value desk.old) (D.value desk.new) }
        ensures cause { HasCause (DeskValue.faults (D.value desk.old)) (DeskValue.faults (D.value desk.new)) (IsErr result) }
        ensures buffer { length buf.new ≡ MOST_BYTES }
    {
        match &mut self.linked {
            Some(linked) => linked.turn(terms, buf, self.number, links, desk),
            None => match reach(alloc, self.number, self.client, terms, keeping, links, desk)? {
                Reached::Waiting => Ok(None),
                Reached::Ended(end) => Ok(Some(end)),
                Reached::Begun(linked) => {
                    self.linked = Some(linked);
                    Ok(None)
                }
            },
        }
    }
}
