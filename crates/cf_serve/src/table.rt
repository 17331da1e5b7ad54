//! The sessions of a service that stand, and their turns in a round.
//! A round is data: its moment, the clients that came, and a turn for each session that stands.
ghost use Rattle.std.specs.Prelude.{◌≡◌, ◌<◌, ◌≤◌, ◌+◌, ◌-◌, false, ◌^◌, ◌++◌, ◌∷◌, ◌&&◌, ◌||◌, [], if◌then◌else◌, IfOk, IfSome, Err, IsErr, List, OnErr};
ghost use Rattle.std.specs.Prelude.{OnOk, Option, Some, length, map, option_map, slice_get, true, vec_capacity, vec_len, ℕ};
ghost use Rattle.cf_lane.specs.Caller.{RateMoments};
ghost use Rattle.cf_lane.specs.Handled.{WritesLog};
ghost use Rattle.cf_lane.specs.Log.{with_lines};
ghost use Rattle.cf_lane.specs.Rings.{AreRingsOf};
ghost use Rattle.cf_links.specs.Links.{LinksPlace};
ghost use Rattle.cf_outside.specs.Desk.{DeskValue};
ghost use Rattle.cf_outside.specs.Faults.{HasCause};
ghost use Rattle.cf_outside.specs.Pair.{Entry, FaultsBy};
ghost use Rattle.cf_policy.specs.Site.{IsSiteWithin};
ghost use Rattle.cf_relay.specs.declared.limit.TheConstants.{MOST_BYTES};
ghost use Rattle.cf_serve.specs.Lending.{KeptValue};
ghost use Rattle.cf_serve.specs.Phase.{BeginsWith, KeepsPlace, MayTurn, Phase, SeatDoes, StandsAs, TurnKeeps, debt_at, listening_at, listening_of};
ghost use Rattle.cf_serve.specs.Phase.{listenings, phase_of, rings_for, seat_at};
ghost use Rattle.cf_serve.specs.Failing.{MissesArrival, MissesLine, MissesRound, MissesRounds, MissesSeat, MissesStep, MissesTurns};
ghost use Rattle.cf_serve.specs.Served.{HasMade, left_of};
ghost use Rattle.cf_serve.specs.Door.{first_lobby};
ghost use Rattle.cf_serve.specs.Minute.{last_behind, lines_at, no_minutes, stands_lines, tally_at};
ghost use Rattle.cf_serve.specs.Rounds.{TurnOf, closing_of, count_of, has_place, has_rates, is_later, must_end};
ghost use Rattle.cf_serve.specs.declared.session.Served.{Served as ServedOf};
ghost use Rattle.cf_serve.specs.Table.{AreCalm, Arrive, IfWhole, IsMinuteOf, IsTable, Keeps, MayLeave, RoundDoes, RoundsDo, SeatsStep, StepDoes};
ghost use Rattle.cf_serve.specs.Table.{TurnsDo, new_phase};
ghost use Rattle.cf_serve.specs.Table.{seats_of};
ghost use Rattle.cf_serve.specs.declared.table.Place.{Place as PlaceOf};
ghost use Rattle.std.specs.List.{AllByRecursion, list_any};

use crate::door::{Closing, Lobby, names_client};
use crate::fault::ServeFault;
use crate::kept::Keeping;
use crate::lending::{has_rates, keep_rings};
use crate::minute::Minutes;
use crate::session::{Served, Terms};
use cf_audit::What;
use cf_driver::log_line;
use cf_links::{ArriveAnswer, Service};
use cf_outside::{Desk, MomentAnswer};
use cf_policy::Site;
use cf_relay::MOST_BYTES;
use cf_view::{Endpoint, WriteFault};
use std::alloc::{AllocError, Global};

/// How many sessions stand at most. This project's own choice.
const SESSION_LIMIT: usize = 256;

/// How many of them are of one listening place at most, so that the clients of one site keep no others out. This project's own
/// choice.
const PLACE_LIMIT: usize = 32;

/// A site that is served, all assets behind one address and port, and the address and the port of this machine at which its clients
/// come: there is one place for each site. Lines about the place have the name of the first asset.
#[derive(Drop)]
pub struct Place<'a> {
    pub site: Site<'a>,
    pub at: Endpoint,
}

/// A listening place by its number.
pub(crate) fn place_of<'p, 'a>(places: &'p [Place<'a>], number: usize) -> &'p Place<'a>
    requires number { number < length places.now }
    requires within { AllByRecursion (λ place. IsSiteWithin (PlaceOf.site place)) places.now }
    ensures is { slice_get places.now number ≡ Some result.now }
    ensures place { slice_get (listenings places.now) number ≡ Some (listening_at result.now) }
    ensures within { IsSiteWithin (PlaceOf.site result.now) }
{
    &places[number]
}

/// The place behind a session that had its turn, which those behind it move up to where it does not stay.
fn place_behind(index: usize, stays: bool) -> usize
    requires index { index < 2 ^ 64 - 1 }
    ensures { result ≡ index + (if stays then 1 else 0) }
{
    if stays { index + 1 } else { index }
}

/// Ends a session whose client came again. Any other has its turn where something can move for it and it need not rest. It is left where
/// it ends; answers whether it stays.
fn turn_one<L: Service, D: Desk>(
    served: &mut Served,
    alloc: Global,
    terms: &Terms<'_>,
    again: bool,
    buf: &mut [u8],
    keeping: &mut Keeping,
    links: &mut L,
    desk: &mut D,
) -> Result<bool, WriteFault>
    requires serves { LinksPlace.serves (L.place links.old) served.old.number ≡ true }
    requires within { IsSiteWithin terms.now.site.now }
    requires most { 0 < terms.now.most }
    requires may { MayTurn (listening_of terms.now) terms.now.most (Phase.linked (phase_of served.old)) }
    requires fits { IfSome (rings_for terms.now.site.now keeping.old terms.now.place served.old.client.address)
        (AreRingsOf terms.now.site.now) }
    requires whole { DeskValue.whole (D.value desk.old) ≡ true }
    requires buffer { length buf.old ≡ MOST_BYTES }
    ensures over { IfOk result (λ stays. again ≡ true → stays ≡ false) }
    ensures place { IfOk result (λ stays. KeepsPlace served.old.number (L.place links.old) (L.place links.new) stays) }
    ensures served { OnErr result (L.place links.new ≡ L.place links.old) }
    ensures round { LinksPlace.round_faults (L.place links.new) ≡ LinksPlace.round_faults (L.place links.old) }
    ensures does { IfOk result (λ stays. (before found : RateMoments) (es : List Entry) (own : List (List ℕ))
        → BeginsWith (rings_for terms.now.site.now keeping.old terms.now.place served.old.client.address) before
        (Phase.linked (phase_of served.old)) (Phase.linked (phase_of served.new))
        → StandsAs (listening_of terms.now) before terms.now.most es own (Phase.linked (phase_of served.old))
        → SeatDoes (listening_of terms.now) again before found terms.now.most terms.now.moment es own (L.told links.old) (L.told links.new)
        (DeskValue.lines (D.value desk.old)) (DeskValue.lines (D.value desk.new)) (phase_of served.old) (phase_of served.new) stays) }
    ensures breaks { OnErr result ((before : RateMoments) (es : List Entry) (own : List (List ℕ))
        → StandsAs (listening_of terms.now) before terms.now.most es own (Phase.linked (phase_of served.old))
        → MissesSeat (listening_of terms.now) again before terms.now.most terms.now.moment es own (L.told links.old) (L.told links.new)
        (DeskValue.lines (D.value desk.old)) (DeskValue.lines (D.value desk.new)) (DeskValue.line_part (D.value desk.new))
        (Phase.seat (phase_of served.old)) (debt_at (Phase.linked (phase_of served.old))) (Phase.linked (phase_of served.old))) }
    ensures keeps { IfOk result (λ stays. TurnKeeps terms.now.site.now (seat_at served.old.number terms.now.place served.old.client)
        terms.now.moment keeping.old keeping.new stays (Phase.linked (phase_of served.old)) (Phase.linked (phase_of served.new))) }
    ensures may { IfOk result (λ stays. stays ≡ true
        → MayTurn (listening_of terms.now) terms.now.most (Phase.linked (phase_of served.new))) }
    ensures same { served.new ≡ record served.old { linked = served.new.linked } }
    ensures whole { OnOk result (DeskValue.whole (D.value desk.new) ≡ true) }
    ensures log { WritesLog (D.value desk.old) (D.value desk.new) }
    ensures cause { HasCause (DeskValue.faults (D.value desk.old)) (DeskValue.faults (D.value desk.new)) (IsErr result) }
    ensures buffer { length buf.new ≡ MOST_BYTES }
{
    let number = served.number;
    if again {
        served.end_again(terms, desk)?;
        links.leave(number);
        return Ok(false);
    }
    if served.must_rest(terms.moment) {
        links.rest(number);
        return Ok(true);
    }
    if !links.is_ready(number) {
        return Ok(true);
    }
    match served.turn(alloc, terms, buf, keeping, links, desk)? {
        None => Ok(true),
        Some(_) => {
            links.leave(number);
            Ok(false)
        }
    }
}

/// The sessions that stand, in the order in which they came, what is kept of all clients that came, what is kept of the clients of sites
/// with rates between their sessions, and what is kept for the lines of a minute.
#[derive(Drop)]
pub(crate) struct Table {
    pub(crate) sessions: Vec<Served>,
    pub(crate) lobby: Lobby,
    pub(crate) keeping: Keeping,
    /// Whether a client of a site with rates was taken since the last turns.
    pub(crate) has_new: bool,
    pub(crate) minutes: Minutes,
}

impl Table {
    /// No sessions, and room for all that may stand.
    pub(crate) fn new(alloc: Global) -> Result<Table, AllocError>
        ensures none { IfOk result (λ table. (Table.sessions table).items ≡ []) }
        ensures lobby { IfOk result (λ table. Table.lobby table ≡ first_lobby) }
        ensures keeping { IfOk result (λ table. Table.keeping table ≡ []) }
        ensures minutes { IfOk result (λ table. Table.minutes table ≡ no_minutes) }
        ensures room { IfOk result (λ table. 256 ≤ vec_capacity (Table.sessions table)) }
    {
        let sessions = Vec::with_capacity(alloc, SESSION_LIMIT)?;
        let keeping = Keeping::new(alloc)?;
        Ok(Table {
            sessions,
            lobby: Lobby::new(),
            keeping,
            has_new: false,
            minutes: Minutes::new(),
        })
    }

    /// Leaves every session.
    pub(crate) fn leave_all<L: Service>(&self, links: &mut L)
        requires leave { MayLeave (LinksPlace.serves (L.place links.old)) self.now.lobby.next (map phase_of self.now.sessions.items) }
        ensures told { L.told links.new
            ≡ option_map (λ es. es ++ left_of (seats_of (map phase_of self.now.sessions.items))) (L.told links.old) }
        ensures round { LinksPlace.round_faults (L.place links.new) ≡ LinksPlace.round_faults (L.place links.old) }
    {
        for served in self.sessions.iter() {
            links.leave(served.number);
        }
    }

    /// Whether of those that stand one of this client came later than this number.
    fn has_later(&self, place: usize, client: Endpoint, number: u64) -> bool
        ensures { result ≡ list_any (λ (s : ServedOf). is_later (seat_at number place client) (Phase.seat (phase_of s))) self.now.sessions.items }
    {
        self.sessions
            .iter()
            .any(|other| other.is_later(place, client, number))
    }

    /// Whether the client of a session came again, where a client of a site with rates was taken since the last turns.
    fn came_again(&self, served: &Served, site: &Site<'_>) -> bool
        ensures { result ≡ ((self.now.has_new && has_rates site.now)
            && list_any (λ (s : ServedOf). is_later (Phase.seat (phase_of served.now)) (Phase.seat (phase_of s))) self.now.sessions.items) }
    {
        self.has_new
            && has_rates(site)
            && self.has_later(served.place, served.client, served.number)
    }

    /// Whether the client of the session of a place came again, and its site has rates.
    fn must_end(&self, index: usize, places: &[Place<'_>]) -> bool
        requires index { index < length self.now.sessions.items }
        requires placed { AllByRecursion (λ (p : Phase). p.seat.place < length (listenings places.now)) (map phase_of self.now.sessions.items) }
        requires within { AllByRecursion (λ place. IsSiteWithin (PlaceOf.site place)) places.now }
        requires calm { self.now.has_new ≡ false → AreCalm (listenings places.now) (seats_of (map phase_of self.now.sessions.items)) }
        ensures { (served : ServedOf) → slice_get self.now.sessions.items index ≡ Some served
            → result ≡ must_end (listenings places.now) (seats_of (map phase_of self.now.sessions.items)) (Phase.seat (phase_of served)) }
    {
        let served = &self.sessions[index];
        let place = place_of(places, served.place);
        self.came_again(served, &place.site)
    }

    /// Gives the session of a place its turn; it is taken out where it ends. Answers whether it stays.
    pub(crate) fn turn_at<L: Service, D: Desk>(
        &mut self,
        alloc: Global,
        index: usize,
        again: bool,
        places: &[Place<'_>],
        moment: u64,
        most: u64,
        buf: &mut [u8],
        links: &mut L,
        desk: &mut D,
    ) -> Result<bool, WriteFault>
        requires index { index < length self.old.sessions.items }
        requires few { length places.now ≤ 256 }
        requires table { IsTable (listenings places.now) most self.old.keeping (LinksPlace.serves (L.place links.old)) self.old.lobby.next
            (map phase_of self.old.sessions.items) }
        requires again { (served : ServedOf) → slice_get self.old.sessions.items index ≡ Some served
            → again ≡ must_end (listenings places.now) (seats_of (map phase_of self.old.sessions.items)) (Phase.seat (phase_of served)) }
        requires within { AllByRecursion (λ place. IsSiteWithin (PlaceOf.site place)) places.now }
        requires most { 0 < most }
        requires whole { DeskValue.whole (D.value desk.old) ≡ true }
        requires buffer { length buf.old ≡ MOST_BYTES }
        ensures table { OnOk result (IsTable (listenings places.now) most self.new.keeping (LinksPlace.serves (L.place links.new)) self.new.lobby.next
            (map phase_of self.new.sessions.items)) }
        ensures does { IfOk result (λ stays. (past : List TurnOf)
            → Keeps (listenings places.now) most self.old.keeping self.old.lobby.next past (map phase_of self.old.sessions.items)
            → StepDoes (listenings places.now) most self.new.keeping self.old.lobby.next moment past index (L.told links.old) (L.told links.new)
            (DeskValue.lines (D.value desk.old)) (DeskValue.lines (D.value desk.new)) self.old.minutes.tallies self.new.minutes.tallies
            (map phase_of self.old.sessions.items) (map phase_of self.new.sessions.items) stays) }
        ensures breaks { OnErr result ((past : List TurnOf)
            → Keeps (listenings places.now) most self.old.keeping self.old.lobby.next past (map phase_of self.old.sessions.items)
            → MissesStep (listenings places.now) most moment past index (L.told links.old) (L.told links.new)
            (DeskValue.lines (D.value desk.old)) (DeskValue.lines (D.value desk.new)) (DeskValue.line_part (D.value desk.new))
            (map phase_of self.old.sessions.items) (map phase_of self.new.sessions.items)) }
        ensures room { vec_capacity self.new.sessions ≡ vec_capacity self.old.sessions }
        ensures len { IfOk result (λ stays. vec_len self.new.sessions + (if stays then 0 else 1) ≡ vec_len self.old.sessions) }
        ensures leave { OnErr result (MayLeave (LinksPlace.serves (L.place links.new)) self.new.lobby.next
            (map phase_of self.new.sessions.items)) }
        ensures seats { IfOk result (λ stays. SeatsStep (listenings places.now) index (seats_of (map phase_of self.old.sessions.items))
            (seats_of (map phase_of self.new.sessions.items)) stays) }
        ensures has_new { self.new.has_new ≡ self.old.has_new }
        ensures lobby { self.new.lobby ≡ self.old.lobby }
        ensures last { self.new.minutes.last ≡ self.old.minutes.last }
        ensures round { LinksPlace.round_faults (L.place links.new) ≡ LinksPlace.round_faults (L.place links.old) }
        ensures whole { OnOk result (DeskValue.whole (D.value desk.new) ≡ true) }
        ensures log { WritesLog (D.value desk.old) (D.value desk.new) }
        ensures cause { HasCause (DeskValue.faults (D.value desk.old)) (DeskValue.faults (D.value desk.new)) (IsErr result) }
        ensures buffer { length buf.new ≡ MOST_BYTES }
    {
        let served = &mut self.sessions[index];
        let number = served.place;
        let place = place_of(places, number);
        let terms = Terms {
            site: &place.site,
            place: number,
            port: place.at.port,
            moment,
            most,
        };
        let keeping = &mut self.keeping;
        let before = served.counts();
        let stays = turn_one(served, alloc, &terms, again, buf, keeping, links, desk)?;
        let after = served.counts();
        self.minutes.add(number, before, after);
        if !stays {
            let served = self.sessions.remove(index);
            keep_rings(served, &place.site, moment, &mut self.keeping);
        }
        Ok(stays)
    }

    /// The place of the first session, from this one on, whose number is this one or a later one; how many stand where there is none.
    fn place_from(&self, index: usize, number: u64) -> usize
        requires index { index ≤ vec_len self.now.sessions }
        ensures index { index ≤ result }
        ensures within { result ≤ vec_len self.now.sessions }
    {
        let (mut low, mut high) = (index, self.sessions.len());
        while low < high {
            let middle = low + (high - low) / 2;
            if self.sessions[middle].number < number {
                low = middle + 1;
            } else {
                high = middle;
            }
        }
        low
    }

    /// The place of the next session, from this one on, for which the links say that something can move; how many stand where there is
    /// none. Where a client of a site with rates was taken, none is passed over.
    fn next_at<L: Service>(&self, index: usize, links: &mut L) -> usize
        requires index { index ≤ vec_len self.now.sessions }
        ensures index { index ≤ result }
        ensures within { result ≤ vec_len self.now.sessions }
        ensures all { self.now.has_new ≡ true → result ≡ index }
        ensures told { L.told links.new ≡ L.told links.old }
        ensures place { L.place links.new ≡ L.place links.old }
    {
        if self.has_new {
            return index;
        }
        match self.sessions.get(index) {
            Some(served) => match links.next_ready(served.number) {
                Some(number) => self.place_from(index, number),
                None => self.sessions.len(),
            },
            None => index,
        }
    }

    /// Gives each session its turn that the links say is ready, in the order in which they came; those that end are taken out.
    pub(crate) fn turns<L: Service, D: Desk>(
        &mut self,
        alloc: Global,
        places: &[Place<'_>],
        moment: u64,
        most: u64,
        links: &mut L,
        desk: &mut D,
    ) -> Result<(), WriteFault>
        requires table { IsTable (listenings places.now) most self.old.keeping (LinksPlace.serves (L.place links.old)) self.old.lobby.next
            (map phase_of self.old.sessions.items) }
        requires few { length places.now ≤ 256 }
        requires calm { self.old.has_new ≡ false → AreCalm (listenings places.now) (seats_of (map phase_of self.old.sessions.items)) }
        requires within { AllByRecursion (λ place. IsSiteWithin (PlaceOf.site place)) places.now }
        requires most { 0 < most }
        requires whole { DeskValue.whole (D.value desk.old) ≡ true }
        ensures table { OnOk result (IsTable (listenings places.now) most self.new.keeping (LinksPlace.serves (L.place links.new)) self.new.lobby.next
            (map phase_of self.new.sessions.items)) }
        ensures does { OnOk result ((past : List TurnOf)
            → Keeps (listenings places.now) most self.old.keeping self.old.lobby.next past (map phase_of self.old.sessions.items)
            → TurnsDo (listenings places.now) most self.new.keeping self.old.lobby.next moment past (L.told links.old) (L.told links.new)
            (DeskValue.lines (D.value desk.old)) (DeskValue.lines (D.value desk.new)) self.old.minutes.tallies self.new.minutes.tallies
            (map phase_of self.old.sessions.items) (map phase_of self.new.sessions.items)) }
        ensures breaks { OnErr result ((past : List TurnOf)
            → Keeps (listenings places.now) most self.old.keeping self.old.lobby.next past (map phase_of self.old.sessions.items)
            → MissesTurns (listenings places.now) most moment past (L.told links.old) (L.told links.new)
            (DeskValue.lines (D.value desk.old)) (DeskValue.lines (D.value desk.new)) (DeskValue.line_part (D.value desk.new))
            (map phase_of self.old.sessions.items) (map phase_of self.new.sessions.items)) }
        ensures leave { OnErr result (MayLeave (LinksPlace.serves (L.place links.new)) self.new.lobby.next
            (map phase_of self.new.sessions.items)) }
        ensures calm { OnOk result (AreCalm (listenings places.now) (seats_of (map phase_of self.new.sessions.items))) }
        ensures lobby { self.new.lobby ≡ self.old.lobby }
        ensures last { self.new.minutes.last ≡ self.old.minutes.last }
        ensures round { LinksPlace.round_faults (L.place links.new) ≡ LinksPlace.round_faults (L.place links.old) }
        ensures room { vec_capacity self.new.sessions ≡ vec_capacity self.old.sessions }
        ensures whole { OnOk result (DeskValue.whole (D.value desk.new) ≡ true) }
        ensures log { WritesLog (D.value desk.old) (D.value desk.new) }
        ensures cause { HasCause (DeskValue.faults (D.value desk.old)) (DeskValue.faults (D.value desk.new)) (IsErr result) }
    {
        let mut buf = [0u8; MOST_BYTES];
        let mut index = self.next_at(0, links);
        while index < self.sessions.len() {
            let again = self.must_end(index, places);
            let stays = self.turn_at(
                alloc, index, again, places, moment, most, &mut buf, links, desk,
            )?;
            index = self.next_at(place_behind(index, stays), links);
        }
        self.has_new = false;
        Ok(())
    }

    /// How many sessions of a listening place stand.
    fn count_at(&self, place: usize) -> usize
        ensures { result ≡ count_of place (seats_of (map phase_of self.now.sessions.items)) }
    {
        let mut count = 0;
        for served in self.sessions.iter() {
            if served.place == place {
                count += 1;
            }
        }
        count
    }

    /// Whether there is a place for one more client of a listening place.
    fn has_place(&self, place: usize) -> bool
        ensures { result ≡ has_place (seats_of (map phase_of self.now.sessions.items)) place }
    {
        self.sessions.len() < SESSION_LIMIT && self.count_at(place) < PLACE_LIMIT
    }

    /// Why a client of this address is closed as it comes to a listening place of the site, if it is.
    fn closing(&self, site: &Site<'_>, place: usize, address: u32) -> Option<Closing>
        ensures { result ≡ closing_of site.now (seats_of (map phase_of self.now.sessions.items)) place address }
    {
        if !names_client(site, address) {
            Some(Closing::Stranger)
        } else if self.has_place(place) {
            None
        } else {
            Some(Closing::Away)
        }
    }

    /// Takes a client at one place, where one came; one that no rule of an asset of the site names, or for which there is no place, is closed.
    fn arrive<L: Service, D: Desk>(
        &mut self,
        place: usize,
        places: &[Place<'_>],
        moment: u64,
        links: &mut L,
        desk: &mut D,
    ) -> Result<(), WriteFault>
        requires place { place < length places.now }
        requires few { length places.now ≤ 256 }
        requires room { 256 ≤ vec_capacity self.old.sessions }
        requires free { (session : ℕ) → self.old.lobby.next ≤ session → LinksPlace.serves (L.place links.old) session ≡ false }
        requires within { AllByRecursion (λ place. IsSiteWithin (PlaceOf.site place)) places.now }
        requires whole { DeskValue.whole (D.value desk.old) ≡ true }
        ensures table { (most : ℕ) → IsTable (listenings places.now) most self.old.keeping (LinksPlace.serves (L.place links.old)) self.old.lobby.next
            (map phase_of self.old.sessions.items) → IsTable (listenings places.now) most self.new.keeping (LinksPlace.serves (L.place links.new))
            self.new.lobby.next (map phase_of self.new.sessions.items) }
        ensures free { (session : ℕ) → self.new.lobby.next ≤ session → LinksPlace.serves (L.place links.new) session ≡ false }
        ensures round { LinksPlace.round_faults (L.place links.new) ≡ LinksPlace.round_faults (L.place links.old) }
        ensures does { OnOk result ((most : ℕ) → Arrive (listenings places.now) most moment place (place + 1) self.old.lobby self.new.lobby
            (L.told links.old) (L.told links.new) (DeskValue.lines (D.value desk.old)) (DeskValue.lines (D.value desk.new))
            (map phase_of self.old.sessions.items) (map phase_of self.new.sessions.items)) }
        ensures breaks { OnErr result ((most : ℕ) → MissesArrival (listenings places.now) most moment place self.old.lobby self.new.lobby
            (L.told links.old) (L.told links.new) (DeskValue.lines (D.value desk.old)) (DeskValue.lines (D.value desk.new))
            (DeskValue.line_part (D.value desk.new)) (map phase_of self.old.sessions.items) (map phase_of self.new.sessions.items)) }
        ensures calm { (self.old.has_new ≡ false → AreCalm (listenings places.now) (seats_of (map phase_of self.old.sessions.items)))
            → self.new.has_new ≡ false → AreCalm (listenings places.now) (seats_of (map phase_of self.new.sessions.items)) }
        ensures keeping { self.new.keeping ≡ self.old.keeping }
        ensures minutes { self.new.minutes ≡ self.old.minutes }
        ensures room { vec_capacity self.old.sessions ≤ vec_capacity self.new.sessions }
        ensures whole { OnOk result (DeskValue.whole (D.value desk.new) ≡ true) }
        ensures log { WritesLog (D.value desk.old) (D.value desk.new) }
        ensures cause { HasCause (DeskValue.faults (D.value desk.old)) (DeskValue.faults (D.value desk.new)) (IsErr result) }
    {
        if self.lobby.next == u64::MAX {
            return Ok(());
        }
        let client = match links.arrive(place as u32, self.lobby.next) {
            ArriveAnswer::Came(client) => client,
            ArriveAnswer::Nobody => return Ok(()),
        };
        let at = place_of(places, place);
        let Some(closing) = self.closing(&at.site, place, client.address) else {
            self.take_in(place, client, &at.site);
            return Ok(());
        };
        links.leave(self.lobby.next);
        match self.lobby.close(closing, place, moment, client.address) {
            Some(came) => log_line(&at.site, client, moment, closing.line(came), desk),
            None => Ok(()),
        }
    }

    /// A client has its place in the table, under the next number.
    fn take_in(&mut self, place: usize, client: Endpoint, site: &Site<'_>)
        requires room { vec_len self.old.sessions < vec_capacity self.old.sessions }
        requires next { self.old.lobby.next < 2 ^ 64 - 1 }
        ensures items { map phase_of self.new.sessions.items ≡ map phase_of self.old.sessions.items
            ++ new_phase self.old.lobby.next place client ∷ [] }
        ensures lobby { self.new.lobby ≡ record self.old.lobby { next = self.old.lobby.next + 1 } }
        ensures keeping { self.new.keeping ≡ self.old.keeping }
        ensures has_new { self.new.has_new ≡ (self.old.has_new || has_rates site.now) }
        ensures minutes { self.new.minutes ≡ self.old.minutes }
        ensures room { vec_capacity self.old.sessions ≤ vec_capacity self.new.sessions }
    {
        let served = Served {
            number: self.lobby.next,
            place,
            client,
            linked: None,
        };
        let _ = self.sessions.push(served);
        self.lobby.next += 1;
        self.has_new = self.has_new || has_rates(site);
    }

    /// Takes a client at each listening place that has one, or closes it.
    fn arrivals<L: Service, D: Desk>(
        &mut self,
        places: &[Place<'_>],
        moment: u64,
        links: &mut L,
        desk: &mut D,
    ) -> Result<(), WriteFault>
        requires few { length places.now ≤ 256 }
        requires room { 256 ≤ vec_capacity self.old.sessions }
        requires free { (session : ℕ) → self.old.lobby.next ≤ session → LinksPlace.serves (L.place links.old) session ≡ false }
        requires within { AllByRecursion (λ place. IsSiteWithin (PlaceOf.site place)) places.now }
        requires whole { DeskValue.whole (D.value desk.old) ≡ true }
        ensures table { (most : ℕ) → IsTable (listenings places.now) most self.old.keeping (LinksPlace.serves (L.place links.old)) self.old.lobby.next
            (map phase_of self.old.sessions.items) → IsTable (listenings places.now) most self.new.keeping (LinksPlace.serves (L.place links.new))
            self.new.lobby.next (map phase_of self.new.sessions.items) }
        ensures round { LinksPlace.round_faults (L.place links.new) ≡ LinksPlace.round_faults (L.place links.old) }
        ensures does { OnOk result ((most : ℕ) → Arrive (listenings places.now) most moment 0 (length places.now) self.old.lobby
            self.new.lobby (L.told links.old) (L.told links.new) (DeskValue.lines (D.value desk.old)) (DeskValue.lines (D.value desk.new))
            (map phase_of self.old.sessions.items) (map phase_of self.new.sessions.items)) }
        ensures breaks { OnErr result ((most : ℕ) → MissesArrival (listenings places.now) most moment 0 self.old.lobby self.new.lobby
            (L.told links.old) (L.told links.new) (DeskValue.lines (D.value desk.old)) (DeskValue.lines (D.value desk.new))
            (DeskValue.line_part (D.value desk.new)) (map phase_of self.old.sessions.items) (map phase_of self.new.sessions.items)) }
        ensures calm { (self.old.has_new ≡ false → AreCalm (listenings places.now) (seats_of (map phase_of self.old.sessions.items)))
            → self.new.has_new ≡ false → AreCalm (listenings places.now) (seats_of (map phase_of self.new.sessions.items)) }
        ensures keeping { self.new.keeping ≡ self.old.keeping }
        ensures minutes { self.new.minutes ≡ self.old.minutes }
        ensures room { vec_capacity self.old.sessions ≤ vec_capacity self.new.sessions }
        ensures whole { OnOk result (DeskValue.whole (D.value desk.new) ≡ true) }
        ensures log { WritesLog (D.value desk.old) (D.value desk.new) }
        ensures cause { HasCause (DeskValue.faults (D.value desk.old)) (DeskValue.faults (D.value desk.new)) (IsErr result) }
    {
        for place in 0..places.len() {
            self.arrive(place, places, moment, links, desk)?;
        }
        Ok(())
    }

    /// Puts the line of each listening place: how many of its sessions stand, and how many of its commands were admitted and refused.
    fn put_stands<D: Desk>(
        &self,
        places: &[Place<'_>],
        moment: u64,
        desk: &mut D,
    ) -> Result<(), WriteFault>
        requires few { length places.now ≤ 256 }
        requires within { AllByRecursion (λ place. IsSiteWithin (PlaceOf.site place)) places.now }
        requires whole { DeskValue.whole (D.value desk.old) ≡ true }
        ensures lines { OnOk result (DeskValue.lines (D.value desk.new) ≡ with_lines (DeskValue.lines (D.value desk.old))
            (stands_lines places.now 0 (seats_of (map phase_of self.now.sessions.items)) (tally_at self.now.minutes.tallies) moment)) }
        ensures breaks { OnErr result (MissesLine
            (stands_lines places.now 0 (seats_of (map phase_of self.now.sessions.items)) (tally_at self.now.minutes.tallies) moment)
            (DeskValue.lines (D.value desk.old)) (DeskValue.lines (D.value desk.new)) (DeskValue.line_part (D.value desk.new))) }
        ensures whole { OnOk result (DeskValue.whole (D.value desk.new) ≡ true) }
        ensures log { WritesLog (D.value desk.old) (D.value desk.new) }
        ensures cause { HasCause (DeskValue.faults (D.value desk.old)) (DeskValue.faults (D.value desk.new)) (IsErr result) }
    {
        for number in 0..places.len() {
            let place = place_of(places, number);
            let tally = self.minutes.tally_at(number);
            let what = What::Stands {
                standing: self.count_at(number) as u64,
                admitted: tally.admitted,
                refused: tally.refused,
            };
            log_line(&place.site, place.at, moment, what, desk)?;
        }
        Ok(())
    }

    /// Puts those lines where a minute is over behind a round at a moment.
    fn end_round<D: Desk>(
        &mut self,
        places: &[Place<'_>],
        moment: u64,
        desk: &mut D,
    ) -> Result<(), WriteFault>
        requires few { length places.now ≤ 256 }
        requires within { AllByRecursion (λ place. IsSiteWithin (PlaceOf.site place)) places.now }
        requires whole { DeskValue.whole (D.value desk.old) ≡ true }
        ensures lines { OnOk result (DeskValue.lines (D.value desk.new) ≡ with_lines (DeskValue.lines (D.value desk.old))
            (lines_at places.now self.old.minutes.last (seats_of (map phase_of self.old.sessions.items))
            (tally_at self.old.minutes.tallies) moment)) }
        ensures breaks { OnErr result (MissesLine
            (lines_at places.now self.old.minutes.last (seats_of (map phase_of self.old.sessions.items))
            (tally_at self.old.minutes.tallies) moment)
            (DeskValue.lines (D.value desk.old)) (DeskValue.lines (D.value desk.new)) (DeskValue.line_part (D.value desk.new))) }
        ensures same { self.new ≡ record self.old {
          minutes = record self.old.minutes {
            last = last_behind self.old.minutes.last moment;
          };
        } }
        ensures whole { OnOk result (DeskValue.whole (D.value desk.new) ≡ true) }
        ensures log { WritesLog (D.value desk.old) (D.value desk.new) }
        ensures cause { HasCause (DeskValue.faults (D.value desk.old)) (DeskValue.faults (D.value desk.new)) (IsErr result) }
    {
        if self.minutes.note(moment) {
            self.put_stands(places, moment, desk)
        } else {
            Ok(())
        }
    }

    /// One round: a client at most is taken or closed at each place, then each session has its turn, and where a minute is over each
    /// place has its line.
    pub(crate) fn round<L: Service, D: Desk>(
        &mut self,
        alloc: Global,
        places: &[Place<'_>],
        most: u64,
        links: &mut L,
        desk: &mut D,
    ) -> Result<(), ServeFault>
        requires few { length places.now ≤ 256 }
        requires room { 256 ≤ vec_capacity self.old.sessions }
        requires table { IsTable (listenings places.now) most self.old.keeping (LinksPlace.serves (L.place links.old)) self.old.lobby.next
            (map phase_of self.old.sessions.items) }
        requires calm { self.old.has_new ≡ false → AreCalm (listenings places.now) (seats_of (map phase_of self.old.sessions.items)) }
        requires within { AllByRecursion (λ place. IsSiteWithin (PlaceOf.site place)) places.now }
        requires most { 0 < most }
        requires whole { DeskValue.whole (D.value desk.old) ≡ true }
        ensures table { OnOk result (IsTable (listenings places.now) most self.new.keeping (LinksPlace.serves (L.place links.new)) self.new.lobby.next
            (map phase_of self.new.sessions.items)) }
        ensures does { OnOk result ((past : List TurnOf)
            → Keeps (listenings places.now) most self.old.keeping self.old.lobby.next past (map phase_of self.old.sessions.items)
            → (last : Option ℕ) → IsMinuteOf self.old.minutes last past
            → RoundDoes places.now most self.new.keeping self.old.lobby self.new.lobby self.new.minutes last past (L.told links.old) (L.told links.new)
            (DeskValue.lines (D.value desk.old)) (DeskValue.lines (D.value desk.new))
            (map phase_of self.old.sessions.items) (map phase_of self.new.sessions.items)) }
        ensures breaks { result ≡ Err ServeFault.Write → (past : List TurnOf)
            → Keeps (listenings places.now) most self.old.keeping self.old.lobby.next past (map phase_of self.old.sessions.items)
            → (last : Option ℕ) → IsMinuteOf self.old.minutes last past
            → MissesRound places.now most self.old.lobby last past (L.told links.old) (L.told links.new)
            (DeskValue.lines (D.value desk.old)) (DeskValue.lines (D.value desk.new)) (DeskValue.line_part (D.value desk.new))
            (map phase_of self.old.sessions.items) (map phase_of self.new.sessions.items) }
        ensures leave { OnErr result (MayLeave (LinksPlace.serves (L.place links.new)) self.new.lobby.next
            (map phase_of self.new.sessions.items)) }
        ensures calm { OnOk result (AreCalm (listenings places.now) (seats_of (map phase_of self.new.sessions.items))) }
        ensures room { vec_capacity self.old.sessions ≤ vec_capacity self.new.sessions }
        ensures whole { OnOk result (DeskValue.whole (D.value desk.new) ≡ true) }
        ensures log { WritesLog (D.value desk.old) (D.value desk.new) }
        ensures write { HasCause (DeskValue.faults (D.value desk.old)) (DeskValue.faults (D.value desk.new))
            (result ≡ Err ServeFault.Write) }
        ensures loops { FaultsBy (LinksPlace.round_faults (L.place links.old)) (LinksPlace.round_faults (L.place links.new))
            (result ≡ Err ServeFault.Loop) }
        ensures still { result ≡ Err ServeFault.Loop → (self.new ≡ self.old) × (L.told links.new ≡ L.told links.old)
            × (D.value desk.new ≡ D.value desk.old)
            × (LinksPlace.serves (L.place links.new) ≡ LinksPlace.serves (L.place links.old)) }
        ensures memory { result ≡ Err ServeFault.NoMemory → ⊥ }
    {
        let moment = match links.wait() {
            MomentAnswer::Told(moment) => moment,
            MomentAnswer::Failed => return Err(ServeFault::Loop),
        };
        match self.arrivals(places, moment, links, desk) {
            Ok(()) => {}
            Err(_) => return Err(ServeFault::Write),
        }
        match self.turns(alloc, places, moment, most, links, desk) {
            Ok(()) => {}
            Err(_) => return Err(ServeFault::Write),
        }
        match self.end_round(places, moment, desk) {
            Ok(()) => Ok(()),
            Err(_) => Err(ServeFault::Write),
        }
    }

    /// Round after round, until a line fails or the wait does.
    pub(crate) fn rounds<L: Service, D: Desk>(
        &mut self,
        alloc: Global,
        places: &[Place<'_>],
        most: u64,
        links: &mut L,
        desk: &mut D,
    ) -> Result<(), ServeFault>
        requires few { length places.now ≤ 256 }
        requires room { 256 ≤ vec_capacity self.old.sessions }
        requires table { IsTable (listenings places.now) most self.old.keeping (LinksPlace.serves (L.place links.old)) self.old.lobby.next
            (map phase_of self.old.sessions.items) }
        requires calm { self.old.has_new ≡ false → AreCalm (listenings places.now) (seats_of (map phase_of self.old.sessions.items)) }
        requires within { AllByRecursion (λ place. IsSiteWithin (PlaceOf.site place)) places.now }
        requires most { 0 < most }
        requires whole { DeskValue.whole (D.value desk.old) ≡ true }
        ensures table { IfWhole result (IsTable (listenings places.now) most self.new.keeping (LinksPlace.serves (L.place links.new)) self.new.lobby.next
            (map phase_of self.new.sessions.items)) }
        ensures does { IfWhole result ((made : ℕ) × (HasMade result made × ((past : List TurnOf)
            → Keeps (listenings places.now) most self.old.keeping self.old.lobby.next past (map phase_of self.old.sessions.items)
            → (last : Option ℕ) → IsMinuteOf self.old.minutes last past
            → RoundsDo places.now most self.new.keeping self.old.lobby self.new.lobby self.new.minutes last made past (L.told links.old) (L.told links.new)
            (DeskValue.lines (D.value desk.old)) (DeskValue.lines (D.value desk.new))
            (map phase_of self.old.sessions.items) (map phase_of self.new.sessions.items)))) }
        ensures breaks { result ≡ Err ServeFault.Write → (made : ℕ) × ((made < 2 ^ 64 - 1) × ((past : List TurnOf)
            → Keeps (listenings places.now) most self.old.keeping self.old.lobby.next past (map phase_of self.old.sessions.items)
            → (last : Option ℕ) → IsMinuteOf self.old.minutes last past
            → MissesRounds places.now most self.old.lobby last made past (L.told links.old) (L.told links.new)
            (DeskValue.lines (D.value desk.old)) (DeskValue.lines (D.value desk.new)) (DeskValue.line_part (D.value desk.new))
            (map phase_of self.old.sessions.items) (map phase_of self.new.sessions.items))) }
        ensures leave { MayLeave (LinksPlace.serves (L.place links.new)) self.new.lobby.next (map phase_of self.new.sessions.items) }
        ensures log { WritesLog (D.value desk.old) (D.value desk.new) }
        ensures write { HasCause (DeskValue.faults (D.value desk.old)) (DeskValue.faults (D.value desk.new))
            (result ≡ Err ServeFault.Write) }
        ensures loops { FaultsBy (LinksPlace.round_faults (L.place links.old)) (LinksPlace.round_faults (L.place links.new))
            (result ≡ Err ServeFault.Loop) }
        ensures memory { result ≡ Err ServeFault.NoMemory → ⊥ }
    {
        // The fact: as many rounds were made as this says.
        for _made in 0..u64::MAX {
            match self.round(alloc, places, most, links, desk) {
                Ok(()) => {}
                Err(fault) => return Err(fault),
            }
        }
        Ok(())
    }
}
