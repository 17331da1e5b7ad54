//! Links in memory, whose clients and answers are scripted.
ghost use Rattle.std.specs.Prelude.{◌≡◌, ◌==◌, ◌≤◌, ◌++◌, ◌∷◌, ℕ, [], false, None, IfOk, IfSome, IsSome, OnErr, OnOk, Some, true, vec_capacity};
ghost use Rattle.std.specs.Prelude.{vec_len};
ghost use Rattle.cf_outside.specs.Faults.{counted};
ghost use Rattle.cf_links.specs.MemoryLinks.{HasRoom, entries_told, has_room, lacks_after, open_count, serves_in, stands_at};

use crate::links::{Links, ReachAnswer};
use crate::service::{ArriveAnswer, Service};
use cf_outside::{
    GiveAnswer, MeetAnswer, Meeting, MemoryPair, MomentAnswer, Pair, TakeAnswer, Told, WriteAnswer,
};
use cf_view::{Endpoint, Side};
use std::alloc::{AllocError, Global};

/// A client that comes to a listening place, with its controller: a pair, which has what both send and its own script.
#[derive(Drop)]
pub struct MemoryClient {
    /// The number of the listening place.
    pub place: u32,
    /// How often `meet` still answers `Waiting`.
    pub waits: u64,
    /// Whether `meet` answers `Gone` then, as of a client that does not wait for its controller.
    pub gone: bool,
    /// How often it is still ready before it rests.
    pub wakes: u64,
    /// How often `next_ready` passes it over then; behind that it is ready again.
    pub rests: u64,
    pub pair: MemoryPair,
}

impl MemoryClient {
    /// A client of a listening place, whose controller is reached at once, and which never rests.
    pub fn new(place: u32, pair: MemoryPair) -> Self
        ensures { result ≡ record { place = place; waits = 0; gone = false; wakes = 0; rests = 0; pair = pair } }
    {
        MemoryClient {
            place,
            waits: 0,
            gone: false,
            wakes: 0,
            rests: 0,
            pair,
        }
    }

    /// Whether it rests in this round, which uses a rest of the script up.
    fn rests_now(&mut self) -> bool {
        if self.wakes == 0 && self.rests > 0 {
            self.rests -= 1;
            return true;
        }
        false
    }
}

/// One answer of links, as an object in memory keeps it.
#[derive(Drop)]
pub enum LinksTold {
    Opened(u32, u64),
    Woke(u64),
    Came(u64, u32, Endpoint),
    Ready(u64),
    Of(u64, Told),
    Left(u64),
}

/// Links in memory, whose answers are scripted. The clients come in their order: `arrive` answers the next one alone, where it is
/// asked for at that client's place and under its number, which counts from 0; one that is not taken keeps those behind it out. A
/// session answers what its pair answers (`MemoryPair`), once `meet` has said `waits` times that its controller has not answered (and
/// that its client is `gone`, where it is);
/// each is ready but for its `rests`. `listen` fails at the place `deaf`; `wait` moves the clock on by `step`, and fails once it
/// was answered `rounds` times. What is told is kept, but for failed calls. A call fails besides where memory ran out for the object's
/// own list, which raises `lacks` too; then the pair is not called. Of the script no clause says anything: the clauses are those of
/// `Links` and `Service`. This project's own.
#[derive(Drop)]
pub struct MemoryLinks {
    /// The clients, in the order of their coming.
    pub clients: Vec<MemoryClient>,
    /// Of each client that came, whether it was not left yet.
    pub stands: Vec<bool>,
    /// The place at which it cannot listen, if there is one.
    pub deaf: Option<u32>,
    /// The moment, in microseconds; each wait moves it on.
    pub clock: u64,
    /// By how many microseconds a wait moves it on.
    pub step: u64,
    /// How many waits are still answered; then they fail.
    pub rounds: u64,
    /// The answers so far but the failed ones.
    pub told: Vec<LinksTold>,
    /// How many calls on a session failed.
    pub faults: u64,
    /// How many calls of `listen` and `wait` failed.
    pub round_faults: u64,
    /// How many calls answered `Idle`.
    pub idles: u64,
    /// How often a session was to rest.
    pub rested: u64,
    /// How often memory ran out.
    pub lacks: u64,
}

impl MemoryLinks {
    /// No clients, no script, and every count 0. Takes no memory.
    pub fn new(alloc: Global) -> Self
        ensures clients { result.clients.items ≡ [] }
        ensures told { result.told.items ≡ [] }
        ensures free { (session : ℕ) → serves_in result session ≡ false }
        ensures counts { (result.faults ≡ 0) × (result.round_faults ≡ 0) × (result.idles ≡ 0) × (result.lacks ≡ 0) }
        ensures script { (result.clock ≡ 0) × (result.step ≡ 0) × (result.rounds ≡ 0) }
    {
        MemoryLinks {
            clients: Vec::new(alloc),
            stands: Vec::new(alloc),
            deaf: None,
            clock: 0,
            step: 0,
            rounds: 0,
            told: Vec::new(alloc),
            faults: 0,
            round_faults: 0,
            idles: 0,
            rested: 0,
            lacks: 0,
        }
    }

    /// Takes room for one answer more, beside that for the last one of each session that stands.
    fn make_room(&mut self) -> Result<(), AllocError>
        ensures ok { OnOk result (HasRoom 1 (vec_len self.new.told) (vec_capacity self.new.told) self.new.stands.items) }
        ensures room { has_room self.old ≡ true → has_room self.new ≡ true }
        ensures items { self.new.told.items ≡ self.old.told.items }
        ensures rest { self.new ≡ record self.old { told = self.new.told; lacks = lacks_after result self.old.lacks } }
    {
        match self.told.reserve(self.stands.len() + 1) {
            Ok(()) => Ok(()),
            Err(error) => {
                self.lacks = self.lacks.saturating_add(1);
                Err(error)
            }
        }
    }

    /// Takes room for one answer more, and for so many bytes of it.
    fn make_copy(&mut self, count: usize) -> Result<Vec<u8>, AllocError>
        ensures ok { OnOk result (HasRoom 1 (vec_len self.new.told) (vec_capacity self.new.told) self.new.stands.items) }
        ensures empty { IfOk result (λ copy. copy.items ≡ []) }
        ensures none { IfOk result (λ copy. vec_len copy ≡ 0) }
        ensures bytes { IfOk result (λ copy. vec_capacity copy ≡ count) }
        ensures room { has_room self.old ≡ true → has_room self.new ≡ true }
        ensures items { self.new.told.items ≡ self.old.told.items }
        ensures rest { self.new ≡ record self.old { told = self.new.told; lacks = lacks_after result self.old.lacks } }
    {
        let Ok(copy) = Vec::with_capacity(*self.told.allocator(), count) else {
            self.lacks = self.lacks.saturating_add(1);
            return Err(AllocError);
        };
        match self.make_room() {
            Ok(()) => Ok(copy),
            Err(error) => Err(error),
        }
    }

    /// Keeps an answer for which there is room.
    fn put(&mut self, answer: LinksTold)
        requires room { HasRoom 1 (vec_len self.old.told) (vec_capacity self.old.told) self.old.stands.items }
        ensures items { self.new.told.items ≡ self.old.told.items ++ answer ∷ [] }
        ensures room { has_room self.new ≡ true }
        ensures rest { self.new ≡ record self.old { told = self.new.told } }
    {
        let _ = self.told.push(answer);
    }

    /// How many sessions stand.
    fn open(&self) -> usize
        ensures { result ≡ open_count self.now.stands.items }
    {
        let mut open = 0;
        for stands in self.stands.iter() {
            if *stands {
                open += 1;
            }
        }
        open
    }

    /// Whether the last answer of each session that stands has room.
    fn is_roomy(&self) -> bool
        ensures { result ≡ has_room self.now }
    {
        let (len, capacity) = (self.told.len(), self.told.capacity());
        len <= capacity && self.open() <= capacity - len
    }

    /// The first session that stands, at a place or behind it, and does not rest.
    fn ready_from(&mut self, from: usize) -> Option<usize>
        ensures stands { IfSome result (λ at. (from ≤ at) × (stands_at self.old.stands.items at ≡ true)) }
        ensures rest { self.new ≡ record self.old { clients = self.new.clients } }
    {
        for at in from..self.stands.len() {
            if self.stands[at] && !self.rests_at(at) {
                return Some(at);
            }
        }
        None
    }

    /// Whether the session of a place rests in this round.
    fn rests_at(&mut self, at: usize) -> bool
        ensures rest { self.new ≡ record self.old { clients = self.new.clients } }
    {
        match self.clients.get_mut(at) {
            Some(client) => client.rests_now(),
            None => true,
        }
    }

    /// The endpoint of the next client, where it comes to this place under this number.
    fn next_client(&self, place: u32, session: u64) -> Option<Endpoint>
        ensures { IsSome result → session ≡ vec_len self.now.stands }
    {
        let next = self.stands.len();
        if session != next as u64 {
            return None;
        }
        match self.clients.get(next) {
            Some(client) if client.place == place => Some(client.pair.client),
            _ => None,
        }
    }

    /// One session more stands, and there is room for one answer more.
    #[tactic(auto, using(crate::proofs::Room::open_more))]
    fn let_in(&mut self) -> Result<(), AllocError>
        requires room { has_room self.old ≡ true }
        ensures room { OnOk result (HasRoom 1 (vec_len self.new.told) (vec_capacity self.new.told) self.new.stands.items) }
        ensures stands { OnOk result (self.new.stands.items ≡ self.old.stands.items ++ true ∷ []) }
        ensures still { OnErr result (self.new.stands.items ≡ self.old.stands.items) }
        ensures roomy { OnErr result (has_room self.new ≡ true) }
        ensures items { self.new.told.items ≡ self.old.told.items }
        ensures rest { self.new ≡ record self.old
            { told = self.new.told; stands = self.new.stands; lacks = lacks_after result self.old.lacks } }
    {
        match self.told.reserve(self.stands.len() + 2) {
            Ok(()) => {}
            Err(error) => {
                self.lacks = self.lacks.saturating_add(1);
                return Err(error);
            }
        }
        match self.stands.push(true) {
            Ok(()) => Ok(()),
            Err(error) => {
                self.lacks = self.lacks.saturating_add(1);
                Err(error.into())
            }
        }
    }

    /// A session that stands does so no longer.
    fn let_go(&mut self, session: u64)
        requires serves { serves_in self.old session ≡ true }
        ensures room { HasRoom 1 (vec_len self.new.told) (vec_capacity self.new.told) self.new.stands.items }
        ensures gone { stands_at self.new.stands.items session ≡ false }
        ensures others { (other : ℕ) → (session == other) ≡ false
            → stands_at self.new.stands.items other ≡ stands_at self.old.stands.items other }
        ensures rest { self.new ≡ record self.old { stands = self.new.stands } }
    {
        self.stands[session as usize] = false;
    }

    fn fail(&mut self)
        ensures later { self.old.faults ≤ self.new.faults }
        ensures counts { self.new ≡ record self.old { faults = counted self.old.faults } }
    {
        self.faults = self.faults.saturating_add(1);
    }
}

impl Links for MemoryLinks {
    ghost told = { λ l. Some (entries_told l.told.items) };

    ghost faults = { λ l. l.faults };

    ghost idles = { λ l. l.idles };

    ghost place = { λ l. record { serves = serves_in l; lender = None; round_faults = l.round_faults } };

    fn meet(&mut self, session: u64, listen: u16, peer: Endpoint) -> ReachAnswer {
        if self.make_room().is_err() {
            self.fail();
            return ReachAnswer::Failed;
        }
        let Some(client) = self.clients.get_mut(session as usize) else {
            self.fail();
            return ReachAnswer::Failed;
        };
        if client.waits > 0 {
            client.waits -= 1;
            return ReachAnswer::Waiting;
        }
        if client.gone {
            return ReachAnswer::Gone;
        }
        match client.pair.meet(listen, peer) {
            MeetAnswer::Met(client) => {
                let meeting = Meeting {
                    listen,
                    peer,
                    client,
                };
                self.put(LinksTold::Of(session, Told::Met(meeting)));
                ReachAnswer::Met(client)
            }
            MeetAnswer::Failed => {
                self.fail();
                ReachAnswer::Failed
            }
        }
    }

    fn moment(&mut self, session: u64) -> MomentAnswer {
        if self.make_room().is_err() {
            self.fail();
            return MomentAnswer::Failed;
        }
        let Some(client) = self.clients.get_mut(session as usize) else {
            self.fail();
            return MomentAnswer::Failed;
        };
        match client.pair.moment() {
            MomentAnswer::Told(now) => {
                self.put(LinksTold::Of(session, Told::Moment(now)));
                MomentAnswer::Told(now)
            }
            MomentAnswer::Failed => {
                self.fail();
                MomentAnswer::Failed
            }
        }
    }

    fn take(&mut self, session: u64, side: Side, buf: &mut [u8]) -> TakeAnswer {
        let Ok(mut copy) = self.make_copy(buf.len()) else {
            self.fail();
            return TakeAnswer::Failed;
        };
        let Some(client) = self.clients.get_mut(session as usize) else {
            self.fail();
            return TakeAnswer::Failed;
        };
        let answer = client.pair.take(side, buf);
        match answer {
            TakeAnswer::Got(count) => {
                let _ = copy.extend_from_slice(&buf[..count]);
                self.put(LinksTold::Of(session, Told::Got(side, copy)));
            }
            TakeAnswer::Idle => {
                self.idles = self.idles.saturating_add(1);
                self.put(LinksTold::Of(session, Told::Idle(side)));
            }
            TakeAnswer::End => self.put(LinksTold::Of(session, Told::End(side))),
            TakeAnswer::Failed => self.fail(),
        }
        answer
    }

    fn give(&mut self, session: u64, side: Side, bytes: &[u8]) -> GiveAnswer {
        let Ok(mut copy) = self.make_copy(bytes.len()) else {
            self.fail();
            return GiveAnswer::Failed;
        };
        let Some(client) = self.clients.get_mut(session as usize) else {
            self.fail();
            return GiveAnswer::Failed;
        };
        let answer = client.pair.give(side, bytes);
        match answer {
            GiveAnswer::Took(count) => {
                let _ = copy.extend_from_slice(&bytes[..count]);
                self.put(LinksTold::Of(session, Told::Took(side, copy)));
            }
            GiveAnswer::Idle => {
                self.idles = self.idles.saturating_add(1);
                self.put(LinksTold::Of(session, Told::Idle(side)));
            }
            GiveAnswer::Failed => self.fail(),
        }
        answer
    }

    fn finish(&mut self, session: u64, side: Side) -> WriteAnswer {
        if self.make_room().is_err() {
            self.fail();
            return WriteAnswer::Failed;
        }
        let Some(client) = self.clients.get_mut(session as usize) else {
            self.fail();
            return WriteAnswer::Failed;
        };
        match client.pair.finish(side) {
            WriteAnswer::Done => {
                self.put(LinksTold::Of(session, Told::Finished(side)));
                WriteAnswer::Done
            }
            WriteAnswer::Failed => {
                self.fail();
                WriteAnswer::Failed
            }
        }
    }
}

impl Service for MemoryLinks {
    fn listen(&mut self, place: u32, _at: Endpoint) -> MomentAnswer {
        if self.deaf == Some(place) || !self.is_roomy() || self.make_room().is_err() {
            self.round_faults = self.round_faults.saturating_add(1);
            return MomentAnswer::Failed;
        }
        let now = self.clock;
        self.put(LinksTold::Opened(place, now));
        MomentAnswer::Told(now)
    }

    fn wait(&mut self) -> MomentAnswer {
        if self.rounds == 0 || !self.is_roomy() || self.make_room().is_err() {
            self.round_faults = self.round_faults.saturating_add(1);
            return MomentAnswer::Failed;
        }
        self.rounds -= 1;
        self.clock = self.clock.saturating_add(self.step);
        let now = self.clock;
        self.put(LinksTold::Woke(now));
        MomentAnswer::Told(now)
    }

    fn arrive(&mut self, place: u32, session: u64) -> ArriveAnswer {
        let Some(client) = self.next_client(place, session) else {
            return ArriveAnswer::Nobody;
        };
        if !self.is_roomy() {
            return ArriveAnswer::Nobody;
        }
        if self.let_in().is_err() {
            return ArriveAnswer::Nobody;
        }
        self.put(LinksTold::Came(session, place, client));
        ArriveAnswer::Came(client)
    }

    fn next_ready(&mut self, from: u64) -> Option<u64> {
        if !self.is_roomy() {
            return None;
        }
        match self.ready_from(from as usize) {
            Some(at) => Some(at as u64),
            None => None,
        }
    }

    fn is_ready(&mut self, session: u64) -> bool {
        if self.make_room().is_err() {
            return false;
        }
        let Some(client) = self.clients.get_mut(session as usize) else {
            return false;
        };
        client.wakes = client.wakes.saturating_sub(1);
        self.put(LinksTold::Ready(session));
        true
    }

    fn rest(&mut self, _session: u64) {
        self.rested = self.rested.saturating_add(1);
    }

    fn leave(&mut self, session: u64) {
        self.let_go(session);
        self.put(LinksTold::Left(session));
    }
}
