//! The streams of a service: TCP connections of many sessions, the places at which clients come, and the clock of the machine.
ghost use Rattle.std.specs.Prelude.{◌≡◌, ◌≤◌, false, IfOk, None, ℕ};
ghost use Rattle.std.specs.BTreeSet.{contains};
ghost use Rattle.std.specs.Ordering.{nat_cmp};
ghost use Rattle.cf_links.specs.Links.{Gives, Takes};
ghost use Rattle.cf_machine.specs.Moved.{GotAsMoved, TookAsMoved};
ghost use Rattle.cf_outside.specs.Faults.{HasCause, Rose};
ghost use Rattle.cf_outside.specs.Pair.{FaultsBy};

mod place;
mod session;
mod sides;
mod sockets;
mod supervisor;
mod turns;
mod watch;

use crate::links::session::Reached;
use crate::links::sides::Moved;
use crate::links::sockets::Sockets;
use crate::standard::ErrorLines;
use cf_links::{ArriveAnswer, Links, ReachAnswer, Service};
use cf_outside::{GiveAnswer, MomentAnswer, TakeAnswer, WriteAnswer};
use cf_view::{Endpoint, Side};
use std::alloc::Global;
use std::collections::BTreeSet;
use std::fmt::Display;
use std::io;
use std::net::{IpAddr, Ipv4Addr, Net, SocketAddr};
use std::time::Clock;
pub use supervisor::Supervisor;

/// What standard error says of a service as it begins, without the name of the program and without line feeds.
#[derive(Drop)]
pub struct Announcement {
    /// What each place is for, in their order.
    pub places: Vec<String>,
    /// Lines that are said once it listens at all of them.
    pub rest: Vec<String>,
}

/// The connections of a service. It tells nothing, and counts failures and answers `Idle`. The address of a place, and what the system
/// says of a connection that failed, go to standard error.
#[derive(Drop)]
pub struct RealLinks<'a, R: Net + Clock> {
    errors: ErrorLines,
    announced: Announcement,
    sockets: Sockets<'a, R>,
    /// The numbers of the sessions.
    numbers: BTreeSet<u64>,
    faults: u64,
    idles: u64,
    round_faults: u64,
    /// What the system moved last.
    moved: Option<Moved>,
}

impl<'a, R: Net + Clock> RealLinks<'a, R> {
    /// Links of no place and no session, whose supervisor is told from `wait` on. All counts are 0. An error is that of the clock
    /// or of making the `poll`, or want of memory: room for 256 sessions is taken here.
    pub fn new(
        rt: &'a R,
        alloc: Global,
        announced: Announcement,
        supervisor: Option<Supervisor>,
    ) -> io::Result<Self>
        ensures counts { IfOk result (λ links. (links.faults ≡ 0) × (links.idles ≡ 0) × (links.round_faults ≡ 0)) }
        ensures free { IfOk result (λ links. (session : ℕ) → contains nat_cmp links.numbers session ≡ false) }
    {
        Ok(RealLinks {
            errors: ErrorLines::new(),
            announced,
            sockets: Sockets::new(rt, alloc, supervisor)?,
            numbers: BTreeSet::new(alloc),
            faults: 0,
            idles: 0,
            round_faults: 0,
            moved: None,
        })
    }

    /// Counts a failure of a session, and says what the system said.
    fn fail(&mut self, session: u64, whose: &str, error: &io::Error)
        ensures later { self.old.faults ≤ self.new.faults }
        ensures rose { Rose self.old.faults self.new.faults }
        ensures idles { self.new.idles ≡ self.old.idles }
        ensures round { self.new.round_faults ≡ self.old.round_faults }
        ensures numbers { self.new.numbers ≡ self.old.numbers }
    {
        self.faults = self.faults.saturating_add(1);
        if let Some(client) = self.sockets.client_of(session) {
            let client = address_of(client);
            self.errors.say(format_args!("{client}: {whose}: {error}"));
        }
    }

    /// Counts a failure of the service, and says what the system said.
    fn fail_round<D: Display + Drop>(&mut self, line: D)
        ensures later { self.old.round_faults ≤ self.new.round_faults }
        ensures rose { Rose self.old.round_faults self.new.round_faults }
        ensures faults { self.new.faults ≡ self.old.faults }
        ensures idles { self.new.idles ≡ self.old.idles }
        ensures numbers { self.new.numbers ≡ self.old.numbers }
    {
        self.round_faults = self.round_faults.saturating_add(1);
        self.errors.say(line);
    }

    fn count_idle(&mut self)
        ensures later { self.old.idles ≤ self.new.idles }
        ensures rose { Rose self.old.idles self.new.idles }
        ensures faults { self.new.faults ≡ self.old.faults }
        ensures round { self.new.round_faults ≡ self.old.round_faults }
        ensures numbers { self.new.numbers ≡ self.old.numbers }
    {
        self.idles = self.idles.saturating_add(1);
    }
}

/// Says where a place is, and what it is for.
fn say_place(errors: &mut ErrorLines, announced: &Announcement, place: u32, here: SocketAddr) {
    match announced.places.get(place as usize) {
        Some(what) => errors.say(format_args!("listens on {here} for {what}")),
        None => errors.say(format_args!("listens on {here}")),
    }
}

/// Says what is said once, as the first wait begins, and so once the service listens at all places.
fn say_rest(errors: &mut ErrorLines, announced: &mut Announcement) {
    for line in announced.rest.iter() {
        errors.say(line.as_str());
    }
    announced.rest.clear();
}

fn side_word(side: Side) -> &'static str {
    match side {
        Side::Client => "the client",
        Side::Controller => "the controller",
    }
}

fn address_of(endpoint: Endpoint) -> SocketAddr {
    let address = IpAddr::V4(Ipv4Addr::from_bits(endpoint.address));
    SocketAddr::new(address, endpoint.port)
}

impl<R: Net + Clock> Links for RealLinks<'_, R> {
    ghost told = { λ _. None };

    ghost faults = { λ links. links.faults };

    ghost idles = { λ links. links.idles };

    ghost place = { λ links. record {
      serves = λ session. contains nat_cmp links.numbers session;
      lender = None;
      round_faults = links.round_faults;
    } };

    fn meet(&mut self, session: u64, _listen: u16, peer: Endpoint) -> ReachAnswer {
        match self.sockets.reach(session, address_of(peer)) {
            Ok(Reached::Met(client)) => ReachAnswer::Met(client),
            Ok(Reached::Waiting) => ReachAnswer::Waiting,
            Ok(Reached::Gone) => ReachAnswer::Gone,
            Err(error) => {
                self.fail(session, "the controller", &error);
                ReachAnswer::Failed
            }
        }
    }

    fn moment(&mut self, session: u64) -> MomentAnswer {
        match self.sockets.failure(session) {
            Some((side, error)) => {
                self.fail(session, side_word(side), &error);
                MomentAnswer::Failed
            }
            None => MomentAnswer::Told(self.sockets.moment()),
        }
    }

    fn take(&mut self, session: u64, side: Side, buf: &mut [u8]) -> TakeAnswer
        ensures place { ⟦<Self as Links>⟧.place self.new ≡ ⟦<Self as Links>⟧.place self.old }
        ensures entry { Takes side buf.new (record { session = session; list = ⟦<Self as Links>⟧.told self.old })
            (record { session = session; list = ⟦<Self as Links>⟧.told self.new }) result }
        ensures cause { FaultsBy (⟦<Self as Links>⟧.faults self.old) (⟦<Self as Links>⟧.faults self.new) (result ≡ TakeAnswer.Failed) }
        ensures idle { HasCause (⟦<Self as Links>⟧.idles self.old) (⟦<Self as Links>⟧.idles self.new) (result ≡ TakeAnswer.Idle) }
        ensures moved { GotAsMoved session side self.new.moved result }
    {
        match self.sockets.read(session, side, buf) {
            Ok(Some(moved)) if moved.count > 0 => {
                self.moved = Some(moved);
                TakeAnswer::Got(moved.count)
            }
            Ok(Some(_)) => TakeAnswer::End,
            Ok(None) => {
                self.count_idle();
                TakeAnswer::Idle
            }
            Err(error) => {
                self.fail(session, side_word(side), &error);
                TakeAnswer::Failed
            }
        }
    }

    fn give(&mut self, session: u64, side: Side, bytes: &[u8]) -> GiveAnswer
        ensures place { ⟦<Self as Links>⟧.place self.new ≡ ⟦<Self as Links>⟧.place self.old }
        ensures entry { Gives side bytes.now (record { session = session; list = ⟦<Self as Links>⟧.told self.old })
            (record { session = session; list = ⟦<Self as Links>⟧.told self.new }) result }
        ensures cause { FaultsBy (⟦<Self as Links>⟧.faults self.old) (⟦<Self as Links>⟧.faults self.new) (result ≡ GiveAnswer.Failed) }
        ensures idle { HasCause (⟦<Self as Links>⟧.idles self.old) (⟦<Self as Links>⟧.idles self.new) (result ≡ GiveAnswer.Idle) }
        ensures moved { TookAsMoved session side self.new.moved result }
    {
        match self.sockets.write(session, side, bytes) {
            Ok(Some(moved)) if moved.count > 0 => {
                self.moved = Some(moved);
                GiveAnswer::Took(moved.count)
            }
            Ok(_) => {
                self.count_idle();
                GiveAnswer::Idle
            }
            Err(error) => {
                self.fail(session, side_word(side), &error);
                GiveAnswer::Failed
            }
        }
    }

    fn finish(&mut self, session: u64, side: Side) -> WriteAnswer {
        match self.sockets.close(session, side) {
            Ok(()) => WriteAnswer::Done,
            Err(error) => {
                self.fail(session, side_word(side), &error);
                WriteAnswer::Failed
            }
        }
    }
}

impl<R: Net + Clock> Service for RealLinks<'_, R> {
    fn listen(&mut self, place: u32, at: Endpoint) -> MomentAnswer {
        let at = address_of(at);
        match self.sockets.open(at) {
            Ok((here, moment)) => {
                say_place(&mut self.errors, &self.announced, place, here);
                MomentAnswer::Told(moment)
            }
            Err(error) => {
                self.fail_round(format_args!("{at}: {error}"));
                MomentAnswer::Failed
            }
        }
    }

    fn wait(&mut self) -> MomentAnswer {
        say_rest(&mut self.errors, &mut self.announced);
        match self.sockets.wait_for_news() {
            Ok(moment) => MomentAnswer::Told(moment),
            Err(error) => {
                self.fail_round(error);
                MomentAnswer::Failed
            }
        }
    }

    fn arrive(&mut self, place: u32, session: u64) -> ArriveAnswer {
        if !self.sockets.may_take(place) {
            return ArriveAnswer::Nobody;
        }
        match self.numbers.insert(session) {
            Ok(_) => {}
            Err(_) => return ArriveAnswer::Nobody,
        }
        match self.sockets.take_client(place, session) {
            Ok(Some(client)) => ArriveAnswer::Came(client),
            _ => {
                self.numbers.remove(&session);
                ArriveAnswer::Nobody
            }
        }
    }

    fn next_ready(&mut self, from: u64) -> Option<u64> {
        let session = self.sockets.next_ready(from)?;
        if from <= session && self.numbers.contains(&session) {
            Some(session)
        } else {
            None
        }
    }

    fn is_ready(&mut self, session: u64) -> bool {
        self.sockets.begin_turn(session)
    }

    fn rest(&mut self, session: u64) {
        self.sockets.rest(session);
    }

    fn leave(&mut self, session: u64) {
        self.sockets.drop_session(session);
        self.numbers.remove(&session);
    }
}
