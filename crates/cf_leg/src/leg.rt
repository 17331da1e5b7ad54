//! One end of a TCP connection.
//! A deadline counts from the moment of its event, and one that runs goes on, also of an end that opens with window 0 while
//! letters wait; only a speech starts the timer.
ghost use Rattle.std.specs.Prelude.{◌≡◌, ◌<◌, ◌≤◌, not, true, List, []};
ghost use Rattle.std.specs.Prelude.{length, IfOk};
ghost use Rattle.cf_rebuild.specs.ReceiveWindow.{Consumes, IsWindow, base_of};
ghost use Rattle.cf_leg.specs.Calls.{origin_as, IsMade, no_marks, is_greeted_phase};
ghost use Rattle.cf_leg.specs.Emits.{to_tell};
ghost use Rattle.cf_leg.specs.Event.{LegEvent};
ghost use Rattle.cf_leg.specs.LegValue.{IsLeg, IsLegOf, Marks, LegValue, arms, is_open, told_of, way_at};

mod clock;
mod counting;
mod cutting;
mod opening;
mod speaking;

use crate::ends::{Advertised, Ends, Phase, Role, Way};
use crate::send::place_or_zero;
use cf_outq::Outq;
use cf_rebuild::Rebuild;
use cf_view::{Endpoint, NoMemory};
use opening::send_mss;
use std::alloc::Global;
use std::marker::Model;

/// How far the edge is told past the base. This project's own choice.
const WINDOW: u64 = 16_384;

/// A second, in microseconds.
const SECOND: u64 = 1_000_000;

/// One end of a TCP connection: what RFC 9293, section 3.3.1, calls its transmission control block. Its queue is handed in,
/// and has SND.UNA and SND.NXT. Places count letters from 0, the one after a SYN: place p has the sequence number ISS + 1 + p.
#[derive(Drop)]
pub struct Leg {
    /// The endpoints of both sides, and which of them sent the SYN.
    ends: Ends,
    /// The state of the connection, as far as an end tells states apart.
    phase: Phase,
    /// ISS, the sequence number of the end's own SYN. That of a passive end is 0 until it greets.
    own: u32,
    /// IRS, the sequence number of the peer's SYN. That of an active end is 0 until a SYN ACK opens it.
    other: u32,
    /// SendMSS, the most octets of text in one segment: from 64 to 1,460 (section 3.7.1; the bounds are this project's own).
    mss: usize,
    /// What was received. Its base is RCV.NXT; its edge is RCV.NXT + RCV.WND, as the peer was told them last.
    window: Rebuild,
    /// RCV.NXT as the peer was told it last, as a place. The window's base is ahead of it from a packet to the next speech.
    base: u64,
    /// The greatest SND.UNA + SND.WND that the peer has shown, as a place. It never falls, though SND.WND may shrink.
    shown: u64,
    /// An ACK is owed to the packet of this event (section 3.10.7). The speech that ends the event sends it, and clears this.
    owes: bool,
    /// The retransmission timer runs (section 3.8.1; RFC 6298, section 5): something was unanswered after the last speech.
    running: bool,
    /// When the timer expires, in microseconds. It tells nothing where the timer does not run.
    deadline: u64,
    /// How often the timer has expired since a packet counted or opened the end: from 0 to 6, and the next time gives up.
    fired: u32,
}

impl Model for Leg {
    ghost use Rattle.cf_leg.specs.LegValue.{LegValue, IsLeg};

    ghost Value = { LegValue };

    ghost view = { λ a. record {
      ends = a.ends;
      phase = a.phase;
      own = a.own;
      other = a.other;
      mss = a.mss;
      window = a.window;
      base = a.base;
      shown = a.shown;
      owes = a.owes;
      running = a.running;
      deadline = a.deadline;
      fired = a.fired;
    } };

    ghost invariant = { λ a. IsLeg (record {
      ends = a.ends;
      phase = a.phase;
      own = a.own;
      other = a.other;
      mss = a.mss;
      window = a.window;
      base = a.base;
      shown = a.shown;
      owes = a.owes;
      running = a.running;
      deadline = a.deadline;
      fired = a.fired;
    }) };
}

impl Leg {
    /// An end that opens the connection by a SYN with this sequence number.
    pub fn active(
        alloc: Global,
        own: Endpoint,
        peer: Endpoint,
        own_seq: u32,
    ) -> Result<Leg, NoMemory>
        ensures ends { IfOk result (λ l. l.ends ≡ record { own = own; peer = peer; role = Role.Active own_seq }) }
        ensures stands { IfOk result (λ l. IsLegOf l no_marks []) }
        ensures window { IfOk result (λ l. (base_of l.window ≡ 0) × (l.window.edge ≡ 0)) }
        ensures made { IfOk result (λ l. l.phase ≡ Phase.Made) }
    {
        let role = Role::Active(own_seq);
        Leg::made(alloc, Ends { own, peer, role }, own_seq, 0, 536)
    }

    /// An end to whose peer's SYN, with that sequence number and that maximum segment size, a SYN ACK is due.
    pub fn passive(
        alloc: Global,
        own: Endpoint,
        peer: Endpoint,
        peer_seq: u32,
        mss: Option<u16>,
    ) -> Result<Leg, NoMemory>
        ensures ends { IfOk result (λ l. l.ends ≡ record { own = own; peer = peer; role = Role.Passive peer_seq mss }) }
        ensures stands { IfOk result (λ l. IsLegOf l no_marks []) }
        ensures window { IfOk result (λ l. (base_of l.window ≡ 0) × (l.window.edge ≡ 0)) }
        ensures made { IfOk result (λ l. l.phase ≡ Phase.Made) }
    {
        let role = Role::Passive(peer_seq, mss);
        Leg::made(alloc, Ends { own, peer, role }, 0, peer_seq, send_mss(mss))
    }

    fn made(alloc: Global, ends: Ends, own: u32, other: u32, mss: usize) -> Result<Leg, NoMemory>
        requires { (0 < mss) × (mss ≤ 1460) }
        ensures made { IfOk result (λ l. IsMade ends own other mss l) }
        ensures base { IfOk result (λ l. base_of l.window ≡ 0) }
    {
        match Rebuild::new(alloc) {
            Ok(window) => Ok(Leg {
                ends,
                phase: Phase::Made,
                own,
                other,
                mss,
                window,
                base: 0,
                shown: 0,
                owes: false,
                running: false,
                deadline: 0,
                fired: 0,
            }),
            Err(error) => Err(error),
        }
    }

    /// The sequence number of the peer's SYN, once that was seen.
    pub fn peer_origin(&self) -> Option<u32>
        ensures value { result ≡ origin_as self.now.ends.role self.now.phase self.now.other }
    {
        match self.ends.role {
            Role::Active(_) => {
                if self.is_open() {
                    Some(self.other)
                } else {
                    None
                }
            }
            Role::Passive(_, _) => Some(self.other),
        }
    }

    /// What the peer sent.
    pub fn window(&self) -> &Rebuild
        ensures value { result.now ≡ self.now.window }
    {
        &self.window
    }

    /// Consumes the first bytes of those that were taken and not consumed.
    pub fn consume(&mut self, n: usize)
        requires { n ≤ length self.old.window.pending }
        ensures new { self.new ≡ record self.old { window = self.new.window } }
        ensures window { Consumes self.old.window n self.new.window }
        ensures stands { (m : Marks) (es : List LegEvent) → IsLegOf self.old m es → IsLegOf self.new m es }
    {
        self.window.consume(n);
    }

    fn is_open(&self) -> bool
        ensures { result ≡ is_open self.now.phase }
    {
        match self.phase {
            Phase::Made | Phase::Greeted => false,
            Phase::Open => true,
        }
    }

    /// What the peer was told.
    fn told(&self) -> Advertised
        ensures value { result ≡ told_of self.now }
        ensures leg { IsLeg self.now }
        ensures bounds { IsWindow self.now.window }
    {
        Advertised {
            base: self.base,
            edge: place_or_zero(self.window.edge()),
        }
    }

    fn way(&self) -> Way
        ensures { result ≡ way_at self.now }
    {
        Way {
            source: self.ends.own,
            dest: self.ends.peer,
            own: self.own,
            other: self.other,
        }
    }

    /// What is to be told now.
    fn to_tell(&self, roomy: bool) -> Advertised
        ensures value { result ≡ to_tell (told_of self.now) (base_of self.now.window) roomy }
        ensures bounds { IsWindow self.now.window }
    {
        let base = place_or_zero(self.window.base());
        let edge = place_or_zero(self.window.edge());
        Advertised {
            base,
            edge: if roomy { base + WINDOW } else { edge },
        }
    }

    /// Whether something is unanswered.
    fn arms(&self, queue: &Outq) -> bool
        ensures { result ≡ arms self.now.phase queue.now }
    {
        match self.phase {
            Phase::Made => false,
            Phase::Greeted => true,
            Phase::Open => queue.unacked() > 0,
        }
    }

    fn is_greeted(&self) -> bool
        ensures { result ≡ is_greeted_phase self.now.phase }
    {
        match self.phase {
            Phase::Made => false,
            Phase::Greeted | Phase::Open => true,
        }
    }

    /// Whether neither SYN nor SYN ACK went out.
    pub fn is_made(&self) -> bool
        ensures made { result ≡ true → self.now.phase ≡ Phase.Made }
        ensures greeted { result ≡ not (is_greeted_phase self.now.phase) }
    {
        match self.phase {
            Phase::Made => true,
            Phase::Greeted | Phase::Open => false,
        }
    }
}
