//! The numbers of one session.
//! After a refusal of a number only the drop may follow.
ghost use Rattle.std.specs.Prelude.{◌≡◌, ℕ, ◌+◌, ◌%◌, ◌<◌, ◌≤◌, ◌↔◌, length, List, [], ◌∷◌, IfOk, IfSome, OnErr, MatchResult};
ghost use Rattle.std.specs.Prelude.{IsSome, IsTrue, Some, None, count_by};
ghost use Rattle.cf_renumber.specs.Counts.{NumberEvent, Started, Stopped, Admitted, Refused, ClientAck, Carried, ControllerAck};
ghost use Rattle.cf_renumber.specs.Counts.{client_refusal, client_ack_refusal, controller_refusal, controller_ack_refusal, receive_refusal};
ghost use Rattle.cf_renumber.specs.Counts.{admitted_stamp, refused_stamp, carried_stamp, client_translated, controller_translated};
ghost use Rattle.cf_renumber.specs.Counts.{acked_by_controller, controllers_among, count_from, is_admitted, is_controllers, to_client};
ghost use Rattle.cf_renumber.specs.Numbers.{HasCountsOf, IsNumbersOf, IsNumbersAwaiting, IsNumbersValue, empty, after_admitted};
ghost use Rattle.cf_renumber.specs.Numbers.{after_mirror, after_carried, after_controller_ack, after_dropped, ack_owed};
ghost use Rattle.cf_renumber.specs.Numbers.{after_client_ack, IsSmall};
ghost use Rattle.cf_renumber.specs.Counts as counts;
ghost use Rattle.cf_renumber.specs.NumbersCalls.{NumbersStep, Start, Stop, MaySend, Admit, Refuse, FromClient, AckOfClient, FromController};
ghost use Rattle.cf_renumber.specs.NumbersCalls.{AckOfController, error_of};
ghost use Rattle.cf_renumber.specs.Numbers as kept;

use crate::answer::{NumberRefusal, RefusedStamp, Stamp};
use crate::mark::{FrameFate, Origin};
use crate::marks::{acknowledge, cover, note_fate, note_origin, note_refused};
use crate::number::{before, check_receive, check_send, next};
use cf_view::{NoMemory, Side};
use circular_buffer::HeapCircularBuffer;
use std::alloc::Global;
use std::marker::Model;

/// The most frames of a direction that are not acknowledged. This project's own choice.
const CAPACITY: usize = 4_096;

/// The numbers of the I frames of one session, on both legs. It keeps a mark of each frame that is not acknowledged.
/// IEC 60870-5-104, section 5.1; that both legs are numbered apart is this project's own.
#[derive(Drop)]
pub struct Numbers {
    /// The client's STARTDT act has come: the controller may send I frames.
    started: bool,
    /// It has come, and no STOPDT act since: the client may send I frames.
    running: bool,
    /// Of the client's frames, from the first one on that the controller has not acknowledged: what became of each.
    fates: HeapCircularBuffer<FrameFate>,
    /// How many of these were admitted.
    admits: u16,
    /// Of the frames to the client, from the first one on that it has not acknowledged: whose each is.
    origins: HeapCircularBuffer<Origin>,
    /// How many of these are the controller's.
    controllers: u16,
    /// V(R) towards the client (IEC 60870-5-104, section 5.1): the N(S) of its next frame. Numbers here are modulo 32768.
    received: u16,
    /// V(S) towards the controller: the N(S) of the next frame that goes there.
    admitted: u16,
    /// V(R) towards the controller: the N(S) of its next frame.
    carried: u16,
    /// V(S) towards the client: the N(S) of the next frame that goes there, of the controller's or a mirror.
    sent: u16,
    /// Where a frame of the client came that is not judged yet: how many of the controller's frames its N(R) acknowledges anew.
    owed: Option<u16>,
}

impl Model for Numbers {
    ghost use Rattle.std.specs.Prelude.{◌≡◌, count_by};
    ghost use Rattle.cf_renumber.specs.Counts.{is_admitted, is_controllers};
    ghost use Rattle.cf_renumber.specs.Numbers.{NumbersValue, IsNumbersValue};

    ghost Value = { NumbersValue };

    ghost view = { λ a. record {
      started = a.started;
      running = a.running;
      fates = a.fates.items;
      origins = a.origins.items;
      received = a.received;
      admitted = a.admitted;
      carried = a.carried;
      sent = a.sent;
      owed = a.owed;
    } };

    ghost invariant = { λ a. (a.fates.capacity ≡ 4096) × (a.origins.capacity ≡ 4096) × (a.admits ≡ count_by is_admitted a.fates.items)
        × (a.controllers ≡ count_by is_controllers a.origins.items)
        × IsNumbersValue (record {
          started = a.started;
          running = a.running;
          fates = a.fates.items;
          origins = a.origins.items;
          received =
              a.received;
          admitted = a.admitted;
          carried = a.carried;
          sent = a.sent;
          owed = a.owed;
        }) };
}

impl Numbers {
    /// No frame has come, and no side may send.
    pub fn new(alloc: Global) -> Result<Numbers, NoMemory>
        ensures value { IfOk result (λ v. v ≡ empty) }
        ensures stands { IfOk result (λ v. IsNumbersOf v []) }
    {
        let Ok(fates) = HeapCircularBuffer::with_capacity(alloc, CAPACITY) else {
            return Err(NoMemory);
        };
        let Ok(origins) = HeapCircularBuffer::with_capacity(alloc, CAPACITY) else {
            return Err(NoMemory);
        };
        Ok(Numbers {
            started: false,
            running: false,
            fates,
            admits: 0,
            origins,
            controllers: 0,
            received: 0,
            admitted: 0,
            carried: 0,
            sent: 0,
            owed: None,
        })
    }

    /// The client's STARTDT act came.
    pub fn start(&mut self)
        requires idle { self.old.owed ≡ None }
        ensures idle { self.new.owed ≡ None }
        ensures stands { (events : List NumberEvent) → IsNumbersOf self.old events → IsNumbersOf self.new (Started ∷ events) }
        ensures did { NumbersStep Start self.old self.new }
    {
        self.started = true;
        self.running = true;
    }

    /// The client's STOPDT act came.
    pub fn stop(&mut self)
        requires idle { self.old.owed ≡ None }
        ensures idle { self.new.owed ≡ None }
        ensures stands { (events : List NumberEvent) → IsNumbersOf self.old events → IsNumbersOf self.new (Stopped ∷ events) }
        ensures did { NumbersStep Stop self.old self.new }
    {
        self.running = false;
    }

    /// Whether a side may send I frames now.
    pub fn may_send(&self, side: Side) -> bool
        ensures answer { (events : List NumberEvent) → IsNumbersOf self.now events → result ≡ counts.may_send side events }
        ensures did { NumbersStep (MaySend side result) self.now self.now }
    {
        self.allows(side)
    }

    fn allows(&self, side: Side) -> bool
        ensures { (events : List NumberEvent) → IsNumbersOf self.now events → result ≡ counts.may_send side events }
    {
        match side {
            Side::Client => self.running,
            Side::Controller => self.started,
        }
    }

    /// Takes the numbers of a client's I frame. After `Ok` exactly one of `admitted` and `refused` is owed.
    pub fn from_client(&mut self, ns: u16, nr: u16) -> Result<(), NumberRefusal>
        requires idle { self.old.owed ≡ None }
        ensures answer { (events : List NumberEvent) → IsNumbersOf self.old events →
            MatchResult result (λ _. client_refusal events ns nr ≡ None) (λ e. client_refusal events ns nr ≡ Some e) }
        ensures stands { IfOk result (λ _. (events : List NumberEvent) → IsNumbersOf self.old events
            → IsNumbersAwaiting self.new events nr) }
        ensures owed { IfOk result (λ _. IsSome self.new.owed) }
        ensures idle { OnErr result (self.new.owed ≡ None) }
        ensures did { NumbersStep (FromClient ns nr (error_of result)) self.old self.new }
    {
        self.take_from_client(ns, nr)
    }

    fn take_from_client(&mut self, ns: u16, nr: u16) -> Result<(), NumberRefusal>
        requires idle { self.old.owed ≡ None }
        ensures answer { (events : List NumberEvent) → IsNumbersOf self.old events →
            MatchResult result (λ _. client_refusal events ns nr ≡ None) (λ e. client_refusal events ns nr ≡ Some e) }
        ensures stands { IfOk result (λ _. (events : List NumberEvent) → IsNumbersOf self.old events
            → IsNumbersAwaiting self.new events nr) }
        ensures owed { IfOk result (λ _. IsSome self.new.owed) }
        ensures idle { OnErr result (self.new.owed ≡ None) }
    {
        check_send(self.received, ns)?;
        let anew = self.check_client(nr)?;
        let moved = self.forget_to_client(anew);
        if self.unacked_by_controller() == CAPACITY || self.unacked_by_client() == CAPACITY {
            return Err(NumberRefusal::Outstanding);
        }
        self.owe(moved);
        Ok(())
    }

    /// The client's frame goes on: the numbers that it has towards the controller.
    pub fn admitted(&mut self) -> Stamp
        requires owed { IsSome self.old.owed }
        ensures stamp { (events : List NumberEvent) (nr : ℕ) → IsNumbersAwaiting self.old events nr → result ≡ admitted_stamp events nr }
        ensures stands { (events : List NumberEvent) (nr : ℕ) → IsNumbersAwaiting self.old events nr
            → IsNumbersOf self.new (Admitted nr ∷ events) }
        ensures did { NumbersStep (Admit result) self.old self.new }
        ensures small { IsSmall result }
        ensures idle { self.new.owed ≡ None }
    {
        let stamp = self.stamp_for_controller();
        self.take_admitted();
        stamp
    }

    /// The client's frame does not go on: the numbers of its mirror, where one goes back, and of the S frame that it
    /// leaves towards the controller, where one is owed.
    pub fn refused(&mut self, reply: bool) -> RefusedStamp
        requires owed { IsSome self.old.owed }
        ensures stamp { (events : List NumberEvent) (nr : ℕ) → IsNumbersAwaiting self.old events nr
            → result ≡ refused_stamp events nr reply }
        ensures stands { (events : List NumberEvent) (nr : ℕ) → IsNumbersAwaiting self.old events nr
            → IsNumbersOf self.new (Refused nr reply ∷ events) }
        ensures did { NumbersStep (Refuse reply result) self.old self.new }
        ensures small { IfSome result.reply IsSmall }
        ensures small_ack { IfSome result.ack (λ n. n < 32768) }
        ensures reply { IsSome result.reply ↔ IsTrue reply }
        ensures idle { self.new.owed ≡ None }
    {
        let ack = self.owed_ack();
        self.take_refused();
        if !reply {
            return RefusedStamp { reply: None, ack };
        }
        let stamp = self.stamp_for_client();
        self.take_mirror();
        RefusedStamp {
            reply: Some(stamp),
            ack,
        }
    }

    /// Translates the N(R) of a client's S frame.
    pub fn client_ack(&mut self, nr: u16) -> Result<u16, NumberRefusal>
        requires idle { self.old.owed ≡ None }
        ensures answer { (events : List NumberEvent) → IsNumbersOf self.old events →
            MatchResult result (λ n. (client_ack_refusal events nr ≡ None)
            × (n ≡ client_translated events nr % 32768)) (λ e. client_ack_refusal events nr ≡ Some e) }
        ensures stands { IfOk result (λ _. (events : List NumberEvent) → IsNumbersOf self.old events
            → IsNumbersOf self.new (ClientAck nr ∷ events)) }
        ensures owed { self.new.owed ≡ None }
        ensures did { NumbersStep (AckOfClient nr result) self.old self.new }
        ensures small { IfOk result (λ n. n < 32768) }
    {
        self.translate_client(nr)
    }

    fn translate_client(&mut self, nr: u16) -> Result<u16, NumberRefusal>
        requires idle { self.old.owed ≡ None }
        ensures answer { (events : List NumberEvent) → IsNumbersOf self.old events →
            MatchResult result (λ n. (client_ack_refusal events nr ≡ None)
            × (n ≡ client_translated events nr % 32768)) (λ e. client_ack_refusal events nr ≡ Some e) }
        ensures stands { IfOk result (λ _. (events : List NumberEvent) → IsNumbersOf self.old events
            → IsNumbersOf self.new (ClientAck nr ∷ events)) }
        ensures small { IfOk result (λ n. n < 32768) }
        ensures owed { self.new.owed ≡ None }
    {
        let anew = self.check_client(nr)?;
        self.forget_to_client(anew);
        Ok(self.stamp_for_controller().receive)
    }

    /// Takes the numbers of a controller's I frame, which goes on: the numbers that it has towards the client.
    pub fn from_controller(&mut self, ns: u16, nr: u16) -> Result<Stamp, NumberRefusal>
        requires idle { self.old.owed ≡ None }
        ensures answer { (events : List NumberEvent) → IsNumbersOf self.old events →
            MatchResult result (λ s. (controller_refusal events ns nr ≡ None)
            × (s ≡ carried_stamp events nr)) (λ e. controller_refusal events ns nr ≡ Some e) }
        ensures stands { IfOk result (λ _. (events : List NumberEvent) → IsNumbersOf self.old events
            → IsNumbersOf self.new (Carried nr ∷ events)) }
        ensures owed { self.new.owed ≡ None }
        ensures did { NumbersStep (FromController ns nr result) self.old self.new }
        ensures small { IfOk result IsSmall }
    {
        self.take_from_controller(ns, nr)
    }

    fn take_from_controller(&mut self, ns: u16, nr: u16) -> Result<Stamp, NumberRefusal>
        requires idle { self.old.owed ≡ None }
        ensures answer { (events : List NumberEvent) → IsNumbersOf self.old events →
            MatchResult result (λ s. (controller_refusal events ns nr ≡ None)
            × (s ≡ carried_stamp events nr)) (λ e. controller_refusal events ns nr ≡ Some e) }
        ensures stands { IfOk result (λ _. (events : List NumberEvent) → IsNumbersOf self.old events
            → IsNumbersOf self.new (Carried nr ∷ events)) }
        ensures small { IfOk result IsSmall }
        ensures owed { self.new.owed ≡ None }
    {
        check_send(self.carried, ns)?;
        let anew = self.check_controller(nr)?;
        self.forget_from_client(anew);
        if self.unacked_by_client() == CAPACITY {
            return Err(NumberRefusal::Outstanding);
        }
        let stamp = self.stamp_for_client();
        self.take_carried();
        Ok(stamp)
    }

    /// Translates the N(R) of a controller's S frame.
    pub fn controller_ack(&mut self, nr: u16) -> Result<u16, NumberRefusal>
        requires idle { self.old.owed ≡ None }
        ensures answer { (events : List NumberEvent) → IsNumbersOf self.old events →
            MatchResult result (λ n. (controller_ack_refusal events nr ≡ None)
            × (n ≡ controller_translated events nr % 32768)) (λ e. controller_ack_refusal events nr ≡ Some e) }
        ensures stands { IfOk result (λ _. (events : List NumberEvent) → IsNumbersOf self.old events
            → IsNumbersOf self.new (ControllerAck nr ∷ events)) }
        ensures owed { self.new.owed ≡ None }
        ensures did { NumbersStep (AckOfController nr result) self.old self.new }
        ensures small { IfOk result (λ n. n < 32768) }
    {
        self.translate_controller(nr)
    }

    fn translate_controller(&mut self, nr: u16) -> Result<u16, NumberRefusal>
        requires idle { self.old.owed ≡ None }
        ensures answer { (events : List NumberEvent) → IsNumbersOf self.old events →
            MatchResult result (λ n. (controller_ack_refusal events nr ≡ None)
            × (n ≡ controller_translated events nr % 32768)) (λ e. controller_ack_refusal events nr ≡ Some e) }
        ensures stands { IfOk result (λ _. (events : List NumberEvent) → IsNumbersOf self.old events
            → IsNumbersOf self.new (ControllerAck nr ∷ events)) }
        ensures small { IfOk result (λ n. n < 32768) }
        ensures owed { self.new.owed ≡ None }
    {
        let anew = self.check_controller(nr)?;
        self.forget_from_client(anew);
        Ok(self.stamp_for_client().receive)
    }

    /// How many frames to the client an N(R) of the client acknowledges anew.
    #[tactic(auto, using(crate::proofs::Counting::origins_left))]
    fn check_client(&self, nr: u16) -> Result<u16, NumberRefusal>
        ensures within { IfOk result (λ n. n ≤ length self.now.origins) }
        ensures answer { (events : List NumberEvent) (j : ℕ) → HasCountsOf self.now events j →
            MatchResult result (λ n. (receive_refusal j (to_client events) nr ≡ None)
            × (count_from j nr ≡ j + n)) (λ e. receive_refusal j (to_client events) nr ≡ Some e) }
    {
        check_receive(self.sent, self.origins.len() as u16, nr)
    }

    /// How many admitted frames an N(R) of the controller acknowledges anew.
    #[tactic(auto, using(crate::proofs::Counting::admitted_left))]
    fn check_controller(&self, nr: u16) -> Result<u16, NumberRefusal>
        ensures within { IfOk result (λ m. m ≤ count_by is_admitted self.now.fates) }
        ensures answer { (events : List NumberEvent) (j : ℕ) → HasCountsOf self.now events j →
            MatchResult result (λ m. (controller_ack_refusal events nr ≡ None)
            × (count_from (acked_by_controller events) nr ≡ acked_by_controller events + m))
            (λ e. controller_ack_refusal events nr ≡ Some e) }
    {
        check_receive(self.admitted, self.admits, nr)
    }

    /// How many frames of the client the controller has not acknowledged.
    fn unacked_by_controller(&self) -> usize
        ensures value { result ≡ length self.now.fates }
        ensures bounds { IsNumbersValue self.now }
    {
        self.fates.len()
    }

    /// How many frames to the client it has not acknowledged.
    fn unacked_by_client(&self) -> usize
        ensures value { result ≡ length self.now.origins }
        ensures bounds { IsNumbersValue self.now }
    {
        self.origins.len()
    }

    /// The numbers of the next frame to the controller.
    fn stamp_for_controller(&self) -> Stamp
        ensures value { result ≡ kept.stamp_for_controller self.now }
        ensures small { IsSmall result }
        ensures few { count_by is_controllers self.now.origins ≤ 4096 }
    {
        Stamp {
            send: self.admitted,
            receive: before(self.carried, self.controllers),
        }
    }

    /// The numbers of the next frame to the client.
    fn stamp_for_client(&self) -> Stamp
        ensures value { result ≡ kept.stamp_for_client self.now }
        ensures small { IsSmall result }
        ensures few { length self.now.fates ≤ 4096 }
    {
        Stamp {
            send: self.sent,
            receive: before(self.received, self.fates.len() as u16),
        }
    }

    /// The N(R) of the S frame that is owed to the controller once the client's frame is refused.
    fn owed_ack(&self) -> Option<u16>
        ensures value { result ≡ ack_owed self.now self.now.owed }
        ensures small { IfSome result (λ n. n < 32768) }
        ensures few { count_by is_controllers self.now.origins ≤ 4096 }
    {
        let ack = self.stamp_for_controller().receive;
        match self.owed {
            Some(moved) if moved > 0 => Some(ack),
            _ => None,
        }
    }

    /// Forgets frames to the client that it has acknowledged: tells how many of them are the controller's.
    fn forget_to_client(&mut self, n: u16) -> u16
        requires { n ≤ length self.old.origins }
        ensures value { self.new ≡ after_client_ack self.old n }
        ensures moved { result ≡ controllers_among n self.old.origins }
    {
        let moved = acknowledge(&mut self.origins, n);
        self.controllers -= moved;
        moved
    }

    /// Forgets frames of the client that the controller has acknowledged, which are admitted or refused.
    fn forget_from_client(&mut self, m: u16)
        requires { m ≤ count_by is_admitted self.old.fates }
        ensures { self.new ≡ after_controller_ack self.old m }
    {
        cover(&mut self.fates, m);
        self.admits -= m;
    }

    fn owe(&mut self, moved: u16)
        requires fates { length self.old.fates < 4096 }
        requires origins { length self.old.origins < 4096 }
        ensures { self.new ≡ record self.old { owed = Some moved } }
    {
        self.owed = Some(moved);
    }

    fn take_admitted(&mut self)
        requires owed { IsSome self.old.owed }
        ensures { self.new ≡ after_admitted self.old }
    {
        note_fate(&mut self.fates, FrameFate::Admitted);
        self.admits += 1;
        self.received = next(self.received);
        self.admitted = next(self.admitted);
        self.owed = None;
    }

    fn take_refused(&mut self)
        requires owed { IsSome self.old.owed }
        ensures value { self.new ≡ after_dropped self.old }
        ensures room { length self.new.origins < 4096 }
    {
        note_refused(&mut self.fates);
        self.received = next(self.received);
        self.owed = None;
    }

    fn take_mirror(&mut self)
        requires room { length self.old.origins < 4096 }
        requires idle { self.old.owed ≡ None }
        ensures { self.new ≡ after_mirror self.old }
    {
        note_origin(&mut self.origins, Origin::Mirror);
        self.sent = next(self.sent);
    }

    fn take_carried(&mut self)
        requires room { length self.old.origins < 4096 }
        requires idle { self.old.owed ≡ None }
        ensures { self.new ≡ after_carried self.old }
    {
        note_origin(&mut self.origins, Origin::Controller);
        self.controllers += 1;
        self.carried = next(self.carried);
        self.sent = next(self.sent);
    }
}
