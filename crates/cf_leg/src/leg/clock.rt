//! The retransmission timer of an end.
ghost use Rattle.std.specs.Prelude.{◌≡◌, ◌+◌, ◌*◌, ◌%◌, ◌^◌, ◌<◌, ◌≤◌, not, nat_lt, true};
ghost use Rattle.std.specs.Prelude.{IfOk, OnErr, false};
ghost use Rattle.cf_rebuild.specs.ReceiveWindow.{base_of};
ghost use Rattle.cf_leg.specs.Calls.{ClockBreaks, Clocked, SendsAgain, SendsOldest, answer_again, answer_oldest, due_of, is_due};
ghost use Rattle.cf_leg.specs.Timer.{backoff};
ghost use Rattle.cf_outside.specs.Desk.{DeskValue};
ghost use Rattle.cf_outside.specs.Frames.{OnlyEmits};
ghost use Rattle.std.specs.Result.{is_err};
ghost use Rattle.cf_stream.specs.Sizes.{window_size};
ghost use Rattle.cf_view.specs.Moment.{moment_limit};

use super::{Leg, SECOND};
use crate::ends::ClockAnswer;
use crate::send::{acked_of, send_empty, send_piece};
use cf_outq::Outq;
use cf_outside::Desk;
use cf_view::WriteFault;

/// How often a leg repeats without an answer. This project's own choice.
const MOST: u32 = 6;

impl Leg {
    /// Sends the oldest letters that are not acknowledged again, or an empty segment where all that were sent are.
    fn send_oldest<D: Desk>(
        &self,
        moment: u64,
        queue: &Outq,
        desk: &mut D,
    ) -> Result<ClockAnswer, WriteFault>
        requires base { base_of self.now.window ≤ 2 ^ 30 + window_size }
        requires whole { DeskValue.whole (D.value desk.old) ≡ true }
        requires moment { moment < moment_limit }
        ensures sends { IfOk result (λ answer. SendsOldest self.now queue.now moment (D.value desk.old) (D.value desk.new) false
            × (answer ≡ answer_oldest queue.now)) }
        ensures broken { OnErr result (SendsOldest self.now queue.now moment (D.value desk.old) (D.value desk.new) true) }
        ensures frame { OnlyEmits (D.value desk.old) (D.value desk.new) (is_err result) }
    {
        let told = self.told();
        let way = self.way();
        let acked = acked_of(queue);
        match queue.first_piece(self.mss) {
            Some(piece) => {
                send_piece(way, moment, told, piece, queue, desk)?;
                Ok(ClockAnswer::Repeated)
            }
            None => {
                send_empty(way, moment, told, number_before(self.own, acked), desk)?;
                Ok(ClockAnswer::Probed)
            }
        }
    }

    /// Sends again what is unanswered.
    fn send_again<D: Desk>(
        &self,
        moment: u64,
        queue: &Outq,
        desk: &mut D,
    ) -> Result<ClockAnswer, WriteFault>
        requires base { base_of self.now.window ≤ 2 ^ 30 + window_size }
        requires whole { DeskValue.whole (D.value desk.old) ≡ true }
        requires moment { moment < moment_limit }
        ensures sends { IfOk result (λ answer. SendsAgain self.now queue.now moment (D.value desk.old) (D.value desk.new) false
            × (answer ≡ answer_again self.now queue.now)) }
        ensures broken { OnErr result (SendsAgain self.now queue.now moment (D.value desk.old) (D.value desk.new) true) }
        ensures frame { OnlyEmits (D.value desk.old) (D.value desk.new) (is_err result) }
    {
        if self.is_open() {
            return self.send_oldest(moment, queue, desk);
        }
        self.send_greeting(moment, desk)?;
        Ok(ClockAnswer::Repeated)
    }

    /// Whether the timer has expired.
    fn is_due(&self, moment: u64) -> bool
        ensures { result ≡ is_due self.now moment }
    {
        self.running && self.deadline <= moment
    }

    /// The moment in microseconds from which on a clock call does something; the greatest number where none will.
    pub fn due(&self) -> u64
        ensures { result ≡ due_of self.now }
    {
        if self.running {
            self.deadline
        } else {
            u64::MAX
        }
    }

    /// Whether it expired as often as it may.
    fn is_spent(&self) -> bool
        ensures { result ≡ not (nat_lt self.now.fired 6) }
    {
        self.fired >= MOST
    }

    /// The timer is set anew.
    fn fire(&mut self, moment: u64)
        requires few { nat_lt self.old.fired 6 ≡ true }
        requires moment { moment < moment_limit }
        ensures new { self.new ≡ record self.old { fired = self.old.fired + 1; deadline = moment + backoff (self.old.fired + 1) } }
    {
        self.fired += 1;
        self.deadline = moment + backoff(self.fired);
    }

    /// The clock stands at a moment. Where the retransmission timer has expired, the leg sends again what is unanswered:
    /// its SYN or SYN ACK, the oldest letters that are not acknowledged, or an empty segment. At the seventh time without
    /// an answer it sends nothing.
    pub fn on_clock<D: Desk>(
        &mut self,
        moment: u64,
        queue: &mut Outq,
        desk: &mut D,
    ) -> Result<ClockAnswer, WriteFault>
        requires base { base_of self.old.window ≤ 2 ^ 30 + window_size }
        requires whole { DeskValue.whole (D.value desk.old) ≡ true }
        requires moment { moment < moment_limit }
        ensures ends { self.new.ends ≡ self.old.ends }
        ensures kept { self.new.window ≡ self.old.window }
        ensures clocked { IfOk result (λ answer. Clocked moment self.old self.new queue.old answer (DeskValue.packets (D.value desk.old))
            (DeskValue.packets (D.value desk.new))) }
        ensures queue { queue.new ≡ queue.old }
        ensures broken { OnErr result (ClockBreaks moment self.old queue.old (D.value desk.old) (D.value desk.new)) }
        ensures frame { OnlyEmits (D.value desk.old) (D.value desk.new) (is_err result) }
    {
        if !self.is_due(moment) {
            return Ok(ClockAnswer::Quiet);
        }
        if self.is_spent() {
            return Ok(ClockAnswer::NoAnswer);
        }
        // The fact: the marks of the queue stand in their order.
        let _acked = acked_of(queue);
        let answer = self.send_again(moment, queue, desk)?;
        self.fire(moment);
        Ok(answer)
    }
}

/// The wait after the n-th firing, in microseconds.
fn backoff(n: u32) -> u64
    requires { n ≤ 6 }
    ensures value { result ≡ backoff n }
    ensures small { result ≤ 32 * 1000000 }
{
    (1_u64 << n).min(32) * SECOND
}

/// The sequence number before that of a letter.
fn number_before(own: u32, place: u64) -> u32
    requires { place ≤ 2 ^ 32 }
    ensures { result ≡ (own + place) % 2 ^ 32 }
{
    ((u64::from(own) + place) % (1 << 32)) as u32
}
