//! What an end says at the end of an event.
ghost use Rattle.std.specs.Prelude.{◌≡◌, ◌+◌, ◌^◌, ◌<◌, ◌≤◌, ◌||◌, true, false};
ghost use Rattle.std.specs.Prelude.{OnErr, OnOk};
ghost use Rattle.cf_outq.specs.SendQueue.{IsQueueOf};
ghost use Rattle.cf_rebuild.specs.ReceiveWindow.{IsWindow, base_of};
ghost use Rattle.cf_stream.specs.Sizes.{window_size};
ghost use Rattle.cf_stream.specs.Stream.{Stream};
ghost use Rattle.cf_leg.specs.Calls.{AddressBreaks, SpeakingBreaks, Widens, IsTold, Addressed, Spoken, rearmed};
ghost use Rattle.cf_leg.specs.Emits.{differs};
ghost use Rattle.cf_leg.specs.LegValue.{IsLeg, is_open};
ghost use Rattle.cf_outside.specs.Desk.{DeskValue};
ghost use Rattle.cf_outside.specs.Frames.{OnlyEmits};
ghost use Rattle.std.specs.Result.{is_err};
ghost use Rattle.cf_view.specs.Moment.{moment_limit};

use super::{Leg, SECOND};
use crate::ends::Advertised;
use crate::send::say;
use cf_outq::Outq;
use cf_outside::Desk;
use cf_view::WriteFault;

impl Leg {
    /// Tells a base and an edge, and what is due.
    fn tell(&mut self, told: Advertised)
        requires is_open { is_open self.old.phase ≡ true }
        requires grows { self.old.window.edge ≤ told.edge }
        requires base { told.base ≡ base_of self.old.window }
        requires near { told.edge ≤ told.base + window_size }
        requires room { told.edge ≤ self.old.window.consumed + 32768 }
        requires limit { told.edge ≤ 2 ^ 31 }
        ensures new { self.new ≡ record self.old { base = told.base; window = record self.old.window { edge = told.edge }; owes = false } }
    {
        self.window.open_to(told.edge as i64);
        self.base = told.base;
        self.owes = false;
    }

    /// An open leg says what it has to say.
    fn address<D: Desk>(
        &mut self,
        moment: u64,
        roomy: bool,
        queue: &mut Outq,
        desk: &mut D,
    ) -> Result<(), WriteFault>
        requires base { base_of self.old.window ≤ 2 ^ 30 + window_size }
        requires room { roomy ≡ true → base_of self.old.window ≤ self.old.window.consumed + window_size }
        requires whole { DeskValue.whole (D.value desk.old) ≡ true }
        requires moment { moment < moment_limit }
        ensures bounds { IsLeg self.old }
        ensures window { IsWindow self.old.window }
        ensures addressed { OnOk result (Addressed roomy moment self.old self.new queue.old queue.new (DeskValue.packets (D.value desk.old))
            (DeskValue.packets (D.value desk.new))) }
        ensures stands { (whole : Stream) → IsQueueOf queue.old whole → IsQueueOf queue.new whole }
        ensures broken { OnErr result (AddressBreaks roomy moment self.old queue.old (D.value desk.old) (D.value desk.new)) }
        ensures frame { OnlyEmits (D.value desk.old) (D.value desk.new) (is_err result) }
    {
        let told = self.told();
        if !self.is_open() {
            return Ok(());
        }
        let way = self.way();
        let tell = self.to_tell(roomy);
        let is_due = is_due(self.owes, told, tell);
        self.tell(tell);
        say(way, moment, tell, self.mss, is_due, queue, desk)?;
        Ok(())
    }

    /// Starts the timer where something is unanswered and it did not run.
    fn rearm(&mut self, moment: u64, queue: &Outq)
        requires moment { moment < moment_limit }
        ensures new { self.new ≡ rearmed self.old queue.now moment }
    {
        let arms = self.arms(queue);
        if arms && !self.running {
            self.deadline = moment + SECOND;
        }
        self.running = arms;
        self.owes = false;
    }

    /// Ends an event: an open leg sends every letter that its peer lets in, in pieces of at most its maximum segment size;
    /// or, where there is none, an acknowledgment if one is owed or the base or the edge to be told differs from those
    /// told. `roomy` says that few letters are unacknowledged in both directions.
    pub fn speak<D: Desk>(
        &mut self,
        moment: u64,
        roomy: bool,
        queue: &mut Outq,
        desk: &mut D,
    ) -> Result<(), WriteFault>
        requires base { base_of self.old.window ≤ 2 ^ 30 + window_size }
        requires room { roomy ≡ true → base_of self.old.window ≤ self.old.window.consumed + window_size }
        requires whole { DeskValue.whole (D.value desk.old) ≡ true }
        requires moment { moment < moment_limit }
        ensures ends { OnOk result (self.new.ends ≡ self.old.ends) }
        ensures window { OnOk result (Widens roomy self.old.window self.new.window) }
        ensures queue { OnOk result (queue.new ≡ record queue.old { sent = queue.new.sent }) }
        ensures told { OnOk result (is_open self.old.phase ≡ true → IsTold roomy self.old.window self.new) }
        ensures spoken { OnOk result (Spoken roomy moment self.old self.new queue.old queue.new (DeskValue.packets (D.value desk.old))
            (DeskValue.packets (D.value desk.new))) }
        ensures stands { (whole : Stream) → IsQueueOf queue.old whole → IsQueueOf queue.new whole }
        ensures broken { OnErr result (SpeakingBreaks roomy moment self.old queue.old (D.value desk.old) (D.value desk.new)) }
        ensures frame { OnlyEmits (D.value desk.old) (D.value desk.new) (is_err result) }
    {
        self.address(moment, roomy, queue, desk)?;
        self.rearm(moment, queue);
        Ok(())
    }
}

/// Whether an acknowledgment is due: one is owed, or something new is to be told.
fn is_due(owes: bool, told: Advertised, tell: Advertised) -> bool
    ensures { result ≡ (owes || differs told tell) }
{
    owes || !(told.base == tell.base) || !(told.edge == tell.edge)
}
