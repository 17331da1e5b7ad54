//! How an end opens: its SYN or SYN ACK, and the packet that opens it.
ghost use Rattle.std.specs.Prelude.{◌≡◌, ◌<◌, ◌≤◌, true, [], ◌∷◌};
ghost use Rattle.cf_outq.specs.SendQueue.{IsQueueOf};
ghost use Rattle.cf_packet.specs.Packet.{packet_value};
ghost use Rattle.cf_rebuild.specs.ReceiveWindow.{IsWindow};
ghost use Rattle.cf_stream.specs.Stream.{Stream};
ghost use Rattle.cf_leg.specs.Calls.{window_by, Greeted, IsOwn, greeted_as, greeting_of, leg_opened, queue_opened};
ghost use Rattle.cf_leg.specs.Emits.{send_mss};
ghost use Rattle.cf_leg.specs.Emitted.{GetsSegments};
ghost use Rattle.cf_leg.specs.LegValue.{IsLeg};
ghost use Rattle.cf_outside.specs.Desk.{DeskValue};
ghost use Rattle.cf_outside.specs.Frames.{OnlyEmits};
ghost use Rattle.std.specs.Result.{is_err};
ghost use Rattle.cf_view.specs.Moment.{moment_limit};

use super::{Leg, SECOND, WINDOW};
use crate::ends::{Phase, Role};
use crate::send::send;
use cf_outq::Outq;
use cf_outside::Desk;
use cf_packet::{ACK, Packet, SYN, sequence_number};
use cf_view::WriteFault;

impl Leg {
    /// The SYN or the SYN ACK is about to go out.
    fn begin(&mut self, moment: u64, number: u32)
        requires made { self.old.phase ≡ Phase.Made }
        requires moment { moment < moment_limit }
        ensures leg { IsLeg self.old }
        ensures window { IsWindow self.old.window }
        ensures new { self.new ≡ greeted_as self.old number moment }
    {
        // The fact: the window keeps its bounds.
        let _edge = self.window.edge();
        self.own = number;
        self.phase = Phase::Greeted;
        self.deadline = moment + SECOND;
        if let Role::Passive(_, _) = self.ends.role {
            self.window.open_to(WINDOW as i64);
        }
    }

    /// Sends the SYN of an active end, with the number that it was made with, or the SYN ACK of a passive one. Once in its
    /// life.
    pub fn greet<D: Desk>(
        &mut self,
        moment: u64,
        own_seq: u32,
        desk: &mut D,
    ) -> Result<(), WriteFault>
        requires made { self.old.phase ≡ Phase.Made }
        requires number { IsOwn self.old.ends.role own_seq }
        requires whole { DeskValue.whole (D.value desk.old) ≡ true }
        requires moment { moment < moment_limit }
        ensures ends { self.new.ends ≡ self.old.ends }
        ensures number { self.new.own ≡ own_seq }
        ensures window { self.new.window ≡ window_by self.old.ends.role self.old.window }
        ensures greeted { Greeted moment own_seq self.old self.new (D.value desk.old) (D.value desk.new) (is_err result) }
        ensures frame { OnlyEmits (D.value desk.old) (D.value desk.new) (is_err result) }
    {
        self.begin(moment, own_seq);
        self.send_greeting(moment, desk)
    }

    /// Sends the SYN or the SYN ACK.
    pub(super) fn send_greeting<D: Desk>(&self, moment: u64, desk: &mut D) -> Result<(), WriteFault>
        requires whole { DeskValue.whole (D.value desk.old) ≡ true }
        requires moment { moment < moment_limit }
        ensures gets { GetsSegments (is_err result) moment (greeting_of self.now ∷ []) (D.value desk.old) (D.value desk.new) }
        ensures frame { OnlyEmits (D.value desk.old) (D.value desk.new) (is_err result) }
    {
        let (ack, flags) = match self.ends.role {
            Role::Active(_) => (0, SYN),
            Role::Passive(_, _) => (sequence_number(self.other, 0), SYN + ACK),
        };
        let packet = Packet {
            source: self.ends.own,
            dest: self.ends.peer,
            seq: self.own,
            ack,
            flags,
            window: WINDOW as u16,
            mss: Some(1460),
            text: &[],
        };
        send(moment, &packet, desk)
    }

    /// The packet opened the leg, or did not. A SYN ACK tells the peer's number, its maximum segment size and an edge.
    pub(super) fn open_if(&mut self, opens: bool, packet: &Packet<'_>, queue: &mut Outq)
        ensures new { self.new ≡ leg_opened opens self.old (packet_value packet.now) }
        ensures queue { queue.new ≡ queue_opened opens self.old.ends.role queue.old (packet_value packet.now) }
        ensures stands { (whole : Stream) → IsQueueOf queue.old whole → IsQueueOf queue.new whole }
    {
        if !opens {
            return;
        }
        self.phase = Phase::Open;
        self.fired = 0;
        if let Role::Active(_) = self.ends.role {
            self.other = packet.seq;
            self.mss = send_mss(packet.mss);
            self.shown = self.shown.max(u64::from(packet.window));
            queue.shown(i64::from(packet.window));
        }
    }
}

/// The greatest text of a segment: the peer's maximum segment size in octets, between 64 and 1,460, and 536 where it told
/// none. RFC 9293, section 3.7.1; the bounds are this project's own.
pub(super) fn send_mss(mss: Option<u16>) -> usize
    ensures value { result ≡ send_mss mss }
    ensures some { 0 < result }
    ensures most { result ≤ 1460 }
{
    match mss {
        Some(mss) => usize::from(mss).max(64).min(1460),
        None => 536,
    }
}
