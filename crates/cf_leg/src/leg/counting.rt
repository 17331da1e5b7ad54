//! How an end takes in a packet of its peer.
ghost use Rattle.std.specs.Prelude.{◌≡◌, ◌+◌, ◌-◌, ◌^◌, ◌<◌, ◌≤◌, max, if◌then◌else◌, true, List, ◌∷◌};
ghost use Rattle.std.specs.Prelude.{length, pos, negsuc, ◌≤ℤ◌, ◌+ℤ◌};
ghost use Rattle.cf_outq.specs.SendQueue.{IsQueue};
ghost use Rattle.cf_outq.specs.SendQueue.{IsQueueOf};
ghost use Rattle.cf_packet.specs.Packet.{packet_value};
ghost use Rattle.cf_rebuild.specs.ReceiveWindow.{IsWindow, base_of};
ghost use Rattle.cf_rebuild.specs.ReceiveWindow.{IsWindowOf};
ghost use Rattle.cf_stream.specs.FirstCopy.{Offer};
ghost use Rattle.cf_leg.specs.Segment.{letters_in};
ghost use Rattle.cf_stream.specs.Sizes.{window_size};
ghost use Rattle.cf_stream.specs.Stream.{Stream};
ghost use Rattle.cf_leg.specs.Calls.{KeepsList, Continues, Newly, Counts, Heard, end_state_of, queue_counted, rises_by};
ghost use Rattle.cf_leg.specs.Heard.{ack_place, text_place};
ghost use Rattle.cf_stream.specs.Position.{place_or_zero};
ghost use Rattle.cf_leg.specs.LegValue.{IsLeg};
ghost use Rattle.cf_view.specs.Moment.{moment_limit};

use super::{Leg, SECOND};
use crate::ends::{EndState, LegAnswer};
use crate::heard::{ack_place, answer_to, counts, has_fin, has_opened, owes, text_place};
use crate::send::{acked_of, place_or_zero};
use cf_outq::Outq;
use cf_packet::Packet;
use cf_rebuild::Rebuild;

impl Leg {
    /// The leg as a packet finds it.
    fn state(&self, queue: &Outq) -> EndState
        ensures value { result ≡ end_state_of self.now queue.now }
        ensures bounds { IsWindow self.now.window }
        ensures queue { IsQueue queue.now }
        ensures leg { IsLeg self.now }
    {
        EndState {
            role: self.ends.role,
            is_greeted: self.is_greeted(),
            is_open: self.is_open(),
            own: self.own,
            other: self.other,
            told: self.told(),
            sent: place_or_zero(queue.sent()),
        }
    }

    /// The packet counts, or does not: it acknowledges letters, shows an edge, and offers its letters.
    fn count_if(
        &mut self,
        moment: u64,
        counts: bool,
        at: &EndState,
        packet: &Packet<'_>,
        queue: &mut Outq,
    )
        requires text { length packet.now.text.now ≤ 65535 }
        requires told { at.now.told.base ≤ 2 ^ 31 }
        requires sent { at.now.sent ≤ 2 ^ 31 }
        requires acked { counts ≡ true → ack_place at.now (packet_value packet.now) ≤ℤ pos queue.old.sent }
        requires moment { moment < moment_limit }
        ensures counts { Counts counts at.now moment (packet_value packet.now) self.old self.new queue.old queue.new }
        ensures window { Continues self.old.window self.new.window }
        ensures stands { (whole : Stream) → IsQueueOf queue.old whole → IsQueueOf queue.new whole }
    {
        if !counts {
            return;
        }
        let rises = rises(at, packet, acked_of(queue), self.shown);
        self.deadline = deadline_after(rises, moment, self.deadline);
        self.fired = 0;
        self.shown = shown_after(at, packet, self.shown);
        acknowledge(at, packet, queue);
        offer(at, packet, &mut self.window);
    }

    /// Takes in a packet of the peer.
    pub fn on_segment(&mut self, moment: u64, packet: &Packet<'_>, queue: &mut Outq) -> LegAnswer
        requires base { base_of self.old.window ≤ 2 ^ 30 + window_size }
        requires text { length packet.now.text.now ≤ 65535 }
        requires moment { moment < moment_limit }
        ensures ends { self.new.ends ≡ self.old.ends }
        ensures heard { Heard moment (packet_value packet.now) self.old self.new queue.old queue.new result }
        ensures newly { Newly moment (packet_value packet.now) self.old self.new queue.old }
        ensures window { Continues self.old.window self.new.window }
        ensures queue { KeepsList queue.old queue.new }
        ensures stands { (whole : Stream) → IsQueueOf queue.old whole → IsQueueOf queue.new whole }
    {
        let state = self.state(queue);
        let answer = answer_to(&state, packet);
        self.open_if(has_opened(answer), packet, queue);
        self.count_if(moment, counts(state.role, answer), &state, packet, queue);
        self.owes = owes(state.role, packet, answer);
        answer
    }
}

/// The greater of an edge and one that was shown.
fn greatest(shown: u64, edge: i64) -> u64
    requires shown { shown < 2 ^ 33 }
    requires edge { edge ≤ℤ pos (2 ^ 33) }
    ensures { result ≡ max shown (place_or_zero edge) }
{
    if edge > shown as i64 {
        place_or_zero(edge)
    } else {
        shown
    }
}

/// Whether a packet acknowledges a letter or shows a greater edge.
fn rises(at: &EndState, packet: &Packet<'_>, acked: u64, shown: u64) -> bool
    requires sent { at.now.sent ≤ 2 ^ 31 }
    requires acked { acked < 2 ^ 33 }
    requires shown { shown < 2 ^ 33 }
    ensures { result ≡ rises_by acked shown (ack_place at.now (packet_value packet.now)) packet.now.window }
{
    greatest(acked, ack_place(at, packet)) > acked || shown_after(at, packet, shown) > shown
}

/// The greatest edge shown once a packet counts.
fn shown_after(at: &EndState, packet: &Packet<'_>, shown: u64) -> u64
    requires sent { at.now.sent ≤ 2 ^ 31 }
    requires shown { shown < 2 ^ 33 }
    ensures value { result ≡ max shown (place_or_zero (ack_place at.now (packet_value packet.now) +ℤ pos packet.now.window)) }
    ensures small { result < 2 ^ 33 }
{
    greatest(shown, edge_shown(ack_place(at, packet), packet.window))
}

/// The edge that a packet shows.
fn edge_shown(ack: i64, window: u16) -> i64
    requires from { negsuc (2 ^ 33) ≤ℤ ack }
    requires to { ack ≤ℤ pos (2 ^ 33 - 65536) }
    ensures value { result ≡ (ack +ℤ pos window) }
    ensures to { result ≤ℤ (ack +ℤ pos 65535) }
{
    ack + i64::from(window)
}

/// The peer has the letters below a place, and lets in a window from there on.
fn acknowledge(at: &EndState, packet: &Packet<'_>, queue: &mut Outq)
    requires carried { at.now.sent ≤ 2 ^ 31 }
    requires sent { ack_place at.now (packet_value packet.now) ≤ℤ pos queue.old.sent }
    ensures new { queue.new ≡ queue_counted true queue.old (ack_place at.now (packet_value packet.now)) packet.now.window }
    ensures stands { (whole : Stream) → IsQueueOf queue.old whole → IsQueueOf queue.new whole }
{
    queue.acked(ack_place(at, packet));
    queue.shown(edge_shown(ack_place(at, packet), packet.window));
}

/// Offers the letters of a packet.
fn offer(at: &EndState, packet: &Packet<'_>, window: &mut Rebuild)
    requires told { at.now.told.base ≤ 2 ^ 31 }
    requires text { length packet.now.text.now ≤ 65535 }
    ensures stands { (os : List Offer) → IsWindowOf window.old os
        → IsWindowOf window.new (record {
          at = text_place at.now (packet_value packet.now);
          text = letters_in (packet_value packet.now);
          edge = window.old.edge;
        } ∷ os) }
    ensures grows { base_of window.old ≤ base_of window.new }
    ensures edge { window.new.edge ≡ window.old.edge }
    ensures window { Continues window.old window.new }
{
    window.offer(text_place(at, packet), packet.text, has_fin(packet));
}

/// The deadline a second on, or the old one.
fn deadline_after(rises: bool, moment: u64, deadline: u64) -> u64
    requires { moment < moment_limit }
    ensures { result ≡ (if rises then moment + 1000000 else deadline) }
{
    if rises { moment + SECOND } else { deadline }
}
