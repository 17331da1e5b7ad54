//! What does not fit in a packet.
ghost use Rattle.std.specs.Prelude.{◌≡◌, ◌<◌, ◌≤◌, ◌/◌, ◌%◌, ◌^◌, ◌==◌, List, ◌∷◌, length};
ghost use Rattle.cf_leg.specs.Segment.{is_opening};
ghost use Rattle.cf_packet.specs.Packet.{packet_value};
ghost use Rattle.cf_session.specs.Misfit.{acknowledges_unsent, ends_beyond, is_probe, misfit_by, misfit_of, number_after, reach_by};
ghost use Rattle.cf_session.specs.Misfit.{segment_length, stands_past};
ghost use Rattle.cf_session.specs.Session.{Flow, SessionEvent};
ghost use Rattle.cf_session.specs.Stands.{IsSessionOf};

use crate::session::Session;
use cf_leg::Leg;
use cf_outq::Outq;
use cf_packet::{ACK, FIN, Packet, RST, SYN, sequence_number};
use cf_view::Side;

/// What does not fit in a segment that came from a side of a session. This project's own.
#[derive(Clone, Copy)]
pub enum Misfit {
    /// It fits.
    Nothing,
    /// It acknowledges what the box had not sent to that side.
    Above,
    /// It ends beyond the edge that the box had told that side.
    Beyond,
}

/// What the box had sent to a side, and told it. RFC 9293, section 3.3.1.
#[derive(Clone, Copy)]
pub(crate) struct Reach {
    /// SND.NXT: the sequence number after the last letter that was sent, once something was.
    pub(crate) next: Option<u32>,
    /// RCV.NXT + RCV.WND, once they were told.
    pub(crate) edge: Option<u32>,
}

impl Session {
    /// What does not fit in a packet that comes from a side, before the session is handed it.
    pub fn misfit(&self, side: Side, packet: &Packet<'_>) -> Misfit
        requires text { length packet.now.text.now ≤ 65535 }
        ensures value { (flow : Flow) (earlier : List SessionEvent) (event : SessionEvent) → IsSessionOf flow earlier event self.now
            → result ≡ misfit_of flow (event ∷ earlier) side (packet_value packet.now) }
    {
        let client = self.client.peer_origin().unwrap_or(0);
        let controller = self.controller.peer_origin();
        match side {
            Side::Client => misfit_at(
                side,
                client,
                controller,
                &self.client,
                &self.to_client,
                packet,
            ),
            Side::Controller => misfit_at(
                side,
                client,
                controller,
                &self.controller,
                &self.to_controller,
                packet,
            ),
        }
    }
}

/// What does not fit in a packet that comes from a side, whose end and whose queue these are; the numbers of both SYNs are told.
fn misfit_at(
    side: Side,
    client: u32,
    controller: Option<u32>,
    leg: &Leg,
    queue: &Outq,
    packet: &Packet<'_>,
) -> Misfit
    requires text { length packet.now.text.now ≤ 65535 }
    ensures { result ≡ misfit_by (reach_by side client controller queue.now.sent leg.now.window.edge) (packet_value packet.now) }
{
    let sent = queue.sent() as u64;
    let edge = leg.window().edge() as u64;
    misfit_by(&reach_by(side, client, controller, sent, edge), packet)
}

/// What was sent to a side and told it, by the numbers of the SYNs, how many letters were sent to it, and the edge that it was told.
fn reach_by(side: Side, client: u32, controller: Option<u32>, sent: u64, edge: u64) -> Reach
    requires sent { sent ≤ 2 ^ 31 }
    requires edge { edge ≤ 2 ^ 31 }
    ensures { result ≡ reach_by side client controller sent edge }
{
    match (side, controller) {
        (Side::Client, None) => Reach {
            next: None,
            edge: None,
        },
        (Side::Client, Some(controller)) => Reach {
            next: Some(sequence_number(controller, sent)),
            edge: Some(sequence_number(client, edge)),
        },
        (Side::Controller, None) => Reach {
            next: Some(sequence_number(client, sent)),
            edge: None,
        },
        (Side::Controller, Some(controller)) => Reach {
            next: Some(sequence_number(client, sent)),
            edge: Some(sequence_number(controller, edge)),
        },
    }
}

/// What does not fit in a segment of that side.
fn misfit_by(reach: &Reach, packet: &Packet<'_>) -> Misfit
    requires text { length packet.now.text.now ≤ 65535 }
    ensures { result ≡ misfit_by reach.now (packet_value packet.now) }
{
    if has(packet, RST) || is_opening(packet) {
        Misfit::Nothing
    } else if has(packet, ACK) && acknowledges_unsent(reach.next, packet) {
        Misfit::Above
    } else if ends_beyond(reach.edge, packet) {
        Misfit::Beyond
    } else {
        Misfit::Nothing
    }
}

/// Whether a packet acknowledges more than was sent.
fn acknowledges_unsent(next: Option<u32>, packet: &Packet<'_>) -> bool
    ensures { result ≡ acknowledges_unsent next (packet_value packet.now) }
{
    match next {
        None => true,
        Some(next) => stands_past(packet.ack, next),
    }
}

/// Whether a packet ends beyond the edge that was told; a probe of that edge does not.
fn ends_beyond(edge: Option<u32>, packet: &Packet<'_>) -> bool
    requires text { length packet.now.text.now ≤ 65535 }
    ensures { result ≡ ends_beyond edge (packet_value packet.now) }
{
    match edge {
        None => false,
        Some(edge) => !is_probe(edge, packet) && stands_past(number_after(packet), edge),
    }
}

fn is_probe(edge: u32, packet: &Packet<'_>) -> bool
    requires text { length packet.now.text.now ≤ 65535 }
    ensures { result ≡ is_probe edge (packet_value packet.now) }
{
    segment_length(packet) == 1 && packet.seq == edge
}

/// The sequence number after a packet.
fn number_after(packet: &Packet<'_>) -> u32
    requires text { length packet.now.text.now ≤ 65535 }
    ensures { result ≡ number_after (packet_value packet.now) }
{
    packet.seq.wrapping_add(segment_length(packet))
}

/// How many sequence numbers a packet takes.
fn segment_length(packet: &Packet<'_>) -> u32
    requires text { length packet.now.text.now ≤ 65535 }
    ensures { result ≡ segment_length (packet_value packet.now) }
{
    packet.text.len() as u32 + u32::from(has(packet, FIN)) + u32::from(has(packet, SYN))
}

/// Whether a number stands past another, less than 2^31 from it. RFC 9293, section 3.4.
fn stands_past(number: u32, other: u32) -> bool
    ensures { result ≡ stands_past number other }
{
    let distance = number.wrapping_sub(other);
    0 < distance && distance < 1 << 31
}

/// Whether a packet has SYN without ACK, RST and FIN.
fn is_opening(packet: &Packet<'_>) -> bool
    ensures { result ≡ is_opening (packet_value packet.now) }
{
    has(packet, SYN) && !(has(packet, ACK) || has(packet, RST) || has(packet, FIN))
}

/// Whether a flag is set, which is one bit.
fn has(packet: &Packet<'_>, flag: u8) -> bool
    requires { 0 < flag }
    ensures { result ≡ (packet.now.flags / flag % 2 == 1) }
{
    packet.flags / flag % 2 == 1
}
