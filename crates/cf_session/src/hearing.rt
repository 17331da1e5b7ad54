//! A packet of a side is heard: its leg takes it in, and what it brings is handed over.
ghost use Rattle.std.specs.Prelude.{◌≡◌, ◌+◌, ◌^◌, ◌<◌, ◌≤◌, true, List, ◌∷◌, length, IfOk, OnErr, OnOk};
ghost use Rattle.std.specs.Result.{is_err};
ghost use Rattle.cf_lane.specs.Follows.{Rests, rest_of};
ghost use Rattle.cf_lane.specs.Handled.{IsLaneOf};
ghost use Rattle.cf_lane.specs.History.{Element, taken};
ghost use Rattle.cf_leg.specs.Calls.{Continues, Heard as LegHeard, KeepsList, Newly};
ghost use Rattle.cf_leg.specs.Event.{LegEvent, Nothing, Unspoken};
ghost use Rattle.cf_leg.specs.Event as leg_event;
ghost use Rattle.cf_leg.specs.Heard.{offers};
ghost use Rattle.cf_leg.specs.declared.Ends.{Ends};
ghost use Rattle.cf_outq.specs.SendQueue.{IsQueueOf};
ghost use Rattle.cf_outside.specs.Desk.{DeskValue};
ghost use Rattle.cf_outside.specs.Frames.{EmitsAndLogs};
ghost use Rattle.cf_packet.specs.Packet.{packet_value};
ghost use Rattle.cf_policy.specs.Site.{IsSiteWithin};
ghost use Rattle.cf_rebuild.specs.ReceiveWindow.{base_of};
ghost use Rattle.cf_stream.specs.FirstCopy.{IsTaken, first_copy};
ghost use Rattle.cf_stream.specs.Sizes.{window_size};
ghost use Rattle.cf_stream.specs.Stream.{Stream};
ghost use Rattle.cf_view.specs.declared.Endpoint.{Endpoint as EndpointOf};
ghost use Rattle.cf_session.specs.Parts.{IsLegBetween, other_queue, own_queue};
ghost use Rattle.cf_session.specs.Told.{told};
ghost use Rattle.cf_session.specs.Turn.{AreUncut, Hearing, HearingAmid, KeepsRoom, MayHear};
ghost use Rattle.cf_session.specs.Work.{Work};
ghost use Rattle.cf_view.specs.Moment.{moment_limit};

use crate::handing::{hand_over, has_ended};
use cf_audit::CutReason;
use cf_lane::Lane;
use cf_leg::{Leg, LegAnswer};
use cf_outq::Outq;
use cf_outside::Desk;
use cf_packet::Packet;
use cf_policy::Site;
use cf_view::{Side, WriteFault};

/// What became of a packet.
#[derive(Clone, Copy)]
pub(crate) struct Heard {
    /// What its leg made of it.
    pub(crate) answer: LegAnswer,
    /// Why the lane cuts the session, if it does.
    pub(crate) cut: Option<CutReason>,
}

/// The leg of a side takes in a packet. Its queue is that to this side.
fn take_in(
    leg: &mut Leg,
    moment: u64,
    side: Side,
    packet: &Packet<'_>,
    to_client: &mut Outq,
    to_controller: &mut Outq,
) -> LegAnswer
    requires base { base_of leg.old.window ≤ 2 ^ 30 + window_size }
    requires text { length packet.now.text.now ≤ 65535 }
    requires moment { moment < moment_limit }
    ensures ends { leg.new.ends ≡ leg.old.ends }
    ensures heard { LegHeard moment (packet_value packet.now) leg.old leg.new (own_queue side to_client.old to_controller.old)
        (own_queue side to_client.new to_controller.new) result }
    ensures newly { Newly moment (packet_value packet.now) leg.old leg.new (own_queue side to_client.old to_controller.old) }
    ensures window { Continues leg.old.window leg.new.window }
    ensures client { KeepsList to_client.old to_client.new }
    ensures controller { KeepsList to_controller.old to_controller.new }
    ensures other { other_queue side to_client.new to_controller.new ≡ other_queue side to_client.old to_controller.old }
    ensures client_stands { (whole : Stream) → IsQueueOf to_client.old whole → IsQueueOf to_client.new whole }
    ensures controller_stands { (whole : Stream) → IsQueueOf to_controller.old whole → IsQueueOf to_controller.new whole }
{
    match side {
        Side::Client => leg.on_segment(moment, packet, to_client),
        Side::Controller => leg.on_segment(moment, packet, to_controller),
    }
}

/// A packet of a side is heard, and what it brings is handed over. Nothing is handed over once the End of the side was.
pub(crate) fn hear<D: Desk>(
    leg: &mut Leg,
    lane: &mut Lane,
    site: &Site<'_>,
    moment: u64,
    side: Side,
    packet: &Packet<'_>,
    to_client: &mut Outq,
    to_controller: &mut Outq,
    desk: &mut D,
) -> Result<Heard, WriteFault>
    requires serves { IsLaneOf site.now lane.old }
    requires within { IsSiteWithin site.now }
    requires text { length packet.now.text.now ≤ 65535 }
    requires moment { moment < moment_limit }
    requires whole { DeskValue.whole (D.value desk.old) ≡ true }
    requires room { MayHear side leg.old lane.old to_client.old to_controller.old }
    ensures hears { IfOk result (λ heard. (ends : Ends) (client : EndpointOf) (e : LegEvent) (es : List LegEvent) (rests : Rests)
        (earlier : List Element) (before : Work)
        → moment ≡ leg_event.moment e → IsLegBetween ends leg.old (own_queue side to_client.old to_controller.old)
        (record e { came = Nothing; ending = Unspoken } ∷ es)
        → AreUncut site.now client rests earlier before lane.old to_client.old to_controller.old
        → rest_of side rests ≡ leg.old.window.pending
        → IsTaken (first_copy (offers ends.role es)) (taken side earlier)
        → Hearing side ends site.now client moment e es (packet_value packet.now) rests earlier before leg.new lane.new to_client.new
        to_controller.new heard.answer heard.cut
        (told (D.value desk.old)) (told (D.value desk.new))) }
    ensures broken { OnErr result ((ends : Ends) (client : EndpointOf) (e : LegEvent) (es : List LegEvent) (rests : Rests)
        (earlier : List Element) (before : Work)
        → moment ≡ leg_event.moment e → IsLegBetween ends leg.old (own_queue side to_client.old to_controller.old)
        (record e { came = Nothing; ending = Unspoken } ∷ es)
        → AreUncut site.now client rests earlier before lane.old to_client.old to_controller.old
        → rest_of side rests ≡ leg.old.window.pending
        → IsTaken (first_copy (offers ends.role es)) (taken side earlier)
        → HearingAmid side ends site.now client moment e es (packet_value packet.now) earlier before (D.value desk.old)
        (D.value desk.new)) }
    ensures ends { OnOk result (leg.new.ends ≡ leg.old.ends) }
    ensures serves { OnOk result (IsLaneOf site.now lane.new) }
    ensures room { IfOk result (λ heard. KeepsRoom side leg.old.window leg.new.window lane.old lane.new to_client.old to_client.new
        to_controller.old to_controller.new heard.cut) }
    ensures frame { EmitsAndLogs (D.value desk.old) (D.value desk.new) (is_err result) }
{
    let had_ended = has_ended(leg);
    let answer = take_in(leg, moment, side, packet, to_client, to_controller);
    // The fact: the window keeps its bounds.
    let _ended = has_ended(leg);
    if had_ended {
        return Ok(Heard { answer, cut: None });
    }
    let cut = hand_over(
        leg,
        lane,
        site,
        moment,
        side,
        to_client,
        to_controller,
        desk,
    )?;
    Ok(Heard { answer, cut })
}
