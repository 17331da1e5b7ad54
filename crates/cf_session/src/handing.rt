//! The bytes that a side's window has taken are handed to the lane.
//! Text and FIN behind a side's End count on its TCP end and draw an acknowledgement; the lane is not called for them.
ghost use Rattle.std.specs.Prelude.{◌≡◌, ℕ, ◌+◌, ◌*◌, ◌^◌, ◌<◌, ◌≤◌, Bool, true, false, List, ◌++◌, length, drop, IfOk, OnErr, OnOk, None};
ghost use Rattle.std.specs.Result.{is_err};
ghost use Rattle.cf_lane.specs.Follows.{IsEndBehindCut, Rests, rest_of, with_rest};
ghost use Rattle.cf_lane.specs.Handled.{CountsBy, EndsOther, Grows, HasRoom, IsLaneOf, IsOpen, MayEnd, debt, rest_limit};
ghost use Rattle.cf_lane.specs.History.{Element};
ghost use Rattle.cf_leg.specs.Event.{LegEvent};
ghost use Rattle.cf_leg.specs.LegValue.{IsLegOf, Marks};
ghost use Rattle.cf_outside.specs.Desk.{DeskValue};
ghost use Rattle.cf_outside.specs.Frames.{EmitsAndLogs, OnlyLogs};
ghost use Rattle.cf_policy.specs.Site.{IsSiteWithin};
ghost use Rattle.cf_rebuild.specs.ReceiveWindow.{IsWindow};
ghost use Rattle.cf_view.specs.declared.Endpoint.{Endpoint as EndpointOf};
ghost use Rattle.cf_session.specs.Stands.{most_owed};
ghost use Rattle.cf_session.specs.Told.{told};
ghost use Rattle.cf_session.specs.Turn.{AreUncut, FollowsAmid, FollowsMore, HandsOver};
ghost use Rattle.cf_session.specs.Work.{Work, fed_at};

use cf_audit::CutReason;
use cf_lane::{Fed, Lane, judgements_go_on, pieces_join, streams_go_on};
use cf_leg::Leg;
use cf_outq::Outq;
use cf_outside::Desk;
use cf_policy::Site;
use cf_view::{Side, View, WriteFault};

/// Hands bytes to the lane.
fn feed_lane<D: Desk>(
    lane: &mut Lane,
    site: &Site<'_>,
    moment: u64,
    side: Side,
    bytes: View<'_>,
    to_client: &mut Outq,
    to_controller: &mut Outq,
    desk: &mut D,
) -> Result<Fed, WriteFault>
    requires serves { IsLaneOf site.now lane.old }
    requires within { IsSiteWithin site.now }
    requires whole { DeskValue.whole (D.value desk.old) ≡ true }
    requires open { IsOpen side to_client.old to_controller.old }
    requires client_room { HasRoom (debt lane.old + 2 * length bytes.bytes) to_client.old }
    requires controller_room { HasRoom (debt lane.old + 2 * length bytes.bytes) to_controller.old }
    requires counts { lane.old.admitted + lane.old.refused + length bytes.bytes < 2 ^ 64 }
    ensures used { IfOk result (λ fed. fed.used ≤ length bytes.entry.bytes) }
    ensures left { IfOk result (λ fed. fed.cut ≡ None → length (drop fed.used bytes.entry.bytes) < rest_limit) }
    ensures follows { IfOk result (λ fed. (client : EndpointOf) (rests : Rests) (earlier : List Element) (before : Work)
        (piece : List ℕ) (ended : Bool) → IsEndBehindCut ended fed.cut
        → AreUncut site.now client rests earlier before lane.old to_client.old to_controller.old → bytes.entry.bytes ≡ rest_of side rests
        ++ piece
        → FollowsMore site.now client moment side (with_rest side rests (drop fed.used bytes.entry.bytes)) earlier before
        (record { bytes = piece; ended = ended }) lane.new to_client.new to_controller.new fed.cut
        (told (D.value desk.old)) (told (D.value desk.new))) }
    ensures broken { OnErr result ((client : EndpointOf) (rests : Rests) (earlier : List Element) (before : Work) (piece : List ℕ)
        (ended : Bool)
        → AreUncut site.now client rests earlier before lane.old to_client.old to_controller.old → bytes.entry.bytes ≡ rest_of side rests
        ++ piece
        → FollowsAmid site.now client moment side earlier before (record { bytes = piece; ended = ended }) (D.value desk.old)
        (D.value desk.new)) }
    ensures serves { OnOk result (IsLaneOf site.now lane.new) }
    ensures client_grows { IfOk result (λ fed. Grows (2 * fed.used) (debt lane.old) (debt lane.new) to_client.old to_client.new) }
    ensures controller_grows { IfOk result (λ fed. Grows (2 * fed.used) (debt lane.old) (debt lane.new) to_controller.old
        to_controller.new) }
    ensures debt { OnOk result (debt lane.new ≤ most_owed) }
    ensures counts { IfOk result (λ fed. CountsBy fed.used lane.old lane.new) }
    ensures frame { OnlyLogs (D.value desk.old) (D.value desk.new) (is_err result) }
{
    pieces_join();
    streams_go_on();
    judgements_go_on();
    // The fact: the bytes are octets.
    let _len = bytes.len();
    let fed = lane.feed(site, moment, side, bytes, to_client, to_controller, desk)?;
    Ok(fed)
}

/// Hands the End of a side to the lane, after bytes that were handed over at the same moment, perhaps none.
fn end_lane<D: Desk>(
    lane: &mut Lane,
    site: &Site<'_>,
    moment: u64,
    side: Side,
    rest: u64,
    to_client: &mut Outq,
    to_controller: &mut Outq,
    desk: &mut D,
) -> Result<(), WriteFault>
    requires serves { IsLaneOf site.now lane.old }
    requires within { IsSiteWithin site.now }
    requires whole { DeskValue.whole (D.value desk.old) ≡ true }
    requires open { IsOpen side to_client.old to_controller.old }
    requires limit { MayEnd side to_client.old to_controller.old }
    ensures follows { OnOk result ((client : EndpointOf) (rests : Rests) (earlier : List Element) (before : Work) (piece : List ℕ)
        (middle : Work)
        → AreUncut site.now client rests (earlier ++ fed_at moment side (record { bytes = piece; ended = false })) middle
        lane.old to_client.old to_controller.old → rest ≡ length (rest_of side rests)
        → FollowsMore site.now client moment side rests earlier middle (record { bytes = piece; ended = true })
        lane.new to_client.new to_controller.new None (told (D.value desk.old)) (told (D.value desk.new))) }
    ensures broken { OnErr result ((client : EndpointOf) (rests : Rests) (earlier : List Element) (before : Work) (piece : List ℕ)
        (middle : Work)
        → AreUncut site.now client rests (earlier ++ fed_at moment side (record { bytes = piece; ended = false })) middle
        lane.old to_client.old to_controller.old → rest ≡ length (rest_of side rests)
        → FollowsAmid site.now client moment side earlier middle (record { bytes = piece; ended = true }) (D.value desk.old)
        (D.value desk.new)) }
    ensures queues { OnOk result (EndsOther side to_client.old to_controller.old to_client.new to_controller.new) }
    ensures lane { lane.new ≡ lane.old }
    ensures frame { OnlyLogs (D.value desk.old) (D.value desk.new) (is_err result) }
{
    pieces_join();
    streams_go_on();
    lane.ended(site, moment, side, rest, to_client, to_controller, desk)?;
    Ok(())
}

/// The bytes that were taken and not consumed.
fn pending_of<'a>(leg: &'a Leg) -> View<'a>
    ensures value { result.bytes ≡ leg.now.window.pending }
    ensures bounds { IsWindow leg.now.window }
{
    // The fact: the window keeps its bounds.
    let _base = leg.window().base();
    leg.window().pending()
}

/// Whether End was taken.
pub(crate) fn has_ended(leg: &Leg) -> bool
    ensures value { result ≡ leg.now.window.ended }
    ensures bounds { IsWindow leg.now.window }
{
    // The fact: the window keeps its bounds.
    let _base = leg.window().base();
    leg.window().ended()
}

/// Hands the pending bytes of a leg to the lane, and its End where that was taken. Nothing is handed over once that was.
pub(crate) fn hand_over<D: Desk>(
    leg: &mut Leg,
    lane: &mut Lane,
    site: &Site<'_>,
    moment: u64,
    side: Side,
    to_client: &mut Outq,
    to_controller: &mut Outq,
    desk: &mut D,
) -> Result<Option<CutReason>, WriteFault>
    requires serves { IsLaneOf site.now lane.old }
    requires within { IsSiteWithin site.now }
    requires whole { DeskValue.whole (D.value desk.old) ≡ true }
    requires open { IsOpen side to_client.old to_controller.old }
    requires client_room { HasRoom (debt lane.old + 2 * length (leg.old.window.pending)) to_client.old }
    requires controller_room { HasRoom (debt lane.old + 2 * length (leg.old.window.pending)) to_controller.old }
    requires counts { lane.old.admitted + lane.old.refused + length (leg.old.window.pending) < 2 ^ 64 }
    ensures follows { IfOk result (λ cut. (client : EndpointOf) (rests : Rests) (earlier : List Element) (before : Work) (piece : List ℕ)
        → AreUncut site.now client rests earlier before lane.old to_client.old to_controller.old
        → leg.old.window.pending ≡ rest_of side rests ++ piece
        → FollowsMore site.now client moment side (with_rest side rests leg.new.window.pending) earlier before
        (record { bytes = piece; ended = leg.old.window.ended }) lane.new to_client.new to_controller.new cut
        (told (D.value desk.old)) (told (D.value desk.new))) }
    ensures broken { OnErr result ((client : EndpointOf) (rests : Rests) (earlier : List Element) (before : Work) (piece : List ℕ)
        → AreUncut site.now client rests earlier before lane.old to_client.old to_controller.old
        → leg.old.window.pending ≡ rest_of side rests ++ piece
        → FollowsAmid site.now client moment side earlier before (record { bytes = piece; ended = leg.old.window.ended })
        (D.value desk.old) (D.value desk.new)) }
    ensures serves { OnOk result (IsLaneOf site.now lane.new) }
    ensures rest { IfOk result (λ cut. cut ≡ None → length leg.new.window.pending < rest_limit) }
    ensures leg { OnOk result (leg.new ≡ record leg.old { window = leg.new.window }) }
    ensures stands { OnOk result ((m : Marks) (es : List LegEvent) → IsLegOf leg.old m es → IsLegOf leg.new m es) }
    ensures numbers { OnOk result (HandsOver side leg.old.window leg.new.window lane.old lane.new to_client.old to_client.new
        to_controller.old to_controller.new) }
    ensures frame { EmitsAndLogs (D.value desk.old) (D.value desk.new) (is_err result) }
{
    let Fed { used, cut } = feed_lane(
        lane,
        site,
        moment,
        side,
        pending_of(leg),
        to_client,
        to_controller,
        desk,
    )?;
    leg.consume(used);
    if cut.is_some() {
        return Ok(cut);
    }
    if !has_ended(leg) {
        return Ok(None);
    }
    let rest = pending_of(leg).len() as u64;
    end_lane(
        lane,
        site,
        moment,
        side,
        rest,
        to_client,
        to_controller,
        desk,
    )?;
    Ok(None)
}
