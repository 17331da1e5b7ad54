//! What becomes of a frame.
ghost use Rattle.std.specs.Prelude.{◌≡◌, ◌+◌, ◌*◌, [], true, if◌then◌else◌, IfOk, OnOk, OnErr, length};
ghost use Rattle.std.specs.Result.{is_err};
ghost use Rattle.cf_dnplink.specs.LinkFrame.{IsFrame, frame_value};
ghost use Rattle.cf_outq.specs.SendQueue.{after_push};
ghost use Rattle.cf_outside.specs.Desk.{DeskValue};
ghost use Rattle.cf_lane.specs.Rings.{IsRulesOf, says_by};
ghost use Rattle.cf_policy.specs.Within.{IsAssetWithin};
ghost use Rattle.cf_lane.specs.Fragments.{MissesFrame, TakesFrame, parts};
ghost use Rattle.cf_lane.specs.Handled.{Grows, HasRoom, IsOpen};
ghost use Rattle.cf_lane.specs.History.{is_side};
ghost use Rattle.cf_lane.specs.Kept.{AreFragments, owed_by};
ghost use Rattle.cf_lane.specs.Unit.{frame_spelling};
ghost use Rattle.cf_lane.specs.Logging.{LogsLines};

use crate::dnp3::served::{is_data, stray_of};
use crate::fate::Fate;
use crate::lane::push_octets;
use crate::log::log_stray;
use crate::rules::Rules;
use crate::wire::Fragments;
use cf_dnplink::Frame;
use cf_outq::Outq;
use cf_outside::Desk;
use cf_policy::Asset;
use cf_view::{Endpoint, Side, View, WriteFault};

impl Fragments {
    /// Takes a frame of a side, which has these octets, by its fate: one that is not served goes nowhere, a link status frame goes
    /// on as it is, and a data frame does what its segment does to the fragment of its side.
    pub(crate) fn take_frame<D: Desk>(
        &mut self,
        asset: &Asset,
        rules: &Rules,
        client: &Endpoint,
        moment: u64,
        side: Side,
        frame: &Frame<'_>,
        octets: &View<'_>,
        to_client: &mut Outq,
        to_controller: &mut Outq,
        desk: &mut D,
    ) -> Result<Fate, WriteFault>
        requires rules { IsRulesOf asset.now client.now.address rules.now }
        requires within { IsAssetWithin asset.now }
        requires desk { DeskValue.whole (D.value desk.old) ≡ true }
        requires are { AreFragments self.old }
        requires frame { IsFrame (frame_value frame.now) }
        requires octets { octets.now.bytes ≡ frame_spelling (frame_value frame.now) }
        requires open { IsOpen side to_client.old to_controller.old }
        requires client_room { HasRoom (owed_by self.old + 2 * length octets.now.bytes) to_client.old }
        requires controller_room { HasRoom (owed_by self.old + 2 * length octets.now.bytes) to_controller.old }
        ensures takes { IfOk result (λ f. TakesFrame asset.now (says_by asset.now client.now.address rules.now moment) client.now moment
            side (frame_value frame.now) f
            (parts self.old to_client.old to_controller.old (DeskValue.lines (D.value desk.old)))
            (parts self.new to_client.new to_controller.new (DeskValue.lines (D.value desk.new)))) }
        ensures misses { OnErr result (MissesFrame asset.now (says_by asset.now client.now.address rules.now moment) client.now moment side
            (frame_value frame.now)
            (parts self.old to_client.old to_controller.old (DeskValue.lines (D.value desk.old)))
            (DeskValue.lines (D.value desk.new)) (DeskValue.line_part (D.value desk.new))) }
        ensures are { OnOk result (AreFragments self.new) }
        ensures client_grows { OnOk result (Grows (2 * length octets.now.bytes) (owed_by self.old) (owed_by self.new) to_client.old
            to_client.new) }
        ensures controller_grows { OnOk result (Grows (2 * length octets.now.bytes) (owed_by self.old) (owed_by self.new) to_controller.old
            to_controller.new) }
        ensures desk { LogsLines (D.value desk.old) (D.value desk.new) (is_err result) }
    {
        if let Some(why) = stray_of(asset, side, frame) {
            log_stray(asset, client, moment, side, why, desk)?;
            return Ok(Fate::Stray(why));
        }
        if !is_data(frame) {
            pass_on(side, octets, to_client, to_controller);
            return Ok(Fate::Carried);
        }
        let answer = self.take_segment(side, frame);
        let fate = self.take_answer(
            asset,
            rules,
            client,
            moment,
            side,
            &answer,
            to_client,
            to_controller,
            desk,
        )?;
        Ok(fate)
    }
}

/// Puts the octets of a frame into the queue to the other side.
fn pass_on(side: Side, octets: &View<'_>, to_client: &mut Outq, to_controller: &mut Outq)
    requires open { IsOpen side to_client.old to_controller.old }
    requires client_room { HasRoom (length octets.now.bytes) to_client.old }
    requires controller_room { HasRoom (length octets.now.bytes) to_controller.old }
    ensures client { to_client.new ≡ after_push to_client.old (if is_side Side.Client side then [] else octets.now.bytes) }
    ensures controller { to_controller.new ≡ after_push to_controller.old (if is_side Side.Controller side then [] else octets.now.bytes) }
{
    match side {
        Side::Client => push_octets(octets, to_controller),
        Side::Controller => push_octets(octets, to_client),
    }
}
