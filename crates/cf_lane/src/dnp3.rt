//! DNP3 in the lane: what becomes of a frame, and of the fragment that it completes.
ghost use Rattle.std.specs.Prelude.{◌≡◌, ◌+◌, ◌*◌, ◌<◌, true, IfOk, OnOk, OnErr, length};
ghost use Rattle.std.specs.List.{sum_by};
ghost use Rattle.std.specs.Result.{is_err};
ghost use Rattle.cf_dnplink.specs.LinkFrame.{IsFrame, frame_value};
ghost use Rattle.cf_outside.specs.Desk.{DeskValue};
ghost use Rattle.cf_policy.specs.Site.{IsSiteWithin, assets_of};
ghost use Rattle.cf_policy.specs.Within.{IsAssetWithin};
ghost use Rattle.cf_lane.specs.Fragments.{MissesFrameAt, TakesFrameAt};
ghost use Rattle.cf_lane.specs.Handled.{FewAtFront, FrontsOf, Grows, HasRoom, IsOpen, MissesOf, outlets, taken_in};
ghost use Rattle.cf_lane.specs.Kept.{AreAllFragments, owed_by};
ghost use Rattle.cf_lane.specs.Rings.{AreRulesOf, IsRulesOf, says_by};
ghost use Rattle.cf_lane.specs.Unit.{frame_spelling};
ghost use Rattle.cf_lane.specs.Logging.{LogsLines};

mod fragments;
mod frames;
mod judge;
mod recut;
mod served;

use crate::fate::Fate;
use crate::lane::{Decided, after};
use crate::rules::{Rules, rules_at};
use crate::site::place_for_frame;
use crate::wire::{AllFragments, Fragments, Wire};
use cf_dnplink::{Frame, next_frame};
use cf_outq::Outq;
use cf_outside::Desk;
use cf_policy::{Asset, Protocol, Site};
use cf_view::{Endpoint, Framed, Side, View, WriteFault};
pub use fragments::{drop_why, take_segment};
pub use judge::form_reason;
pub(crate) use served::has_addresses;
pub use served::{is_data, stray_of};

impl AllFragments {
    /// Takes the frame at the front of a side's bytes by its fate, at the fragments of the asset that it is for.
    #[inline(never)]
    pub(crate) fn take_frame_at_front<D: Desk>(
        &mut self,
        site: &Site<'_>,
        rules: &[Rules],
        client: &Endpoint,
        moment: u64,
        side: Side,
        bytes: &View<'_>,
        to_client: &mut Outq,
        to_controller: &mut Outq,
        desk: &mut D,
    ) -> Result<Framed<Decided>, WriteFault>
        requires dnp3 { site.now.first.protocol ≡ Protocol.Dnp3 }
        requires rules { AreRulesOf site.now client.now.address rules.now }
        requires within { IsSiteWithin site.now }
        requires desk { DeskValue.whole (D.value desk.old) ≡ true }
        requires are { AreAllFragments (length (assets_of site.now)) self.old }
        requires open { IsOpen side to_client.old to_controller.old }
        requires client_room { HasRoom (sum_by owed_by self.old + 2 * length bytes.now.bytes) to_client.old }
        requires controller_room { HasRoom (sum_by owed_by self.old + 2 * length bytes.now.bytes) to_controller.old }
        ensures fronts { IfOk result (λ a. FrontsOf site.now client.now rules.now moment side bytes.now.bytes (Wire.Dnp3 self.old)
            (Wire.Dnp3 self.new)
            (outlets to_client.old to_controller.old (DeskValue.lines (D.value desk.old)))
            (outlets to_client.new to_controller.new (DeskValue.lines (D.value desk.new))) a) }
        ensures misses { OnErr result (MissesOf site.now client.now rules.now moment side bytes.now.bytes (Wire.Dnp3 self.old)
            (outlets to_client.old to_controller.old (DeskValue.lines (D.value desk.old)))
            (DeskValue.lines (D.value desk.new)) (DeskValue.line_part (D.value desk.new))) }
        ensures few { IfOk result (λ a. FewAtFront a rules.now) }
        ensures are { OnOk result (AreAllFragments (length (assets_of site.now)) self.new) }
        ensures client_grows { IfOk result (λ a. Grows (2 * taken_in a) (sum_by owed_by self.old) (sum_by owed_by self.new) to_client.old
            to_client.new) }
        ensures controller_grows { IfOk result (λ a. Grows (2 * taken_in a) (sum_by owed_by self.old) (sum_by owed_by self.new)
            to_controller.old to_controller.new) }
        ensures desk { LogsLines (D.value desk.old) (D.value desk.new) (is_err result) }
    {
        match next_frame(after(bytes, 0)) {
            Framed::More => Ok(Framed::More),
            Framed::Broken(reason) => Ok(Framed::Broken(reason)),
            Framed::Unit { unit, used } => {
                let octets = bytes.sub(0, used);
                let place = place_for_frame(site, side, &unit);
                let fate = take_frame_at(
                    self.all.as_mut_slice(),
                    place,
                    site.asset(place),
                    rules_at(rules, place),
                    client,
                    moment,
                    side,
                    &unit,
                    &octets,
                    to_client,
                    to_controller,
                    desk,
                )?;
                Ok(Framed::Unit {
                    unit: Decided { place, fate },
                    used,
                })
            }
        }
    }
}

/// Takes a frame of a side by its fate, at the fragments of the asset of a place.
fn take_frame_at<D: Desk>(
    all: &mut [Fragments],
    place: usize,
    asset: &Asset,
    rules: &Rules,
    client: &Endpoint,
    moment: u64,
    side: Side,
    frame: &Frame<'_>,
    octets: &View<'_>,
    to_client: &mut Outq,
    to_controller: &mut Outq,
    desk: &mut D,
) -> Result<Fate, WriteFault>
    requires inside { place < length all.old }
    requires rules { IsRulesOf asset.now client.now.address rules.now }
    requires within { IsAssetWithin asset.now }
    requires desk { DeskValue.whole (D.value desk.old) ≡ true }
    requires are { AreAllFragments (length all.old) all.old }
    requires frame { IsFrame (frame_value frame.now) }
    requires octets { octets.now.bytes ≡ frame_spelling (frame_value frame.now) }
    requires open { IsOpen side to_client.old to_controller.old }
    requires client_room { HasRoom (sum_by owed_by all.old + 2 * length octets.now.bytes) to_client.old }
    requires controller_room { HasRoom (sum_by owed_by all.old + 2 * length octets.now.bytes) to_controller.old }
    ensures takes { IfOk result (λ f. TakesFrameAt asset.now (says_by asset.now client.now.address rules.now moment) client.now moment
        side (frame_value frame.now) f place all.old all.new
        (outlets to_client.old to_controller.old (DeskValue.lines (D.value desk.old)))
        (outlets to_client.new to_controller.new (DeskValue.lines (D.value desk.new)))) }
    ensures misses { OnErr result (MissesFrameAt asset.now (says_by asset.now client.now.address rules.now moment) client.now moment side
        (frame_value frame.now) place all.old
        (outlets to_client.old to_controller.old (DeskValue.lines (D.value desk.old)))
        (DeskValue.lines (D.value desk.new)) (DeskValue.line_part (D.value desk.new))) }
    ensures are { OnOk result (AreAllFragments (length all.old) all.new) }
    ensures client_grows { OnOk result (Grows (2 * length octets.now.bytes) (sum_by owed_by all.old) (sum_by owed_by all.new) to_client.old
        to_client.new) }
    ensures controller_grows { OnOk result (Grows (2 * length octets.now.bytes) (sum_by owed_by all.old) (sum_by owed_by all.new)
        to_controller.old to_controller.new) }
    ensures desk { LogsLines (D.value desk.old) (D.value desk.new) (is_err result) }
{
    let fate = all[place].take_frame(
        asset,
        rules,
        client,
        moment,
        side,
        frame,
        octets,
        to_client,
        to_controller,
        desk,
    )?;
    Ok(fate)
}
