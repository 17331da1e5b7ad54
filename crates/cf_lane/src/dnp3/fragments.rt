//! What becomes of a segment, and of the fragment that it completes.
ghost use Rattle.std.specs.Prelude.{◌≡◌, ◌≢◌, ◌+◌, ◌<◌, ◌≤◌, ◌∷◌, [], ℕ, List, true, false, IfOk, OnOk, OnErr, length};
ghost use Rattle.std.specs.Result.{is_err};
ghost use Rattle.cf_dnplink.specs.LinkFrame.{IsFrame, frame_value};
ghost use Rattle.cf_dnplink.specs.UserOctets.{user_of};
ghost use Rattle.cf_dnptrans.specs.AssemblyValue.{IsAssemblyOf};
ghost use Rattle.cf_dnptrans.specs.Transport.{answer_to};
ghost use Rattle.cf_outq.specs.SendQueue.{Queue};
ghost use Rattle.cf_outside.specs.Desk.{DeskValue};
ghost use Rattle.cf_lane.specs.Rates.{Says};
ghost use Rattle.cf_lane.specs.Rings.{IsRulesOf, says_by};
ghost use Rattle.cf_policy.specs.Within.{IsAssetWithin};
ghost use Rattle.cf_lane.specs.Dnp3.{drop_why, fragment_reply};
ghost use Rattle.cf_lane.specs.Fragments.{AddsSegment, MissesSegment, Sends, TakesSegment, completed_by, frames_exist, parts, recut_most};
ghost use Rattle.cf_lane.specs.Fragments.{sent_most};
ghost use Rattle.cf_lane.specs.Handled.{Grows, HasRoom, IsOpen};
ghost use Rattle.cf_lane.specs.Kept.{of_side};
ghost use Rattle.cf_lane.specs.Logging.{LogsLines};

use crate::dnp3::judge::judge_fragment;
use crate::dnp3::recut::push_fragment;
use crate::fate::{Fate, Judgement, Refusal};
use crate::log::{log_admission, log_refusal, log_stray};
use crate::rules::Rules;
use crate::wire::Fragments;
use arrayvec::ArrayVec;
use cf_audit::Why;
use cf_dnplink::{Frame, copy_user, lent_user, user_len};
use cf_dnpobj::{reply_for, wants_reply};
use cf_dnptrans::{Assembly, DropReason, SegmentAnswer};
use cf_outq::Outq;
use cf_outside::Desk;
use cf_policy::Asset;
use cf_view::{Endpoint, Reason, Side, View, WriteFault};

impl Fragments {
    /// Puts the user octets of a data frame to the fragment of its side.
    pub(crate) fn take_segment(&mut self, side: Side, frame: &Frame<'_>) -> SegmentAnswer
        requires { IsFrame (frame_value frame.now) }
        ensures { AddsSegment side (user_of frame.now.blocks.bytes) result self.old self.new }
    {
        match side {
            Side::Client => take_segment(&mut self.client, frame),
            Side::Controller => take_segment(&mut self.controller, frame),
        }
    }

    /// Takes a segment of a side that was put to its fragment, by the answer to it: it lengthens the fragment, is dropped, or
    /// completes it.
    pub(crate) fn take_answer<D: Desk>(
        &mut self,
        asset: &Asset,
        rules: &Rules,
        client: &Endpoint,
        moment: u64,
        side: Side,
        answer: &SegmentAnswer,
        to_client: &mut Outq,
        to_controller: &mut Outq,
        desk: &mut D,
    ) -> Result<Fate, WriteFault>
        requires rules { IsRulesOf asset.now client.now.address rules.now }
        requires within { IsAssetWithin asset.now }
        requires desk { DeskValue.whole (D.value desk.old) ≡ true }
        requires completed { answer.now ≡ SegmentAnswer.Whole → (of_side side self.old).whole ≡ true }
        requires to_client { self.old.to_client < 64 }
        requires to_controller { self.old.to_controller < 64 }
        requires open { IsOpen side to_client.old to_controller.old }
        requires client_room { HasRoom (sent_most answer.now (of_side side self.old)) to_client.old }
        requires controller_room { HasRoom (sent_most answer.now (of_side side self.old)) to_controller.old }
        ensures takes { IfOk result (λ f. TakesSegment asset.now (says_by asset.now client.now.address rules.now moment) client.now moment
            side answer.now (completed_by answer.now (of_side side self.old)) f
            (parts self.old to_client.old to_controller.old (DeskValue.lines (D.value desk.old)))
            (parts self.new to_client.new to_controller.new (DeskValue.lines (D.value desk.new)))) }
        ensures misses { OnErr result (MissesSegment asset.now (says_by asset.now client.now.address rules.now moment) client.now moment
            side answer.now (completed_by answer.now (of_side side self.old))
            (parts self.old to_client.old to_controller.old (DeskValue.lines (D.value desk.old)))
            (DeskValue.lines (D.value desk.new)) (DeskValue.line_part (D.value desk.new))) }
        ensures client_grows { OnOk result (Grows (sent_most answer.now (of_side side self.old)) 0 0 to_client.old to_client.new) }
        ensures controller_grows { OnOk result (Grows (sent_most answer.now (of_side side self.old)) 0 0 to_controller.old
            to_controller.new) }
        ensures desk { LogsLines (D.value desk.old) (D.value desk.new) (is_err result) }
    {
        match *answer {
            SegmentAnswer::More => Ok(Fate::Lengthens),
            SegmentAnswer::Dropped(reason) => {
                let why = drop_why(&reason);
                log_stray(asset, client, moment, side, why, desk)?;
                Ok(Fate::Stray(why))
            }
            SegmentAnswer::Whole => match side {
                Side::Client => {
                    let fate = self.take_client(
                        asset,
                        rules,
                        client,
                        moment,
                        to_client,
                        to_controller,
                        desk,
                    )?;
                    Ok(fate)
                }
                Side::Controller => {
                    let fate = self.take_controller(asset, client, moment, to_client, desk)?;
                    Ok(fate)
                }
            },
        }
    }

    /// Takes a client's fragment that is whole by its fate.
    fn take_client<D: Desk>(
        &mut self,
        asset: &Asset,
        rules: &Rules,
        client: &Endpoint,
        moment: u64,
        to_client: &mut Outq,
        to_controller: &mut Outq,
        desk: &mut D,
    ) -> Result<Fate, WriteFault>
        requires rules { IsRulesOf asset.now client.now.address rules.now }
        requires within { IsAssetWithin asset.now }
        requires desk { DeskValue.whole (D.value desk.old) ≡ true }
        requires completed { self.old.client.whole ≡ true }
        requires to_client { self.old.to_client < 64 }
        requires to_controller { self.old.to_controller < 64 }
        requires open { to_controller.old.ended ≡ false }
        requires client_room { HasRoom (recut_most (length self.old.client.octets + 2)) to_client.old }
        requires controller_room { HasRoom (recut_most (length self.old.client.octets + 2)) to_controller.old }
        ensures takes { IfOk result (λ f. TakesSegment asset.now (says_by asset.now client.now.address rules.now moment) client.now moment
            Side.Client SegmentAnswer.Whole (self.old.client.octets ∷ []) f
            (parts self.old to_client.old to_controller.old (DeskValue.lines (D.value desk.old)))
            (parts self.new to_client.new to_controller.new (DeskValue.lines (D.value desk.new)))) }
        ensures misses { OnErr result (MissesSegment asset.now (says_by asset.now client.now.address rules.now moment) client.now moment
            Side.Client SegmentAnswer.Whole (self.old.client.octets ∷ [])
            (parts self.old to_client.old to_controller.old (DeskValue.lines (D.value desk.old)))
            (DeskValue.lines (D.value desk.new)) (DeskValue.line_part (D.value desk.new))) }
        ensures client_grows { OnOk result (Grows (recut_most (length self.old.client.octets + 2)) 0 0 to_client.old to_client.new) }
        ensures controller_grows { OnOk result (Grows (recut_most (length self.old.client.octets + 2)) 0 0 to_controller.old
            to_controller.new) }
        ensures desk { LogsLines (D.value desk.old) (D.value desk.new) (is_err result) }
    {
        let octets = self.client.fragment();
        if octets.len() < 2 {
            log_stray(asset, client, moment, Side::Client, Why::Short, desk)?;
            return Ok(Fate::Stray(Why::Short));
        }
        match judge_fragment(asset, rules, moment, &octets) {
            Some(Judgement::Refused(refusal)) => {
                let replied = reply(asset, &octets, &refusal, &mut self.to_client, to_client);
                log_refusal(asset, client, moment, &refusal, replied, octets, desk)?;
                Ok(Fate::Refused(refusal))
            }
            Some(Judgement::Admitted(admission)) => {
                self.to_controller = push_fragment(
                    asset,
                    Side::Controller,
                    &octets,
                    self.to_controller,
                    to_controller,
                );
                log_admission(asset, client, moment, &admission, octets, desk)?;
                Ok(Fate::Admitted(admission))
            }
            None => {
                self.to_controller = push_fragment(
                    asset,
                    Side::Controller,
                    &octets,
                    self.to_controller,
                    to_controller,
                );
                Ok(Fate::Carried)
            }
        }
    }

    /// Takes a controller's fragment that is whole: it goes on.
    fn take_controller<D: Desk>(
        &mut self,
        asset: &Asset,
        client: &Endpoint,
        moment: u64,
        to_client: &mut Outq,
        desk: &mut D,
    ) -> Result<Fate, WriteFault>
        requires within { IsAssetWithin asset.now }
        requires desk { DeskValue.whole (D.value desk.old) ≡ true }
        requires completed { self.old.controller.whole ≡ true }
        requires to_client { self.old.to_client < 64 }
        requires to_controller { self.old.to_controller < 64 }
        requires open { to_client.old.ended ≡ false }
        requires client_room { HasRoom (recut_most (length self.old.controller.octets + 2)) to_client.old }
        ensures takes { IfOk result (λ f. (says : Says) (to_controller : Queue)
            → TakesSegment asset.now says client.now moment Side.Controller SegmentAnswer.Whole (self.old.controller.octets ∷ []) f
            (parts self.old to_client.old to_controller (DeskValue.lines (D.value desk.old)))
            (parts self.new to_client.new to_controller (DeskValue.lines (D.value desk.new)))) }
        ensures misses { OnErr result ((says : Says) (to_controller : Queue)
            → MissesSegment asset.now says client.now moment Side.Controller SegmentAnswer.Whole (self.old.controller.octets ∷ [])
            (parts self.old to_client.old to_controller (DeskValue.lines (D.value desk.old)))
            (DeskValue.lines (D.value desk.new)) (DeskValue.line_part (D.value desk.new))) }
        ensures client_grows { OnOk result (Grows (recut_most (length self.old.controller.octets + 2)) 0 0 to_client.old to_client.new) }
        ensures desk { LogsLines (D.value desk.old) (D.value desk.new) (is_err result) }
    {
        let octets = self.controller.fragment();
        if octets.len() < 2 {
            log_stray(asset, client, moment, Side::Controller, Why::Short, desk)?;
            return Ok(Fate::Stray(Why::Short));
        }
        self.to_client = push_fragment(asset, Side::Client, &octets, self.to_client, to_client);
        Ok(Fate::Carried)
    }
}

/// Puts the user octets of a frame to a fragment. IEEE 1815-2012, section 8.2.
pub fn take_segment(assembly: &mut Assembly, frame: &Frame<'_>) -> SegmentAnswer
    requires { IsFrame (frame_value frame.now) }
    ensures answer { (segments : List (List ℕ)) → IsAssemblyOf assembly.old segments
        → result ≡ answer_to segments (user_of frame.now.blocks.bytes) }
    ensures stands { (segments : List (List ℕ)) → IsAssemblyOf assembly.old segments
        → IsAssemblyOf assembly.new (user_of frame.now.blocks.bytes ∷ segments) }
    ensures whole { result ≡ SegmentAnswer.Whole → assembly.new.whole ≡ true }
{
    match lent_user(frame) {
        Some(user) => assembly.segment(user),
        None => take_long_segment(assembly, frame),
    }
}

/// Puts the user octets of a frame to a fragment, which are copied out of more than two blocks, or of two pieces.
#[inline(never)]
fn take_long_segment(assembly: &mut Assembly, frame: &Frame<'_>) -> SegmentAnswer
    requires { IsFrame (frame_value frame.now) }
    ensures answer { (segments : List (List ℕ)) → IsAssemblyOf assembly.old segments
        → result ≡ answer_to segments (user_of frame.now.blocks.bytes) }
    ensures stands { (segments : List (List ℕ)) → IsAssemblyOf assembly.old segments
        → IsAssemblyOf assembly.new (user_of frame.now.blocks.bytes ∷ segments) }
    ensures whole { result ≡ SegmentAnswer.Whole → assembly.new.whole ≡ true }
{
    let mut user = [0u8; 250];
    let len = user_len(frame);
    copy_user(frame, &mut user[..len]);
    assembly.segment(View::one(&user[..len]))
}

/// Why a segment is dropped, in the words of the log.
pub fn drop_why(reason: &DropReason) -> Why
    ensures { result ≡ drop_why reason.now }
{
    match reason {
        DropReason::Empty => Why::Empty,
        DropReason::NoFirst => Why::NoFirst,
        DropReason::Order => Why::Order,
        DropReason::TooLong => Why::TooLong,
    }
}

/// Answers a refused fragment, where its function code wants a reply and the stream to the client goes on; whether it did.
fn reply(
    asset: &Asset,
    octets: &View<'_>,
    refusal: &Refusal,
    sequence: &mut u8,
    to_client: &mut Outq,
) -> bool
    requires at_least { 2 ≤ length octets.now.bytes }
    requires at_most { length octets.now.bytes ≤ 2048 }
    requires reason { refusal.now.reason ≢ Reason.Station }
    requires sequence { sequence.old < 64 }
    requires room { HasRoom (recut_most (length octets.now.bytes + 2)) to_client.old }
    ensures sends { Sends asset.now Side.Client (fragment_reply to_client.old.ended (Fate.Refused refusal.now) (octets.now.bytes ∷ []))
        sequence.old to_client.old sequence.new to_client.new }
    ensures replied { result ≡ frames_exist asset.now Side.Client sequence.old
        (fragment_reply to_client.old.ended (Fate.Refused refusal.now) (octets.now.bytes ∷ [])) }
    ensures grows { Grows (recut_most (length octets.now.bytes + 2)) 0 0 to_client.old to_client.new }
{
    if to_client.is_ended() || !wants_reply(octets.at(1)) {
        return false;
    }
    let mut response = ArrayVec::<u8, 2056>::new();
    reply_for(octets.sub(0, octets.len()), &refusal.reason, &mut response);
    *sequence = push_fragment(
        asset,
        Side::Client,
        &View::one(response.as_slice()),
        *sequence,
        to_client,
    );
    true
}
