//! Modbus in the lane: what becomes of an ADU.
ghost use Rattle.std.specs.Prelude.{◌≡◌, ◌+◌, ◌*◌, ◌^◌, ◌<◌, ◌≤◌, false, true, IfOk, OnOk, OnErr, Some, drop, length, slice_get};
ghost use Rattle.std.specs.Result.{is_err};
ghost use Rattle.cf_modbus.specs.Adu.{adu_value, spelling};
ghost use Rattle.cf_outq.specs.SendQueue.{Queue, after_push};
ghost use Rattle.cf_outside.specs.Desk.{DeskValue};
ghost use Rattle.cf_policy.specs.Site.{IsSiteWithin, asset_of};
ghost use Rattle.cf_policy.specs.Verdict.{IsOneOf};
ghost use Rattle.cf_lane.specs.Handled.{IsLaneOf, Steps, Misses, TakesCommand, MissesCommand, Grows, CountsBy, HasRoom, IsOpen};
ghost use Rattle.cf_lane.specs.Handled.{debt, letters_in, state};
ghost use Rattle.cf_lane.specs.Log.{is_some_bytes};
ghost use Rattle.cf_lane.specs.Modbus.{HasCommandFate, adu_reply};
ghost use Rattle.cf_lane.specs.Plain.{HasPlainDecider, IsPlainFate};
ghost use Rattle.cf_lane.specs.Rings.{says_by};
ghost use Rattle.cf_lane.specs.Site.{place_for};
ghost use Rattle.cf_lane.specs.Unit.{adu_unit};
ghost use Rattle.cf_lane.specs.declared.rules.Rules.{Rules};
ghost use Rattle.cf_lane.specs.Logging.{LogsLines};

use crate::fate::{Fate, Judgement, Plain, Refusal, judge, plain_act, plain_form};
use crate::lane::{Lane, Step, push_octets};
use crate::log::{log_admission, log_refusal};
use crate::rules::rules_at;
use crate::site::place_for_adu;
use cf_audit::CutReason;
use cf_modbus::{Adu, exception_octets, next_adu, single_write};
use cf_outq::Outq;
use cf_outside::Desk;
use cf_policy::{Protocol, Site};
use cf_view::{Framed, Side, View, WriteFault};

impl Lane {
    /// Handles the ADU at the front of a side's bytes.
    #[inline(always)]
    pub(crate) fn step_modbus<D: Desk>(
        &mut self,
        site: &Site<'_>,
        moment: u64,
        side: Side,
        bytes: &View<'_>,
        to_client: &mut Outq,
        to_controller: &mut Outq,
        desk: &mut D,
    ) -> Result<Step, WriteFault>
        requires modbus { site.now.first.protocol ≡ Protocol.Modbus }
        requires of_site { IsLaneOf site.now self.old }
        requires within { IsSiteWithin site.now }
        requires whole { DeskValue.whole (D.value desk.old) ≡ true }
        requires open { IsOpen side to_client.old to_controller.old }
        requires client_room { HasRoom (debt self.old + 2 * length bytes.now.bytes) to_client.old }
        requires controller_room { HasRoom (debt self.old + 2 * length bytes.now.bytes) to_controller.old }
        requires counts { self.old.admitted + self.old.refused + length bytes.now.bytes < 2 ^ 64 }
        ensures steps { IfOk result (λ s. Steps site.now moment side bytes.now.bytes
            (state self.old to_client.old to_controller.old (DeskValue.lines (D.value desk.old)))
            (state self.new to_client.new to_controller.new (DeskValue.lines (D.value desk.new))) s) }
        ensures misses { OnErr result (Misses site.now moment side bytes.now.bytes
            (state self.old to_client.old to_controller.old (DeskValue.lines (D.value desk.old)))
            (DeskValue.lines (D.value desk.new)) (DeskValue.line_part (D.value desk.new))) }
        ensures of_site { OnOk result (IsLaneOf site.now self.new) }
        ensures client_grows { IfOk result (λ s. Grows (2 * letters_in s) (debt self.old) (debt self.new) to_client.old to_client.new) }
        ensures controller_grows { IfOk result (λ s. Grows (2 * letters_in s) (debt self.old) (debt self.new) to_controller.old
            to_controller.new) }
        ensures counts { IfOk result (λ s. CountsBy (letters_in s) self.old self.new) }
        ensures inside { IfOk result (λ s. letters_in s ≤ length bytes.now.bytes) }
        ensures desk { LogsLines (D.value desk.old) (D.value desk.new) (is_err result) }
    {
        match next_adu(all_of(bytes)) {
            Framed::More => Ok(Step::More),
            Framed::Broken(reason) => Ok(Step::Cut(CutReason::Framing(side, reason))),
            Framed::Unit { unit, used } => match side {
                Side::Client => {
                    let octets = bytes.sub(0, used);
                    self.take_command(site, moment, &unit, octets, to_client, to_controller, desk)?;
                    Ok(Step::Took(used))
                }
                Side::Controller => {
                    push_octets(&bytes.sub(0, used), to_client);
                    Ok(Step::Took(used))
                }
            },
        }
    }

    /// Takes a client's command, which has these octets: it goes on, or it is answered. Its line is written, if it has one.
    #[inline(always)]
    fn take_command<D: Desk>(
        &mut self,
        site: &Site<'_>,
        moment: u64,
        adu: &Adu<'_>,
        octets: View<'_>,
        to_client: &mut Outq,
        to_controller: &mut Outq,
        desk: &mut D,
    ) -> Result<(), WriteFault>
        requires of_site { IsLaneOf site.now self.old }
        requires within { IsSiteWithin site.now }
        requires whole { DeskValue.whole (D.value desk.old) ≡ true }
        requires at_least { 1 ≤ length adu.now.pdu.bytes }
        requires at_most { length adu.now.pdu.bytes ≤ 253 }
        requires octets { octets.bytes ≡ spelling (adu_value adu.now) }
        requires open { to_controller.old.ended ≡ false }
        requires client_room { HasRoom (length (spelling (adu_value adu.now)) + 8) to_client.old }
        requires controller_room { HasRoom (length (spelling (adu_value adu.now))) to_controller.old }
        requires counts { self.old.admitted + self.old.refused + 1 < 2 ^ 64 }
        ensures takes { OnOk result (TakesCommand site.now moment (adu_value adu.now)
            (state self.old to_client.old to_controller.old (DeskValue.lines (D.value desk.old)))
            (state self.new to_client.new to_controller.new (DeskValue.lines (D.value desk.new)))) }
        ensures misses { OnErr result (MissesCommand site.now moment (adu_value adu.now)
            (state self.old to_client.old to_controller.old (DeskValue.lines (D.value desk.old)))
            (DeskValue.lines (D.value desk.new)) (DeskValue.line_part (D.value desk.new))) }
        ensures of_site { OnOk result (IsLaneOf site.now self.new) }
        ensures client_grows { OnOk result (Grows 9 0 0 to_client.old to_client.new) }
        ensures controller_grows { OnOk result (Grows (length (spelling (adu_value adu.now))) 0 0 to_controller.old to_controller.new) }
        ensures counts { OnOk result (CountsBy 1 self.old self.new) }
        ensures desk { LogsLines (D.value desk.old) (D.value desk.new) (is_err result) }
    {
        let place = place_for_adu(site, Side::Client, adu);
        let asset = site.asset(place);
        let rules = rules_at(self.rules.as_slice(), place);
        if u16::from(adu.unit) != asset.station || !rules.rings.is_empty() {
            return self.take_judged(site, moment, adu, octets, to_client, to_controller, desk);
        }
        if let Some(act) = single_write(adu) {
            let plain = plain_act(asset, &rules.index, &act);
            return self.take_plain(
                site,
                place,
                moment,
                adu,
                plain,
                octets,
                to_client,
                to_controller,
                desk,
            );
        }
        let plain = plain_form(asset, &rules.index, adu);
        self.take_plain(
            site,
            place,
            moment,
            adu,
            plain,
            octets,
            to_client,
            to_controller,
            desk,
        )
    }

    /// Takes a client's command to the asset of a place, which has these octets, where no rule of the asset has a rate, by what is known of
    /// it at once: it goes on, it is answered, or it is judged. Its line is written, if it has one.
    #[inline(always)]
    fn take_plain<D: Desk>(
        &mut self,
        site: &Site<'_>,
        place: usize,
        moment: u64,
        adu: &Adu<'_>,
        plain: Plain,
        octets: View<'_>,
        to_client: &mut Outq,
        to_controller: &mut Outq,
        desk: &mut D,
    ) -> Result<(), WriteFault>
        requires of_site { IsLaneOf site.now self.old }
        requires within { IsSiteWithin site.now }
        requires place { place ≡ place_for site.now Side.Client (adu_unit (adu_value adu.now)) }
        requires whole { DeskValue.whole (D.value desk.old) ≡ true }
        requires at_least { 1 ≤ length adu.now.pdu.bytes }
        requires at_most { length adu.now.pdu.bytes ≤ 253 }
        requires octets { octets.bytes ≡ spelling (adu_value adu.now) }
        requires decider { HasPlainDecider (asset_of site.now place).rules plain }
        requires known { (own : Rules) × (slice_get self.old.rules place ≡ Some own) × (length own.rings.items ≡ 0)
            × IsPlainFate (asset_of site.now place) (says_by (asset_of site.now place) self.old.client.address own moment)
            (adu_value adu.now) plain }
        requires open { to_controller.old.ended ≡ false }
        requires client_room { HasRoom (length (spelling (adu_value adu.now)) + 8) to_client.old }
        requires controller_room { HasRoom (length (spelling (adu_value adu.now))) to_controller.old }
        requires counts { self.old.admitted + self.old.refused + 1 < 2 ^ 64 }
        ensures takes { OnOk result (TakesCommand site.now moment (adu_value adu.now)
            (state self.old to_client.old to_controller.old (DeskValue.lines (D.value desk.old)))
            (state self.new to_client.new to_controller.new (DeskValue.lines (D.value desk.new)))) }
        ensures misses { OnErr result (MissesCommand site.now moment (adu_value adu.now)
            (state self.old to_client.old to_controller.old (DeskValue.lines (D.value desk.old)))
            (DeskValue.lines (D.value desk.new)) (DeskValue.line_part (D.value desk.new))) }
        ensures of_site { OnOk result (IsLaneOf site.now self.new) }
        ensures client_grows { OnOk result (Grows 9 0 0 to_client.old to_client.new) }
        ensures controller_grows { OnOk result (Grows (length (spelling (adu_value adu.now))) 0 0 to_controller.old to_controller.new) }
        ensures counts { OnOk result (CountsBy 1 self.old self.new) }
        ensures desk { LogsLines (D.value desk.old) (D.value desk.new) (is_err result) }
    {
        match plain {
            Plain::Admitted => {
                push_octets(&octets, to_controller);
                self.admit_plain();
                Ok(())
            }
            Plain::Refused(refusal) => {
                self.answer(site, place, moment, adu, &refusal, octets, to_client, desk)
            }
            Plain::Unknown => {
                self.take_judged(site, moment, adu, octets, to_client, to_controller, desk)
            }
        }
    }

    /// Takes a client's command, which has these octets, as it is judged: it goes on, or it is answered. Its line is written, if it has one.
    #[inline(always)]
    fn take_judged<D: Desk>(
        &mut self,
        site: &Site<'_>,
        moment: u64,
        adu: &Adu<'_>,
        octets: View<'_>,
        to_client: &mut Outq,
        to_controller: &mut Outq,
        desk: &mut D,
    ) -> Result<(), WriteFault>
        requires of_site { IsLaneOf site.now self.old }
        requires within { IsSiteWithin site.now }
        requires whole { DeskValue.whole (D.value desk.old) ≡ true }
        requires at_least { 1 ≤ length adu.now.pdu.bytes }
        requires at_most { length adu.now.pdu.bytes ≤ 253 }
        requires octets { octets.bytes ≡ spelling (adu_value adu.now) }
        requires open { to_controller.old.ended ≡ false }
        requires client_room { HasRoom (length (spelling (adu_value adu.now)) + 8) to_client.old }
        requires controller_room { HasRoom (length (spelling (adu_value adu.now))) to_controller.old }
        requires counts { self.old.admitted + self.old.refused + 1 < 2 ^ 64 }
        ensures takes { OnOk result (TakesCommand site.now moment (adu_value adu.now)
            (state self.old to_client.old to_controller.old (DeskValue.lines (D.value desk.old)))
            (state self.new to_client.new to_controller.new (DeskValue.lines (D.value desk.new)))) }
        ensures misses { OnErr result (MissesCommand site.now moment (adu_value adu.now)
            (state self.old to_client.old to_controller.old (DeskValue.lines (D.value desk.old)))
            (DeskValue.lines (D.value desk.new)) (DeskValue.line_part (D.value desk.new))) }
        ensures of_site { OnOk result (IsLaneOf site.now self.new) }
        ensures client_grows { OnOk result (Grows 9 0 0 to_client.old to_client.new) }
        ensures controller_grows { OnOk result (Grows (length (spelling (adu_value adu.now))) 0 0 to_controller.old to_controller.new) }
        ensures counts { OnOk result (CountsBy 1 self.old self.new) }
        ensures desk { LogsLines (D.value desk.old) (D.value desk.new) (is_err result) }
    {
        let place = place_for_adu(site, Side::Client, adu);
        let asset = site.asset(place);
        let rules = rules_at(self.rules.as_slice(), place);
        match &judge(asset, rules, moment, adu) {
            Judgement::Admitted(admission) => {
                push_octets(&octets, to_controller);
                self.admit(place, admission, moment);
                log_admission(asset, &self.client, moment, admission, octets, desk)?;
                Ok(())
            }
            Judgement::Refused(refusal) => {
                self.answer(site, place, moment, adu, refusal, octets, to_client, desk)
            }
        }
    }

    /// Answers a client's command to the asset of a place, which has these octets and is refused, and writes its line.
    #[inline(never)]
    fn answer<D: Desk>(
        &mut self,
        site: &Site<'_>,
        place: usize,
        moment: u64,
        adu: &Adu<'_>,
        refusal: &Refusal,
        octets: View<'_>,
        to_client: &mut Outq,
        desk: &mut D,
    ) -> Result<(), WriteFault>
        requires of_site { IsLaneOf site.now self.old }
        requires within { IsSiteWithin site.now }
        requires place { place ≡ place_for site.now Side.Client (adu_unit (adu_value adu.now)) }
        requires whole { DeskValue.whole (D.value desk.old) ≡ true }
        requires at_least { 1 ≤ length adu.now.pdu.bytes }
        requires at_most { length adu.now.pdu.bytes ≤ 253 }
        requires octets { octets.bytes ≡ spelling (adu_value adu.now) }
        requires decider { IsOneOf (asset_of site.now place).rules refusal.now.decider }
        requires refused { (own : Rules) × (slice_get self.old.rules place ≡ Some own)
            × HasCommandFate (asset_of site.now place) (says_by (asset_of site.now place) self.old.client.address own moment)
            (adu_value adu.now) (Fate.Refused refusal.now) }
        requires client_room { HasRoom 9 to_client.old }
        requires counts { self.old.refused + 1 < 2 ^ 64 }
        ensures takes { OnOk result ((to_controller : Queue) → TakesCommand site.now moment (adu_value adu.now)
            (state self.old to_client.old to_controller (DeskValue.lines (D.value desk.old)))
            (state self.new to_client.new to_controller (DeskValue.lines (D.value desk.new)))) }
        ensures misses { OnErr result ((to_controller : Queue) → MissesCommand site.now moment (adu_value adu.now)
            (state self.old to_client.old to_controller (DeskValue.lines (D.value desk.old)))
            (DeskValue.lines (D.value desk.new)) (DeskValue.line_part (D.value desk.new))) }
        ensures counted { OnOk result (self.new ≡ record self.old { refused = self.old.refused + 1 }) }
        ensures client_grows { OnOk result (Grows 9 0 0 to_client.old to_client.new) }
        ensures desk { LogsLines (D.value desk.old) (D.value desk.new) (is_err result) }
    {
        let asset = site.asset(place);
        let replied = reply(adu, refusal, to_client);
        log_refusal(asset, &self.client, moment, refusal, replied, octets, desk)?;
        self.refuse();
        Ok(())
    }
}

/// All the bytes, to be taken apart.
#[inline(always)]
fn all_of<'a>(bytes: &View<'a>) -> View<'a>
    ensures bytes { result.bytes ≡ drop 0 bytes.now.bytes }
{
    let (first, second) = bytes.pieces();
    View::two(first, second)
}

/// Answers a refused command by its exception response, where the stream to the client goes on.
fn reply(adu: &Adu<'_>, refusal: &Refusal, to_client: &mut Outq) -> bool
    requires at_least { 1 ≤ length adu.now.pdu.bytes }
    requires at_most { length adu.now.pdu.bytes ≤ 253 }
    requires room { HasRoom 9 to_client.old }
    ensures replied { result ≡ is_some_bytes (adu_reply to_client.old.ended (Fate.Refused refusal.now) (adu_value adu.now)) }
    ensures queue { to_client.new ≡ after_push to_client.old
        (adu_reply to_client.old.ended (Fate.Refused refusal.now) (adu_value adu.now)) }
    ensures grows { Grows 9 0 0 to_client.old to_client.new }
{
    if to_client.is_ended() {
        return false;
    }
    to_client.push(&exception_octets(adu, &refusal.reason));
    true
}
