//! A client's I frame: a command.
ghost use Rattle.std.specs.Prelude.{◌≡◌, ◌≤◌, ◌+◌, None, OnErr, OnOk, IfOk, MatchOption, length, true, false, nat_lt, ◌<◌};
ghost use Rattle.std.specs.Prelude.{if◌then◌else◌};
ghost use Rattle.std.specs.Result.{is_err};
ghost use Rattle.cf_apci.specs.Apdu.{Info, spelling};
ghost use Rattle.cf_lane.specs.Handled.{Grows, HasRoom};
ghost use Rattle.cf_lane.specs.Iec104.{ack_octets};
ghost use Rattle.cf_lane.specs.Renumbered.{mirror_octets, MissesApdu, TakesApdu, numbered, unless_cut};
ghost use Rattle.cf_outq.specs.SendQueue.{after_push};
ghost use Rattle.cf_outside.specs.Desk.{DeskValue};
ghost use Rattle.cf_lane.specs.Rings.{IsRulesOf, says_by};
ghost use Rattle.cf_lane.specs.Logging.{LogsLines};
ghost use Rattle.cf_policy.specs.Within.{IsAssetWithin};
ghost use Rattle.cf_renumber.specs.Numbers.{IsSmall};

use crate::fate::{Fate, Judgement};
use crate::iec104::carry::number_cut;
use crate::iec104::judge::judge_asdu;
use crate::iec104::push::{push_ack, push_info, push_mirror};
use crate::log::{log_admission, log_refusal};
use crate::rules::Rules;
use cf_asdu::SHORTEST;
use cf_audit::CutReason;
use cf_outq::Outq;
use cf_outside::Desk;
use cf_policy::Asset;
use cf_renumber::{Numbers, RefusedStamp};
use cf_view::{Endpoint, Side, View, WriteFault};

/// Whether a refused ASDU is answered by its mirror: it has nine octets or more, and the stream to the client goes on.
fn has_mirror(asdu: &View<'_>, to_client: &Outq) -> bool
    ensures { result ≡ (if to_client.now.ended then false else nat_lt 8 (length asdu.now.bytes)) }
{
    !to_client.is_ended() && asdu.len() >= SHORTEST
}

/// Puts what a refused command leaves into both queues: its mirror, and an S frame where one is owed.
fn push_refused(
    stamp: &RefusedStamp,
    asdu: &View<'_>,
    to_client: &mut Outq,
    to_controller: &mut Outq,
)
    requires mirror { MatchOption stamp.now.reply (Unit {0})
        (λ s. IsSmall s × (9 ≤ length asdu.now.bytes) × (to_client.old.ended ≡ false)) }
    requires small { MatchOption stamp.now.ack (Unit {0}) (λ n. n < 32768) }
    requires at_most { length asdu.now.bytes ≤ 249 }
    requires open { to_controller.old.ended ≡ false }
    requires client_room { HasRoom (length asdu.now.bytes + 6) to_client.old }
    requires controller_room { HasRoom 6 to_controller.old }
    ensures client { to_client.new ≡ after_push to_client.old (mirror_octets stamp.now.reply asdu.now.bytes) }
    ensures controller { to_controller.new ≡ after_push to_controller.old (ack_octets stamp.now.ack) }
{
    if let Some(reply) = &stamp.reply {
        push_mirror(reply, asdu, to_client);
    }
    push_ack(stamp.ack, to_controller);
}

/// Takes a client's I frame: its numbers are tested, and then it is a command, which goes on with its numbers towards the
/// controller or is refused.
pub(crate) fn take_command<D: Desk>(
    numbers: &mut Numbers,
    asset: &Asset,
    rules: &Rules,
    client: &Endpoint,
    moment: u64,
    send: u16,
    receive: u16,
    asdu: &View<'_>,
    octets: View<'_>,
    to_client: &mut Outq,
    to_controller: &mut Outq,
    desk: &mut D,
) -> Result<Fate, WriteFault>
    requires idle { numbers.old.owed ≡ None }
    requires rules { IsRulesOf asset.now client.now.address rules.now }
    requires within { IsAssetWithin asset.now }
    requires whole { DeskValue.whole (D.value desk.old) ≡ true }
    requires at_most { length asdu.now.bytes ≤ 249 }
    requires octets { octets.bytes ≡ spelling (Info send receive asdu.now.bytes) }
    requires open { to_controller.old.ended ≡ false }
    requires client_room { HasRoom (length asdu.now.bytes + 6) to_client.old }
    requires controller_room { HasRoom (length asdu.now.bytes + 6) to_controller.old }
    ensures idle { OnOk result (numbers.new.owed ≡ None) }
    ensures takes { IfOk result (λ f. TakesApdu asset.now (says_by asset.now client.now.address rules.now moment) client.now moment
        Side.Client (Info send receive asdu.now.bytes) f
        (numbered numbers.old to_client.old to_controller.old (DeskValue.lines (D.value desk.old)))
        (numbered numbers.new to_client.new to_controller.new (DeskValue.lines (D.value desk.new)))) }
    ensures misses { OnErr result (MissesApdu asset.now (says_by asset.now client.now.address rules.now moment) client.now moment
        Side.Client (Info send receive asdu.now.bytes)
        (numbered numbers.old to_client.old to_controller.old (DeskValue.lines (D.value desk.old)))
        (DeskValue.lines (D.value desk.new)) (DeskValue.line_part (D.value desk.new))) }
    ensures client_grows { IfOk result (λ f. Grows (unless_cut f (length asdu.now.bytes + 6)) 0 0 to_client.old to_client.new) }
    ensures controller_grows { IfOk result (λ f. Grows (unless_cut f (length asdu.now.bytes + 6)) 0 0 to_controller.old to_controller.new) }
    ensures desk { LogsLines (D.value desk.old) (D.value desk.new) (is_err result) }
{
    if !numbers.may_send(Side::Client) {
        return Ok(Fate::Cuts(CutReason::NotStarted(Side::Client)));
    }
    if let Err(refusal) = numbers.from_client(send, receive) {
        return Ok(Fate::Cuts(number_cut(Side::Client, refusal)));
    }
    match judge_asdu(asset, rules, moment, asdu) {
        Judgement::Admitted(admission) => {
            let stamp = numbers.admitted();
            push_info(&stamp, asdu, to_controller);
            log_admission(asset, client, moment, &admission, octets, desk)?;
            Ok(Fate::Admitted(admission))
        }
        Judgement::Refused(refusal) => {
            let replied = has_mirror(asdu, to_client);
            let stamp = numbers.refused(replied);
            push_refused(&stamp, asdu, to_client, to_controller);
            log_refusal(asset, client, moment, &refusal, replied, octets, desk)?;
            Ok(Fate::Refused(refusal))
        }
    }
}
