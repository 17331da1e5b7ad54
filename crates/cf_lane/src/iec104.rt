//! IEC 60870-5-104 in the lane: what becomes of an APDU.
ghost use Rattle.std.specs.Prelude.{◌≡◌, ◌*◌, None, true, IfOk, OnOk, OnErr, length};
ghost use Rattle.std.specs.Result.{is_err};
ghost use Rattle.cf_apci.specs.Apdu.{Fits, apdu_value, spelling};
ghost use Rattle.cf_outside.specs.Desk.{DeskValue};
ghost use Rattle.cf_lane.specs.Rings.{AreRulesOf, IsRulesOf, says_by};
ghost use Rattle.cf_policy.specs.Site.{IsSiteWithin};
ghost use Rattle.cf_policy.specs.Within.{IsAssetWithin};
ghost use Rattle.cf_lane.specs.Handled.{FewAtFront, FrontsOf, Grows, HasRoom, IsOpen, MissesOf, outlets, taken_in};
ghost use Rattle.cf_lane.specs.Renumbered.{MissesApdu, TakesApdu, numbered, unless_cut};
ghost use Rattle.cf_lane.specs.Logging.{LogsLines};

mod carry;
mod command;
mod judge;
mod push;

use crate::fate::Fate;
use crate::iec104::carry::{carry_ack, carry_control, carry_info};
use crate::iec104::command::take_command;
use crate::lane::{Decided, after};
use crate::rules::{Rules, rules_at};
use crate::site::place_for_apdu;
use crate::wire::Wire;
use cf_apci::{Apdu, next_apdu};
use cf_outq::Outq;
use cf_outside::Desk;
use cf_policy::{Asset, Protocol, Site};
use cf_renumber::Numbers;
use cf_view::{Endpoint, Framed, Side, View, WriteFault};
pub use judge::kind_of;

/// Takes an APDU of a side by its format.
fn take_apdu<D: Desk>(
    numbers: &mut Numbers,
    asset: &Asset,
    rules: &Rules,
    client: &Endpoint,
    moment: u64,
    side: Side,
    apdu: &Apdu<'_>,
    octets: View<'_>,
    to_client: &mut Outq,
    to_controller: &mut Outq,
    desk: &mut D,
) -> Result<Fate, WriteFault>
    requires idle { numbers.old.owed ≡ None }
    requires rules { IsRulesOf asset.now client.now.address rules.now }
    requires within { IsAssetWithin asset.now }
    requires whole { DeskValue.whole (D.value desk.old) ≡ true }
    requires fits { Fits (apdu_value apdu.now) }
    requires octets { octets.bytes ≡ spelling (apdu_value apdu.now) }
    requires open { IsOpen side to_client.old to_controller.old }
    requires client_room { HasRoom (length (spelling (apdu_value apdu.now))) to_client.old }
    requires controller_room { HasRoom (length (spelling (apdu_value apdu.now))) to_controller.old }
    ensures idle { OnOk result (numbers.new.owed ≡ None) }
    ensures takes { IfOk result (λ f. TakesApdu asset.now (says_by asset.now client.now.address rules.now moment) client.now moment side
        (apdu_value apdu.now) f
        (numbered numbers.old to_client.old to_controller.old (DeskValue.lines (D.value desk.old)))
        (numbered numbers.new to_client.new to_controller.new (DeskValue.lines (D.value desk.new)))) }
    ensures misses { OnErr result (MissesApdu asset.now (says_by asset.now client.now.address rules.now moment) client.now moment side
        (apdu_value apdu.now)
        (numbered numbers.old to_client.old to_controller.old (DeskValue.lines (D.value desk.old)))
        (DeskValue.lines (D.value desk.new)) (DeskValue.line_part (D.value desk.new))) }
    ensures client_grows { IfOk result (λ f. Grows (unless_cut f (length (spelling (apdu_value apdu.now)))) 0 0 to_client.old
        to_client.new) }
    ensures controller_grows { IfOk result (λ f. Grows (unless_cut f (length (spelling (apdu_value apdu.now)))) 0 0 to_controller.old
        to_controller.new) }
    ensures desk { LogsLines (D.value desk.old) (D.value desk.new) (is_err result) }
{
    match apdu {
        Apdu::Control(octet) => {
            let fate = carry_control(numbers, side, *octet, octets, to_client, to_controller);
            Ok(fate)
        }
        Apdu::Ack { receive } => {
            let fate = carry_ack(numbers, side, *receive, to_client, to_controller);
            Ok(fate)
        }
        Apdu::Info {
            send,
            receive,
            asdu,
        } => match side {
            Side::Controller => {
                let fate = carry_info(numbers, *send, *receive, asdu, to_client);
                Ok(fate)
            }
            Side::Client => take_command(
                numbers,
                asset,
                rules,
                client,
                moment,
                *send,
                *receive,
                asdu,
                octets,
                to_client,
                to_controller,
                desk,
            ),
        },
    }
}

/// Takes the APDU at the front of a side's bytes by its fate, by the asset that it is for.
#[inline(never)]
pub(crate) fn take_apdu_at_front<D: Desk>(
    numbers: &mut Numbers,
    site: &Site<'_>,
    rules: &[Rules],
    client: &Endpoint,
    moment: u64,
    side: Side,
    bytes: &View<'_>,
    to_client: &mut Outq,
    to_controller: &mut Outq,
    desk: &mut D,
) -> Result<Framed<Decided>, WriteFault>
    requires iec104 { site.now.first.protocol ≡ Protocol.Iec104 }
    requires idle { numbers.old.owed ≡ None }
    requires rules { AreRulesOf site.now client.now.address rules.now }
    requires within { IsSiteWithin site.now }
    requires whole { DeskValue.whole (D.value desk.old) ≡ true }
    requires open { IsOpen side to_client.old to_controller.old }
    requires client_room { HasRoom (2 * length bytes.now.bytes) to_client.old }
    requires controller_room { HasRoom (2 * length bytes.now.bytes) to_controller.old }
    ensures fronts { IfOk result (λ a. FrontsOf site.now client.now rules.now moment side bytes.now.bytes (Wire.Iec104 numbers.old)
        (Wire.Iec104 numbers.new)
        (outlets to_client.old to_controller.old (DeskValue.lines (D.value desk.old)))
        (outlets to_client.new to_controller.new (DeskValue.lines (D.value desk.new))) a) }
    ensures misses { OnErr result (MissesOf site.now client.now rules.now moment side bytes.now.bytes (Wire.Iec104 numbers.old)
        (outlets to_client.old to_controller.old (DeskValue.lines (D.value desk.old)))
        (DeskValue.lines (D.value desk.new)) (DeskValue.line_part (D.value desk.new))) }
    ensures few { IfOk result (λ a. FewAtFront a rules.now) }
    ensures idle { OnOk result (numbers.new.owed ≡ None) }
    ensures client_grows { IfOk result (λ a. Grows (2 * taken_in a) 0 0 to_client.old to_client.new) }
    ensures controller_grows { IfOk result (λ a. Grows (2 * taken_in a) 0 0 to_controller.old to_controller.new) }
    ensures desk { LogsLines (D.value desk.old) (D.value desk.new) (is_err result) }
{
    match next_apdu(after(bytes, 0)) {
        Framed::More => Ok(Framed::More),
        Framed::Broken(reason) => Ok(Framed::Broken(reason)),
        Framed::Unit { unit, used } => {
            let place = place_for_apdu(site, side, &unit);
            let fate = take_apdu(
                numbers,
                site.asset(place),
                rules_at(rules, place),
                client,
                moment,
                side,
                &unit,
                bytes.sub(0, used),
                to_client,
                to_controller,
                desk,
            )?;
            Ok(Framed::Unit {
                unit: Decided { place, fate },
                used,
            })
        }
    }
}
