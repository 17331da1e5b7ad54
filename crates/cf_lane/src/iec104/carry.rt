//! APDUs that are carried: those of format U and S, and the I frames of a controller.
ghost use Rattle.std.specs.Prelude.{◌≡◌, ◌≤◌, ◌+◌, ◌++◌, None, Some, Option, List, length, false, ℕ};
ghost use Rattle.cf_apci.specs.Apdu.{Ack, Control, Info, spelling};
ghost use Rattle.cf_outq.specs.SendQueue.{Queue};
ghost use Rattle.cf_lane.specs.Handled.{Grows, HasRoom, IsOpen};
ghost use Rattle.cf_lane.specs.Numbers.{control_event, number_cut};
ghost use Rattle.cf_lane.specs.Rates.{Says};
ghost use Rattle.cf_lane.specs.Renumbered.{TakesApdu, numbered, unless_cut};
ghost use Rattle.cf_policy.specs.declared.Asset.{Asset};
ghost use Rattle.cf_renumber.specs.Counts.{NumberEvent};
ghost use Rattle.cf_renumber.specs.Numbers.{IsNumbersOf};
ghost use Rattle.cf_view.specs.declared.Endpoint.{Endpoint};

use crate::fate::Fate;
use crate::iec104::push::{push_apdu, push_info};
use crate::lane::push_octets;
use cf_apci::Apdu;
use cf_audit::CutReason;
use cf_outq::Outq;
use cf_renumber::{NumberRefusal, Numbers};
use cf_view::{Side, View};

/// STARTDT act and STOPDT act. IEC 60870-5-104, section 5.3.
const START: u8 = 0x07;

const STOP: u8 = 0x13;

/// Why a refused number of a side cuts.
pub(crate) fn number_cut(side: Side, refusal: NumberRefusal) -> CutReason
    ensures { number_cut side (Some refusal) ≡ Some result }
{
    match refusal {
        NumberRefusal::WrongSend { expected, seen } => CutReason::WrongSend(side, expected, seen),
        NumberRefusal::WrongReceive { low, high, seen } => {
            CutReason::WrongReceive(side, low, high, seen)
        }
        NumberRefusal::Outstanding => CutReason::Outstanding(side),
    }
}

/// Notes a client's U frame.
fn note_control(numbers: &mut Numbers, octet: u8)
    requires idle { numbers.old.owed ≡ None }
    ensures idle { numbers.new.owed ≡ None }
    ensures stands { (events : List NumberEvent) → IsNumbersOf numbers.old events
        → IsNumbersOf numbers.new (control_event octet ++ events) }
{
    if octet == START {
        numbers.start();
    } else if octet == STOP {
        numbers.stop();
    }
}

/// Carries a U frame, which has these octets, and notes where the client starts or stops its transfer of data.
pub(crate) fn carry_control(
    numbers: &mut Numbers,
    side: Side,
    octet: u8,
    octets: View<'_>,
    to_client: &mut Outq,
    to_controller: &mut Outq,
) -> Fate
    requires idle { numbers.old.owed ≡ None }
    requires octets { octets.bytes ≡ spelling (Control octet) }
    requires open { IsOpen side to_client.old to_controller.old }
    requires client_room { HasRoom 6 to_client.old }
    requires controller_room { HasRoom 6 to_controller.old }
    ensures idle { numbers.new.owed ≡ None }
    ensures fate { result ≡ Fate.Carried }
    ensures takes { (asset : Asset) (says : Says) (client : Endpoint) (moment : ℕ) (lines : Option (List (List ℕ)))
        → TakesApdu asset says client moment side (Control octet) result
        (numbered numbers.old to_client.old to_controller.old lines) (numbered numbers.new to_client.new to_controller.new lines) }
    ensures client_grows { Grows 6 0 0 to_client.old to_client.new }
    ensures controller_grows { Grows 6 0 0 to_controller.old to_controller.new }
{
    match side {
        Side::Client => {
            note_control(numbers, octet);
            push_octets(&octets, to_controller);
            Fate::Carried
        }
        Side::Controller => {
            push_octets(&octets, to_client);
            Fate::Carried
        }
    }
}

/// Carries an S frame with its number translated, or cuts.
pub(crate) fn carry_ack(
    numbers: &mut Numbers,
    side: Side,
    receive: u16,
    to_client: &mut Outq,
    to_controller: &mut Outq,
) -> Fate
    requires idle { numbers.old.owed ≡ None }
    requires open { IsOpen side to_client.old to_controller.old }
    requires client_room { HasRoom 6 to_client.old }
    requires controller_room { HasRoom 6 to_controller.old }
    ensures idle { numbers.new.owed ≡ None }
    ensures takes { (asset : Asset) (says : Says) (client : Endpoint) (moment : ℕ) (lines : Option (List (List ℕ)))
        → TakesApdu asset says client moment side (Ack receive) result
        (numbered numbers.old to_client.old to_controller.old lines) (numbered numbers.new to_client.new to_controller.new lines) }
    ensures client_grows { Grows (unless_cut result 6) 0 0 to_client.old to_client.new }
    ensures controller_grows { Grows (unless_cut result 6) 0 0 to_controller.old to_controller.new }
{
    match side {
        Side::Client => match numbers.client_ack(receive) {
            Ok(receive) => {
                push_apdu(&Apdu::Ack { receive }, to_controller);
                Fate::Carried
            }
            Err(refusal) => Fate::Cuts(number_cut(side, refusal)),
        },
        Side::Controller => match numbers.controller_ack(receive) {
            Ok(receive) => {
                push_apdu(&Apdu::Ack { receive }, to_client);
                Fate::Carried
            }
            Err(refusal) => Fate::Cuts(number_cut(side, refusal)),
        },
    }
}

/// Carries an I frame of the controller with its numbers towards the client, or cuts.
pub(crate) fn carry_info(
    numbers: &mut Numbers,
    send: u16,
    receive: u16,
    asdu: &View<'_>,
    to_client: &mut Outq,
) -> Fate
    requires idle { numbers.old.owed ≡ None }
    requires at_most { length asdu.now.bytes ≤ 249 }
    requires open { to_client.old.ended ≡ false }
    requires room { HasRoom (length asdu.now.bytes + 6) to_client.old }
    ensures idle { numbers.new.owed ≡ None }
    ensures takes { (asset : Asset) (says : Says) (client : Endpoint) (moment : ℕ) (to_controller : Queue) (lines : Option (List (List ℕ)))
        →
        TakesApdu asset says client moment Side.Controller (Info send receive asdu.now.bytes) result
        (numbered numbers.old to_client.old to_controller lines) (numbered numbers.new to_client.new to_controller lines) }
    ensures grows { Grows (unless_cut result (length asdu.now.bytes + 6)) 0 0 to_client.old to_client.new }
{
    if !numbers.may_send(Side::Controller) {
        return Fate::Cuts(CutReason::NotStarted(Side::Controller));
    }
    match numbers.from_controller(send, receive) {
        Ok(stamp) => {
            push_info(&stamp, asdu, to_client);
            Fate::Carried
        }
        Err(refusal) => Fate::Cuts(number_cut(Side::Controller, refusal)),
    }
}
