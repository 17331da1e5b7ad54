//! The RST of an end that gives up.
ghost use Rattle.std.specs.Prelude.{◌≡◌, ◌+◌, ◌^◌, ◌<◌, ◌≤◌, true, [], ◌∷◌};
ghost use Rattle.cf_packet.specs.Packet.{packet_value};
ghost use Rattle.cf_rebuild.specs.ReceiveWindow.{base_of};
ghost use Rattle.cf_leg.specs.Calls.{CutOff, rst_of};
ghost use Rattle.cf_leg.specs.Emits.{rst};
ghost use Rattle.cf_leg.specs.Emitted.{GetsSegments};
ghost use Rattle.cf_outside.specs.Desk.{DeskValue};
ghost use Rattle.cf_outside.specs.Frames.{OnlyEmits};
ghost use Rattle.std.specs.Result.{is_err};
ghost use Rattle.cf_stream.specs.Sizes.{window_size};
ghost use Rattle.cf_view.specs.Moment.{moment_limit};

use super::Leg;
use crate::ends::{Ends, Role};
use crate::send::{next_number, place_or_zero, send};
use cf_outq::Outq;
use cf_outside::Desk;
use cf_packet::{ACK, Packet, RST, sequence_number};
use cf_view::WriteFault;

impl Leg {
    fn send_rst<D: Desk>(&self, moment: u64, queue: &Outq, desk: &mut D) -> Result<(), WriteFault>
        requires base { base_of self.now.window ≤ 2 ^ 30 + window_size }
        requires whole { DeskValue.whole (D.value desk.old) ≡ true }
        requires moment { moment < moment_limit }
        ensures gets { GetsSegments (is_err result) moment (rst_of self.now queue.now ∷ []) (D.value desk.old) (D.value desk.new) }
        ensures frame { OnlyEmits (D.value desk.old) (D.value desk.new) (is_err result) }
    {
        let sent = next_number(self.own, queue);
        let taken = sequence_number(self.other, place_or_zero(self.window.base()));
        match self.ends.role {
            Role::Active(_) => {
                if self.is_open() {
                    send(moment, &rst(self.ends, sent, taken, RST + ACK), desk)
                } else {
                    send(
                        moment,
                        &rst(self.ends, sequence_number(self.own, 0), 0, RST),
                        desk,
                    )
                }
            }
            Role::Passive(_, _) => {
                if self.is_greeted() {
                    send(moment, &rst(self.ends, sent, taken, RST + ACK), desk)
                } else {
                    send(
                        moment,
                        &rst(self.ends, 0, sequence_number(self.other, 0), RST + ACK),
                        desk,
                    )
                }
            }
        }
    }

    /// Sends the RST of a cut. The leg is dropped then.
    pub fn cut<D: Desk>(&self, moment: u64, queue: &Outq, desk: &mut D) -> Result<(), WriteFault>
        requires base { base_of self.now.window ≤ 2 ^ 30 + window_size }
        requires whole { DeskValue.whole (D.value desk.old) ≡ true }
        requires moment { moment < moment_limit }
        ensures cut { CutOff moment self.now queue.now (D.value desk.old) (D.value desk.new) (is_err result) }
        ensures frame { OnlyEmits (D.value desk.old) (D.value desk.new) (is_err result) }
    {
        self.send_rst(moment, queue, desk)
    }
}

/// An RST.
fn rst<'a>(ends: Ends, seq: u32, ack: u32, flags: u8) -> Packet<'a>
    ensures { packet_value result ≡ rst ends seq ack flags }
{
    Packet {
        source: ends.own,
        dest: ends.peer,
        seq,
        ack,
        flags,
        window: 0,
        mss: None,
        text: &[],
    }
}
