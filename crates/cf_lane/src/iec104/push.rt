//! APDUs put into queues.
ghost use Rattle.std.specs.Prelude.{◌≡◌, ◌≤◌, ◌<◌, MatchOption, false, length};
ghost use Rattle.cf_apci.specs.Apdu.{Fits, apdu_value, spelling};
ghost use Rattle.cf_apci.specs.Apdu as apci;
ghost use Rattle.cf_asdu.specs.Mirror.{mirrored};
ghost use Rattle.cf_lane.specs.Handled.{HasRoom};
ghost use Rattle.cf_lane.specs.Iec104.{ack_octets, stamped};
ghost use Rattle.cf_outq.specs.SendQueue.{after_push};
ghost use Rattle.cf_renumber.specs.Numbers.{IsSmall};

use crate::lane::after;
use arrayvec::ArrayVec;
use cf_apci::{Apdu, write_apdu};
use cf_asdu::mirror;
use cf_outq::Outq;
use cf_renumber::Stamp;
use cf_view::View;

/// Puts the spelling of an APDU into a queue.
pub(crate) fn push_apdu(apdu: &Apdu<'_>, queue: &mut Outq)
    requires fits { Fits (apdu_value apdu.now) }
    requires open { queue.old.ended ≡ false }
    requires room { HasRoom (length (spelling (apdu_value apdu.now))) queue.old }
    ensures queue { queue.new ≡ after_push queue.old (spelling (apdu_value apdu.now)) }
{
    let mut octets = ArrayVec::<u8, 255>::new();
    write_apdu(apdu, &mut octets);
    queue.push(octets.as_slice());
}

/// Puts an I frame with these numbers into a queue.
pub(crate) fn push_info(stamp: &Stamp, asdu: &View<'_>, queue: &mut Outq)
    requires small { IsSmall stamp.now }
    requires at_most { length asdu.now.bytes ≤ 249 }
    requires open { queue.old.ended ≡ false }
    requires room { HasRoom (length (spelling (stamped stamp.now asdu.now.bytes))) queue.old }
    ensures queue { queue.new ≡ after_push queue.old (spelling (stamped stamp.now asdu.now.bytes)) }
{
    let frame = Apdu::Info {
        send: stamp.send,
        receive: stamp.receive,
        asdu: after(asdu, 0),
    };
    push_apdu(&frame, queue);
}

/// Puts the mirror of an ASDU with these numbers into a queue.
pub(crate) fn push_mirror(stamp: &Stamp, asdu: &View<'_>, queue: &mut Outq)
    requires small { IsSmall stamp.now }
    requires at_least { 9 ≤ length asdu.now.bytes }
    requires at_most { length asdu.now.bytes ≤ 249 }
    requires open { queue.old.ended ≡ false }
    requires room { HasRoom (length (spelling (stamped stamp.now (mirrored asdu.now.bytes)))) queue.old }
    ensures queue { queue.new ≡ after_push queue.old (spelling (stamped stamp.now (mirrored asdu.now.bytes))) }
{
    let mut octets = ArrayVec::<u8, 249>::new();
    mirror(after(asdu, 0), &mut octets);
    push_info(stamp, &View::one(octets.as_slice()), queue);
}

/// Puts an S frame into a queue, where one is owed.
pub(crate) fn push_ack(ack: Option<u16>, queue: &mut Outq)
    requires small { MatchOption ack (Unit {0}) (λ n. n < 32768) }
    requires open { queue.old.ended ≡ false }
    requires room { HasRoom 6 queue.old }
    ensures queue { queue.new ≡ after_push queue.old (ack_octets ack) }
{
    if let Some(receive) = ack {
        push_apdu(&Apdu::Ack { receive }, queue);
    }
}
