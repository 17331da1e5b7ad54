//! A queue's bytes, given to its side of a session.
ghost use Rattle.std.specs.Prelude.{◌≡◌, ℕ, ◌<◌, Err, length, true};
ghost use Rattle.cf_links.specs.LinkValue.{told_of};
ghost use Rattle.cf_links.specs.Links.{LinksPlace};
ghost use Rattle.cf_outq.specs.SendQueue.{IsQueueOf};
ghost use Rattle.cf_outside.specs.Pair.{FaultsBy};
ghost use Rattle.cf_stream.specs.Stream.{Stream};
ghost use Rattle.cf_relay.specs.declared.limit.TheConstants.{MOST_BYTES};
ghost use Rattle.cf_relay.specs.Gave.{GaveBy, FinishesBy};
ghost use Rattle.cf_relay.specs.Scene.{RoseBy};

use crate::stop::{Stop, count_idle};
use cf_driver::{front, pop};
use cf_links::Links;
use cf_outq::Outq;
use cf_outside::{GiveAnswer, WriteAnswer};
use cf_view::Side;

/// Gives a side queued bytes until the queue is empty or `Idle` comes. Each give is handed at most as many of the oldest
/// bytes as the buffer takes.
pub(crate) fn give_to<L: Links>(
    side: Side,
    queue: &mut Outq,
    idle: &mut u64,
    most: u64,
    buf: &mut [u8],
    session: u64,
    links: &mut L,
) -> Result<(), Stop>
    requires serves { LinksPlace.serves (L.place links.old) session ≡ true }
    requires few { idle.old < most }
    requires buffer { length buf.old ≡ MOST_BYTES }
    ensures place { L.place links.new ≡ L.place links.old }
    ensures gave { GaveBy side most queue.old queue.new (told_of L.Links session links.old) (told_of L.Links session links.new)
        idle.old idle.new result }
    ensures stands { (whole : Stream) → IsQueueOf queue.old whole → IsQueueOf queue.new whole }
    ensures cause { FaultsBy (L.faults links.old) (L.faults links.new) (result ≡ Err Stop.Link) }
    ensures idles { (start : ℕ) → RoseBy idle.old start (L.idles links.old) → RoseBy idle.new start (L.idles links.new) }
    ensures buffer { length buf.new ≡ MOST_BYTES }
{
    'gives: loop {
        let n = front(queue, buf);
        if n == 0 {
            return Ok(());
        }
        match links.give(session, side, &buf[..n]) {
            GiveAnswer::Took(took) => {
                pop(queue, took);
                *idle = 0;
            }
            GiveAnswer::Idle => return count_idle(idle, most),
            GiveAnswer::Failed => return Err(Stop::Link),
        }
    }
}

/// Closes a side for sending where End is all that is left for it, once.
pub(crate) fn finish_to<L: Links>(
    side: Side,
    queue: &Outq,
    finished: &mut bool,
    session: u64,
    links: &mut L,
) -> Result<(), Stop>
    requires serves { LinksPlace.serves (L.place links.old) session ≡ true }
    ensures place { L.place links.new ≡ L.place links.old }
    ensures finishes { FinishesBy side queue.now finished.old finished.new (told_of L.Links session links.old)
        (told_of L.Links session links.new) result }
    ensures cause { FaultsBy (L.faults links.old) (L.faults links.new) (result ≡ Err Stop.Link) }
    ensures idles { L.idles links.new ≡ L.idles links.old }
{
    if *finished || !queue.is_ended() || queue.waiting() > 0 {
        return Ok(());
    }
    match links.finish(session, side) {
        WriteAnswer::Done => {
            *finished = true;
            Ok(())
        }
        WriteAnswer::Failed => Err(Stop::Link),
    }
}
