//! A queue that is taken from its front, first in and first out: for one whose peer lets in all that is put there.
ghost use Rattle.std.specs.Prelude.{◌≡◌, ◌+◌, ◌≤◌, ◌↔◌, ◌&&◌, IsTrue, min, take, drop, length, true};
ghost use Rattle.cf_driver.specs.Small.{IsSmall, is_small};
ghost use Rattle.cf_outq.specs.SendQueue.{IsQueueOf};
ghost use Rattle.cf_stream.specs.Sizes.{window_size};
ghost use Rattle.cf_stream.specs.Stream.{Stream};

use cf_outq::{Outq, Piece};

/// How many letters of a queue may wait where a side is still to send more. This project's own choice.
const SMALL: i64 = 16_384;

/// Whether both queues are small: at most 16,384 letters of each wait, End counted.
pub fn are_small(to_client: &Outq, to_controller: &Outq) -> bool
    ensures value { result ≡ (is_small to_client.now && is_small to_controller.now) }
    ensures small { IsTrue result ↔ (IsSmall to_client.now × IsSmall to_controller.now) }
    ensures kept { result ≡ true → (length to_client.now.kept ≤ window_size) × (length to_controller.now.kept ≤ window_size) }
{
    is_small(to_client) && is_small(to_controller)
}

/// Whether at most 16,384 letters of a queue wait, End counted.
fn is_small(queue: &Outq) -> bool
    ensures value { result ≡ is_small queue.now }
    ensures small { IsTrue result ↔ IsSmall queue.now }
    ensures kept { result ≡ true → length queue.now.kept ≤ window_size }
{
    queue.unacked() <= SMALL
}

/// Copies the oldest bytes of a queue, as many as `out` takes, and answers their number.
pub fn front(queue: &Outq, out: &mut [u8]) -> usize
    ensures count { result ≡ min (length queue.now.kept) (length out.old) }
    ensures bytes { take result out.new ≡ take result queue.now.kept }
    ensures rest { drop result out.new ≡ drop result out.old }
    ensures buffer { length out.new ≡ length out.old }
{
    let len = queue.waiting().min(out.len());
    if len == 0 {
        return 0;
    }
    let at = queue.length() - queue.unacked();
    queue.copy(
        Piece {
            at,
            len,
            end: false,
        },
        &mut out[..len],
    );
    len
}

/// Takes the oldest bytes out of a queue, at least one.
pub fn pop(queue: &mut Outq, n: usize)
    requires count { (1 ≤ n) × (n ≤ length queue.old.kept) }
    ensures kept { queue.new.kept ≡ drop n queue.old.kept }
    ensures acked { queue.new.acked ≡ queue.old.acked + n }
    ensures pushed { queue.new.pushed ≡ queue.old.pushed }
    ensures ended { queue.new.ended ≡ queue.old.ended }
    ensures stands { (whole : Stream) → IsQueueOf queue.old whole → IsQueueOf queue.new whole }
{
    let at = queue.length() - queue.unacked();
    queue.shown(i64::MAX);
    queue.next_piece(usize::MAX);
    queue.acked(at + n as i64);
}
