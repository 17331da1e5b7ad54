//! The marks of frames that are not acknowledged.
//! Refused frames with no unacknowledged admitted frame before them keep no mark, and do not count as outstanding.
ghost use Rattle.std.specs.Prelude.{◌≡◌, ◌+◌, ◌<◌, ◌≤◌, [], ◌∷◌, ◌++◌, length, drop, IfSome, IfNone, count_by};
ghost use Rattle.circular_buffer.specs.Buffer.{buffer};
ghost use Rattle.cf_renumber.specs.Counts.{controllers_among, is_controllers};
ghost use Rattle.cf_renumber.specs.Numbers.{uncovered};
ghost use Rattle.cf_renumber.specs.declared.mark.FrameFate.TheVariants as fates;

use crate::mark::{FrameFate, Origin};
use circular_buffer::HeapCircularBuffer;

/// 1 where the frame at a place is the controller's, else 0.
#[tactic(auto, using(crate::proofs::Lists::among_controller, crate::proofs::Lists::among_mirror, std::proofs::lemmas::Option::slice_get_past))]
fn controller_at(ring: &HeapCircularBuffer<Origin>, i: usize) -> u16
    requires { i < length ring.now.items }
    ensures next { controllers_among (i + 1) ring.now.items ≡ controllers_among i ring.now.items + result }
    ensures one { result ≤ 1 }
{
    match ring.get(i).copied() {
        Some(Origin::Controller) => 1,
        Some(Origin::Mirror) => 0,
        None => 0,
    }
}

/// How many of the first `n` frames to the client are the controller's.
fn controllers(ring: &HeapCircularBuffer<Origin>, n: u16) -> u16
    requires { n ≤ length ring.now.items }
    ensures { result ≡ controllers_among n ring.now.items }
{
    let mut seen: u16 = 0;
    for i in 0..n {
        seen += controller_at(ring, i as usize);
    }
    seen
}

/// Forgets the first `n` frames to the client, and tells how many of them are the controller's.
pub fn acknowledge(ring: &mut HeapCircularBuffer<Origin>, n: u16) -> u16
    requires { n ≤ length ring.old.items }
    ensures ring { ring.new ≡ buffer (drop n ring.old.items) ring.old.capacity }
    ensures value { result ≡ controllers_among n ring.old.items }
    ensures rest { count_by is_controllers ring.old.items ≡ result + count_by is_controllers ring.new.items }
{
    let seen = controllers(ring, n);
    ring.truncate_front(ring.len() - n as usize);
    seen
}

/// Forgets the first frame of the client where it is refused, or admitted and some are left to forget; tells how many are
/// left then.
fn forget_one(ring: &mut HeapCircularBuffer<FrameFate>, left: u16) -> Option<u16>
    ensures some { IfSome result (λ less. (uncovered left ring.old.items ≡ uncovered less ring.new.items)
        × (length ring.new.items < length ring.old.items)) }
    ensures none { IfNone result ((uncovered left ring.old.items ≡ ring.new.items)) }
    ensures capacity { ring.new.capacity ≡ ring.old.capacity }
{
    let less = match ring.get(0).copied()? {
        FrameFate::Refused => left,
        FrameFate::Admitted => left.checked_sub(1)?,
    };
    ring.pop_front();
    Some(less)
}

/// Forgets the greatest front of the client's frames that holds at most `admitted` admitted ones.
pub fn cover(ring: &mut HeapCircularBuffer<FrameFate>, admitted: u16)
    ensures { ring.new ≡ buffer (uncovered admitted ring.old.items) ring.old.capacity }
{
    let mut left = admitted;
    while let Some(less) = forget_one(ring, left) {
        left = less;
    }
}

/// Adds a frame of the client.
pub fn note_fate(ring: &mut HeapCircularBuffer<FrameFate>, fate: FrameFate)
    requires { length ring.old.items < ring.old.capacity }
    ensures { ring.new ≡ buffer (ring.old.items ++ fate ∷ []) ring.old.capacity }
{
    ring.push_back(fate);
}

/// Adds a frame to the client.
pub fn note_origin(ring: &mut HeapCircularBuffer<Origin>, origin: Origin)
    requires { length ring.old.items < ring.old.capacity }
    ensures { ring.new ≡ buffer (ring.old.items ++ origin ∷ []) ring.old.capacity }
{
    ring.push_back(origin);
}

/// Adds a refused frame of the client, unless all before it are acknowledged, and it with them.
#[tactic(auto, using(crate::proofs::Lists::uncovered_keeps, std::proofs::lemmas::List::nil_from_length))]
pub fn note_refused(ring: &mut HeapCircularBuffer<FrameFate>)
    requires room { length ring.old.items < ring.old.capacity }
    requires front { uncovered 0 ring.old.items ≡ ring.old.items }
    ensures { ring.new ≡ buffer (uncovered 0 (ring.old.items ++ fates.Refused ∷ [])) ring.old.capacity }
{
    if ring.is_empty() {
        return;
    }
    note_fate(ring, FrameFate::Refused);
}
