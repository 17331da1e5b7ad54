//! The user octets of a frame, without the CRCs of their blocks.
ghost use Rattle.std.specs.Prelude.{◌≡◌, ◌+◌, ◌-◌, ◌*◌, ◌/◌, ◌<◌, ◌≤◌, ◌⊎◌, ◌↔◌, ℕ, List, IfSome, IsSome, length, slice_index};
ghost use Rattle.cf_dnplink.specs.LinkFrame.{IsFrame, frame_value, blocks_of};
ghost use Rattle.cf_dnplink.specs.UserOctets.{user_of};

use crate::frame::Frame;
use cf_view::View;

/// The number of user octets of a frame, 0 to 250.
pub fn user_len(frame: &Frame<'_>) -> usize
    requires { IsFrame (frame_value frame.now) }
    ensures value { result ≡ length (user_of frame.now.blocks.bytes) }
    ensures at_most { result ≤ 250 }
{
    let len = frame.blocks.len();
    len - 2 * ((len + 17) / 18)
}

/// The user octets of a frame as they stand in it, where the blocks are one piece and there are at most 32: no more than two blocks.
pub fn lent_user<'a>(frame: &Frame<'a>) -> Option<View<'a>>
    requires { IsFrame (frame_value frame.now) }
    ensures octets { IfSome result (λ v. v.bytes ≡ user_of frame.now.blocks.bytes) }
    ensures where_lent { IsSome result
        ↔ ((frame.now.blocks.split ≡ length frame.now.blocks.bytes) × (length (user_of frame.now.blocks.bytes) ≤ 32)) }
{
    let len = user_len(frame);
    if len > 32 || frame.blocks.split() < frame.blocks.len() {
        return None;
    }
    if len <= 16 {
        return Some(frame.blocks.sub(0, len));
    }
    Some(two_blocks(&frame.blocks, len))
}

/// The first `len` user octets, which stand in two blocks of one piece.
fn two_blocks<'a>(blocks: &View<'a>, len: usize) -> View<'a>
    requires len { (16 < len) × (len ≤ 32) }
    requires inside { len + 2 ≤ length blocks.now.bytes }
    requires one { blocks.now.split ≡ length blocks.now.bytes }
    ensures len { length result.bytes ≡ len }
    ensures octets { (k : ℕ) → k < len → slice_index result.bytes k ≡ slice_index blocks.now.bytes (k + k / 16 * 2) }
{
    let (octets, _) = blocks.pieces();
    View::two(&octets[..16], &octets[18..len + 2])
}

/// Copies the user octets of a frame to `out`, which has their length.
pub fn copy_user(frame: &Frame<'_>, out: &mut [u8])
    requires frame { IsFrame (frame_value frame.now) }
    requires len { length out.old ≡ length (user_of frame.now.blocks.bytes) }
    ensures { out.new ≡ user_of frame.now.blocks.bytes }
{
    let mut done = 0;
    while done < out.len() {
        let stop = (done + 16).min(out.len());
        // The two octets of a CRC stand after each 16.
        copy_part(&frame.blocks, done + done / 16 * 2, out, done, stop);
        done = stop;
    }
}

/// Copies the octets from place `from` on to the places from `start` on and below `stop`.
fn copy_part(octets: &View<'_>, from: usize, out: &mut [u8], start: usize, stop: usize)
    requires places { (start ≤ stop) × (stop ≤ length out.old) }
    requires inside { from + (stop - start) ≤ length octets.now.bytes }
    requires small { length octets.now.bytes ≤ 282 }
    ensures here { (k : ℕ) → start ≤ k → k < stop → slice_index out.new k ≡ slice_index octets.now.bytes (from + (k - start)) }
    ensures others { (k : ℕ) → (k < start) ⊎ (stop ≤ k) → slice_index out.new k ≡ slice_index out.old k }
{
    octets
        .sub(from, from + (stop - start))
        .copy_to(&mut out[start..stop]);
}

/// A law: the user octets of the blocks that some octets make are those octets. The call does nothing.
pub fn user_octets_come_back()
    ensures { (user : List ℕ) → user_of (blocks_of user) ≡ user }
{}
