//! Frames written.
ghost use Rattle.std.specs.Prelude.{◌≡◌, ℕ, ◌+◌, ◌≤◌, List, [], ◌++◌, length};
ghost use Rattle.arrayvec.specs.ArrayVec.{array_vec_len};
ghost use Rattle.cf_view.specs.Framing.{Begins};
ghost use Rattle.cf_dnplink.specs.LinkFrame.{SpellsFrame, with_crc, blocks_of, header_of, spelling, frame_with};

use crate::check::crc;
use arrayvec::ArrayVec;
use cf_view::{View, push_u16_le, push_view};

/// Replaces the contents of `out` by a frame with at most 250 user octets, 10 to 292 octets in all. IEEE 1815-2012, section 9.2.
pub fn write_frame(
    control: u8,
    dest: u16,
    source: u16,
    user: &View<'_>,
    out: &mut ArrayVec<u8, 292>,
)
    requires { length user.now.bytes ≤ 250 }
    ensures written { out.new.items ≡ spelling control dest source user.now.bytes }
    ensures spelled { SpellsFrame (frame_with control dest source user.now.bytes) out.new.items }
    ensures again { (rest : List ℕ) → Begins SpellsFrame (out.new.items ++ rest) (frame_with control dest source user.now.bytes)
        (array_vec_len out.new) }
{
    out.clear();
    push_header(out, user.len() as u8 + 5, control, dest, source);
    push_blocks(out, user);
}

/// Appends octets and their CRC.
fn push_block(out: &mut ArrayVec<u8, 292>, octets: View<'_>)
    requires { array_vec_len out.old + (length octets.bytes + 2) ≤ 292 }
    ensures items { out.new.items ≡ out.old.items ++ with_crc octets.entry.bytes }
    ensures len { array_vec_len out.new ≡ array_vec_len out.old + (length octets.entry.bytes + 2) }
{
    push_view(out, &octets);
    push_u16_le(out, crc(octets));
}

/// Appends the header of a frame, its CRC included.
fn push_header(out: &mut ArrayVec<u8, 292>, len: u8, control: u8, dest: u16, source: u16)
    requires { out.old.items ≡ [] }
    ensures items { out.new.items ≡ header_of len control dest source }
    ensures len { array_vec_len out.new ≡ 10 }
{
    let octets = [
        0x05,
        0x64,
        len,
        control,
        (dest % 256) as u8,
        (dest / 256) as u8,
        (source % 256) as u8,
        (source / 256) as u8,
    ];
    push_block(out, View::one(&octets));
}

/// Appends user octets in blocks of 16, each with its CRC.
fn push_blocks(out: &mut ArrayVec<u8, 292>, user: &View<'_>)
    requires user { length user.now.bytes ≤ 250 }
    requires room { array_vec_len out.old ≡ 10 }
    ensures { out.new.items ≡ out.old.items ++ blocks_of user.now.bytes }
{
    let len = user.len();
    let count = (len + 15) / 16;
    for k in 0..count {
        push_block(out, user.sub(16 * k, (16 * k + 16).min(len)));
    }
}
