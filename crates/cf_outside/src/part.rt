//! A part of a file, read into a buffer.
ghost use Rattle.std.specs.Prelude.{◌≡◌, ◌^◌, ◌<◌, ◌≤◌, IfSome, None, drop, length, take};
ghost use Rattle.cf_outside.specs.Frames.{OnlyReads};
ghost use Rattle.cf_outside.specs.Part.{HasRead, IsFilled};

use crate::files::{Files, ReadAnswer};

/// Reads octets of a file from a place on into the buffer until so many stand there or the file ends, where some of the
/// first stand there already. Answers how many stand there then, and `None` where a read failed. Changes no file.
pub fn fill<F: Files>(
    name: &str,
    place: u64,
    before: usize,
    size: usize,
    buffer: &mut [u8],
    files: &mut F,
) -> Option<usize>
    requires inside { before ≤ size }
    requires some { 0 < size }
    requires room { size ≤ length buffer.old }
    requires near { place ≤ 2 ^ 40 }
    requires short { length buffer.old ≤ 2 ^ 24 }
    requires begun { HasRead (F.content files.old name.now) place (take before buffer.old) }
    ensures inside { IfSome result (λ have. have ≤ size) }
    ensures filled { IfSome result (λ have. IsFilled (F.content files.old name.now) place size (take have buffer.new)) }
    // What stood there stays.
    ensures front { take before buffer.new ≡ take before buffer.old }
    ensures behind { drop size buffer.new ≡ drop size buffer.old }
    ensures some { IfSome result (λ have. before ≤ have) }
    ensures length { length buffer.new ≡ length buffer.old }
    ensures reads { OnlyReads name.now F.content F.read_faults F.write_faults files.old files.new (result ≡ None) }
{
    let mut have = before;
    'pieces: while have < size {
        match files.read_at(name, place + have as u64, &mut buffer[have..size]) {
            ReadAnswer::Got(n) => have += n,
            ReadAnswer::End => return Some(have),
            ReadAnswer::Failed => return None,
        }
    }
    Some(have)
}
