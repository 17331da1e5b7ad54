//! A queue moved into a file.
ghost use Rattle.std.specs.Prelude.{◌≡◌, ◌∷◌, [], OnOk, OnErr, IsErr, length};
ghost use Rattle.cf_outq.specs.SendQueue.{IsQueueOf};
ghost use Rattle.cf_outside.specs.Frames.{OnlyWrites};
ghost use Rattle.cf_stream.specs.Stream.{Stream};
ghost use Rattle.cf_sift.specs.Drained.{Drains, MovesPart};

use cf_driver::{front, pop};
use cf_outq::Outq;
use cf_outside::{Files, WriteAnswer};
use cf_view::WriteFault;

/// Moves all bytes of a queue to the end of a file, through a buffer of 4,096 bytes.
pub(crate) fn drain<F: Files>(
    queue: &mut Outq,
    name: &str,
    buffer: &mut [u8],
    files: &mut F,
) -> Result<(), WriteFault>
    requires buffer { length buffer.old ≡ 4096 }
    ensures drains { OnOk result (Drains queue.old queue.new (F.content files.old name.now) (F.content files.new name.now)) }
    ensures partly { OnErr result (MovesPart queue.old queue.new (F.content files.old name.now) (F.content files.new name.now)) }
    ensures stands { (whole : Stream) → IsQueueOf queue.old whole → IsQueueOf queue.new whole }
    ensures writes { OnlyWrites (name.now ∷ []) F.content F.read_faults F.write_faults files.old files.new (IsErr result) }
    ensures buffer { length buffer.new ≡ 4096 }
{
    'pieces: loop {
        let n = front(queue, buffer);
        if n == 0 {
            return Ok(());
        }
        match files.append(name, &buffer[..n]) {
            WriteAnswer::Done => pop(queue, n),
            WriteAnswer::Failed => return Err(WriteFault),
        }
    }
}
