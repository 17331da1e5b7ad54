//! The records of the capture, and their file.
ghost use Rattle.std.specs.Prelude.{◌≡◌, ◌<◌, ◌≤◌, ◌∷◌, [], length};
ghost use Rattle.cf_outside.specs.Files.{Appends};
ghost use Rattle.cf_outside.specs.Frames.{OnlyWrites};
ghost use Rattle.cf_view.specs.Moment.{moment_limit};
ghost use Rattle.cf_hosts.specs.Next.{made_record};
ghost use Rattle.cf_world.specs.Making.{IsReadAgain, record_octets};

use cf_outside::{Files, WriteAnswer};
use cf_run::append_packet;

/// Appends the record of a packet of at most 1,500 octets, at a moment in microseconds.
pub(crate) fn append_record<F: Files>(
    name: &str,
    moment: u64,
    packet: &[u8],
    files: &mut F,
) -> WriteAnswer
    requires moment { moment < moment_limit }
    requires packet { length packet.now ≤ 1500 }
    ensures file { Appends (record_octets (made_record moment packet.now))
        (F.content files.old name.now) (F.content files.new name.now) result }
    ensures again { IsReadAgain (made_record moment packet.now) }
    ensures writes { OnlyWrites (name.now ∷ []) F.content F.read_faults F.write_faults files.old files.new (result ≡ WriteAnswer.Failed) }
{
    append_packet(name, moment, packet, files)
}
