//! A desk over two lent files: packets go to a capture file, lines to a log.
//! A record is read back only where the box would have spelled it so: a capture has many spellings of one packet.
ghost use Rattle.std.specs.Prelude.{◌≡◌, ◌<◌, ◌≤◌, ◌+◌, ◌++◌, ◌∷◌, [], List, length, ℕ};
ghost use Rattle.cf_outside.specs.Files.{Appends};
ghost use Rattle.cf_outside.specs.Frames.{OnlyWrites};
ghost use Rattle.cf_pcap.specs.Header.{output_header};
ghost use Rattle.cf_pcap.specs.Record.{Whole, head_octets, record_of};
ghost use Rattle.cf_view.specs.Moment.{moment_limit};
ghost use Rattle.cf_run.specs.OutputFile.{IsRecord, record_octets};
ghost use Rattle.cf_run.specs.FileDesk.{file_desk};

use cf_outside::{Desk, Files, WriteAnswer};
use cf_pcap::write_record_head;

/// The octets of the head of a record. draft-ietf-opsawg-pcap, section 5.
const HEAD: usize = 16;

/// The octets of a packet that is joined with its head: most requests and answers have fewer.
const SHORT_PACKET: usize = 112;

/// Writes packets to one file and lines to another, through lent files, and counts their failed writes. It is whole where
/// `failed` is false, the two names differ, OUT has a header and whole records alone, and nothing stands after the last line
/// feed of the log. This project's own.
#[derive(Drop)]
pub struct FileDesk<'a, F> {
    /// The files that it writes through.
    pub files: &'a mut F,
    /// The name of the capture file of packets.
    pub out: &'a str,
    /// The name of the log.
    pub log: &'a str,
    /// Whether a call failed: false as the desk is made.
    pub failed: bool,
}

#[tactic(auto, using(crate::proofs::FileDesks::file_desk_laws))]
impl<'a, F: Files> Desk for FileDesk<'a, F> {
    ghost value = { λ d. file_desk d.failed d.files.ghost_name (F.write_faults d.files.now) (F.read_faults d.files.now)
        d.out.now d.log.now (F.content d.files.now) };

    /// Appends a record to the capture file. The desk is no longer whole where that failed.
    fn emit(&mut self, moment: u64, packet: &[u8]) -> WriteAnswer {
        match append_packet(self.out, moment, packet, self.files) {
            WriteAnswer::Done => WriteAnswer::Done,
            WriteAnswer::Failed => {
                self.failed = true;
                WriteAnswer::Failed
            }
        }
    }

    /// Appends the line to the log. The desk is no longer whole where that failed.
    fn line(&mut self, text: &str) -> WriteAnswer {
        match self.files.append(self.log, text.as_bytes()) {
            WriteAnswer::Done => WriteAnswer::Done,
            WriteAnswer::Failed => {
                self.failed = true;
                WriteAnswer::Failed
            }
        }
    }
}

/// Appends the record of a packet of at most 1,500 octets, at a moment in microseconds, below 2^32 seconds, to a file that is there:
/// its head, and then the packet. After `Failed` a prefix of them may stand there.
pub fn append_packet<F: Files>(name: &str, moment: u64, packet: &[u8], files: &mut F) -> WriteAnswer
    requires moment { moment < moment_limit }
    requires packet { length packet.now ≤ 1500 }
    ensures file { Appends (record_octets (record { moment = moment; bytes = packet.now })) (F.content files.old name.now)
        (F.content files.new name.now) result }
    ensures writes { OnlyWrites (name.now ∷ []) F.content F.read_faults F.write_faults files.old files.new (result ≡ WriteAnswer.Failed) }
    // What is appended is one record, and none of its beginnings is.
    ensures one { IsRecord (record_octets (record { moment = moment; bytes = packet.now }))
        (record { moment = moment; bytes = packet.now }) }
    // It is read again, whatever follows.
    ensures again { (rest : List ℕ) → record_of output_header (record_octets (record { moment = moment; bytes = packet.now }) ++ rest)
        ≡ Whole moment packet.now (16 + length packet.now) }
{
    let head = record_head(moment, packet);
    if packet.len() <= SHORT_PACKET {
        append_joined(name, &head, packet, files)
    } else {
        append_parts(name, &head, packet, files)
    }
}

/// Appends a head and a short packet by one call, out of a buffer that both are copied to: that is less work than a second call.
fn append_joined<F: Files>(
    name: &str,
    head: &[u8; HEAD],
    packet: &[u8],
    files: &mut F,
) -> WriteAnswer
    requires { length packet.now ≤ 112 }
    ensures file { Appends (head.now ++ packet.now) (F.content files.old name.now) (F.content files.new name.now) result }
    ensures writes { OnlyWrites (name.now ∷ []) F.content F.read_faults F.write_faults files.old files.new (result ≡ WriteAnswer.Failed) }
{
    let size = HEAD + packet.len();
    let mut record = [0u8; HEAD + SHORT_PACKET];
    record[..HEAD].copy_from_slice(head);
    record[HEAD..size].copy_from_slice(packet);
    files.append(name, &record[..size])
}

/// Appends a head, and then a packet.
fn append_parts<F: Files>(
    name: &str,
    head: &[u8; HEAD],
    packet: &[u8],
    files: &mut F,
) -> WriteAnswer
    ensures file { Appends (head.now ++ packet.now) (F.content files.old name.now) (F.content files.new name.now) result }
    ensures writes { OnlyWrites (name.now ∷ []) F.content F.read_faults F.write_faults files.old files.new (result ≡ WriteAnswer.Failed) }
{
    match files.append(name, head) {
        WriteAnswer::Done => files.append(name, packet),
        WriteAnswer::Failed => WriteAnswer::Failed,
    }
}

/// The head of the record of a packet.
fn record_head(moment: u64, packet: &[u8]) -> [u8; HEAD]
    requires moment { moment < moment_limit }
    requires packet { length packet.now ≤ 1500 }
    ensures octets { result ≡ head_octets moment (length packet.now) }
    ensures one { IsRecord (record_octets (record { moment = moment; bytes = packet.now }))
        (record { moment = moment; bytes = packet.now }) }
    ensures again { (rest : List ℕ) → record_of output_header (record_octets (record { moment = moment; bytes = packet.now }) ++ rest)
        ≡ Whole moment packet.now (16 + length packet.now) }
{
    let mut head = [0u8; HEAD];
    write_record_head(moment, packet.len() as u32, &mut head);
    head
}
