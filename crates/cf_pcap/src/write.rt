//! Writers of capture files: little-endian, microseconds, raw IP.
ghost use Rattle.std.specs.Prelude.{◌≡◌, ℕ, ◌+◌, ◌<◌, ◌≤◌, ◌++◌, List, Ok, length};
ghost use Rattle.cf_view.specs.Octets.{u32_le_octets};
ghost use Rattle.cf_pcap.specs.Header.{header_of, output_header, output_octets};
ghost use Rattle.cf_pcap.specs.Record.{Whole, head_octets, record_of};
ghost use Rattle.cf_view.specs.Moment.{moment_limit};
ghost use Rattle.cf_pcap.specs.declared.record.TheConstants.{CAPTURED_LIMIT};

/// The header of every file that is written.
const OUTPUT_HEADER: [u8; 24] = [
    0xD4, 0xC3, 0xB2, 0xA1, // the magic: little-endian, microseconds
    2, 0, 4, 0, // version 2.4
    0, 0, 0, 0, // zone
    0, 0, 0, 0, // accuracy
    0, 0, 4, 0, // snap length 262,144
    101, 0, 0, 0, // link type: raw IP
];

/// Writes the header of a capture file: little-endian, microseconds, zone and accuracy 0, snap length 262,144, raw IP.
/// draft-ietf-opsawg-pcap, section 4; the settings are this project's own choice.
pub fn write_header(out: &mut [u8; 24])
    ensures octets { out.new ≡ output_octets }
    // It is read again.
    ensures again { header_of out.new ≡ Ok output_header }
{
    *out = OUTPUT_HEADER;
}

/// Writes the head of a record at a moment in microseconds, below 2^32 seconds, for so many octets, at most 262,144.
/// draft-ietf-opsawg-pcap, section 5; both lengths are that of the octets, this project's own choice.
#[tactic(auto, using(crate::proofs::Written::written_again))]
pub fn write_record_head(moment: u64, len: u32, out: &mut [u8; 16])
    requires moment { moment < moment_limit }
    requires short { len ≤ CAPTURED_LIMIT }
    ensures octets { out.new ≡ head_octets moment len }
    // With the octets after it, it is read again, whatever follows.
    ensures again { (body rest : List ℕ) → length body ≡ len → record_of output_header (out.new ++ body ++ rest)
        ≡ Whole moment body (16 + len) }
{
    write_head(moment, len, out);
}

fn write_head(moment: u64, len: u32, out: &mut [u8; 16])
    requires { moment < moment_limit }
    ensures { out.new ≡ head_octets moment len }
{
    out[..4].copy_from_slice(&octets((moment / 1_000_000) as u32));
    out[4..8].copy_from_slice(&octets((moment % 1_000_000) as u32));
    out[8..12].copy_from_slice(&octets(len));
    out[12..].copy_from_slice(&octets(len));
}

/// The octets of a number, the lowest one first.
fn octets(n: u32) -> [u8; 4]
    ensures { result ≡ u32_le_octets n }
{
    [
        (n % 256) as u8,
        (n / 256 % 256) as u8,
        (n / 65_536 % 256) as u8,
        (n / 16_777_216) as u8,
    ]
}
