//! Packets written: IPv4 with no options, and TCP with no option but a maximum segment size.
ghost use Rattle.std.specs.Prelude.{◌≡◌, ℕ, ◌+◌, ◌*◌, ◌^◌, ◌<◌, ◌≤◌, ◌++◌, Ok, None, Some};
ghost use Rattle.arrayvec.specs.ArrayVec.{array_vec_len};
ghost use Rattle.cf_view.specs.declared.LinkKind.TheVariants as link;
ghost use Rattle.cf_packet.specs.Checksum.{total, words};
ghost use Rattle.cf_packet.specs.Packet.{packet_value, read_record};
ghost use Rattle.cf_packet.specs.Written.{HasRanges, IsWritable, header_checksum, header_with, option_octets, option_words, packet_octets};
ghost use Rattle.cf_packet.specs.Written.{segment_checksum, segment_header, segment_length};

use crate::checksum::{folded, gathered};
use crate::packet::Packet;
use crate::segment::{pseudo_sum, words_of};
use arrayvec::ArrayVec;
use cf_view::{push_bytes, push_u16_be, push_u32_be};

/// Writes a packet in place of what `out` held: identification 0, don't-fragment set, TTL 64, service octet 0, urgent
/// pointer 0, and both checksums right. It has at most 1,460 octets of text and none beside a maximum segment size, and
/// no bit among its flags but the six. RFC 791 and RFC 9293; the settings are this project's own.
pub fn write_packet(packet: &Packet<'_>, out: &mut ArrayVec<u8, 1500>)
    requires { IsWritable (packet_value packet.now) }
    ensures octets { out.new.items ≡ packet_octets (packet_value packet.now) }
    // It is read again.
    ensures again { read_record link.RawIp out.new.items ≡ Ok (packet_value packet.now) }
{
    write(packet, out);
}

/// The two headers of a packet without a maximum segment size, 40 octets: what stands before its text where `write_packet`
/// writes it. So a text that stands in its place already is not copied.
#[inline(always)]
pub fn headers(packet: &Packet<'_>) -> ArrayVec<u8, 40>
    requires writable { IsWritable (packet_value packet.now) }
    requires bare { packet.now.mss ≡ None }
    ensures octets { result.items ++ packet.now.text.now ≡ packet_octets (packet_value packet.now) }
    ensures len { array_vec_len result ≡ 40 }
{
    let mut out = ArrayVec::new();
    push_header(packet, &mut out);
    push_segment_header(packet, &mut out);
    out
}

fn write(packet: &Packet<'_>, out: &mut ArrayVec<u8, 1500>)
    requires { IsWritable (packet_value packet.now) }
    ensures octets { out.new.items ≡ packet_octets (packet_value packet.now) }
    ensures ranges { HasRanges (packet_value packet.now) }
{
    out.clear();
    push_header(packet, out);
    push_segment_header(packet, out);
    push_bytes(out, packet.text);
}

#[inline(always)]
fn push_header<const N: usize>(packet: &Packet<'_>, out: &mut ArrayVec<u8, N>)
    requires room { array_vec_len out.old + 20 ≤ N }
    requires writable { IsWritable (packet_value packet.now) }
    ensures items { out.new.items ≡ out.old.items ++ header_with (header_checksum (packet_value packet.now)) (packet_value packet.now) }
    ensures len { array_vec_len out.new ≡ array_vec_len out.old + 20 }
{
    let checksum = header_checksum(packet);
    push_u16_be(out, 0x4500);
    push_u16_be(out, 20 + segment_length(packet));
    push_u16_be(out, 0);
    push_u16_be(out, 0x4000);
    push_u16_be(out, 0x4006);
    push_u16_be(out, checksum);
    push_u32_be(out, packet.source.address);
    push_u32_be(out, packet.dest.address);
}

#[inline(always)]
fn push_segment_header<const N: usize>(packet: &Packet<'_>, out: &mut ArrayVec<u8, N>)
    requires room { array_vec_len out.old + (20 + 4 * option_words packet.now.mss) ≤ N }
    requires writable { IsWritable (packet_value packet.now) }
    ensures items { out.new.items ≡ out.old.items ++ segment_header (segment_checksum (packet_value packet.now)) (packet_value packet.now) }
    ensures len { array_vec_len out.new ≡ array_vec_len out.old + (20 + 4 * option_words packet.now.mss) }
    ensures ranges { HasRanges (packet_value packet.now) }
{
    let checksum = segment_checksum(packet);
    push_u16_be(out, packet.source.port);
    push_u16_be(out, packet.dest.port);
    push_u32_be(out, packet.seq);
    push_u32_be(out, packet.ack);
    out.push((5 + option_words(packet.mss)) * 16);
    out.push(packet.flags);
    push_u16_be(out, packet.window);
    push_u16_be(out, checksum);
    push_u16_be(out, 0);
    push_options(packet.mss, out);
}

fn push_options<const N: usize>(mss: Option<u16>, out: &mut ArrayVec<u8, N>)
    requires { array_vec_len out.old + 4 * option_words mss ≤ N }
    ensures items { out.new.items ≡ out.old.items ++ option_octets mss }
    ensures len { array_vec_len out.new ≡ array_vec_len out.old + 4 * option_words mss }
{
    if let Some(mss) = mss {
        out.push(2);
        out.push(4);
        push_u16_be(out, mss);
    }
}

/// The length of the options in words of four octets.
fn option_words(mss: Option<u16>) -> u8
    ensures value { result ≡ option_words mss }
    ensures small { result ≤ 1 }
{
    match mss {
        Some(_) => 1,
        None => 0,
    }
}

fn segment_length(packet: &Packet<'_>) -> u16
    requires { IsWritable (packet_value packet.now) }
    ensures value { result ≡ segment_length (packet_value packet.now) }
    ensures small { result ≤ 1480 }
{
    20 + 4 * u16::from(option_words(packet.mss)) + packet.text.len() as u16
}

fn header_checksum(packet: &Packet<'_>) -> u16
    requires { IsWritable (packet_value packet.now) }
    ensures { result ≡ header_checksum (packet_value packet.now) }
{
    let fixed = 0x4500 + 0x4000 + 0x4006;
    let addresses = words_of(packet.source.address) + words_of(packet.dest.address);
    0xFFFF - folded(fixed + u64::from(20 + segment_length(packet)) + addresses)
}

fn segment_checksum(packet: &Packet<'_>) -> u16
    requires { IsWritable (packet_value packet.now) }
    ensures value { result ≡ segment_checksum (packet_value packet.now) }
    ensures ranges { HasRanges (packet_value packet.now) }
{
    let length = u64::from(segment_length(packet));
    let pseudo = pseudo_sum(packet.source.address, packet.dest.address, length);
    0xFFFF - folded(pseudo + header_sum(packet) + gathered(packet.text))
}

/// The sum of the words of the segment's header, with 0 in its checksum field.
fn header_sum(packet: &Packet<'_>) -> u64
    requires { IsWritable (packet_value packet.now) }
    ensures value { result ≡ total (words (segment_header 0 (packet_value packet.now))) }
    ensures small { result ≤ 2 ^ 20 }
    ensures mss { (m : ℕ) → packet.now.mss ≡ Some m → m < 65536 }
{
    let ports = u64::from(packet.source.port) + u64::from(packet.dest.port);
    let numbers = words_of(packet.seq) + words_of(packet.ack);
    let offset = u64::from(option_words(packet.mss) + 5) * 4096 + u64::from(packet.flags);
    ports + numbers + offset + u64::from(packet.window) + option_sum(packet.mss)
}

/// The sum of the words of the options.
fn option_sum(mss: Option<u16>) -> u64
    ensures value { result ≡ total (words (option_octets mss)) }
    ensures small { result ≤ 2 ^ 17 }
    ensures mss { (m : ℕ) → mss ≡ Some m → m < 65536 }
{
    match mss {
        Some(mss) => 0x0204 + u64::from(mss),
        None => 0,
    }
}
