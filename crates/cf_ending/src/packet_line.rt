//! The line of a record of a capture, spelled from its end to its front.
ghost use Rattle.std.specs.Prelude.{◌≡◌, ◌+◌, ◌<◌, ◌≤◌, ◌++◌, Ok, codes, drop, is_err, length};
ghost use Rattle.cf_ending.specs.PacketLine.{fields_text, flag_text, flags_text, is_dropped, packet_text, record_line, refusal_name};
ghost use Rattle.cf_packet.specs.Packet.{packet_answer, packet_value};

use crate::spell::{spell_endpoint, spell_moment, spell_number, spell_text, spell_u16, spell_u32};
use cf_packet::{ACK, FIN, PSH, Packet, PacketRefusal, RST, SYN, URG, read_packet};
use cf_view::LinkKind;

/// The longest line has fewer octets.
pub const LONGEST_LINE: usize = 192;

/// What was spelled of a record.
#[derive(Clone, Copy)]
pub struct RecordLine {
    /// Where its line begins.
    pub start: usize,
    /// It has no segment.
    pub is_dropped: bool,
}

/// Spells the line of the record of a number, counted from 1, so that it ends with the octets.
#[tactic(auto, using(crate::proofs::Spelled::nothing_behind))]
pub fn spell_line(
    link: &LinkKind,
    number: u64,
    stamp: u64,
    body: &[u8],
    out: &mut [u8; LONGEST_LINE],
) -> RecordLine
    ensures line { drop result.start out.new ≡ record_line number (record { stamp = stamp; link = link.now; body = body.now }) }
    ensures inside { result.start ≤ 192 }
    ensures dropped { result.is_dropped ≡ is_dropped (record { stamp = stamp; link = link.now; body = body.now }) }
{
    let packet = read_packet(link, body);
    let at = spell_text("\n", out, LONGEST_LINE);
    let at = spell_answer(&packet, out, at);
    let at = spell_text(" ", out, at);
    let at = spell_moment(stamp, out, at);
    let at = spell_text(" ", out, at);
    RecordLine {
        start: spell_number(number, out, at),
        is_dropped: has_none(&packet),
    }
}

/// Whether there is no packet.
fn has_none(packet: &Result<Packet<'_>, PacketRefusal>) -> bool
    ensures { result ≡ is_err (packet_answer packet.now) }
{
    match packet {
        Ok(_) => false,
        Err(_) => true,
    }
}

fn spell_answer(packet: &Result<Packet<'_>, PacketRefusal>, out: &mut [u8], end: usize) -> usize
    requires room { (120 ≤ end) × (end ≤ length out.old) }
    ensures written { drop result out.new ≡ packet_text (packet_answer packet.now) ++ drop end out.old }
    ensures near { (result ≤ end) × (end ≤ result + 120) }
    ensures length { length out.new ≡ length out.old }
{
    match packet {
        Ok(packet) => spell_packet(packet, out, end),
        Err(refusal) => spell_refusal(*refusal, out, end),
    }
}

fn spell_packet(packet: &Packet<'_>, out: &mut [u8], end: usize) -> usize
    requires room { (120 ≤ end) × (end ≤ length out.old) }
    ensures written { drop result out.new ≡ packet_text (Ok (packet_value packet.now)) ++ drop end out.old }
    ensures near { (result ≤ end) × (end ≤ result + 120) }
    ensures length { length out.new ≡ length out.old }
{
    let at = spell_fields(packet, out, end);
    let at = spell_flags(packet.flags, out, at);
    let at = spell_text(" ", out, at);
    let at = spell_endpoint(&packet.dest, out, at);
    let at = spell_text(" > ", out, at);
    spell_endpoint(&packet.source, out, at)
}

fn spell_fields(packet: &Packet<'_>, out: &mut [u8], end: usize) -> usize
    requires room { (65 ≤ end) × (end ≤ length out.old) }
    ensures written { drop result out.new ≡ fields_text (packet_value packet.now) ++ drop end out.old }
    ensures near { (result ≤ end) × (end ≤ result + 65) }
    ensures length { length out.new ≡ length out.old }
{
    let at = spell_number(packet.text.len() as u64, out, end);
    let at = spell_text(" len ", out, at);
    let at = spell_u16(packet.window, out, at);
    let at = spell_text(" win ", out, at);
    let at = spell_u32(packet.ack, out, at);
    let at = spell_text(" ack ", out, at);
    let at = spell_u32(packet.seq, out, at);
    spell_text(" seq ", out, at)
}

/// Spells the letters of the flags that are set, or a hyphen.
fn spell_flags(flags: u8, out: &mut [u8], end: usize) -> usize
    requires room { (6 ≤ end) × (end ≤ length out.old) }
    ensures written { drop result out.new ≡ flags_text flags ++ drop end out.old }
    ensures near { (result ≤ end) × (end ≤ result + 6) }
    ensures length { length out.new ≡ length out.old }
{
    if flags == 0 {
        return spell_text("-", out, end);
    }
    let at = spell_flag(flags, URG, "U", out, end);
    let at = spell_flag(flags, ACK, "A", out, at);
    let at = spell_flag(flags, PSH, "P", out, at);
    let at = spell_flag(flags, RST, "R", out, at);
    let at = spell_flag(flags, SYN, "S", out, at);
    spell_flag(flags, FIN, "F", out, at)
}

/// Spells the letter of a flag if it is set.
#[inline]
fn spell_flag(flags: u8, flag: u8, letter: &str, out: &mut [u8], end: usize) -> usize
    requires flag { 0 < flag }
    requires letter { length letter.now ≡ 1 }
    requires room { (1 ≤ end) × (end ≤ length out.old) }
    ensures written { drop result out.new ≡ flag_text flags flag letter.now ++ drop end out.old }
    ensures near { (result ≤ end) × (end ≤ result + 1) }
    ensures length { length out.new ≡ length out.old }
{
    if flags / flag % 2 == 0 {
        return end;
    }
    spell_text(letter, out, end)
}

fn spell_refusal(refusal: PacketRefusal, out: &mut [u8], end: usize) -> usize
    requires room { (17 ≤ end) × (end ≤ length out.old) }
    ensures written { drop result out.new ≡ codes "dropped " ++ refusal_name refusal ++ drop end out.old }
    ensures near { (result ≤ end) × (end ≤ result + 17) }
    ensures length { length out.new ≡ length out.old }
{
    let at = spell_text(refusal_word(refusal), out, end);
    spell_text("dropped ", out, at)
}

fn refusal_word(refusal: PacketRefusal) -> &'static str
    ensures name { result.now ≡ refusal_name refusal }
    ensures short { length result.now ≤ 9 }
{
    match refusal {
        PacketRefusal::NotIpv4 => "notipv4",
        PacketRefusal::Short => "short",
        PacketRefusal::BadHeader => "badheader",
        PacketRefusal::BadHeaderSum => "badsum",
        PacketRefusal::Fragment => "fragment",
        PacketRefusal::NotTcp => "nottcp",
        PacketRefusal::BadTcp => "badtcp",
        PacketRefusal::BadTcpSum => "badtcpsum",
    }
}
