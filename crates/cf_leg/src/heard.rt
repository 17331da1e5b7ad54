//! What a packet is to a TCP end.
//! On an end that is not open an RST is tested first, and every other wrong packet is ignored without a challenge; a SYN ACK
//! opens also with FIN or text, which are not taken. With window 0 an RST at the base, which is then the edge, resets. An
//! acknowledgement below what was acknowledged still counts, and its position plus window may raise the edge.
ghost use Rattle.std.specs.Prelude.{◌≡◌, ◌-◌, ◌^◌, ◌≤◌, length, pos, negsuc, ◌≤ℤ◌};
ghost use Rattle.std.specs.Prelude.{int_lt};
ghost use Rattle.cf_packet.specs.Packet.{packet_value};
ghost use Rattle.cf_stream.specs.Position.{position};
ghost use Rattle.cf_leg.specs.Heard.{ack_place, answer_to, counts_as, first_answer, in_reach, is_in_reach, has_opened, open_answer};
ghost use Rattle.cf_leg.specs.Heard.{opens_as, owes_for, reset_answer, resets_as, text_place};
ghost use Rattle.cf_leg.specs.Segment.{has_ack, has_fin, has_rst, has_syn, letters_of};
ghost use Rattle.cf_leg.specs.Told.{answers_syn};

use crate::ends::{Advertised, EndState, LegAnswer, Role};
use cf_packet::{ACK, Packet, RST, SYN, sequence_number};

/// Whether FIN is set. RFC 9293, section 3.1.
pub(crate) fn has_fin(packet: &Packet<'_>) -> bool
    ensures { result ≡ has_fin (packet_value packet.now) }
{
    packet.flags % 2 == 1
}

fn has_syn(packet: &Packet<'_>) -> bool
    ensures { result ≡ has_syn (packet_value packet.now) }
{
    packet.flags / SYN % 2 == 1
}

fn has_rst(packet: &Packet<'_>) -> bool
    ensures { result ≡ has_rst (packet_value packet.now) }
{
    packet.flags / RST % 2 == 1
}

fn has_ack(packet: &Packet<'_>) -> bool
    ensures { result ≡ has_ack (packet_value packet.now) }
{
    packet.flags / ACK % 2 == 1
}

/// The place nearest to a base that has a sequence number.
pub(crate) fn place_of(number: u32, origin: u32, base: u64) -> i64
    requires { base ≤ 2 ^ 31 }
    ensures value { result ≡ position number origin base }
    ensures from { negsuc (2 ^ 31 - 1) ≤ℤ result }
    ensures to { result ≤ℤ pos (2 ^ 32) }
{
    cf_packet::position(number, origin, base as i64)
}

/// How many letters a packet has.
pub(crate) fn letters_of(packet: &Packet<'_>) -> u64
    requires { length packet.now.text.now ≤ 65535 }
    ensures value { result ≡ letters_of (packet_value packet.now) }
    ensures small { result ≤ 65536 }
{
    packet.text.len() as u64 + u64::from(has_fin(packet))
}

fn in_reach(told: Advertised, at: i64, count: u64) -> bool
    requires told { (told.base ≤ 2 ^ 31) × (told.edge ≤ 2 ^ 31) }
    requires at { (negsuc (2 ^ 33) ≤ℤ at) × (at ≤ℤ pos (2 ^ 33)) }
    requires count { count ≤ 65536 }
    ensures { result ≡ in_reach told at count }
{
    let base = told.base as i64;
    let edge = told.edge as i64;
    if count == 0 {
        base <= at && at <= edge
    } else {
        told.base < told.edge && at < edge && base < at + count as i64
    }
}

fn is_in_reach(at: &EndState, packet: &Packet<'_>) -> bool
    requires told { (at.now.told.base ≤ 2 ^ 31) × (at.now.told.edge ≤ 2 ^ 31) }
    requires text { length packet.now.text.now ≤ 65535 }
    ensures { result ≡ is_in_reach at.now (packet_value packet.now) }
{
    in_reach(at.told, text_place(at, packet), letters_of(packet))
}

/// Where the letters of a packet begin.
pub(crate) fn text_place(at: &EndState, packet: &Packet<'_>) -> i64
    requires { at.now.told.base ≤ 2 ^ 31 }
    ensures value { result ≡ text_place at.now (packet_value packet.now) }
    ensures from { negsuc (2 ^ 31 - 1) ≤ℤ result }
    ensures to { result ≤ℤ pos (2 ^ 32) }
{
    place_of(packet.seq, at.other, at.told.base)
}

/// Up to where a packet acknowledges.
pub(crate) fn ack_place(at: &EndState, packet: &Packet<'_>) -> i64
    requires { at.now.sent ≤ 2 ^ 31 }
    ensures value { result ≡ ack_place at.now (packet_value packet.now) }
    ensures from { negsuc (2 ^ 31 - 1) ≤ℤ result }
    ensures to { result ≤ℤ pos (2 ^ 32) }
{
    place_of(packet.ack, at.own, at.sent)
}

/// The packet is a SYN ACK for the SYN with that sequence number.
fn answers_syn(own: u32, packet: &Packet<'_>) -> bool
    ensures { result ≡ answers_syn own (packet_value packet.now) }
{
    has_syn(packet) && has_ack(packet) && !has_rst(packet) && packet.ack == sequence_number(own, 0)
}

fn opens(at: &EndState, packet: &Packet<'_>) -> bool
    requires told { (at.now.told.base ≤ 2 ^ 31) × (at.now.told.edge ≤ 2 ^ 31) }
    requires sent { at.now.sent ≤ 2 ^ 31 }
    requires text { length packet.now.text.now ≤ 65535 }
    ensures { result ≡ opens_as at.now.role at.now (packet_value packet.now) }
{
    match at.role {
        Role::Active(_) => answers_syn(at.own, packet),
        Role::Passive(_, _) => {
            has_ack(packet)
                && !(has_syn(packet) || has_rst(packet))
                && is_in_reach(at, packet)
                && ack_place(at, packet) == 0
        }
    }
}

fn resets(at: &EndState, packet: &Packet<'_>) -> bool
    ensures { result ≡ resets_as at.now.role at.now (packet_value packet.now) }
{
    match at.role {
        Role::Active(_) => at.is_greeted
            && has_ack(packet)
            && packet.ack == sequence_number(at.own, 0),
        Role::Passive(_, _) => packet.seq == sequence_number(at.other, 0),
    }
}

/// A packet on an end that is not open.
fn first_answer(at: &EndState, packet: &Packet<'_>) -> LegAnswer
    requires told { (at.now.told.base ≤ 2 ^ 31) × (at.now.told.edge ≤ 2 ^ 31) }
    requires sent { at.now.sent ≤ 2 ^ 31 }
    requires text { length packet.now.text.now ≤ 65535 }
    ensures { result ≡ first_answer at.now (packet_value packet.now) }
{
    if has_rst(packet) {
        if resets(at, packet) {
            LegAnswer::Reset
        } else {
            LegAnswer::Ignored
        }
    } else if at.is_greeted && opens(at, packet) {
        LegAnswer::Opened
    } else {
        LegAnswer::Ignored
    }
}

/// An RST on an open end.
fn reset_answer(told: Advertised, at: i64) -> LegAnswer
    requires told { (told.base ≤ 2 ^ 31) × (told.edge ≤ 2 ^ 31) }
    ensures { result ≡ reset_answer told at }
{
    let base = told.base as i64;
    let edge = told.edge as i64;
    if at == base {
        LegAnswer::Reset
    } else if base < at && at < edge {
        LegAnswer::Challenged
    } else {
        LegAnswer::Ignored
    }
}

/// Whether a packet acknowledges what was not sent.
fn is_past(at: &EndState, packet: &Packet<'_>) -> bool
    requires { at.now.sent ≤ 2 ^ 31 }
    ensures { result ≡ int_lt (pos at.now.sent) (ack_place at.now (packet_value packet.now)) }
{
    let sent = at.sent as i64;
    sent < ack_place(at, packet)
}

/// A packet on an open end.
fn open_answer(at: &EndState, packet: &Packet<'_>) -> LegAnswer
    requires told { (at.now.told.base ≤ 2 ^ 31) × (at.now.told.edge ≤ 2 ^ 31) }
    requires sent { at.now.sent ≤ 2 ^ 31 }
    requires text { length packet.now.text.now ≤ 65535 }
    ensures { result ≡ open_answer at.now (packet_value packet.now) }
{
    if has_rst(packet) {
        reset_answer(at.told, text_place(at, packet))
    } else if has_syn(packet) {
        LegAnswer::Challenged
    } else if !has_ack(packet) {
        LegAnswer::Ignored
    } else if !is_in_reach(at, packet) || is_past(at, packet) {
        LegAnswer::Challenged
    } else {
        LegAnswer::Counted
    }
}

/// What becomes of a packet: of the rows for the end's phase and role, the first that has the packet decides. Sections are of
/// RFC 9293, and RFC 5961 has the challenges. SND.NXT is `sent`; RCV.NXT and RCV.NXT + RCV.WND are `told`, the base and the edge.
///
/// | end | packet | answer | section |
/// |---|---|---|---|
/// | active, made | any | Ignored | this project's own |
/// | active, greeted (SYN-SENT) | RST with ACK, SEG.ACK = ISS + 1 | Reset | 3.10.7.3, second |
/// | | any other RST | Ignored | 3.10.7.3, second |
/// | | SYN with ACK, SEG.ACK = ISS + 1 | Opened | 3.10.7.3, first and fourth; its text and FIN are not taken: this project's own |
/// | | any other | Ignored | this project's own: no reset is sent, and no simultaneous open is taken |
/// | passive, made or greeted (SYN-RECEIVED) | RST, SEG.SEQ = IRS + 1 | Reset | 3.10.7.4, second; RFC 5961, section 3 |
/// | | any other RST | Ignored | this project's own: no challenge before the end is open |
/// | passive, greeted | ACK without SYN, in reach, SEG.ACK = ISS + 1 | Opened | 3.10.7.4, first and fifth |
/// | passive, made or greeted | any other | Ignored | this project's own |
/// | open | RST, SEG.SEQ = RCV.NXT | Reset | 3.10.7.4, second; RFC 5961, section 3 |
/// | | RST past RCV.NXT and below the edge | Challenged | 3.10.7.4, second; RFC 5961, section 3 |
/// | | any other RST | Ignored | 3.10.7.4, first and second |
/// | | SYN | Challenged | 3.10.7.4, fourth; RFC 5961, section 4 |
/// | | without ACK | Ignored | 3.10.7.4, fifth |
/// | | not in reach | Challenged | 3.10.7.4, first |
/// | | SEG.ACK above SND.NXT | Challenged | 3.10.7.4, fifth; RFC 5961, section 5 |
/// | | any other | Counted | 3.10.7.4, fifth, seventh and eighth |
///
/// In reach is a packet with a letter in the window; or one without letters whose SEG.SEQ is from RCV.NXT to the edge, both
/// included, which is more than section 3.10.7.4, table 6, lets in. An acknowledgment below SND.UNA counts, however old. Both
/// are this project's own, and so is that RST, SYN and ACK are asked for before the place.
pub(crate) fn answer_to(at: &EndState, packet: &Packet<'_>) -> LegAnswer
    requires told { (at.now.told.base ≤ 2 ^ 31) × (at.now.told.edge ≤ 2 ^ 31) }
    requires sent { at.now.sent ≤ 2 ^ 31 }
    requires text { length packet.now.text.now ≤ 65535 }
    ensures { result ≡ answer_to at.now (packet_value packet.now) }
{
    if at.is_open {
        open_answer(at, packet)
    } else {
        first_answer(at, packet)
    }
}

/// Whether an acknowledgment is owed to a packet with that answer.
pub(crate) fn owes(role: Role, packet: &Packet<'_>, answer: LegAnswer) -> bool
    requires { length packet.now.text.now ≤ 65535 }
    ensures { result ≡ owes_for role (packet_value packet.now) answer }
{
    match answer {
        LegAnswer::Counted => letters_of(packet) > 0,
        LegAnswer::Opened => matches!(role, Role::Active(_)) || letters_of(packet) > 0,
        LegAnswer::Challenged => true,
        LegAnswer::Ignored | LegAnswer::Reset => false,
    }
}

/// Whether a packet with that answer counts.
pub(crate) fn counts(role: Role, answer: LegAnswer) -> bool
    ensures { result ≡ counts_as role answer }
{
    match answer {
        LegAnswer::Counted => true,
        LegAnswer::Opened => matches!(role, Role::Passive(_, _)),
        LegAnswer::Challenged | LegAnswer::Ignored | LegAnswer::Reset => false,
    }
}

/// Whether a packet with that answer opens the end.
pub(crate) fn has_opened(answer: LegAnswer) -> bool
    ensures { result ≡ has_opened answer }
{
    match answer {
        LegAnswer::Opened => true,
        LegAnswer::Counted | LegAnswer::Challenged | LegAnswer::Ignored | LegAnswer::Reset => false,
    }
}
