//! Packets, as the lines of an exchange spell them.

use super::{Place, digits, same, text};
use arrayvec::ArrayVec;
use cf_outside::MemoryDesk;
use cf_packet::{ACK, FIN, PSH, Packet, RST, SYN, URG, write_packet};
use cf_samples::rows::octets;
use cf_samples::{CLIENT, PUMP};
use cf_view::Endpoint;
use std::alloc::Global;
use std::process::Abort;

/// The sequence numbers of the SYNs of the client and of the controller.
#[derive(Clone, Copy)]
pub struct Origins {
    pub client: u32,
    pub controller: u32,
}

/// A packet between the client and the controller.
#[derive(Drop)]
pub struct Segment {
    pub source: Endpoint,
    pub dest: Endpoint,
    pub seq: u32,
    pub ack: u32,
    pub flags: u8,
    pub window: u16,
    pub mss: Option<u16>,
    pub text: Vec<u8>,
}

impl Segment {
    /// The packet of these fields.
    pub fn packet(&self) -> Packet<'_> {
        Packet {
            source: self.source,
            dest: self.dest,
            seq: self.seq,
            ack: self.ack,
            flags: self.flags,
            window: self.window,
            mss: self.mss,
            text: &self.text,
        }
    }
}

/// A number below 2^32.
pub fn number(rt: &impl Abort, spelled: &str) -> u32 {
    spelled.parse::<u32>().expect(rt, spelled)
}

/// A number below 65,536.
fn word(rt: &impl Abort, spelled: &str) -> u16 {
    spelled.parse::<u16>().expect(rt, spelled)
}

/// The sequence numbers of the SYNs, as two numbers.
pub fn read_origins(rt: &impl Abort, spelled: &str) -> Origins {
    let (client, controller) = spelled.split_once(' ').expect(rt, spelled);
    Origins {
        client: number(rt, client),
        controller: number(rt, controller),
    }
}

/// A moment in microseconds, and what stands after it.
pub fn moment<'a>(rt: &impl Abort, line: &'a str) -> (u64, &'a str) {
    let (moment, rest) = line.split_once(' ').unwrap_or((line, ""));
    let (seconds, micros) = moment.split_once('.').expect(rt, line);
    let micros = u64::from(number(rt, micros));
    (u64::from(number(rt, seconds)) * 1_000_000 + micros, rest)
}

/// A number as it stands, or that of the letter at a place, with its sign before it.
fn sequence(rt: &impl Abort, spelled: &str, origin: u32) -> u32 {
    let first = origin.wrapping_add(1);
    if let Some(place) = spelled.strip_prefix('+') {
        first.wrapping_add(number(rt, place))
    } else if let Some(place) = spelled.strip_prefix('-') {
        first.wrapping_sub(number(rt, place))
    } else {
        number(rt, spelled)
    }
}

fn flags(rt: &impl Abort, letters: &str) -> u8 {
    let mut flags = 0;
    for letter in letters.chars() {
        flags |= match letter {
            'F' => FIN,
            'S' => SYN,
            'R' => RST,
            'P' => PSH,
            'A' => ACK,
            'U' => URG,
            '-' => 0,
            _ => panic!(rt; "no flag in {letters}"),
        };
    }
    flags
}

/// The packet that a line spells after its moment.
pub fn read_segment(rt: &impl Abort, alloc: Global, origins: &Origins, spelled: &str) -> Segment {
    let (who, rest) = parted(spelled);
    if who == "c" {
        read_between(
            rt,
            alloc,
            &CLIENT,
            &PUMP,
            origins.client,
            origins.controller,
            rest,
        )
    } else {
        read_between(
            rt,
            alloc,
            &PUMP,
            &CLIENT,
            origins.controller,
            origins.client,
            rest,
        )
    }
}

/// The packet between two endpoints, whose SYNs have these numbers, that the flags and what stands after them spell.
fn read_between(
    rt: &impl Abort,
    alloc: Global,
    source: &Endpoint,
    dest: &Endpoint,
    origin: u32,
    other: u32,
    spelled: &str,
) -> Segment {
    let (letters, rest) = parted(spelled);
    let (seq, rest) = parted(rest);
    let (ack, rest) = parted(rest);
    let (window, last) = parted(rest);
    let mss = mss_in(rt, last);
    Segment {
        source: *source,
        dest: *dest,
        seq: sequence(rt, seq, origin),
        ack: sequence(rt, ack, other),
        flags: flags(rt, letters),
        window: word(rt, window),
        mss,
        text: text(rt, alloc, if mss.is_some() { "" } else { last }),
    }
}

/// The first field of a text, and what stands after it.
fn parted(text: &str) -> (&str, &str) {
    text.split_once(' ').unwrap_or((text, ""))
}

/// The maximum segment size that a last field spells, if it does.
fn mss_in(rt: &impl Abort, last: &str) -> Option<u16> {
    match last.strip_prefix("mss") {
        Some(size) => Some(word(rt, size)),
        None => None,
    }
}

/// The octets of the packet that a line spells after its moment; `ip` and octets are a packet as it stands.
pub fn packet(rt: &impl Abort, alloc: Global, origins: &Origins, spelled: &str) -> Vec<u8> {
    if let Some(spelled) = spelled.strip_prefix("ip ") {
        return octets(alloc, spelled).expect(rt, spelled);
    }
    let segment = read_segment(rt, alloc, origins, spelled);
    let packet = segment.packet();
    assert!(rt; packet.text.len() <= 1460 && packet.flags < 64, "{spelled}");
    assert!(rt; packet.mss.is_none() || packet.text.is_empty(), "{spelled}");
    let mut octets = ArrayVec::new();
    write_packet(&packet, &mut octets);
    octets.as_slice().to_vec(alloc).expect(rt, "memory")
}

/// The next packet that went out is that of a line.
pub fn goes(
    rt: &impl Abort,
    alloc: Global,
    origins: &Origins,
    desk: &mut MemoryDesk,
    place: &Place<'_>,
    line: &str,
) {
    assert!(rt; !desk.packets.is_empty(), "{}, {}", place.row, place.line);
    let sent = desk.packets.remove(0);
    let (moment, spelled) = moment(rt, line);
    let found = if sent.moment == moment {
        ""
    } else {
        "another moment"
    };
    same(rt, place, found, "");
    let wanted = packet(rt, alloc, origins, spelled);
    let wanted = digits(rt, alloc, &wanted);
    same(rt, place, &digits(rt, alloc, &sent.bytes), &wanted);
}
