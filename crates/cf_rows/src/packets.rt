//! Packets, records and captures, as the lines of an exchange spell them.

use crate::fault::{Fault, Wanted};
use crate::reader::Reader;
use crate::row::Row;
use arrayvec::ArrayVec;
use cf_packet::{ACK, FIN, PSH, Packet, RST, SYN, URG, write_packet};
use cf_pcap::{CAPTURED_LIMIT, write_header, write_record_head};
use cf_view::{Endpoint, LinkKind};

/// A frame of no IPv4 packet.
const ARP: &str = "ffffffffffff 020000000005 0806 00*46";

/// The addresses of a frame.
const ADDRESSES: &str = "020000000009 020000000005";

/// The type of a frame that holds an IPv4 packet.
const IPV4: &str = "0800";

/// The address of the clients `c`.
const CLIENTS: u32 = 0x0A00_0005;

/// The address of the clients `d`.
const OTHERS: u32 = 0x0A00_0006;

/// The port before that of the first client.
const PORTS: u16 = 49_151;

/// Who sends and who receives, with the sequence numbers of the SYNs of both.
#[derive(Clone, Copy)]
struct Flow {
    source: Endpoint,
    dest: Endpoint,
    origin: u32,
    other: u32,
}

/// `c` is the client 10.0.0.5:49152 and `k` the controller to it, `d` the client 10.0.0.6:49152 and `j` the controller to
/// that; a number after the letter counts ports.
fn ends(reader: &mut Reader<'_>, row: &Row, who: &str) -> Flow {
    let number = who.trim_start_matches(['c', 'k', 'd', 'j']);
    let number = if number.is_empty() { "1" } else { number };
    let number = reader.word16(number);
    if number > u16::MAX - PORTS {
        reader.wants(Wanted::Number);
    }
    let is_other = who.starts_with(['d', 'j']);
    let client = Endpoint {
        address: if is_other { OTHERS } else { CLIENTS },
        port: PORTS.wrapping_add(number),
    };
    let flow = Flow {
        source: client,
        dest: row.controller,
        origin: row.client_origin,
        other: row.controller_origin,
    };
    if who.starts_with(['c', 'd']) {
        return flow;
    }
    Flow {
        source: flow.dest,
        dest: flow.source,
        origin: flow.other,
        other: flow.origin,
    }
}

/// The endpoint of a client.
pub fn client_named(reader: &mut Reader<'_>, row: &Row, who: &str) -> Endpoint {
    ends(reader, row, who).source
}

fn flags(reader: &mut Reader<'_>, letters: &str) -> u8 {
    let mut flags = 0;
    for letter in letters.chars() {
        flags |= match letter {
            'F' => FIN,
            'S' => SYN,
            'R' => RST,
            'P' => PSH,
            'A' => ACK,
            'U' => URG,
            '-' => 0,
            _ => {
                reader.wants(Wanted::Flag);
                0
            }
        };
    }
    flags
}

/// A number as it stands, or that of the letter at a place, with its sign before it, of a stream whose SYN has the number
/// `origin`.
fn sequence(reader: &mut Reader<'_>, spelled: &str, origin: u32) -> u32 {
    let first = origin.wrapping_add(1);
    if let Some(place) = spelled.strip_prefix('+') {
        first.wrapping_add(reader.word32(place))
    } else if let Some(place) = spelled.strip_prefix('-') {
        first.wrapping_sub(reader.word32(place))
    } else {
        reader.word32(spelled)
    }
}

/// Puts the IPv4 packet of a segment that may be written after other octets.
fn write(reader: &mut Reader<'_>, packet: &Packet<'_>, all: &mut Vec<u8>) {
    let is_long = packet.text.len() > 1460 || packet.flags >= 64;
    if is_long || packet.mss.is_some() && !packet.text.is_empty() {
        reader.wants(Wanted::Record);
        return;
    }
    let mut written = ArrayVec::new();
    write_packet(packet, &mut written);
    reader.puts(written.as_slice(), all);
}

/// Puts the IPv4 packet that a line spells after other octets.
fn segment(reader: &mut Reader<'_>, row: &Row, spelled: &str, all: &mut Vec<u8>) {
    let (who, fields) = reader.parts(spelled, ' ', Wanted::Field);
    let (letters, fields) = reader.parts(fields, ' ', Wanted::Field);
    let (seq, fields) = reader.parts(fields, ' ', Wanted::Field);
    let (ack, fields) = reader.parts(fields, ' ', Wanted::Field);
    let (window, text) = fields.split_once(' ').unwrap_or((fields, ""));
    let ends = ends(reader, row, who);
    let mut octets = Vec::new(reader.alloc);
    let mss = match text.strip_prefix("mss") {
        Some(size) => Some(reader.word16(size)),
        None => {
            reader.spells(text, &mut octets);
            None
        }
    };
    let packet = Packet {
        source: ends.source,
        dest: ends.dest,
        seq: sequence(reader, seq, ends.origin),
        ack: sequence(reader, ack, ends.other),
        flags: flags(reader, letters),
        window: reader.word16(window),
        mss,
        text: octets.as_slice(),
    };
    write(reader, &packet, all);
}

/// The header of a Linux cooked capture before its type, of the first version.
const COOKED: &str = "0000 0001 0006 0200000000050000";

/// What follows the type of one of the second version.
const COOKED2: &str = "0000 00000002 0001 00 06 0200000000050000";

/// Puts what a record of a Linux cooked capture holds before its packet: its header, with these tags and the type of IPv4. In the second
/// version the first of these types stands in front of the header, and the others behind it.
fn put_cooked(reader: &mut Reader<'_>, tags: &str, link: LinkKind, all: &mut Vec<u8>) {
    if link == LinkKind::LinuxCooked {
        reader.spells(COOKED, all);
        reader.spells(tags, all);
        reader.spells(IPV4, all);
        return;
    }
    let mut types = reader.octets(tags);
    reader.spells(IPV4, &mut types);
    let (first, others) = types.split_at_checked(2).unwrap_or((&types, b""));
    reader.puts(first, all);
    reader.spells(COOKED2, all);
    reader.puts(others, all);
}

/// Puts what a record holds: the packet alone, or a frame that is filled up to 60 octets. The frame of `tag HEX ..` has these tags.
fn body(reader: &mut Reader<'_>, row: &Row, spelled: &str, link: LinkKind, all: &mut Vec<u8>) {
    if spelled == "arp" {
        reader.spells(ARP, all);
        return;
    }
    let (tags, spelled) = match spelled.strip_prefix("tag ") {
        Some(tagged) => reader.parts(tagged, ' ', Wanted::Field),
        None => ("", spelled),
    };
    match link {
        LinkKind::RawIp => {}
        LinkKind::LinuxCooked | LinkKind::LinuxCooked2 => put_cooked(reader, tags, link, all),
        LinkKind::Ethernet => {
            reader.spells(ADDRESSES, all);
            reader.spells(tags, all);
            reader.spells(IPV4, all);
        }
    }
    match spelled.strip_prefix("ip ") {
        Some(spelled) => reader.spells(spelled, all),
        None => segment(reader, row, spelled, all),
    }
    if link == LinkKind::Ethernet && all.len() < 60 && all.resize(60, 0).is_err() {
        reader.notes(Fault::NoMemory);
    }
}

/// Puts the record of a body after others.
fn put_record(reader: &mut Reader<'_>, moment: u64, body: &[u8], all: &mut Vec<u8>) {
    if moment >= 4_294_967_296_000_000 || body.len() > CAPTURED_LIMIT as usize {
        reader.wants(Wanted::Record);
        return;
    }
    let mut head = [0; 16];
    write_record_head(moment, body.len() as u32, &mut head);
    reader.puts(&head, all);
    reader.puts(body, all);
}

/// Puts the records of a line after others.
fn records(reader: &mut Reader<'_>, row: &Row, line: &str, link: LinkKind, all: &mut Vec<u8>) {
    let (when, spelled) = reader.parts(line, ' ', Wanted::Field);
    let (first, times) = when.split_once('~').unwrap_or((when, "1"));
    let first = reader.moment(first);
    let times = reader.word16(times);
    let mut octets = Vec::new(reader.alloc);
    body(reader, row, spelled, link, &mut octets);
    for i in 0..times {
        let moment = first.saturating_add(u64::from(i) * 500_000);
        put_record(reader, moment, &octets, all);
    }
    reader.is_at(line);
}

/// The header of a capture.
fn header(link: LinkKind) -> [u8; 24] {
    let mut header = [0; 24];
    write_header(&mut header);
    match link {
        LinkKind::RawIp => {}
        LinkKind::Ethernet => header[20] = 1,
        LinkKind::LinuxCooked => header[20] = 113,
        LinkKind::LinuxCooked2 => {
            header[20] = 20;
            header[21] = 1;
        }
    }
    header
}

/// The capture of what comes.
pub fn capture(reader: &mut Reader<'_>, row: &Row) -> Vec<u8> {
    let link = match row.field("link:") {
        Some("raw") => LinkKind::RawIp,
        Some("cooked") => LinkKind::LinuxCooked,
        Some("cooked2") => LinkKind::LinuxCooked2,
        _ => LinkKind::Ethernet,
    };
    let mut capture = Vec::new(reader.alloc);
    reader.puts(&header(link), &mut capture);
    for line in row.all(">").iter() {
        records(reader, row, line, link, &mut capture);
    }
    capture
}

/// The first line of what goes out that does not stand at its place in an output, or what is after the last.
pub fn wrong_packet<'a>(reader: &mut Reader<'_>, row: &'a Row, out: &[u8]) -> Option<&'a str> {
    let Some(mut left) = out.strip_prefix(header(LinkKind::RawIp).as_slice()) else {
        return Some("the header");
    };
    for line in row.all("<").iter() {
        let mut wanted = Vec::new(reader.alloc);
        records(reader, row, line, LinkKind::RawIp, &mut wanted);
        match left.strip_prefix(wanted.as_slice()) {
            Some(behind) => left = behind,
            None => return Some(line),
        }
    }
    if left.is_empty() {
        None
    } else {
        Some("the end")
    }
}
