//! TCP packets in records, and numbers of letters.

use crate::sheet::{Sheet, call_in, parted};
use arrayvec::{ArrayString, ArrayVec};
use cf_packet::{
    ACK, FIN, PSH, Packet, PacketRefusal, RST, SYN, URG, position, read_packet, sequence_number,
    write_packet,
};
use cf_view::{Endpoint, LinkKind, View, push_endpoint};

/// Plays lines of records: one `of LINK OCTETS` names one, and each other line says how many of its octets are there and which are changed,
/// each as `PLACE:OCTET`. Told are the flags, the maximum segment size and the length of the text, or the first test that it fails.
pub fn play(sheet: &mut Sheet, lines: &str) {
    let mut link = LinkKind::RawIp;
    let mut base = Vec::new(sheet.alloc());
    for line in lines.lines() {
        let (given, _) = call_in(line);
        if let Some(record) = given.strip_prefix("of ") {
            let (word, spelled) = parted(record);
            link = link_of(word);
            base = sheet.octets(spelled);
        } else {
            let octets = changed(sheet, base.as_slice(), given);
            put_answer(sheet, &link, octets.as_slice());
        }
        sheet.see(line);
    }
}

/// Octets with changes, one after the other.
fn changed(sheet: &mut Sheet, base: &[u8], changes: &str) -> Vec<u8> {
    let mut octets = Vec::new(sheet.alloc());
    if octets.extend_from_slice(base).is_err() {
        sheet.refuse("memory ran out");
    }
    for change in changes.split_whitespace() {
        match change.split_once(':') {
            None => octets.truncate(sheet.size(change)),
            Some((place, octet)) => change_octet(sheet, &mut octets, place, octet),
        }
    }
    octets
}

fn change_octet(sheet: &mut Sheet, octets: &mut Vec<u8>, place: &str, spelled: &str) {
    let place = sheet.size(place);
    let new = sheet.octets(spelled);
    match (octets.as_mut_slice().get_mut(place), new.first()) {
        (Some(there), Some(octet)) => *there = *octet,
        _ => sheet.put("no octet there: "),
    }
}

fn link_of(word: &str) -> LinkKind {
    if word == "ethernet" {
        LinkKind::Ethernet
    } else {
        LinkKind::RawIp
    }
}

fn put_answer(sheet: &mut Sheet, link: &LinkKind, octets: &[u8]) {
    match read_packet(link, octets) {
        Ok(packet) => {
            sheet.put_octets(&[packet.flags]);
            put_mss(sheet, packet.mss);
            sheet.put_number(" ", packet.text.len() as u64);
        }
        Err(refusal) => sheet.put(refusal_words(refusal)),
    }
}

fn put_mss(sheet: &mut Sheet, mss: Option<u16>) {
    match mss {
        Some(mss) => sheet.put_number(" mss ", u64::from(mss)),
        None => sheet.put(" -"),
    }
}

fn refusal_words(refusal: PacketRefusal) -> &'static str {
    match refusal {
        PacketRefusal::NotIpv4 => "not ipv4",
        PacketRefusal::Short => "short",
        PacketRefusal::BadHeader => "bad header",
        PacketRefusal::BadHeaderSum => "bad header sum",
        PacketRefusal::Fragment => "fragment",
        PacketRefusal::NotTcp => "not tcp",
        PacketRefusal::BadTcp => "bad tcp",
        PacketRefusal::BadTcpSum => "bad tcp sum",
    }
}

/// The packet of a record `LINK OCTETS`: its ends, its numbers, its flags by their letters, its window, its maximum segment size and its text.
pub fn tell_whole(sheet: &mut Sheet, given: &str) {
    let (word, spelled) = parted(given);
    let octets = sheet.octets(spelled);
    match read_packet(&link_of(word), octets.as_slice()) {
        Ok(packet) => {
            let mut ends = ArrayString::<64>::new();
            push_endpoint(&mut ends, &packet.source);
            ends.push_str(" ");
            push_endpoint(&mut ends, &packet.dest);
            sheet.put(ends.as_str());
            sheet.put_number(" ", u64::from(packet.seq));
            sheet.put_number(" ", u64::from(packet.ack));
            put_letters(sheet, packet.flags);
            sheet.put_number(" ", u64::from(packet.window));
            put_mss(sheet, packet.mss);
            sheet.put(" [");
            sheet.put_octets(packet.text);
            sheet.put("]");
        }
        Err(refusal) => sheet.put(refusal_words(refusal)),
    }
}

/// Puts the letters of the flags that are set, `-` where none is.
fn put_letters(sheet: &mut Sheet, flags: u8) {
    sheet.put(if flags & 63 == 0 { " -" } else { " " });
    sheet.put(if flags & FIN == 0 { "" } else { "F" });
    sheet.put(if flags & SYN == 0 { "" } else { "S" });
    sheet.put(if flags & RST == 0 { "" } else { "R" });
    sheet.put(if flags & PSH == 0 { "" } else { "P" });
    sheet.put(if flags & ACK == 0 { "" } else { "A" });
    sheet.put(if flags & URG == 0 { "" } else { "U" });
}

/// The octets of a packet, given the address and port of the source and of the destination, the sequence number, the acknowledgment number,
/// the flags, the window, the maximum segment size (0000: none) and the text.
pub fn tell_written(sheet: &mut Sheet, given: &str) {
    let octets = sheet.octets(given);
    let fields = View::one(octets.as_slice());
    if fields.len() < 25 || fields.len() > 1485 {
        return sheet.put("no fields of a packet");
    }
    let mss = fields.u16_be(23);
    let packet = Packet {
        source: Endpoint {
            address: fields.u32_be(0),
            port: fields.u16_be(4),
        },
        dest: Endpoint {
            address: fields.u32_be(6),
            port: fields.u16_be(10),
        },
        seq: fields.u32_be(12),
        ack: fields.u32_be(16),
        flags: fields.at(20),
        window: fields.u16_be(21),
        mss: if mss == 0 { None } else { Some(mss) },
        text: &octets[25..],
    };
    if packet.flags > 63 || (packet.mss.is_some() && !packet.text.is_empty()) {
        return sheet.put("no fields of a packet");
    }
    let mut out = ArrayVec::new();
    write_packet(&packet, &mut out);
    sheet.put_octets(out.as_slice());
}

/// The place nearest to a base, given a sequence number, the number of the SYN and the base.
pub fn tell_position(sheet: &mut Sheet, given: &str) {
    let octets = sheet.octets(given);
    let numbers = View::one(octets.as_slice());
    if numbers.len() != 12 || numbers.u32_be(8) > 0x8000_0000 {
        return sheet.put("no numbers and base");
    }
    let place = position(
        numbers.u32_be(0),
        numbers.u32_be(4),
        i64::from(numbers.u32_be(8)),
    );
    sheet.put_signed("", place);
}

/// The sequence number of a place, given the number of the SYN and the place in eight octets.
pub fn tell_sequence_number(sheet: &mut Sheet, given: &str) {
    let octets = sheet.octets(given);
    let numbers = View::one(octets.as_slice());
    if numbers.len() != 12 {
        return sheet.put("no number and place");
    }
    let place = u64::from(numbers.u32_be(4)) * 0x1_0000_0000 + u64::from(numbers.u32_be(8));
    if place > 0x1_0000_0000 {
        return sheet.put("no number and place");
    }
    let number = sequence_number(numbers.u32_be(0), place);
    sheet.put_number("", u64::from(number));
}
