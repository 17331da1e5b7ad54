//! The pair of streams in memory by its script.

use crate::files::{script, write_word};
use crate::sheet::{Sheet, call_in, parted};
use arrayvec::ArrayString;
use cf_outside::{GiveAnswer, MeetAnswer, MemoryPair, MomentAnswer, Pair, TakeAnswer};
use cf_view::{Endpoint, Side, View, push_endpoint};

/// Plays lines over a new pair: those of its script, which have no answer, and its calls. `counts` are the calls, the faults, the idle answers
/// and all answers that were kept.
pub fn play(sheet: &mut Sheet, lines: &str) {
    let mut pair = MemoryPair::new(sheet.alloc());
    for line in lines.lines() {
        let (given, _) = call_in(line);
        let (call, rest) = parted(given);
        match call {
            "meet" => tell_meet(sheet, &mut pair),
            "moment" => tell_moment(sheet, &mut pair),
            "take" => tell_take(sheet, &mut pair, side_of(rest)),
            "give" => tell_give(sheet, &mut pair, rest),
            "finish" => sheet.put(write_word(pair.finish(side_of(rest)))),
            "counts" => {
                sheet.put_number("", pair.calls);
                sheet.put_number(" ", pair.faults);
                sheet.put_number(" ", pair.idles);
                sheet.put_number(" ", pair.told.len() as u64);
            }
            _ => set(sheet, &mut pair, call, given),
        }
        sheet.see(line);
    }
}

/// Sets a part of the script: who comes, what the sides send, how many octets the moves move at most, and which calls are idle or fail.
fn set(sheet: &mut Sheet, pair: &mut MemoryPair, call: &str, given: &str) {
    let (_, rest) = parted(given);
    match call {
        "client" => pair.client = endpoint(sheet, rest),
        "client-sends" => pair.from_client = sheet.octets(rest),
        "controller-sends" => pair.from_controller = sheet.octets(rest),
        "pieces" => {
            for word in rest.split(' ') {
                let piece = sheet.size(word);
                if pair.pieces.push(piece).is_err() {
                    sheet.refuse("memory ran out");
                }
            }
        }
        "moments" => push_numbers(sheet, rest, &mut pair.moments),
        "idle" => push_numbers(sheet, rest, &mut pair.idle),
        "fails" => pair.fails = script(sheet, given),
        _ => sheet.put("no call of that name"),
    }
}

fn push_numbers(sheet: &mut Sheet, rest: &str, numbers: &mut Vec<u64>) {
    for word in rest.split(' ') {
        let number = sheet.number(word);
        if numbers.push(number).is_err() {
            sheet.refuse("memory ran out");
        }
    }
}

/// The endpoint of an address and a port in six octets.
pub fn endpoint(sheet: &mut Sheet, spelled: &str) -> Endpoint {
    let octets = sheet.octets(spelled);
    let octets = View::one(octets.as_slice());
    if octets.len() != 6 {
        sheet.put("no endpoint: ");
        return Endpoint {
            address: 0,
            port: 0,
        };
    }
    Endpoint {
        address: octets.u32_be(0),
        port: octets.u16_be(4),
    }
}

fn side_of(word: &str) -> Side {
    if word == "client" {
        Side::Client
    } else {
        Side::Controller
    }
}

/// Meets a client, and connects to 0.0.0.7:8.
fn tell_meet(sheet: &mut Sheet, pair: &mut MemoryPair) {
    let peer = Endpoint {
        address: 7,
        port: 8,
    };
    let mut text = ArrayString::<32>::new();
    match pair.meet(502, peer) {
        MeetAnswer::Met(client) => push_endpoint(&mut text, &client),
        MeetAnswer::Failed => text.push_str("failed"),
    }
    sheet.put(text.as_str());
}

fn tell_moment(sheet: &mut Sheet, pair: &mut MemoryPair) {
    match pair.moment() {
        MomentAnswer::Told(moment) => sheet.put_number("told ", moment),
        MomentAnswer::Failed => sheet.put("failed"),
    }
}

/// Takes up to four octets of a side.
fn tell_take(sheet: &mut Sheet, pair: &mut MemoryPair, side: Side) {
    let mut buf = [0; 4];
    match pair.take(side, &mut buf) {
        TakeAnswer::Got(count) => {
            sheet.put_number("got ", count as u64);
            sheet.put(" ");
            sheet.put_octets(buf.get(..count).unwrap_or(&buf));
        }
        TakeAnswer::Idle => sheet.put("idle"),
        TakeAnswer::End => sheet.put("end"),
        TakeAnswer::Failed => sheet.put("failed"),
    }
}

/// Gives octets to a side.
fn tell_give(sheet: &mut Sheet, pair: &mut MemoryPair, rest: &str) {
    let (side, spelled) = parted(rest);
    let octets = sheet.octets(spelled);
    if octets.is_empty() {
        return;
    }
    match pair.give(side_of(side), octets.as_slice()) {
        GiveAnswer::Took(count) => sheet.put_number("took ", count as u64),
        GiveAnswer::Idle => sheet.put("idle"),
        GiveAnswer::Failed => sheet.put("failed"),
    }
}
