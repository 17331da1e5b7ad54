//! IEC 60870-5-104: APDUs, ASDUs and mirrors.

use crate::acts::{break_words, put_act, reason_word};
use crate::sheet::{Sheet, parted};
use arrayvec::ArrayVec;
use cf_apci::{Apdu, next_apdu, write_apdu};
use cf_asdu::{AsduRefusal, act_at, act_count, mirror, read_asdu, station_of};
use cf_view::{Framed, View};

/// The APDU at the front: of format I its N(S), its N(R) and the length of its ASDU, of format S its N(R), of format U its control octet;
/// and how many octets it takes, which is the answer.
pub fn tell_apdu(sheet: &mut Sheet, first: &[u8], second: &[u8]) -> usize {
    match next_apdu(View::two(first, second)) {
        Framed::Unit { unit, used } => {
            put_apdu(sheet, &unit);
            sheet.put_number(", ", used as u64);
            let mut written = ArrayVec::new();
            write_apdu(&unit, &mut written);
            if !View::two(first, second)
                .sub(0, used)
                .equals(written.as_slice())
            {
                sheet.put(", written otherwise");
            }
            used
        }
        Framed::More => {
            sheet.put("more");
            0
        }
        Framed::Broken(broken) => {
            sheet.put(break_words(&broken));
            0
        }
    }
}

fn put_apdu(sheet: &mut Sheet, unit: &Apdu<'_>) {
    match unit {
        Apdu::Info {
            send,
            receive,
            asdu,
        } => {
            sheet.put_number("I ", u64::from(*send));
            sheet.put_number(" ", u64::from(*receive));
            sheet.put_number(" ", asdu.len() as u64);
        }
        Apdu::Ack { receive } => sheet.put_number("S ", u64::from(*receive)),
        Apdu::Control(code) => {
            sheet.put("U ");
            sheet.put_octets(&[*code]);
        }
    }
}

/// The octets of an APDU: of format S by N(R), of format I by N(S), N(R) and the ASDU.
pub fn tell_written(sheet: &mut Sheet, given: &str) {
    let (format, rest) = parted(given);
    let (first, rest) = parted(rest);
    let first = sheet.word(first);
    let mut out = ArrayVec::new();
    if first >= 32_768 {
        return sheet.put("no number of a frame");
    }
    if format == "S" {
        write_apdu(&Apdu::Ack { receive: first }, &mut out);
        return sheet.put_octets(out.as_slice());
    }
    let (second, spelled) = parted(rest);
    let second = sheet.word(second);
    let asdu = sheet.octets(spelled);
    if second >= 32_768 || asdu.len() > 249 {
        return sheet.put("no number of a frame, or too long an ASDU");
    }
    let frame = Apdu::Info {
        send: first,
        receive: second,
        asdu: View::one(asdu.as_slice()),
    };
    write_apdu(&frame, &mut out);
    sheet.put_octets(out.as_slice());
}

/// How many acts a command has, and the last one; or why there are none, and the reason that this stands for.
pub fn tell_asdu(sheet: &mut Sheet, first: &[u8], second: &[u8]) {
    match read_asdu(View::two(first, second)) {
        Ok(asdu) => {
            let count = act_count(&asdu);
            sheet.put_number("", u64::from(count));
            sheet.put(":");
            put_act(sheet, &act_at(&asdu, count - 1));
        }
        Err(refusal) => {
            sheet.put(refusal_word(&refusal));
            sheet.put(", ");
            sheet.put(reason_word(&refusal.reason()));
        }
    }
}

fn refusal_word(refusal: &AsduRefusal) -> &'static str {
    match refusal {
        AsduRefusal::Short => "short",
        AsduRefusal::Kind => "type",
        AsduRefusal::Shape => "shape",
        AsduRefusal::Cause => "cause",
    }
}

/// The mirror of a refused command, which is for the same station.
pub fn tell_mirror(sheet: &mut Sheet, first: &[u8], second: &[u8]) {
    let command = View::two(first, second);
    if command.len() < 9 || command.len() > 249 {
        return sheet.put("no command");
    }
    let mut out = ArrayVec::new();
    mirror(command, &mut out);
    sheet.put_octets(out.as_slice());
    if station_of(View::one(out.as_slice())) != station_of(View::two(first, second)) {
        sheet.put(", for another station");
    }
}

/// The station of a command.
pub fn tell_station(sheet: &mut Sheet, first: &[u8], second: &[u8]) {
    let command = View::two(first, second);
    if command.len() < 6 {
        return sheet.put("no command");
    }
    sheet.put_number("", u64::from(station_of(command)));
}
