//! The queue of letters that go out.
ghost use Rattle.std.specs.Prelude.{◌≤◌, length};
ghost use Rattle.cf_outq.specs.SendQueue.{IsUnacked};

use crate::sheet::{Sheet, call_in, parted};
use cf_outq::{Outq, Piece};

/// Plays calls over a new queue. A piece is `PLACE+BYTES`, with `end` where End follows.
pub fn play(sheet: &mut Sheet, lines: &str) {
    let Ok(mut queue) = Outq::new(sheet.alloc()) else {
        return sheet.refuse("memory ran out");
    };
    for line in lines.lines() {
        let (given, _) = call_in(line);
        let (call, rest) = parted(given);
        match call {
            "next" | "first" => tell_piece(sheet, &mut queue, call, rest),
            "push" => push(sheet, &mut queue, rest),
            "shown" | "acked" | "end" => change(sheet, &mut queue, call, rest),
            "round" => tell_round(sheet, &mut queue, rest),
            _ => tell_count(sheet, &queue, call),
        }
        sheet.see(line);
    }
}

fn tell_piece(sheet: &mut Sheet, queue: &mut Outq, call: &str, rest: &str) {
    let mss = sheet.size(rest);
    if mss == 0 {
        return sheet.put("no size");
    }
    let piece = if call == "next" {
        queue.next_piece(mss)
    } else {
        queue.first_piece(mss)
    };
    match piece {
        Some(piece) => {
            sheet.put_signed("", piece.at);
            sheet.put_number("+", piece.len as u64);
            sheet.put(if piece.end { " end" } else { "" });
        }
        None => sheet.put("none"),
    }
}

fn push(sheet: &mut Sheet, queue: &mut Outq, spelled: &str) {
    let octets = sheet.octets(spelled);
    if queue.is_ended() || queue.length() >= 1_000_000 || octets.len() > queue.room() {
        return sheet.put("no room");
    }
    queue.push(octets.as_slice());
}

/// Changes the queue by a number, or ends it.
fn change(sheet: &mut Sheet, queue: &mut Outq, call: &str, rest: &str) {
    if call == "end" {
        if queue.is_ended() || queue.length() >= 1_000_000 {
            return sheet.put("ended");
        }
        return queue.end();
    }
    let number = sheet.place(rest);
    if call == "shown" {
        return queue.shown(number);
    }
    if number > queue.sent() {
        return sheet.put("not sent");
    }
    queue.acked(number);
}

/// A number that the queue tells.
fn tell_count(sheet: &mut Sheet, queue: &Outq, call: &str) {
    match call {
        "room" => sheet.put_number("", queue.room() as u64),
        "sent" => sheet.put_signed("", queue.sent()),
        "unacked" => sheet.put_signed("", queue.unacked()),
        "length" => sheet.put_signed("", queue.length()),
        _ => sheet.put("no call of that name"),
    }
}

/// Pushes what there is room for, and End after the last byte.
fn push_some(queue: &mut Outq, bytes: &[u8]) -> usize
    ensures { result ≤ length bytes.now }
{
    if queue.is_ended() || queue.length() > 1_000_000 {
        return 0;
    }
    let count = queue.room().min(bytes.len());
    queue.push(&bytes[..count]);
    if count == bytes.len() {
        queue.end();
    }
    count
}

/// Whether the copy of a piece is what stands at its place, with End after the last byte alone.
fn is_right(queue: &Outq, piece: Piece, bytes: &[u8], out: &mut [u8]) -> bool
    requires { IsUnacked queue.now piece }
{
    let from = piece.at.clamp(0, 1_000_000) as usize;
    if piece.len > out.len() || from > bytes.len() || piece.len > bytes.len() - from {
        return false;
    }
    let out = &mut out[..piece.len];
    queue.copy(piece, out);
    &*out == &bytes[from..from + piece.len] && (!piece.end || from + piece.len == bytes.len())
}

/// Takes all pieces that there are. Whether each begins where the one before it ended, and is right.
fn take_pieces(queue: &mut Outq, mss: usize, bytes: &[u8], out: &mut [u8]) -> bool {
    if mss == 0 {
        return false;
    }
    for _piece in 0..200_000 {
        let next = queue.sent();
        let Some(piece) = queue.next_piece(mss) else {
            break;
        };
        if piece.at != next || !is_right(queue, piece, bytes, out) {
            return false;
        }
    }
    true
}

/// Whether the oldest piece begins at the first letter that is not acknowledged, and is right.
fn looks_back(queue: &Outq, mss: usize, acked: i64, bytes: &[u8], out: &mut [u8]) -> bool {
    if mss == 0 {
        return false;
    }
    match queue.first_piece(mss) {
        Some(piece) => piece.at == acked && is_right(queue, piece, bytes, out),
        None => true,
    }
}

/// 400,000 bytes and End go three times round the ring, in pieces of at most so many bytes of which so many letters are acknowledged at
/// once. Told are how many letters there are, are sent, and are left; or that a piece was not what stands at its place.
fn tell_round(sheet: &mut Sheet, queue: &mut Outq, rest: &str) {
    let (mss, step) = parted(rest);
    let mss = sheet.size(mss);
    let step = sheet.place(step);
    let mut bytes = Vec::new(sheet.alloc());
    if !counts(&mut bytes) {
        return sheet.refuse("memory ran out");
    }
    if !goes_round(queue, mss, step, &bytes) {
        sheet.put("another piece: ");
    }
    sheet.put_signed("", queue.length());
    sheet.put_signed(" ", queue.sent());
    sheet.put_signed(" ", queue.unacked());
}

/// Puts the octets 00 to fa over and over, 400,000 of them, and tells whether memory sufficed.
fn counts(bytes: &mut Vec<u8>) -> bool {
    for i in 0..400_000_u32 {
        if bytes.push((i % 251) as u8).is_err() {
            return false;
        }
    }
    true
}

fn goes_round(queue: &mut Outq, mss: usize, step: i64, bytes: &[u8]) -> bool {
    let mut out = [0; 1460];
    let (mut pushed, mut acked) = (0, 0_i64);
    for _round in 0..100 {
        let rest = bytes.get(pushed..).unwrap_or(b"");
        pushed = push_some(queue, rest).saturating_add(pushed);
        queue.shown(acked.saturating_add(100_000));
        if !take_pieces(queue, mss, bytes, &mut out)
            || !looks_back(queue, mss, acked, bytes, &mut out)
        {
            return false;
        }
        acked = queue.sent().min(acked.saturating_add(step));
        queue.acked(acked);
    }
    true
}
