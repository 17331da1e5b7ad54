//! The window of letters that come.

use crate::sheet::{Sheet, call_in, parted};
use cf_rebuild::Rebuild;

/// Plays calls over a new window. `last` is an offer with End. A state is the base and the pending bytes, with `end` where End was taken.
pub fn play(sheet: &mut Sheet, lines: &str) {
    let Ok(mut window) = Rebuild::new(sheet.alloc()) else {
        return sheet.refuse("memory ran out");
    };
    for line in lines.lines() {
        let (given, _) = call_in(line);
        let (call, rest) = parted(given);
        match call {
            "open" => open(sheet, &mut window, rest),
            "offer" => offer(sheet, &mut window, rest, false),
            "last" => offer(sheet, &mut window, rest, true),
            "consume" => consume(sheet, &mut window, rest),
            _ => tell(sheet, &window, call),
        }
        sheet.see(line);
    }
}

fn open(sheet: &mut Sheet, window: &mut Rebuild, rest: &str) {
    let edge = sheet.place(rest);
    let limit = window.base() + 16_384;
    if edge < window.edge()
        || edge > limit
        || edge > 0x8000_0000
        || window.pending().len() >= 16_384
    {
        return sheet.put("no edge");
    }
    window.open_to(edge);
}

fn offer(sheet: &mut Sheet, window: &mut Rebuild, rest: &str, end: bool) {
    let (at, spelled) = parted(rest);
    let at = sheet.place(at);
    let text = sheet.octets(spelled);
    if at < -0x1_0000_0000 || at > 0x1_0000_0000 || text.len() > 65_535 {
        return sheet.put("no place");
    }
    window.offer(at, text.as_slice(), end);
}

fn consume(sheet: &mut Sheet, window: &mut Rebuild, rest: &str) {
    let count = sheet.size(rest);
    if count > window.pending().len() {
        return sheet.put("not pending");
    }
    window.consume(count);
}

/// The base and the pending bytes, or how many of those lie in each of their two pieces.
fn tell(sheet: &mut Sheet, window: &Rebuild, call: &str) {
    let pending = window.pending();
    match call {
        "state" => {
            sheet.put_signed("", window.base());
            sheet.put(" [");
            sheet.put_spelled(&pending);
            sheet.put(if window.ended() { "] end" } else { "]" });
        }
        "pieces" => {
            let (first, second) = pending.pieces();
            sheet.put_number("", first.len() as u64);
            sheet.put_number(" ", second.len() as u64);
        }
        _ => sheet.put("no call of that name"),
    }
}
