//! Ends by hand, over a desk in memory: what comes, and what goes.
//!
//! `opens: active` has the SYN of an end that sends one, `opens: passive` that of the peer of an end that answers it, at the same
//! moment; a `silent` one does not. `origins:` are the numbers of the SYNs of the client and the controller, 1000 and 5000 where
//! they are not given. Then each line is an event, and the lines `<` after it are what went out in it.
//!
//! - `> PACKET = ANSWER`: a packet comes, the end gives an answer, and speaks unless its peer has reset it; `hears` has no speech.
//! - `speaks MOMENT OCTETS End`: these octets are pushed, and End, and the end speaks; both may be missing. `shut` is a speech
//!   while too much is unacknowledged to tell another edge.
//! - `clock MOMENT = ANSWER`, `cut MOMENT`.
//! - `pending OCTETS End`: what is pending, and whether End was taken; `takes N`: so many octets of it are consumed.

mod opening;
mod traffic;

use super::packets::{Origins, Segment, goes, moment, number, read_origins, read_segment};
use super::{Place, field, is_over, named, same, text};
use cf_leg::{ClockAnswer, Leg, LegAnswer};
use cf_outq::Outq;
use cf_outside::MemoryDesk;
use cf_samples::rows::row;
use std::alloc::Global;
use std::process::Abort;

/// All rows.
pub const ROWS: [&str; 7] = [
    opening::ACTIVE_OPENING,
    opening::PASSIVE_OPENING,
    opening::CLOSING,
    traffic::RECEIVING,
    traffic::SENDING,
    traffic::REPEATING,
    traffic::SIZES,
];

/// An end, its queue and its desk.
#[derive(Drop)]
struct End {
    leg: Leg,
    queue: Outq,
    desk: MemoryDesk,
    origins: Origins,
}

/// An active end that has sent its SYN.
fn active(rt: &impl Abort, alloc: Global, origins: Origins, now: u64, syn: &Segment) -> End {
    let mut desk = MemoryDesk::new(alloc);
    let mut leg = Leg::active(alloc, syn.source, syn.dest, syn.seq).expect(rt, "memory");
    assert!(rt; leg.is_made() && desk.faults == 0 && now < 1 << 50);
    leg.greet(now, syn.seq, &mut desk).expect(rt, "greeting");
    End {
        leg,
        queue: Outq::new(alloc).expect(rt, "memory"),
        desk,
        origins,
    }
}

/// A passive end that has sent its SYN ACK, or is silent.
fn passive(
    rt: &impl Abort,
    alloc: Global,
    origins: Origins,
    now: u64,
    syn: &Segment,
    is_silent: bool,
) -> End {
    let mut desk = MemoryDesk::new(alloc);
    let mut leg = Leg::passive(alloc, syn.dest, syn.source, syn.seq, syn.mss).expect(rt, "memory");
    assert!(rt; leg.is_made() && desk.faults == 0 && now < 1 << 50);
    if !is_silent {
        leg.greet(now, origins.controller, &mut desk)
            .expect(rt, "greeting");
    }
    End {
        leg,
        queue: Outq::new(alloc).expect(rt, "memory"),
        desk,
        origins,
    }
}

/// The end of a row.
fn begins(rt: &impl Abort, alloc: Global, lines: &str) -> End {
    let origins = read_origins(rt, field(lines, "origins: ").unwrap_or("1000 5000"));
    let opens = field(lines, "opens: ").unwrap_or("");
    let (word, line) = opens.split_once(' ').unwrap_or((opens, ""));
    let (now, spelled) = moment(rt, line);
    let syn = read_segment(rt, alloc, &origins, spelled);
    let is_silent = word == "silent";
    let mut end = if word == "active" {
        active(rt, alloc, origins, now, &syn)
    } else {
        passive(rt, alloc, origins, now, &syn, is_silent)
    };
    if !is_silent {
        speaks(rt, &mut end, now, true);
    }
    end
}

/// What an end answers to a packet, in a word.
fn answer_word(answer: LegAnswer) -> &'static str {
    match answer {
        LegAnswer::Counted => "counted",
        LegAnswer::Opened => "opened",
        LegAnswer::Ignored => "ignored",
        LegAnswer::Challenged => "challenged",
        LegAnswer::Reset => "reset",
    }
}

/// What an end answers to the clock, in a word.
fn clock_word(answer: ClockAnswer) -> &'static str {
    match answer {
        ClockAnswer::Quiet => "quiet",
        ClockAnswer::Repeated => "repeated",
        ClockAnswer::Probed => "probed",
        ClockAnswer::NoAnswer => "noanswer",
    }
}

/// A packet of the peer comes.
fn hears(rt: &impl Abort, alloc: Global, end: &mut End, line: &str) -> &'static str {
    let (now, spelled) = moment(rt, line);
    let segment = read_segment(rt, alloc, &end.origins, spelled);
    let packet = segment.packet();
    assert!(rt; now < 1 << 50 && packet.text.len() <= 65_535);
    assert!(rt; end.leg.window().base() <= 1 << 30);
    answer_word(end.leg.on_segment(now, &packet, &mut end.queue))
}

/// Octets are pushed, and End, or not.
fn pushes(rt: &impl Abort, alloc: Global, end: &mut End, spelled: &str) {
    let octets = text(rt, alloc, spelled.trim_end_matches("End"));
    assert!(rt; !end.queue.is_ended() && end.queue.length() < 1_000_000);
    assert!(rt; octets.len() <= end.queue.room());
    end.queue.push(&octets);
    if spelled.ends_with("End") {
        end.queue.end();
    }
}

/// The end speaks.
fn speaks(rt: &impl Abort, end: &mut End, now: u64, is_roomy: bool) {
    assert!(rt; now < 1 << 50 && end.desk.faults == 0);
    assert!(rt; end.leg.window().base() <= 1 << 30);
    assert!(rt; !is_roomy || end.leg.window().pending().len() < 16_384);
    end.leg
        .speak(now, is_roomy, &mut end.queue, &mut end.desk)
        .expect(rt, "speech");
}

/// A packet of the peer comes, and the end speaks unless it was reset.
fn comes(rt: &impl Abort, alloc: Global, end: &mut End, line: &str) -> &'static str {
    let answer = hears(rt, alloc, end, line);
    if answer != "reset" {
        speaks(rt, end, moment(rt, line).0, true);
    }
    answer
}

/// Octets and End are pushed, where there are some, and the end speaks.
fn says(rt: &impl Abort, alloc: Global, end: &mut End, line: &str, is_roomy: bool) -> &'static str {
    let (now, spelled) = moment(rt, line);
    if !spelled.is_empty() {
        pushes(rt, alloc, end, spelled);
    }
    speaks(rt, end, now, is_roomy);
    ""
}

/// The clock stands at a moment.
fn ticks(rt: &impl Abort, end: &mut End, line: &str) -> &'static str {
    let now = moment(rt, line).0;
    assert!(rt; now < 1 << 50 && end.desk.faults == 0);
    assert!(rt; end.leg.window().base() <= 1 << 30);
    let answer = end.leg.on_clock(now, &mut end.queue, &mut end.desk);
    clock_word(answer.expect(rt, "clock"))
}

/// The end is cut.
fn is_cut(rt: &impl Abort, end: &mut End, line: &str) -> &'static str {
    let now = moment(rt, line).0;
    assert!(rt; now < 1 << 50 && end.desk.faults == 0);
    assert!(rt; end.leg.window().base() <= 1 << 30);
    end.leg
        .cut(now, &end.queue, &mut end.desk)
        .expect(rt, "cut");
    ""
}

/// Whether these octets are pending, and End was taken, or not.
fn has(rt: &impl Abort, alloc: Global, end: &End, spelled: &str) -> &'static str {
    let octets = text(rt, alloc, spelled.trim_end_matches("End"));
    let window = end.leg.window();
    if window.pending().equals(&octets) && window.ended() == spelled.ends_with("End") {
        ""
    } else {
        "other"
    }
}

/// A number of pending octets is consumed.
fn takes(rt: &impl Abort, end: &mut End, count: &str) -> &'static str {
    let count = number(rt, count) as usize;
    assert!(rt; count <= end.leg.window().pending().len());
    end.leg.consume(count);
    ""
}

/// What an event is answered, in a word.
fn event(rt: &impl Abort, alloc: Global, end: &mut End, given: &str) -> &'static str {
    let (word, rest) = given.split_once(' ').unwrap_or((given, ""));
    match word {
        ">" => comes(rt, alloc, end, rest),
        "hears" => hears(rt, alloc, end, rest),
        "speaks" => says(rt, alloc, end, rest, true),
        "shut" => says(rt, alloc, end, rest, false),
        "clock" => ticks(rt, end, rest),
        "pending" => has(rt, alloc, end, rest),
        "takes" => takes(rt, end, rest),
        "cut" => is_cut(rt, end, rest),
        _ => "no event",
    }
}

/// A line of a row.
fn line(rt: &impl Abort, alloc: Global, end: &mut End, place: &Place<'_>) {
    if let Some(spelled) = place.line.strip_prefix("< ") {
        let origins = end.origins;
        goes(rt, alloc, &origins, &mut end.desk, place, spelled);
    } else if !place.line.starts_with(['#', 'o']) {
        is_over(rt, &end.desk, place);
        let (given, wanted) = row(place.line).unwrap_or((place.line, ""));
        same(rt, place, event(rt, alloc, end, given), wanted);
    }
}

/// A row, from its first line on.
pub fn plays(rt: &impl Abort, alloc: Global, block: &str) {
    let (name, lines) = named(block);
    let mut end = begins(rt, alloc, lines);
    for part in lines.lines() {
        line(
            rt,
            alloc,
            &mut end,
            &Place {
                row: name,
                line: part,
            },
        );
    }
    is_over(
        rt,
        &end.desk,
        &Place {
            row: name,
            line: "",
        },
    );
}
