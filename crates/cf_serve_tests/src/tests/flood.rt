//! Clients whose commands are refused faster than a second pays for.
ghost use Rattle.std.specs.Prelude.{◌≡◌, false, ℕ};
ghost use Rattle.cf_links.specs.MemoryLinks.{serves_in};
ghost use Rattle.cf_policy.specs.Within.{IsWithin};

use crate::tests::set_back::SetBack;
use crate::tests::{
    Run, SECONDS, field, files_of, host, links_of, number, numbers, policy, put, same, site_named,
};
use cf_links::{LinksTold, MemoryClient};
use cf_outside::{MemoryPair, Told};
use cf_policy::Policy;
use cf_samples::rows::octets;
use cf_serve::{Place, serve};
use cf_view::Side;
use std::alloc::Global;
use std::process::Abort;

/// A write of 12 octets at a point that no rule has.
const WRITE: &str = "000100000006010600320064";

/// An answer of 11 octets; the controller has more of them than are asked for.
const ANSWER: &str = "0001000000050103020000";

/// A row has how many writes each client of `pump` sends; at most how many octets a move has, where it says so; by how many microseconds
/// a round moves the clock; how many rounds there are; and before which of them it is set to 0, if before one, from 0 on. One client
/// comes in a round. After `gives` stand the seconds in which a session had a turn, each with how many octets of its client it took in
/// them, and then how many commands were refused, and how often a session rested.
const ROWS: &str =
    "one rests until it has less than a hundred to pay for, and the other has its turn each round
writes: 1000 9
pieces: 0 12
step: 1000000
rounds: 12
gives
8 0:0
9 0:4096 1:0
10 1:12
11 1:12
12 0:4096 1:12
13 1:12
14 1:12
15 0:3808 1:12
16 1:12
17 1:12
18 1:12
19 0:0 1:0
refused 1009 rested 7

one write a turn: a hundred a second
writes: 250
pieces: 12
step: 5000
rounds: 460
gives
7 0:1200
8 0:1200
9 0:600
refused 250 rested 198

ninety-nine, and what one turn more can refuse
writes: 1000
pieces: 1188
step: 0
rounds: 6
gives
7 0:2376
refused 198 rested 3

a clock that is set back pays for nothing
writes: 1000
pieces: 0
step: 1000000
rounds: 15
back: 3
gives
8 0:0
9 0:4096
12 0:4096
refused 682 rested 12";

/// So many times the same octets.
fn many(rt: &impl Abort, alloc: Global, text: &str, times: u64) -> Vec<u8> {
    let one = octets(alloc, text).expect(rt, text);
    let mut all = Vec::new(alloc);
    for _ in 0..times {
        all.extend_from_slice(&one).expect(rt, "memory");
    }
    all
}

/// The clients of a row.
fn clients(rt: &impl Abort, alloc: Global, row: &str) -> Vec<MemoryClient> {
    let writes = numbers(rt, alloc, field(row, "writes:"));
    let pieces = numbers(rt, alloc, field(row, "pieces:"));
    let mut clients = Vec::new(alloc);
    for (writes, piece) in writes.iter().zip(pieces.iter()) {
        let mut pair = MemoryPair::new(alloc);
        pair.client = host(5, 49_152);
        pair.from_client = many(rt, alloc, WRITE, *writes);
        pair.from_controller = many(rt, alloc, ANSWER, 2000);
        for _ in 0..2000 {
            pair.pieces.push(*piece as usize).expect(rt, "memory");
        }
        clients
            .push(MemoryClient::new(0, pair))
            .expect(rt, "memory");
    }
    clients
}

/// Serves the asset `pump`.
fn serve_pump(rt: &impl Abort, alloc: Global, policy: &Policy, mut links: SetBack) -> (Run, u64)
    requires within { IsWithin policy.now }
    requires free { (session : ℕ) → serves_in links.links session ≡ false }
{
    let places = [Place {
        site: site_named(rt, policy, "pump"),
        at: host(1, 5020),
    }];
    let mut files = files_of(rt, alloc, None);
    let answer = serve(alloc, &places, SECONDS, "l", &mut links, &mut files);
    let rested = links.links.rested;
    let run = Run {
        answer,
        links: links.links,
        files,
    };
    (run, rested)
}

/// The octets that two sessions took of their clients in a second, and whether they had a turn in it.
#[derive(Clone, Copy, Drop)]
struct Second {
    second: u64,
    had: [bool; 2],
    took: [u64; 2],
}

impl Second {
    /// Adds what one of them took.
    fn add(&mut self, session: u64, count: u64) {
        let at = (session % 2) as usize;
        self.had[at] = true;
        self.took[at] = self.took[at].saturating_add(count);
    }

    /// Puts its line, where one of them had a turn.
    fn put_line(&self, rt: &impl Abort, text: &mut String) {
        let second = self.second;
        let alloc = *text.allocator();
        if self.had[0] || self.had[1] {
            let begin = format!(in alloc; "{second}").expect(rt, "memory");
            put(rt, text, &[begin.as_str()]);
        }
        for at in 0..2 {
            if self.had[at] {
                let took = self.took[at];
                let part = format!(in alloc; " {at}:{took}").expect(rt, "memory");
                put(rt, text, &[part.as_str()]);
            }
        }
        if self.had[0] || self.had[1] {
            put(rt, text, &["\n"]);
        }
    }
}

/// What the sessions took in each second, what was refused, and how often one rested.
fn text_of(rt: &impl Abort, alloc: Global, run: &Run, rested: u64) -> String {
    let mut text = String::new(alloc);
    let mut now = Second {
        second: 0,
        had: [false, false],
        took: [0, 0],
    };
    for entry in run.links.told.iter() {
        match entry {
            LinksTold::Woke(moment) => {
                let second = *moment / 1_000_000;
                if second != now.second {
                    now.put_line(rt, &mut text);
                    now = Second {
                        second,
                        had: [false, false],
                        took: [0, 0],
                    };
                }
            }
            LinksTold::Ready(session) => now.add(*session, 0),
            LinksTold::Of(session, Told::Got(Side::Client, bytes)) => {
                now.add(*session, bytes.len() as u64);
            }
            _ => {}
        }
    }
    now.put_line(rt, &mut text);
    let refused = run
        .log()
        .lines()
        .filter(|line| line.contains(" refuse "))
        .count();
    let end = format!(in alloc; "refused {refused} rested {rested}").expect(rt, "memory");
    put(rt, &mut text, &[end.as_str()]);
    text
}

#[test]
fn floods_are_bounded(rt: HostRuntime) {
    let alloc = rt.alloc();
    let policy = policy(&rt, alloc);
    for row in ROWS.split("\n\n") {
        let (given, wanted) = row.split_once("\ngives\n").unwrap_or((row, ""));
        let clients = clients(&rt, alloc, given);
        let mut links = links_of(alloc, clients, number(given, "rounds:"), None);
        links.step = number(given, "step:");
        let waits = field(given, "back:").parse::<u64>().unwrap_or(u64::MAX);
        let (run, rested) = serve_pump(&rt, alloc, &policy, SetBack { links, waits });
        same(&rt, given, &text_of(&rt, alloc, &run, rested), wanted);
    }
}
