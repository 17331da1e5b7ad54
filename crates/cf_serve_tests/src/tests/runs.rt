//! A run of five clients, written whole: what the links tell and what the log gets, in their order. Then each of its calls fails in turn,
//! and each append of a line, with each number of bytes left; what is wanted then follows from the run as it is written.
ghost use Rattle.cf_policy.specs.Within.{IsWithin};

use crate::tests::{
    client_of, fail_at, field, files_of, links_of, name_of, policy, put, same, serve_three, text_of,
};
use cf_links::MemoryClient;
use cf_outside::Fail as Scripted;
use cf_policy::Policy;
use itoa::Buffer;
use std::alloc::Global;
use std::process::Abort;

/// The clients, in the order in which they come.
const CLIENTS: &str = "asset: pump
host: 5
client: 000100000006010600320064 000100000006010600280064
controller: 000100000006010600280064
pieces: 7*20

asset: rtu
host: 6
client: 056418c40a0001003d3a c0c3050c01170105030164000000 6400e3e7 000000ffff
pieces: 10*20
idle: 5 8 11 14

asset: sub
host: 7
client: 680407000000 680e000000002d0106000100e9030081 680e020004002d0106000100e8030001
controller: 680e0000000001010300010001000001 680e0200020001010300010001000001
pieces: 22 0*4 16
idle: 5 9 14

asset: pump
host: 8
client: 000100000006010600320064 000100000006010600280064
controller: 000100000006010600280064
pieces: 7*20

asset: rtu
host: 11
client: 056418c40a0001003d3a c0c3050c01170105030164000000 6400e3e7 000000ffff
pieces: 10*20
idle: 5 8 11 14";

/// How many waits are answered.
const ROUNDS: u64 = 8;

/// The run, a line for each answer of the links: the number of its place or its session, or the moment of its round, a word, and its
/// bytes. `log` is a line of the log, at its place among them, and `note` says how many commands of a session were judged until then.
///
/// Each round takes a client at most at each place, and then each session has its turn, in the order of their coming: its controller is
/// asked for; or the moment, a take of each side that has not ended, what waits for the controller, and what waits for the client.
const SCRIPT: &str = "0 opened
log 7.000000 10.0.0.1:5020 pump listen
1 opened
log 7.000000 10.0.0.1:5021 rtu listen
2 opened
log 7.000000 10.0.0.1:5022 sub listen
7000000 woke
0 came
1 came
2 came
0 ready
0 met
0 moment
log 1.000000 10.0.0.5:49152 pump open
1 ready
1 met
1 moment
log 1.000000 10.0.0.6:49152 rtu open
2 ready
2 met
2 moment
log 1.000000 10.0.0.7:49152 sub open
7000000 woke
3 came
4 came
0 ready
0 moment
0 got client 00010000000601
0 got controller 00010000000601
1 ready
1 moment
1 got client 056418c40a0001003d3a
1 idle controller
2 ready
2 moment
2 got client 680407000000680e000000002d0106000100e9030081
note 2 admitted 0 refused 1
log 1.000000 10.0.0.7:49152 sub refuse default point code 45 group 6 point 1001 value 1 replied 680e000000002d0106000100e9030081
2 idle controller
2 took controller 680407000000
2 took client 680e000002002d0147000100e9030081
3 ready
3 met
3 moment
log 1.000000 10.0.0.8:49152 pump open
4 ready
4 met
4 moment
log 1.000000 10.0.0.11:49152 rtu open
7000000 woke
0 ready
0 moment
0 got client 06003200640001
note 0 admitted 0 refused 1
log 1.000000 10.0.0.5:49152 pump refuse default point code 6 group 0 point 50 value 100 replied 000100000006010600320064
0 got controller 0600280064
0 took client 00010000000301
0 took client 86020001000000
0 took client 06010600280064
1 ready
1 moment
1 got client c0c3050c011701050301
1 idle controller
2 ready
2 moment
2 idle client
2 got controller 680e0000000001010300010001000001
2 took client 680e0200020001010300010001000001
3 ready
3 moment
3 got client 00010000000601
3 got controller 00010000000601
4 ready
4 moment
4 got client 056418c40a0001003d3a
4 idle controller
7000000 woke
0 ready
0 moment
0 got client 00000006010600
0 end controller
0 finished client
1 ready
1 moment
1 got client 640000006400e3e70000
1 idle controller
2 ready
2 moment
2 got client 680e020004002d0106000100e8030001
note 2 admitted 1 refused 1
2 idle controller
2 took controller 680e000002002d0106000100e8030001
3 ready
3 moment
3 got client 06003200640001
note 3 admitted 0 refused 1
log 1.000000 10.0.0.8:49152 pump refuse default point code 6 group 0 point 50 value 100 replied 000100000006010600320064
3 got controller 0600280064
3 took client 00010000000301
3 took client 86020001000000
3 took client 06010600280064
4 ready
4 moment
4 got client c0c3050c011701050301
4 idle controller
7000000 woke
0 ready
0 moment
0 got client 280064
note 0 admitted 1 refused 1
0 took controller 00010000000601
0 took controller 0600280064
1 ready
1 moment
1 got client 00ffff
note 1 admitted 0 refused 1
log 1.000000 10.0.0.6:49152 rtu refuse default function code 5 group 3073 point 5 value 3 replied c3050c01170105030164000000640000
1 idle controller
1 took client 05641a4401000a00af5d
1 took client c0c38100000c01170105
1 took client 030164000000bc516400
1 took client 000009d792
2 ready
2 moment
2 end client
2 got controller 680e0200020001010300010001000001
2 finished controller
2 took client 680e0400040001010300010001000001
3 ready
3 moment
3 got client 00000006010600
3 end controller
3 finished client
4 ready
4 moment
4 got client 640000006400e3e70000
4 idle controller
7000000 woke
0 ready
0 moment
0 end client
0 finished controller
log 1.000000 10.0.0.5:49152 pump close admitted 1 refused 1
0 left
1 ready
1 moment
1 end client
1 end controller
1 finished controller
1 finished client
log 1.000000 10.0.0.6:49152 rtu close admitted 0 refused 1
1 left
2 ready
2 moment
2 end controller
2 finished client
log 1.000000 10.0.0.7:49152 sub close admitted 1 refused 1
2 left
3 ready
3 moment
3 got client 280064
note 3 admitted 1 refused 1
3 took controller 00010000000601
3 took controller 0600280064
4 ready
4 moment
4 got client 00ffff
note 4 admitted 0 refused 1
log 1.000000 10.0.0.11:49152 rtu refuse default function code 5 group 3073 point 5 value 3 replied c3050c01170105030164000000640000
4 idle controller
4 took client 05641a4401000a00af5d
4 took client c0c38100000c01170105
4 took client 030164000000bc516400
4 took client 000009d792
7000000 woke
3 ready
3 moment
3 end client
3 finished controller
log 1.000000 10.0.0.8:49152 pump close admitted 1 refused 1
3 left
4 ready
4 moment
4 end client
4 end controller
4 finished controller
4 finished client
log 1.000000 10.0.0.11:49152 rtu close admitted 0 refused 1
4 left
7000000 woke";

/// What the links are to tell, and what the log is to have.
#[derive(Drop)]
struct Wanted {
    told: String,
    log: String,
}

/// A session of the run: its number, its client as the log names it, and its asset.
#[derive(Clone, Copy)]
struct Session<'a> {
    number: &'a str,
    from: &'a str,
    asset: &'a str,
}

/// What a line of the script is to a session.
#[derive(Clone, Copy)]
enum Part<'a> {
    /// Not its own.
    Other,
    /// Its numbers of commands from here on.
    Counts(&'a str),
    /// An answer of a call on it, which may fail.
    Answer,
    /// Its line of the log, or an answer that does not fail.
    Own,
}

fn part_of<'a>(line: &'a str, session: &Session<'_>) -> Part<'a> {
    let (first, rest) = line.split_once(' ').unwrap_or((line, ""));
    let (second, third) = rest.split_once(' ').unwrap_or((rest, ""));
    match first {
        "log" if third.starts_with(session.from) => Part::Own,
        "note" if second == session.number => Part::Counts(third),
        _ if first != session.number => Part::Other,
        _ => match second {
            "opened" => Part::Other,
            "came" | "ready" | "left" => Part::Own,
            _ => Part::Answer,
        },
    }
}

impl Wanted {
    fn nothing(alloc: Global) -> Wanted {
        Wanted {
            told: String::new(alloc),
            log: String::new(alloc),
        }
    }

    /// Adds a line of the script.
    fn add(&mut self, rt: &impl Abort, line: &str) {
        match line.split_once(' ') {
            Some(("log", text)) => put(rt, &mut self.log, &[text, "\n"]),
            Some(("note", _)) => {}
            _ => put(rt, &mut self.told, &[line, "\n"]),
        }
    }

    /// Adds what comes of a call of a session that fails.
    fn add_loss(&mut self, rt: &impl Abort, session: &Session<'_>, call: u64, counts: &str) {
        let (moment, what) = match call {
            1 => ("7.000000 ", " unreached"),
            2 => ("0.000000 ", " lost "),
            _ => ("1.000000 ", " lost "),
        };
        put(rt, &mut self.log, &[moment]);
        put(rt, &mut self.log, &[session.from, " ", session.asset]);
        put(rt, &mut self.log, &[what]);
        if call > 1 {
            put(rt, &mut self.log, &[counts]);
        }
        put(rt, &mut self.log, &["\n"]);
        put(rt, &mut self.told, &[session.number, " left\n"]);
    }

    /// The answer of the service, the links, and the log.
    fn text(&self, rt: &impl Abort, alloc: Global, answer: &str) -> String {
        let mut text = String::new(alloc);
        put(
            rt,
            &mut text,
            &[answer, "\n", &self.told, "log\n", &self.log],
        );
        text
    }
}

/// Whether so many lines of the script have one of a session.
fn has(at: usize, number: &str, word: &str) -> bool {
    let mut lines = SCRIPT.lines().take(at);
    lines.any(|line| line.strip_prefix(number).unwrap_or("") == word)
}

/// The first lines of the script; then each session that stands is left.
fn stopped(rt: &impl Abort, alloc: Global, at: usize) -> Wanted {
    let mut wanted = Wanted::nothing(alloc);
    for line in SCRIPT.lines().take(at) {
        wanted.add(rt, line);
    }
    for number in ["0", "1", "2", "3", "4"] {
        if has(at, number, " came") && !has(at, number, " left") {
            put(rt, &mut wanted.told, &[number, " left\n"]);
        }
    }
    wanted
}

/// The script where a call of a session fails, of those that may: that session is lost, and all else is as it was.
fn lost(rt: &impl Abort, alloc: Global, session: &Session<'_>, call: u64) -> Wanted {
    let mut wanted = Wanted::nothing(alloc);
    let mut answers = 0_u64;
    let mut counts = String::new(alloc);
    put(rt, &mut counts, &["admitted 0 refused 0"]);
    let mut is_gone = false;
    for line in SCRIPT.lines() {
        match part_of(line, session) {
            Part::Other => wanted.add(rt, line),
            Part::Counts(now) => {
                counts.clear();
                put(rt, &mut counts, &[now]);
            }
            _ if is_gone => {}
            Part::Own => wanted.add(rt, line),
            Part::Answer => {
                answers = answers.saturating_add(1);
                is_gone = answers == call;
                if is_gone {
                    wanted.add_loss(rt, session, call, &counts);
                } else {
                    wanted.add(rt, line);
                }
            }
        }
    }
    wanted
}

/// The clients, of whom this one's call of a number fails.
fn clients(rt: &impl Abort, alloc: Global, number: usize, call: u64) -> Vec<MemoryClient> {
    let mut clients = Vec::new(alloc);
    for block in CLIENTS.split("\n\n") {
        let mut client = client_of(rt, alloc, block);
        if clients.len() == number {
            fail_at(rt, &mut client.pair, call);
        }
        clients.push(client).expect(rt, "memory");
    }
    clients
}

/// A run in which this many waits are answered, this place cannot be listened at, and this call of the files fails.
fn serves(
    rt: &impl Abort,
    alloc: Global,
    policy: &Policy,
    rounds: u64,
    deaf: Option<u32>,
    fail: Option<Scripted>,
) -> String
    requires { IsWithin policy.now }
{
    let links = links_of(alloc, clients(rt, alloc, 0, 0), rounds, deaf);
    let run = serve_three(rt, alloc, policy, links, files_of(rt, alloc, fail));
    text_of(rt, alloc, &run)
}

/// Each call of a session fails in turn, and then none does.
fn loses_each(rt: &impl Abort, alloc: Global, policy: &Policy, number: usize, session: &Session<'_>)
    requires { IsWithin policy.now }
{
    for call in 1..30_u64 {
        let links = links_of(alloc, clients(rt, alloc, number, call), ROUNDS, None);
        let run = serve_three(rt, alloc, policy, links, files_of(rt, alloc, None));
        let wanted = lost(rt, alloc, session, call);
        same(
            rt,
            session.from,
            &text_of(rt, alloc, &run),
            &wanted.text(rt, alloc, "Err(Loop)"),
        );
    }
}

#[test]
fn a_session_is_lost_and_all_else_stays(rt: HostRuntime) {
    let alloc = rt.alloc();
    let policy = policy(&rt, alloc);
    let mut number = 0_usize;
    for block in CLIENTS.split("\n\n") {
        let mut spelled = Buffer::new();
        let from = name_of(&rt, alloc, block);
        let session = Session {
            number: spelled.format(number),
            from: &from,
            asset: field(block, "asset:"),
        };
        loses_each(&rt, alloc, &policy, number, &session);
        number = number.saturating_add(1);
    }
}

#[test]
fn a_wait_or_a_place_fails(rt: HostRuntime) {
    let alloc = rt.alloc();
    let policy = policy(&rt, alloc);
    let mut rounds = 0_u64;
    let mut at = 0_usize;
    for line in SCRIPT.lines() {
        let wanted = stopped(&rt, alloc, at).text(&rt, alloc, "Err(Loop)");
        if line.ends_with(" woke") {
            same(
                &rt,
                line,
                &serves(&rt, alloc, &policy, rounds, None, None),
                &wanted,
            );
            rounds = rounds.saturating_add(1);
        }
        if let Some(place) = line.strip_suffix(" opened") {
            let deaf = place.parse::<u32>().ok();
            same(
                &rt,
                line,
                &serves(&rt, alloc, &policy, ROUNDS, deaf, None),
                &wanted,
            );
        }
        at = at.saturating_add(1);
    }
    let wanted = stopped(&rt, alloc, at).text(&rt, alloc, "Err(Loop)");
    same(
        &rt,
        "all",
        &serves(&rt, alloc, &policy, ROUNDS, None, None),
        &wanted,
    );
}

/// Of the lines of the log, each whose number leaves this rest by four fails in turn. Four tests go through all lines, since each test
/// has a time of its own.
fn each_fourth_fails(rt: &impl Abort, alloc: Global, rest: u64) {
    let policy = policy(rt, alloc);
    let mut call = 1_u64;
    let mut at = 0_usize;
    for line in SCRIPT.lines() {
        if let Some(text) = line.strip_prefix("log ") {
            call = call.saturating_add(1);
            if call % 4 == rest {
                fails_at(rt, alloc, &policy, at, call, text);
            }
        }
        at = at.saturating_add(1);
    }
}

#[test]
fn nothing_is_done_behind_a_line_that_failed(rt: HostRuntime) {
    each_fourth_fails(&rt, rt.alloc(), 0);
}

#[test]
fn nothing_is_done_behind_a_second_line_that_failed(rt: HostRuntime) {
    each_fourth_fails(&rt, rt.alloc(), 1);
}

#[test]
fn nothing_is_done_behind_a_third_line_that_failed(rt: HostRuntime) {
    each_fourth_fails(&rt, rt.alloc(), 2);
}

#[test]
fn nothing_is_done_behind_a_fourth_line_that_failed(rt: HostRuntime) {
    each_fourth_fails(&rt, rt.alloc(), 3);
}

/// The append of a line fails, and leaves each number of its bytes.
fn fails_at(rt: &impl Abort, alloc: Global, policy: &Policy, at: usize, call: u64, text: &str)
    requires { IsWithin policy.now }
{
    let mut wanted = stopped(rt, alloc, at);
    let mut left = 0_usize;
    for letter in text.chars().chain("\n".chars()) {
        let fail = Some(Scripted { call, left });
        let found = serves(rt, alloc, policy, ROUNDS, None, fail);
        same(rt, text, &found, &wanted.text(rt, alloc, "Err(Write)"));
        wanted.log.push(letter).expect(rt, "memory");
        left = left.saturating_add(1);
    }
    let fail = Some(Scripted { call, left });
    let found = serves(rt, alloc, policy, ROUNDS, None, fail);
    same(rt, text, &found, &wanted.text(rt, alloc, "Err(Write)"));
}
