//! Clients that no rule of an asset of their site names.
ghost use Rattle.std.specs.Prelude.{◌≡◌, false, ℕ};
ghost use Rattle.cf_links.specs.MemoryLinks.{serves_in};
ghost use Rattle.cf_policy.specs.Within.{IsWithin};

use crate::tests::set_back::SetBack;
use crate::tests::{
    Run, SECONDS, fail_at, field, files_of, host, links_of, number, numbers, put, same, site_named,
    text_of,
};
use cf_links::{LinksTold, MemoryClient};
use cf_outside::{Fail as Scripted, MemoryFiles, MemoryPair};
use cf_policy::Policy;
use cf_policylang::read_policy;
use cf_serve::{Place, serve};
use std::alloc::Global;
use std::process::Abort;

/// An asset that names one client, and one that names none.
const POLICY: &str = "version = 1
[[asset]]
name = \"pump\"
address = \"10.0.0.9\"
port = 502
protocol = \"modbus\"
station = 1
[[asset.rule]]
name = \"none\"
action = \"refuse\"
codes = [5]
[[asset.rule]]
name = \"poll\"
action = \"allow\"
clients = [\"10.0.0.5\"]
codes = [3]
[[asset]]
name = \"shut\"
address = \"10.0.0.10\"
port = 502
protocol = \"modbus\"
station = 1
[[asset.rule]]
name = \"none\"
action = \"refuse\"
codes = [5]
";

/// A row has the place to which the clients come, 0 of `pump` and 1 of `shut`; the last octets of their addresses, one a round, and
/// how often that list is gone through, if not once; by how many microseconds a round moves the clock; before which round it is
/// set to 0, if before one, from 0 on; and whether no client that is taken has a turn. After `gives` stand how many came, had a turn, and were left, and what the log has behind the lines of the places.
/// The controller of a client that has a turn is not reached.
const ROWS: &str = "a client that is named
place: 0
clients: 5
step: 1000000
gives
came 1 turns 1 left 1
log
8.000000 10.0.0.5:49152 pump unreached

a stranger
place: 0
clients: 8
step: 1000000
gives
came 1 turns 0 left 1
log
8.000000 10.0.0.8:49152 pump stranger came 1

an asset that allows nothing
place: 1
clients: 5
step: 1000000
gives
came 1 turns 0 left 1
log
8.000000 10.0.0.5:49152 shut stranger came 1

one stranger, each second: a line a minute
place: 0
clients: 8*125
step: 1000000
gives
came 125 turns 0 left 125
log
8.000000 10.0.0.8:49152 pump stranger came 1
68.000000 10.0.0.8:49152 pump stranger came 60
68.000000 10.0.0.1:5020 pump stands 0 admitted 0 refused 0
68.000000 10.0.0.1:5021 shut stands 0 admitted 0 refused 0
128.000000 10.0.0.8:49152 pump stranger came 60
128.000000 10.0.0.1:5020 pump stands 0 admitted 0 refused 0
128.000000 10.0.0.1:5021 shut stands 0 admitted 0 refused 0

two strangers by turns: a line a second
place: 0
clients: 8 7 8 7 8 7 8 7 8 7
step: 300000
gives
came 10 turns 0 left 10
log
7.300000 10.0.0.8:49152 pump stranger came 1
8.800000 10.0.0.7:49152 pump stranger came 5

a stranger, another within a second, and behind it
place: 0
clients: 8 7 7 7 7 8
step: 500000
gives
came 6 turns 0 left 6
log
7.500000 10.0.0.8:49152 pump stranger came 1
8.500000 10.0.0.7:49152 pump stranger came 2
10.000000 10.0.0.8:49152 pump stranger came 3

one stranger a thousand times in a minute, and once more
place: 0
clients: 8*1001
step: 60000
gives
came 1001 turns 0 left 1001
log
7.060000 10.0.0.8:49152 pump stranger came 1
67.060000 10.0.0.8:49152 pump stranger came 1000
67.060000 10.0.0.1:5020 pump stands 0 admitted 0 refused 0
67.060000 10.0.0.1:5021 shut stands 0 admitted 0 refused 0

two strangers by turns for ten seconds
place: 0
clients: 8 7
times: 1000
step: 5000
gives
came 2000 turns 0 left 2000
log
7.005000 10.0.0.8:49152 pump stranger came 1
8.010000 10.0.0.7:49152 pump stranger came 201
9.015000 10.0.0.8:49152 pump stranger came 201
10.020000 10.0.0.7:49152 pump stranger came 201
11.025000 10.0.0.8:49152 pump stranger came 201
12.030000 10.0.0.7:49152 pump stranger came 201
13.035000 10.0.0.8:49152 pump stranger came 201
14.040000 10.0.0.7:49152 pump stranger came 201
15.045000 10.0.0.8:49152 pump stranger came 201
16.050000 10.0.0.7:49152 pump stranger came 201

a stranger, and again as the clock was set back behind it, and again within a minute
place: 0
clients: 8*3
step: 5000000
back: 1
gives
came 3 turns 0 left 3
log
12.000000 10.0.0.8:49152 pump stranger came 1
5.000000 10.0.0.8:49152 pump stranger came 1
5.000000 10.0.0.1:5020 pump stands 0 admitted 0 refused 0
5.000000 10.0.0.1:5021 shut stands 0 admitted 0 refused 0

a stranger where there is no place for anybody
place: 0
clients: 5*32 8
step: 1000000
stands: 1
gives
came 33 turns 0 left 33
log
40.000000 10.0.0.8:49152 pump stranger came 1

four clients for whom there is no place, the last of them a second behind the first
place: 0
clients: 5*36
step: 400000
stands: 1
gives
came 36 turns 0 left 36
log
20.200000 10.0.0.5:49152 pump away came 1
21.400000 10.0.0.5:49152 pump away came 3";

/// Rows as those above, of which all is wanted that the links tell and the log has; `fails` has the number of an append that fails, and
/// how many bytes of it are left.
const WHOLE_ROWS: &str = "a client that is named and a stranger in one round, at two places
place: 0 1
clients: 5 8
step: 1000000
gives
Err(Loop)
0 opened
1 opened
8000000 woke
0 came
1 came
1 left
0 ready
0 left
9000000 woke
10000000 woke
11000000 woke
log
7.000000 10.0.0.1:5020 pump listen
7.000000 10.0.0.1:5021 shut listen
8.000000 10.0.0.8:49152 shut stranger came 1
8.000000 10.0.0.5:49152 pump unreached

the disk is full at the line of a stranger, who was left before it, and all others are left behind it
place: 0
clients: 5 8
step: 1000000
stands: 1
fails: 4 5
gives
Err(Write)
0 opened
1 opened
8000000 woke
0 came
9000000 woke
1 came
1 left
0 left
log
7.000000 10.0.0.1:5020 pump listen
7.000000 10.0.0.1:5021 shut listen
9.000";

/// The clients of a row.
fn clients(rt: &impl Abort, alloc: Global, row: &str) -> Vec<MemoryClient> {
    let places = numbers(rt, alloc, field(row, "place:"));
    let hosts = numbers(rt, alloc, field(row, "clients:"));
    let mut clients = Vec::new(alloc);
    for _ in 0..number(row, "times:").max(1) {
        for (h, place) in hosts.iter().zip(places.iter().cycle()) {
            let mut pair = MemoryPair::new(alloc);
            pair.client = host(*h, 49_152);
            fail_at(rt, &mut pair, 1);
            let mut client = MemoryClient::new((*place % 2) as u32, pair);
            client.rests = number(row, "stands:").saturating_mul(u64::MAX);
            clients.push(client).expect(rt, "memory");
        }
    }
    clients
}

/// The append of a row that fails.
fn fail_of(rt: &impl Abort, alloc: Global, row: &str) -> Option<Scripted> {
    let numbers = numbers(rt, alloc, field(row, "fails:"));
    let (call, left) = numbers.first().zip(numbers.last())?;
    Some(Scripted {
        call: *call,
        left: *left as usize,
    })
}

fn policy(rt: &impl Abort, alloc: Global) -> Policy
    ensures { IsWithin result }
{
    read_policy(alloc, POLICY.as_bytes()).expect(rt, "policy")
}

/// Serves both assets, each at a site of its own.
fn serve_two(
    rt: &impl Abort,
    alloc: Global,
    policy: &Policy,
    mut links: SetBack,
    mut files: MemoryFiles,
) -> Run
    requires within { IsWithin policy.now }
    requires free { (session : ℕ) → serves_in links.links session ≡ false }
{
    let places = [
        Place {
            site: site_named(rt, policy, "pump"),
            at: host(1, 5020),
        },
        Place {
            site: site_named(rt, policy, "shut"),
            at: host(1, 5021),
        },
    ];
    let answer = serve(alloc, &places, SECONDS, "l", &mut links, &mut files);
    Run {
        answer,
        links: links.links,
        files,
    }
}

/// How many clients came, had a turn, and were left; and the lines behind those of the places.
fn of_run(rt: &impl Abort, alloc: Global, run: &Run) -> String {
    let mut came = 0_u64;
    let mut turns = 0_u64;
    let mut left = 0_u64;
    for entry in run.links.told.iter() {
        match entry {
            LinksTold::Came(_, _, _) => came = came.saturating_add(1),
            LinksTold::Ready(_) => turns = turns.saturating_add(1),
            LinksTold::Left(_) => left = left.saturating_add(1),
            _ => {}
        }
    }
    let text = format!(in alloc; "came {came} turns {turns} left {left}\nlog");
    let mut text = text.expect(rt, "memory");
    for line in run.log().lines().skip(2) {
        put(rt, &mut text, &["\n", line]);
    }
    text
}

/// The run of a row.
fn run_of(rt: &impl Abort, alloc: Global, policy: &Policy, row: &str) -> Run
    requires { IsWithin policy.now }
{
    let clients = clients(rt, alloc, row);
    let rounds = (clients.len() as u64).saturating_add(2);
    let mut links = links_of(alloc, clients, rounds, None);
    links.step = number(row, "step:");
    let waits = field(row, "back:").parse::<u64>().unwrap_or(u64::MAX);
    let links = SetBack { links, waits };
    let files = files_of(rt, alloc, fail_of(rt, alloc, row));
    serve_two(rt, alloc, policy, links, files)
}

#[test]
fn strangers_are_closed(rt: HostRuntime) {
    let alloc = rt.alloc();
    let policy = policy(&rt, alloc);
    for row in ROWS.split("\n\n") {
        let (given, wanted) = row.split_once("\ngives\n").unwrap_or((row, ""));
        let run = run_of(&rt, alloc, &policy, given);
        same(&rt, given, &of_run(&rt, alloc, &run), wanted);
    }
}

#[test]
fn strangers_are_left_at_once(rt: HostRuntime) {
    let alloc = rt.alloc();
    let policy = policy(&rt, alloc);
    for row in WHOLE_ROWS.split("\n\n") {
        let (given, wanted) = row.split_once("\ngives\n").unwrap_or((row, ""));
        let run = run_of(&rt, alloc, &policy, given);
        let found = text_of(&rt, alloc, &run);
        same(&rt, given, found.trim_end(), wanted);
    }
}
