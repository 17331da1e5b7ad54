//! A gateway: two stations behind one address and port, each with rules, a name and rates of its own.
//!
//! A row has the last octets of the addresses of the clients that come, one in a round, and the station to which each sends its write, all
//! at one moment of their own clocks. A session begins in the round in which its client comes, takes the write in the next one, and has
//! its end in the one behind that. After `gives` stand the sessions whose write went to the controller, and the log behind the line of
//! the place.
ghost use Rattle.std.specs.Prelude.{◌≡◌, false, ℕ};
ghost use Rattle.cf_links.specs.MemoryLinks.{serves_in};
ghost use Rattle.cf_policy.specs.Within.{IsWithin};

use crate::tests::{Run, SECONDS, field, files_of, host, links_of, numbers, put, same, site_named};
use cf_links::{LinksTold, MemoryClient};
use cf_outside::{MemoryPair, Told};
use cf_policy::Policy;
use cf_policylang::read_policy;
use cf_samples::rows::octets;
use cf_serve::{Place, serve};
use cf_view::Side;
use itoa::Buffer;
use std::alloc::Global;
use std::process::Abort;

/// Two stations of one gateway. 10.0.0.5 may write to both, 10.0.0.6 to the second alone, each once in a minute; no other address is named.
const POLICY: &str = "version = 3
[[asset]]
name = \"pump-a\"
address = \"10.0.0.9\"
port = 502
protocol = \"modbus\"
station = 1
[[asset.rule]]
name = \"set\"
action = \"allow\"
clients = [\"10.0.0.5\"]
codes = [6]
points = [\"40..49\"]
most = 1
seconds = 60
[[asset]]
name = \"pump-b\"
address = \"10.0.0.9\"
port = 502
protocol = \"modbus\"
station = 2
[[asset.rule]]
name = \"set\"
action = \"allow\"
clients = [\"10.0.0.5\", \"10.0.0.6\"]
codes = [6]
points = [\"40..49\"]
most = 1
seconds = 60
";

const ROWS: &str =
    "each station by its own rules and its own rates, over connections; a stranger is one that neither names
hosts: 5 6 8 5 6 8 5 6 8
stations: 1 2 1 2 1 1 1 2 1
gives
sessions 0 1 3
1.000000 10.0.0.5:49152 pump-a open
1.000000 10.0.0.6:49152 pump-a open
7.000000 10.0.0.8:49152 pump-a stranger came 1
1.000000 10.0.0.5:49152 pump-a close admitted 1 refused 0
1.000000 10.0.0.6:49152 pump-a close admitted 1 refused 0
1.000000 10.0.0.5:49152 pump-a open
1.000000 10.0.0.6:49152 pump-a open
1.000000 10.0.0.5:49152 pump-a close admitted 1 refused 0
1.000000 10.0.0.6:49152 pump-a refuse default function code 6 group 0 point 40 value 100 replied 000100000006010600280064
1.000000 10.0.0.6:49152 pump-a close admitted 0 refused 1
1.000000 10.0.0.5:49152 pump-a open
1.000000 10.0.0.5:49152 pump-a refuse set value code 6 group 0 point 40 value 100 replied 000100000006010600280064
1.000000 10.0.0.6:49152 pump-a open
1.000000 10.0.0.5:49152 pump-a close admitted 0 refused 1
1.000000 10.0.0.6:49152 pump-b refuse set value code 6 group 0 point 40 value 100 replied 000100000006020600280064
1.000000 10.0.0.6:49152 pump-a close admitted 0 refused 1

a station that neither is: refused by it, under the first name
hosts: 5
stations: 3
gives
sessions
1.000000 10.0.0.5:49152 pump-a open
1.000000 10.0.0.5:49152 pump-a refuse station station code 6 group 0 point 3 value - replied 000100000006030600280064
1.000000 10.0.0.5:49152 pump-a close admitted 0 refused 1";

/// A write of 100 at point 40 of a station, 1 to 3.
fn write_to(station: u64) -> &'static str {
    match station {
        1 => "000100000006010600280064",
        2 => "000100000006020600280064",
        _ => "000100000006030600280064",
    }
}

/// The clients of a row.
fn clients(rt: &impl Abort, alloc: Global, row: &str) -> Vec<MemoryClient> {
    let hosts = numbers(rt, alloc, field(row, "hosts:"));
    let stations = numbers(rt, alloc, field(row, "stations:"));
    let mut clients = Vec::new(alloc);
    for (h, station) in hosts.iter().zip(stations.iter()) {
        let mut pair = MemoryPair::new(alloc);
        pair.client = host(*h, 49_152);
        pair.from_client = octets(alloc, write_to(*station)).expect(rt, "octets");
        pair.moments.push(1_000_000).expect(rt, "memory");
        let client = MemoryClient::new(0, pair);
        clients.push(client).expect(rt, "memory");
    }
    clients
}

/// Serves the one site of a policy.
fn serve_gateway(rt: &impl Abort, alloc: Global, policy: &Policy, row: &str) -> Run
    requires within { IsWithin policy.now }
{
    let places = [Place {
        site: site_named(rt, policy, "pump-a"),
        at: host(1, 5020),
    }];
    let mut links = links_of(alloc, clients(rt, alloc, row), 20, None);
    let mut files = files_of(rt, alloc, None);
    let answer = serve(alloc, &places, SECONDS, "l", &mut links, &mut files);
    Run {
        answer,
        links,
        files,
    }
}

/// The sessions whose write went to the controller, and the log behind its first line.
fn found(rt: &impl Abort, alloc: Global, run: &Run) -> String {
    let mut text = String::new(alloc);
    put(rt, &mut text, &["sessions"]);
    for entry in run.links.told.iter() {
        if let LinksTold::Of(session, Told::Took(Side::Controller, _)) = entry {
            let mut number = Buffer::new();
            put(rt, &mut text, &[" ", number.format(*session)]);
        }
    }
    for line in run.log().lines().skip(1) {
        put(rt, &mut text, &["\n", line]);
    }
    text
}

#[test]
fn each_station_has_its_own_rules(rt: HostRuntime) {
    let alloc = rt.alloc();
    let policy = read_policy(alloc, POLICY.as_bytes()).expect(&rt, "policy");
    for row in ROWS.split("\n\n") {
        let (given, wanted) = row.split_once("\ngives\n").unwrap_or((row, ""));
        let run = serve_gateway(&rt, alloc, &policy, given);
        same(&rt, given, &found(&rt, alloc, &run), wanted);
    }
}
