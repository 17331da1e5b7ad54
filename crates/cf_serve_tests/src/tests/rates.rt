//! Rates over the connections of a client: sessions one after the other, and one that comes while an earlier one stands.
//!
//! A row has the last octets of the addresses of the clients that come, one in a round, and in which second of its own clock each sends
//! its write; and whether the asset's rule has a rate. A session begins in the round in which its client comes, takes the write in the
//! next one, and has its end in the one behind that. After `gives` stand the sessions whose write went to the controller, and the log behind the line of the place.
ghost use Rattle.std.specs.Prelude.{◌≡◌, false, ℕ};
ghost use Rattle.cf_links.specs.MemoryLinks.{serves_in};
ghost use Rattle.cf_policy.specs.Within.{IsWithin};

use crate::tests::{
    Run, SECONDS, field, files_of, host, links_of, number, numbers, put, same, site_named,
};
use cf_links::{LinksTold, MemoryClient};
use cf_outside::{MemoryPair, Told};
use cf_policy::Policy;
use cf_policylang::read_policy;
use cf_samples::rows::octets;
use cf_serve::{Place, serve};
use cf_view::Side;
use itoa::Buffer;
use std::alloc::Global;
use std::process::Abort;

/// An asset whose rule lets two writes through in ten seconds, or as many as come.
const RATED: &str = "version = 1
[[asset]]
name = \"pump\"
address = \"10.0.0.9\"
port = 502
protocol = \"modbus\"
station = 1
[[asset.rule]]
name = \"set\"
action = \"allow\"
codes = [6]
points = [\"40..49\"]
most = 2
seconds = 10
";

const PLAIN: &str = "version = 1
[[asset]]
name = \"pump\"
address = \"10.0.0.9\"
port = 502
protocol = \"modbus\"
station = 1
[[asset.rule]]
name = \"set\"
action = \"allow\"
codes = [6]
points = [\"40..49\"]
";

/// A write of 100 at point 40.
const WRITE: &str = "000100000006010600280064";

const ROWS: &str = "two of each client in ten seconds, however many connections it has
rated: 1
hosts: 5 6 7 5 6 7 5 6 7
seconds: 1 1 1 1 1 1 1 1 1
gives
sessions 0 1 2 3 4 5
1.000000 10.0.0.5:49152 pump open
1.000000 10.0.0.6:49152 pump open
1.000000 10.0.0.5:49152 pump close admitted 1 refused 0
1.000000 10.0.0.7:49152 pump open
1.000000 10.0.0.6:49152 pump close admitted 1 refused 0
1.000000 10.0.0.5:49152 pump open
1.000000 10.0.0.7:49152 pump close admitted 1 refused 0
1.000000 10.0.0.6:49152 pump open
1.000000 10.0.0.5:49152 pump close admitted 1 refused 0
1.000000 10.0.0.7:49152 pump open
1.000000 10.0.0.6:49152 pump close admitted 1 refused 0
1.000000 10.0.0.5:49152 pump open
1.000000 10.0.0.7:49152 pump close admitted 1 refused 0
1.000000 10.0.0.5:49152 pump refuse set value code 6 group 0 point 40 value 100 replied 000100000006010600280064
1.000000 10.0.0.6:49152 pump open
1.000000 10.0.0.5:49152 pump close admitted 0 refused 1
1.000000 10.0.0.6:49152 pump refuse set value code 6 group 0 point 40 value 100 replied 000100000006010600280064
1.000000 10.0.0.7:49152 pump open
1.000000 10.0.0.6:49152 pump close admitted 0 refused 1
1.000000 10.0.0.7:49152 pump refuse set value code 6 group 0 point 40 value 100 replied 000100000006010600280064
1.000000 10.0.0.7:49152 pump close admitted 0 refused 1

a third one once the first counts no more, and not before
rated: 1
hosts: 5 6 7 5 6 7 5 6 7
seconds: 1 1 1 2 2 2 11 10 12
gives
sessions 0 1 2 3 4 5 6 8
1.000000 10.0.0.5:49152 pump open
1.000000 10.0.0.6:49152 pump open
1.000000 10.0.0.5:49152 pump close admitted 1 refused 0
1.000000 10.0.0.7:49152 pump open
1.000000 10.0.0.6:49152 pump close admitted 1 refused 0
2.000000 10.0.0.5:49152 pump open
1.000000 10.0.0.7:49152 pump close admitted 1 refused 0
2.000000 10.0.0.6:49152 pump open
2.000000 10.0.0.5:49152 pump close admitted 1 refused 0
2.000000 10.0.0.7:49152 pump open
2.000000 10.0.0.6:49152 pump close admitted 1 refused 0
11.000000 10.0.0.5:49152 pump open
2.000000 10.0.0.7:49152 pump close admitted 1 refused 0
10.000000 10.0.0.6:49152 pump open
11.000000 10.0.0.5:49152 pump close admitted 1 refused 0
10.000000 10.0.0.6:49152 pump refuse set value code 6 group 0 point 40 value 100 replied 000100000006010600280064
12.000000 10.0.0.7:49152 pump open
10.000000 10.0.0.6:49152 pump close admitted 0 refused 1
12.000000 10.0.0.7:49152 pump close admitted 1 refused 0

a client that comes again while its session stands: the earlier one ends before its turn
rated: 1
hosts: 5 5 5
seconds: 1 1 1
gives
sessions 2
1.000000 10.0.0.5:49152 pump open
7.000000 10.0.0.5:49152 pump again admitted 0 refused 0
1.000000 10.0.0.5:49152 pump open
7.000000 10.0.0.5:49152 pump again admitted 0 refused 0
1.000000 10.0.0.5:49152 pump open
1.000000 10.0.0.5:49152 pump close admitted 1 refused 0

what a session used that was ended so counts
rated: 1
hosts: 5 6 5 6 5 6
seconds: 1 1 1 1 1 1
gives
sessions 0 1 2 3
1.000000 10.0.0.5:49152 pump open
1.000000 10.0.0.6:49152 pump open
7.000000 10.0.0.5:49152 pump again admitted 1 refused 0
1.000000 10.0.0.5:49152 pump open
7.000000 10.0.0.6:49152 pump again admitted 1 refused 0
1.000000 10.0.0.6:49152 pump open
7.000000 10.0.0.5:49152 pump again admitted 1 refused 0
1.000000 10.0.0.5:49152 pump open
7.000000 10.0.0.6:49152 pump again admitted 1 refused 0
1.000000 10.0.0.5:49152 pump refuse set value code 6 group 0 point 40 value 100 replied 000100000006010600280064
1.000000 10.0.0.6:49152 pump open
1.000000 10.0.0.5:49152 pump close admitted 0 refused 1
1.000000 10.0.0.6:49152 pump refuse set value code 6 group 0 point 40 value 100 replied 000100000006010600280064
1.000000 10.0.0.6:49152 pump close admitted 0 refused 1

an asset without a rate: all of them stand
rated: 0
hosts: 5 5 5
seconds: 1 1 1
gives
sessions 0 1 2
1.000000 10.0.0.5:49152 pump open
1.000000 10.0.0.5:49152 pump open
1.000000 10.0.0.5:49152 pump close admitted 1 refused 0
1.000000 10.0.0.5:49152 pump open
1.000000 10.0.0.5:49152 pump close admitted 1 refused 0
1.000000 10.0.0.5:49152 pump close admitted 1 refused 0";

/// The clients of a row.
fn clients(rt: &impl Abort, alloc: Global, row: &str) -> Vec<MemoryClient> {
    let seconds = numbers(rt, alloc, field(row, "seconds:"));
    let hosts = numbers(rt, alloc, field(row, "hosts:"));
    let mut clients = Vec::new(alloc);
    for (h, second) in hosts.iter().zip(seconds.iter()) {
        let mut pair = MemoryPair::new(alloc);
        pair.client = host(*h, 49_152);
        pair.from_client = octets(alloc, WRITE).expect(rt, "octets");
        let moment = second.saturating_mul(1_000_000);
        pair.moments.push(moment).expect(rt, "memory");
        let client = MemoryClient::new(0, pair);
        clients.push(client).expect(rt, "memory");
    }
    clients
}

/// Serves the one asset of a policy.
fn serve_pump(rt: &impl Abort, alloc: Global, policy: &Policy, row: &str) -> Run
    requires within { IsWithin policy.now }
{
    let places = [Place {
        site: site_named(rt, policy, "pump"),
        at: host(1, 5020),
    }];
    let mut links = links_of(alloc, clients(rt, alloc, row), 20, None);
    let mut files = files_of(rt, alloc, None);
    let answer = serve(alloc, &places, SECONDS, "l", &mut links, &mut files);
    Run {
        answer,
        links,
        files,
    }
}

/// The sessions whose write went to the controller, and the log behind its first line.
fn found(rt: &impl Abort, alloc: Global, run: &Run) -> String {
    let mut text = String::new(alloc);
    put(rt, &mut text, &["sessions"]);
    for entry in run.links.told.iter() {
        if let LinksTold::Of(session, Told::Took(Side::Controller, _)) = entry {
            let mut number = Buffer::new();
            put(rt, &mut text, &[" ", number.format(*session)]);
        }
    }
    for line in run.log().lines().skip(1) {
        put(rt, &mut text, &["\n", line]);
    }
    text
}

#[test]
fn rates_outlast_a_connection(rt: HostRuntime) {
    let alloc = rt.alloc();
    for row in ROWS.split("\n\n") {
        let (given, wanted) = row.split_once("\ngives\n").unwrap_or((row, ""));
        let text = if number(given, "rated:") == 1 {
            RATED
        } else {
            PLAIN
        };
        let policy = read_policy(alloc, text.as_bytes()).expect(&rt, "policy");
        let run = serve_pump(&rt, alloc, &policy, given);
        same(&rt, given, &found(&rt, alloc, &run), wanted);
    }
}
