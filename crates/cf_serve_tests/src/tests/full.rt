//! Services that have as many sessions as they may, over nine places: no client has a turn but the first, whose controller is not reached.
ghost use Rattle.std.specs.Prelude.{◌≡◌, false, ℕ};
ghost use Rattle.cf_links.specs.MemoryLinks.{serves_in};
ghost use Rattle.cf_policy.specs.Site.{IsSiteWithin};
ghost use Rattle.cf_policy.specs.Within.{IsWithin};
ghost use Rattle.cf_serve.specs.declared.table.Place.{Place as PlaceOf};

use crate::tests::{
    Run, SECONDS, fail_at, field, files_of, host, links_of, number, numbers, policy, put, same,
    site_named,
};
use cf_links::{LinksTold, MemoryClient, MemoryLinks};
use cf_outside::{MemoryFiles, MemoryPair};
use cf_policy::Policy;
use cf_serve::{Place, serve};
use std::alloc::Global;
use std::process::Abort;

/// A row has the places to which the clients come, one after the other, and over again; how many come, from 10.0.1.0 on; for how many
/// rounds the first has no turn; and how many rounds there are. After `gives` stand how many came and were left in the rounds, those in
/// a row that are alike in one line, and what the log has behind the lines of the places.
const ROWS: &str =
    "258 clients: nine a round at nine places, and six, of whom the last two find no place
places: 0 1 2 3 4 5 6 7 8
clients: 258
first: 39
rounds: 45
gives
28 rounds: came 9 left 0
1 rounds: came 6 left 2
10 rounds: came 0 left 0
1 rounds: came 0 left 1
4 rounds: came 0 left 0
1 rounds: came 0 left 255
log
7.000000 10.0.2.0:49152 rtu away came 1
7.000000 10.0.2.1:49152 sub away came 1
7.000000 10.0.1.0:49152 pump unreached

32 clients of one place, one of another, and nine more of the first, of whom the last comes once a place is free
places: 0*32 1 0*9
clients: 42
first: 39
rounds: 45
gives
31 rounds: came 1 left 0
1 rounds: came 2 left 0
7 rounds: came 1 left 1
1 rounds: came 1 left 2
1 rounds: came 1 left 0
3 rounds: came 0 left 0
1 rounds: came 0 left 33
log
7.000000 10.0.1.33:49152 pump away came 1
7.000000 10.0.1.0:49152 pump unreached";

/// The clients of a row.
fn clients(rt: &impl Abort, alloc: Global, row: &str) -> Vec<MemoryClient> {
    let places = numbers(rt, alloc, field(row, "places:"));
    let mut clients = Vec::new(alloc);
    let mut h = 256_u64;
    for place in places.iter().cycle().take(number(row, "clients:") as usize) {
        let mut pair = MemoryPair::new(alloc);
        pair.client = host(h, 49_152);
        fail_at(rt, &mut pair, 1);
        let mut client = MemoryClient::new((*place % 9) as u32, pair);
        client.rests = if h == 256 {
            number(row, "first:")
        } else {
            u64::MAX
        };
        clients.push(client).expect(rt, "memory");
        h = h.saturating_add(1);
    }
    clients
}

/// The place of the site of the asset with a name, at a port of 10.0.0.1.
fn place_named<'a>(rt: &impl Abort, policy: &'a Policy, name: &str, port: u16) -> Place<'a>
    requires { IsWithin policy.now }
    ensures { IsSiteWithin (PlaceOf.site result) }
{
    Place {
        site: site_named(rt, policy, name),
        at: host(1, port),
    }
}

/// Serves three sites, each at three of nine places.
fn serve_nine(
    rt: &impl Abort,
    alloc: Global,
    policy: &Policy,
    mut links: MemoryLinks,
    mut files: MemoryFiles,
) -> Run
    requires within { IsWithin policy.now }
    requires free { (session : ℕ) → serves_in links session ≡ false }
{
    let places = [
        place_named(rt, policy, "pump", 5020),
        place_named(rt, policy, "rtu", 5021),
        place_named(rt, policy, "sub", 5022),
        place_named(rt, policy, "pump", 5020),
        place_named(rt, policy, "rtu", 5021),
        place_named(rt, policy, "sub", 5022),
        place_named(rt, policy, "pump", 5020),
        place_named(rt, policy, "rtu", 5021),
        place_named(rt, policy, "sub", 5022),
    ];
    let answer = serve(alloc, &places, SECONDS, "l", &mut links, &mut files);
    Run {
        answer,
        links,
        files,
    }
}

/// How many clients came and were left in rounds in a row.
#[derive(Clone, Copy)]
struct Rounds {
    count: u64,
    came: u64,
    left: u64,
}

impl Rounds {
    const NONE: Rounds = Rounds {
        count: 0,
        came: 0,
        left: 0,
    };

    /// One round more: where it is as those before, it is counted with them, and else they are told.
    fn add(&mut self, rt: &impl Abort, alloc: Global, round: Rounds, text: &mut String) {
        if self.came == round.came && self.left == round.left {
            self.count = self.count.saturating_add(round.count);
        } else {
            self.tell(rt, alloc, text);
            *self = round;
        }
    }

    fn tell(&self, rt: &impl Abort, alloc: Global, text: &mut String) {
        if self.count > 0 {
            let (count, came, left) = (self.count, self.came, self.left);
            let line = format!(in alloc; "{count} rounds: came {came} left {left}\n");
            put(rt, text, &[&line.expect(rt, "memory")]);
        }
    }
}

/// The rounds of a service.
fn rounds_text(rt: &impl Abort, alloc: Global, run: &Run) -> String {
    let mut text = String::new(alloc);
    let mut alike = Rounds::NONE;
    let mut round = Rounds::NONE;
    for entry in run.links.told.iter() {
        match entry {
            LinksTold::Woke(_) => {
                alike.add(rt, alloc, round, &mut text);
                round = Rounds {
                    count: 1,
                    came: 0,
                    left: 0,
                };
            }
            LinksTold::Came(..) => round.came = round.came.saturating_add(1),
            LinksTold::Left(_) => round.left = round.left.saturating_add(1),
            _ => {}
        }
    }
    alike.add(rt, alloc, round, &mut text);
    alike.tell(rt, alloc, &mut text);
    text
}

/// What a row leaves.
fn found(rt: &impl Abort, alloc: Global, policy: &Policy, row: &str) -> String
    requires { IsWithin policy.now }
{
    let links = links_of(alloc, clients(rt, alloc, row), number(row, "rounds:"), None);
    let run = serve_nine(rt, alloc, policy, links, files_of(rt, alloc, None));
    let mut found = rounds_text(rt, alloc, &run);
    put(rt, &mut found, &["log"]);
    for line in run.log().lines().skip(9) {
        put(rt, &mut found, &["\n", line]);
    }
    found
}

#[test]
fn clients_without_a_place_are_closed(rt: HostRuntime) {
    let alloc = rt.alloc();
    let policy = policy(&rt, alloc);
    for row in ROWS.split("\n\n") {
        let (given, wanted) = row.split_once("\ngives\n").unwrap_or((row, ""));
        same(&rt, given, &found(&rt, alloc, &policy, given), wanted);
    }
}
