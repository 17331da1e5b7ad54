//! The line that each place has a minute.
ghost use Rattle.cf_policy.specs.Within.{IsWithin};

use crate::tests::{
    client_of, fail_at, field, files_of, links_of, number, numbers, policy, put, same, serve_three,
};
use cf_links::MemoryClient;
use cf_outside::Fail as Scripted;
use cf_policy::Policy;
use std::alloc::Global;
use std::process::Abort;

/// A client of which a command is refused and one is admitted, and which ends then.
const ENDS: &str = "asset: pump
client: 000100000006010600320064 000100000006010600280064
controller: 000100000006010600280064";

/// Another, which has a turn in which its controller is reached and one in which both commands are taken, and then none for long.
const STAYS: &str = "asset: pump
host: 6
client: 000100000006010600320064 000100000006010600280064
controller: 000100000006010600280064
wakes: 2
rests: 500";

/// One whose connection fails as both commands are taken.
const IS_LOST: &str = "asset: pump
host: 7
client: 000100000006010600320064 000100000006010600280064
fails: 5";

/// A row has how many clients of each of these kinds come, one a round; how many rounds there are, by how many microseconds each moves the
/// clock, from 7 seconds on; and the append that fails, with how many bytes of it are left. After `gives` stand the answer, and the lines
/// of LOG that say what stands.
const ROWS: &str = "nobody comes: a line a minute of each place, from the first round on
rounds: 125
step: 1000000
gives
Err(Loop)
68.000000 10.0.0.1:5020 pump stands 0 admitted 0 refused 0
68.000000 10.0.0.1:5021 rtu stands 0 admitted 0 refused 0
68.000000 10.0.0.1:5022 sub stands 0 admitted 0 refused 0
128.000000 10.0.0.1:5020 pump stands 0 admitted 0 refused 0
128.000000 10.0.0.1:5021 rtu stands 0 admitted 0 refused 0
128.000000 10.0.0.1:5022 sub stands 0 admitted 0 refused 0

a microsecond is wanting to a minute: the round behind that one has the lines
rounds: 4
step: 59999999
gives
Err(Loop)
186.999997 10.0.0.1:5020 pump stands 0 admitted 0 refused 0
186.999997 10.0.0.1:5021 rtu stands 0 admitted 0 refused 0
186.999997 10.0.0.1:5022 sub stands 0 admitted 0 refused 0

a session that ended and one that stands
ends: 1
stays: 1
rounds: 62
step: 1000000
gives
Err(Loop)
68.000000 10.0.0.1:5020 pump stands 1 admitted 2 refused 2
68.000000 10.0.0.1:5021 rtu stands 0 admitted 0 refused 0
68.000000 10.0.0.1:5022 sub stands 0 admitted 0 refused 0

two that ended, two that stand, and one that was lost
ends: 2
stays: 2
lost: 1
rounds: 62
step: 1000000
gives
Err(Loop)
68.000000 10.0.0.1:5020 pump stands 2 admitted 5 refused 5
68.000000 10.0.0.1:5021 rtu stands 0 admitted 0 refused 0
68.000000 10.0.0.1:5022 sub stands 0 admitted 0 refused 0

the line of the second place fails
stays: 1
rounds: 80
step: 1000000
fails: 8 5
gives
Err(Write)
68.000000 10.0.0.1:5020 pump stands 1 admitted 1 refused 1
68.00";

/// Adds so many clients of a kind.
fn add(rt: &impl Abort, alloc: Global, kind: &str, count: u64, clients: &mut Vec<MemoryClient>) {
    for _ in 0..count {
        clients
            .push(client_of(rt, alloc, kind))
            .expect(rt, "memory");
    }
}

/// The clients of a row.
fn clients_of(rt: &impl Abort, alloc: Global, row: &str) -> Vec<MemoryClient> {
    let mut clients = Vec::new(alloc);
    add(rt, alloc, ENDS, number(row, "ends:"), &mut clients);
    add(rt, alloc, STAYS, number(row, "stays:"), &mut clients);
    add(rt, alloc, IS_LOST, number(row, "lost:"), &mut clients);
    clients
}

/// The answer of a row's service, and the lines of its log that say what stands, the beginning of one too.
fn lines_of(rt: &impl Abort, alloc: Global, policy: &Policy, row: &str) -> String
    requires { IsWithin policy.now }
{
    let mut links = links_of(
        alloc,
        clients_of(rt, alloc, row),
        number(row, "rounds:"),
        None,
    );
    links.step = number(row, "step:");
    let words = numbers(rt, alloc, field(row, "fails:"));
    let fail = words.first().zip(words.last());
    let fail = fail.map(|(call, left)| Scripted {
        call: *call,
        left: *left as usize,
    });
    let run = serve_three(rt, alloc, policy, links, files_of(rt, alloc, fail));
    let answer = &run.answer;
    let mut text = format!(in alloc; "{answer:?}").expect(rt, "memory");
    for line in run.log().lines() {
        if line.contains(" stands ") || line.len() < 10 {
            put(rt, &mut text, &["\n", line]);
        }
    }
    text
}

#[test]
fn each_place_has_a_line_a_minute(rt: HostRuntime) {
    let alloc = rt.alloc();
    let policy = policy(&rt, alloc);
    for row in ROWS.split("\n\n") {
        let (given, wanted) = row.split_once("\ngives\n").unwrap_or((row, ""));
        same(&rt, given, &lines_of(&rt, alloc, &policy, given), wanted);
    }
}
