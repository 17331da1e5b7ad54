//! Sessions alone, and each beside one that misbehaves: what it gives each side and what it logs are the same.
//!
//! A row has an asset and what its client and its controller send before their ends, and a script. Calls on a session count from 1: its
//! controller is asked for, then the moment of its beginning is; each turn is the moment, a take of each side that has not ended, and
//! what is to be given, to the controller first. `idle:` names calls that answer that nothing came or went, `fails:` one that fails;
//! `pieces:` has how many bytes the takes and gives move at most. Its controller answers after `waits:` turns. It has `wakes:` turns,
//! and none in the next `rests:` rounds. After `gives` stand what each side was given, with `end` where it was closed, and the lines.
ghost use Rattle.cf_policy.specs.Within.{IsWithin};

use crate::tests::{Run, client_of, files_of, links_of, name_of, policy, put, same, serve_three};
use cf_policy::Policy;
use std::alloc::Global;
use std::process::Abort;

/// How many rounds each run has.
const ROUNDS: u64 = 140;

/// Of a client 10.0.0.5.
const ROWS: &str = "nothing is sent
asset: pump
gives
to client end
to controller end
log
1.000000 10.0.0.5:49152 pump open
1.000000 10.0.0.5:49152 pump close admitted 0 refused 0

a write and its echo
asset: pump
client: 000100000006010600280064
controller: 000100000006010600280064
gives
to client 000100000006010600280064 end
to controller 000100000006010600280064 end
log
1.000000 10.0.0.5:49152 pump open
1.000000 10.0.0.5:49152 pump close admitted 1 refused 0

a refused write, then an admitted one, at moments of its own
asset: pump
client: 000100000006010600320064 000100000006010600280064
moments: 1000000 2000000 3000000
gives
to client 000100000003018602 end
to controller 000100000006010600280064 end
log
1.000000 10.0.0.5:49152 pump open
2.000000 10.0.0.5:49152 pump refuse default point code 6 group 0 point 50 value 100 replied 000100000006010600320064
3.000000 10.0.0.5:49152 pump close admitted 1 refused 1

a write of 900, where 500 is the most
asset: pump
client: 000100000006010600280384
gives
to client 000100000003018603 end
to controller end
log
1.000000 10.0.0.5:49152 pump open
1.000000 10.0.0.5:49152 pump refuse default value code 6 group 0 point 40 value 900 replied 000100000006010600280384
1.000000 10.0.0.5:49152 pump close admitted 0 refused 1

a read and its answer
asset: pump
client: 000100000006010300000002
controller: 00010000000701030400000000
gives
to client 00010000000701030400000000 end
to controller 000100000006010300000002 end
log
1.000000 10.0.0.5:49152 pump open
1.000000 10.0.0.5:49152 pump close admitted 1 refused 0

a read of another station
asset: pump
client: 000700000006020300000002
gives
to client 00070000000302830a end
to controller end
log
1.000000 10.0.0.5:49152 pump open
1.000000 10.0.0.5:49152 pump refuse station station code 3 group 0 point 2 value - replied 000700000006020300000002
1.000000 10.0.0.5:49152 pump close admitted 0 refused 1

a function that is not served, and three octets of a unit
asset: pump
client: 0005000000020107 000600
gives
to client 000500000003018701 end
to controller end
log
1.000000 10.0.0.5:49152 pump open
1.000000 10.0.0.5:49152 pump refuse form function code 7 group 0 point 0 value - replied 0005000000020107
1.000000 10.0.0.5:49152 pump partial client 3
1.000000 10.0.0.5:49152 pump close admitted 0 refused 1

a read of coils, which no rule has
asset: pump
client: 000100000006010100000008
gives
to client 000100000003018101 end
to controller end
log
1.000000 10.0.0.5:49152 pump open
1.000000 10.0.0.5:49152 pump refuse default function code 1 group 0 point 0 value - replied 000100000006010100000008
1.000000 10.0.0.5:49152 pump close admitted 0 refused 1

a write in pieces of one octet
asset: pump
client: 000100000006010600280064
pieces: 1*40
gives
to client end
to controller 000100000006010600280064 end
log
1.000000 10.0.0.5:49152 pump open
1.000000 10.0.0.5:49152 pump close admitted 1 refused 0

a refused write and an admitted one in pieces of five octets, with idle answers between them
asset: pump
client: 000100000006010600320064 000100000006010600280064
pieces: 0 5*63
idle: 5 9 10 13 17 18
gives
to client 000100000003018602 end
to controller 000100000006010600280064 end
log
1.000000 10.0.0.5:49152 pump open
1.000000 10.0.0.5:49152 pump refuse default point code 6 group 0 point 50 value 100 replied 000100000006010600320064
1.000000 10.0.0.5:49152 pump close admitted 1 refused 1

a controller that answers after three turns
asset: pump
client: 000100000006010600280064
waits: 3
gives
to client end
to controller 000100000006010600280064 end
log
1.000000 10.0.0.5:49152 pump open
1.000000 10.0.0.5:49152 pump close admitted 1 refused 0

one that has eight of ten idle answers, no turn in a hundred rounds, and then writes
asset: pump
client: 000100000006010600280064
idle: 4 5 7 8 10 11 13 14
wakes: 5
rests: 100
gives
to client end
to controller 000100000006010600280064 end
log
1.000000 10.0.0.5:49152 pump open
1.000000 10.0.0.5:49152 pump close admitted 1 refused 0

a refused direct operate
asset: rtu
client: 056418c40a0001003d3a c0c3050c01170105030164000000 6400e3e7 000000ffff
gives
to client 05641a4401000a00af5dc0c38100000c01170105030164000000bc516400000009d792 end
to controller end
log
1.000000 10.0.0.5:49152 rtu open
1.000000 10.0.0.5:49152 rtu refuse default function code 5 group 3073 point 5 value 3 replied c3050c01170105030164000000640000
1.000000 10.0.0.5:49152 rtu close admitted 0 refused 1

a direct operate without reply
asset: rtu
client: 056418c40a0001003d3ac0c3060c011701050301640000006400f3a4000000ffff
gives
to client end
to controller end
log
1.000000 10.0.0.5:49152 rtu open
1.000000 10.0.0.5:49152 rtu refuse default function code 6 group 3073 point 5 value 3 unanswered c3060c01170105030164000000640000
1.000000 10.0.0.5:49152 rtu close admitted 0 refused 1

a select and an operate, in transport numbers of the stream to the controller
asset: rtu
client: 056418c40a0001003d3ae9c5030c01170103030164000000640043a2000000ffff 056418c40a0001003d3ac0c6040c011701030301640000006400661e000000ffff
gives
to client end
to controller 056418c40a0001003d3ac0c5030c0117010303016400000064009e14000000ffff\
056418c40a0001003d3ac1c6040c011701030301640000006400ea53000000ffff end
log
1.000000 10.0.0.5:49152 rtu open
1.000000 10.0.0.5:49152 rtu close admitted 2 refused 0

a frame of another master
asset: rtu
client: 056418c40a000200968ac0c3050c011701050301640000006400e3e7000000ffff
gives
to client end
to controller end
log
1.000000 10.0.0.5:49152 rtu open
1.000000 10.0.0.5:49152 rtu stray client address
1.000000 10.0.0.5:49152 rtu close admitted 0 refused 0

a read of a class, which no rule has
asset: rtu
client: 05640bc40a000100acd1c0c4013c02064c6c
gives
to client 05640a4401000a006e25c0c4810001e902 end
to controller end
log
1.000000 10.0.0.5:49152 rtu open
1.000000 10.0.0.5:49152 rtu refuse default function code 1 group 15362 point 0 value - replied c4013c0206
1.000000 10.0.0.5:49152 rtu close admitted 0 refused 1

five octets of a frame
asset: rtu
client: 056418c40a
gives
to client end
to controller end
log
1.000000 10.0.0.5:49152 rtu open
1.000000 10.0.0.5:49152 rtu partial client 5
1.000000 10.0.0.5:49152 rtu close admitted 0 refused 0

a refused operate and, in the same take, one with a wrong sum of its block: nothing is given after a cut
asset: rtu
client: 056418c40a0001003d3ac0c3050c011701050301640000006400e3e7000000ffff 056418c40a0001003d3ac0c3050c011701050301640000006400e3e7000000fffe
gives
to client
to controller
log
1.000000 10.0.0.5:49152 rtu open
1.000000 10.0.0.5:49152 rtu refuse default function code 5 group 3073 point 5 value 3 replied c3050c01170105030164000000640000
1.000000 10.0.0.5:49152 rtu cut client blockcrc

a refused command, its mirror, and an admitted one
asset: sub
client: 680407000000 680e000000002d0106000100e9030081 680e020002002d0106000100e8030001
gives
to client 680e000002002d0147000100e9030081 end
to controller 680407000000680e000000002d0106000100e8030001 end
log
1.000000 10.0.0.5:49152 sub open
1.000000 10.0.0.5:49152 sub refuse default point code 45 group 6 point 1001 value 1 replied 680e000000002d0106000100e9030081
1.000000 10.0.0.5:49152 sub close admitted 1 refused 1

a start, its confirmation, and a frame of the controller
asset: sub
client: 680407000000
controller: 68040b000000 680e0000000001010300010001000001
gives
to client 68040b000000680e0000000001010300010001000001 end
to controller 680407000000 end
log
1.000000 10.0.0.5:49152 sub open
1.000000 10.0.0.5:49152 sub close admitted 0 refused 0

a command for another station
asset: sub
client: 680407000000 680e000000002d0106000200e8030001
gives
to client 680e000002002d0147000200e8030001 end
to controller 680407000000 end
log
1.000000 10.0.0.5:49152 sub open
1.000000 10.0.0.5:49152 sub refuse station station code 45 group 0 point 2 value - replied 680e000000002d0106000200e8030001
1.000000 10.0.0.5:49152 sub close admitted 0 refused 1

a start, and two octets of a frame
asset: sub
client: 680407000000 6804
gives
to client end
to controller 680407000000 end
log
1.000000 10.0.0.5:49152 sub open
1.000000 10.0.0.5:49152 sub partial client 2
1.000000 10.0.0.5:49152 sub close admitted 0 refused 0";

/// Of a client 10.0.0.6, which misbehaves, or is busy.
const OTHERS: &str = "octets of no unit
asset: pump
host: 6
client: 00010001
gives
to client
to controller
log
1.000000 10.0.0.6:49152 pump open
1.000000 10.0.0.6:49152 pump cut client protocol

a command before the start
asset: sub
host: 6
client: 680e000000002d0106000100e8030001
gives
to client
to controller
log
1.000000 10.0.0.6:49152 sub open
1.000000 10.0.0.6:49152 sub cut client notstarted

a reset before the first moment, of which none was told
asset: rtu
host: 6
fails: 2
gives
to client
to controller
log
0.000000 10.0.0.6:49152 rtu lost admitted 0 refused 0

a reset before the first take
asset: sub
host: 6
client: 680407000000
fails: 4
gives
to client
to controller
log
1.000000 10.0.0.6:49152 sub open
1.000000 10.0.0.6:49152 sub lost admitted 0 refused 0

a reset as the first command is given
asset: pump
host: 6
client: 000100000006010600320064 000100000006010600280064
fails: 6
gives
to client
to controller
log
1.000000 10.0.0.6:49152 pump open
1.000000 10.0.0.6:49152 pump refuse default point code 6 group 0 point 50 value 100 replied 000100000006010600320064
1.000000 10.0.0.6:49152 pump lost admitted 1 refused 1

a client that does not read
asset: pump
host: 6
client: 000100000006010600320064
idle: 5 6 8 9 10 12 13 14 16 17
gives
to client
to controller
log
1.000000 10.0.0.6:49152 pump open
1.000000 10.0.0.6:49152 pump refuse default point code 6 group 0 point 50 value 100 replied 000100000006010600320064
1.000000 10.0.0.6:49152 pump silent admitted 0 refused 1

one that says nothing
asset: sub
host: 6
client: 680407000000
idle: 4 5 7 8 10 11 13 14 16 17
gives
to client
to controller
log
1.000000 10.0.0.6:49152 sub open
1.000000 10.0.0.6:49152 sub silent admitted 0 refused 0

a controller that cannot be reached
asset: rtu
host: 6
client: 056418c40a0001003d3ac0c3050c011701050301640000006400e3e7000000ffff
fails: 1
gives
to client
to controller
log
7.000000 10.0.0.6:49152 rtu unreached

a client that has gone before its controller is reached
asset: pump
host: 6
client: 000100000006010600280064
waits: 3
gone: 1
gives
to client
to controller
log
7.000000 10.0.0.6:49152 pump gone

a controller that never answers
asset: pump
host: 6
client: 000100000006010600280064
waits: 1000000
gives
to client
to controller
log

ten writes, an octet a turn
asset: pump
host: 6
client: 000100000006010600280064*10
pieces: 1*300
gives
to client end
to controller 000100000006010600280064000100000006010600280064000100000006010600280064000100000006010600280064\
000100000006010600280064000100000006010600280064000100000006010600280064000100000006010600280064\
000100000006010600280064000100000006010600280064 end
log
1.000000 10.0.0.6:49152 pump open
1.000000 10.0.0.6:49152 pump close admitted 10 refused 0";

/// What a session gave and logged.
fn of_session(rt: &impl Abort, alloc: Global, run: &Run, session: u64, from: &str) -> String {
    let mut text = String::new(alloc);
    put(rt, &mut text, &["to client"]);
    run.put_given(rt, session, "took client", "finished client", &mut text);
    put(rt, &mut text, &["\nto controller"]);
    run.put_given(
        rt,
        session,
        "took controller",
        "finished controller",
        &mut text,
    );
    put(rt, &mut text, &["\nlog"]);
    for line in run.log().lines() {
        if line.split(' ').nth(1).unwrap_or("") == from {
            put(rt, &mut text, &["\n", line]);
        }
    }
    text
}

/// Serves the clients of rows, and looks at each.
fn plays(rt: &impl Abort, alloc: Global, policy: &Policy, rows: &[&str])
    requires { IsWithin policy.now }
{
    let mut clients = Vec::new(alloc);
    for row in rows {
        clients.push(client_of(rt, alloc, row)).expect(rt, "memory");
    }
    let links = links_of(alloc, clients, ROUNDS, None);
    let run = serve_three(rt, alloc, policy, links, files_of(rt, alloc, None));
    let mut session = 0_u64;
    for row in rows {
        let (given, wanted) = row.split_once("\ngives\n").unwrap_or((row, ""));
        let found = of_session(rt, alloc, &run, session, &name_of(rt, alloc, given));
        same(rt, given, &found, wanted);
        session = session.saturating_add(1);
    }
}

#[test]
fn sessions_are_as_alone(rt: HostRuntime) {
    let alloc = rt.alloc();
    let policy = policy(&rt, alloc);
    for row in ROWS.split("\n\n") {
        plays(&rt, alloc, &policy, &[row]);
        for other in OTHERS.split("\n\n") {
            plays(&rt, alloc, &policy, &[row, other]);
            plays(&rt, alloc, &policy, &[other, row]);
        }
    }
    for other in OTHERS.split("\n\n") {
        plays(&rt, alloc, &policy, &[other]);
    }
}
