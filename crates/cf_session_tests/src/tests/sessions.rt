//! Exchanges of one session over a desk in memory, as a run plays them: packets, and what they leave. `limit:` is the most
//! letters of a stream, 2^30 where it is not given.
ghost use Rattle.std.specs.Prelude.{IfOk};
ghost use Rattle.cf_policy.specs.Within.{AreAssetsWithin};

use super::packets::{Origins, goes, moment, number, packet};
use super::{Place, field, is_over, logs, named, same};
use cf_outside::MemoryDesk;
use cf_policy::{Items, Policy};
use cf_run::Engine;
use cf_samples::pump;
use cf_view::LinkKind;
use std::alloc::{AllocError, Global};
use std::marker::Model;
use std::process::Abort;

/// RFC 9293, sections 3.5, 3.6 and 3.10.7, and this project's own limit of a stream. A SYN of number 1000 came at 1.000000.
/// The controller answers by a SYN ACK of number 5000, and the client acknowledges that of the box.
pub const ROWS: &str = "\
row: a write goes on, its echo goes back, and both sides end
> 1.000000 c S 1000 0 65535 mss1460
< 1.000000 c S 1000 0 16384 mss1460
log 1.000000 10.0.0.5:49152 pump open
> 1.010000 k SA 5000 1001 65535 mss1460
< 1.010000 c A 1001 5001 16384
< 1.010000 k SA 5000 1001 16384 mss1460
> 1.020000 c A 1001 5001 65535
> 1.030000 c PA 1001 5001 65535 W
< 1.030000 c PA 1001 5001 16384 W
< 1.030000 k A 5001 1013 16384
> 1.040000 k PA 5001 1013 65535 W
< 1.040000 c A 1013 5013 16384
< 1.040000 k PA 5001 1013 16384 W
> 1.050000 c FA 1013 5013 65535
< 1.050000 c FA 1013 5013 16384
< 1.050000 k A 5013 1014 16384
> 1.060000 k FA 5013 1014 65535
< 1.060000 c A 1014 5014 16384
< 1.060000 k FA 5013 1014 16384
> 1.070000 c A 1014 5014 65535
log 1.070000 10.0.0.5:49152 pump close admitted 1 refused 0
printed: records 8/dropped 0/outside 0/full 0/sessions 1/admitted 1/refused 0/cuts 0/

row: a refused write goes nowhere, and the client gets the exception
> 1.000000 c S 1000 0 65535 mss1460
< 1.000000 c S 1000 0 16384 mss1460
log 1.000000 10.0.0.5:49152 pump open
> 1.010000 k SA 5000 1001 65535 mss1460
< 1.010000 c A 1001 5001 16384
< 1.010000 k SA 5000 1001 16384 mss1460
> 1.020000 c A 1001 5001 65535
> 1.030000 c PA 1001 5001 65535 000100000006010600320064
< 1.030000 k PA 5001 1013 16384 000100000003018602
log 1.030000 10.0.0.5:49152 pump refuse default point code 6 group 0 point 50 value 100 replied 000100000006010600320064
printed: records 4/dropped 0/outside 0/full 0/sessions 1/admitted 0/refused 1/cuts 0/

row: an RST beside the base draws an acknowledgment, and one at the base cuts: an RST to each peer
> 1.000000 c S 1000 0 65535 mss1460
< 1.000000 c S 1000 0 16384 mss1460
log 1.000000 10.0.0.5:49152 pump open
> 1.010000 k SA 5000 1001 65535 mss1460
< 1.010000 c A 1001 5001 16384
< 1.010000 k SA 5000 1001 16384 mss1460
> 1.020000 c A 1001 5001 65535
> 1.030000 c R 1002 5001 65535
< 1.030000 k A 5001 1001 16384
> 1.040000 c R 1001 5001 65535
log 1.040000 10.0.0.5:49152 pump cut client reset
< 1.040000 c RA 1001 5001 0
< 1.040000 k RA 5001 1001 0
printed: records 5/dropped 0/outside 0/full 0/sessions 1/admitted 0/refused 0/cuts 1/

row: with a limit of 24 letters the second of two writes is taken, its session is cut, and it is not sent
limit: 24
> 1.000000 c S 1000 0 65535 mss1460
< 1.000000 c S 1000 0 16384 mss1460
log 1.000000 10.0.0.5:49152 pump open
> 1.010000 k SA 5000 1001 65535 mss1460
< 1.010000 c A 1001 5001 16384
< 1.010000 k SA 5000 1001 16384 mss1460
> 1.020000 c A 1001 5001 65535
> 1.030000 c PA 1001 5001 65535 W
< 1.030000 c PA 1001 5001 16384 W
< 1.030000 k A 5001 1013 16384
> 1.040000 c PA 1013 5001 65535 W
log 1.040000 10.0.0.5:49152 pump cut client long
< 1.040000 c RA 1013 5001 0
< 1.040000 k RA 5001 1025 0
printed: records 5/dropped 0/outside 0/full 0/sessions 1/admitted 2/refused 0/cuts 1/

row: the same in octets
limit: 24
> 1.000000 ip 4500002c00004000400626bf0a0000050a000009c00001f6000003e8000000006002ffffbe3a0000020405b4
< 1.000000 ip 4500002c00004000400626bf0a0000050a000009c00001f6000003e80000000060024000 7e3a0000020405b4
log 1.000000 10.0.0.5:49152 pump open
> 1.010000 ip 4500002c00004000400626bf0a0000090a00000501f6c00000001388000003e96012ffffaaa10000020405b4
< 1.010000 c A 1001 5001 16384
< 1.010000 k SA 5000 1001 16384 mss1460
> 1.020000 ip 4500002800004000400626c30a0000050a000009c00001f6000003e9000013895010ffffc25e0000
> 1.030000 ip 4500003400004000400626b70a0000050a000009c00001f6000003e9000013895018ffffc0b10000 000100000006010600280064
< 1.030000 c PA 1001 5001 16384 W
< 1.030000 k A 5001 1013 16384
> 1.040000 ip 4500003400004000400626b70a0000050a000009c00001f6000003f5000013895018ffffc0a50000 000100000006010600280064
log 1.040000 10.0.0.5:49152 pump cut client long
< 1.040000 ip 4500002800004000400626c30a0000050a000009c00001f6000003f50000138950140000c24e0000
< 1.040000 ip 4500002800004000400626c30a0000090a00000501f6c00000001389000004015014 0000c2420000
printed: records 5/dropped 0/outside 0/full 0/sessions 1/admitted 2/refused 0/cuts 1/
";

const NUMBERS: Origins = Origins {
    client: 1000,
    controller: 5000,
};

/// The policy of the asset `pump` alone.
pub fn policy(alloc: Global) -> Result<Policy, AllocError>
    ensures within { IfOk result (λ policy. AreAssetsWithin policy.assets) }
{
    let mut assets = Vec::new(alloc);
    assets.push(pump(alloc)?)?;
    Ok(Policy {
        assets: Items::new(assets),
    })
}

/// A run, the moment of its last event, and its desk.
#[derive(Drop)]
struct Scene {
    policy: Policy,
    engine: Engine,
    last: u64,
    desk: MemoryDesk,
}

impl Model for Scene {
    ghost use Rattle.std.specs.Prelude.{◌≡◌, ℕ};
    ghost use Rattle.cf_policy.specs.Within.{AreAssetsWithin};
    ghost use Rattle.cf_run.specs.Step.{EngineValue, IsSoundEngine};

    ghost Value = { ℕ };

    ghost view = { λ s. s.last };

    ghost invariant = { λ s. AreAssetsWithin s.policy.assets × IsSoundEngine s.policy.assets s.engine × (EngineValue.last s.engine ≡ s.last) };
}

/// A run that has no session.
fn begins(rt: &impl Abort, alloc: Global, limit: u32) -> Scene {
    assert!(rt; limit >= 1 && limit <= 1 << 30);
    Scene {
        policy: policy(alloc).expect(rt, "memory"),
        engine: Engine::new(alloc, i64::from(limit)).expect(rt, "memory"),
        last: 0,
        desk: MemoryDesk::new(alloc),
    }
}

/// A packet comes.
fn steps(rt: &impl Abort, alloc: Global, scene: &mut Scene, line: &str) {
    let (now, spelled) = moment(rt, line);
    let octets = packet(rt, alloc, &NUMBERS, spelled);
    assert!(rt; scene.desk.faults == 0 && now < 1 << 50);
    assert!(rt; now >= 2 && scene.last <= now - 2);
    scene
        .engine
        .step(
            alloc,
            &scene.policy,
            now,
            &LinkKind::RawIp,
            &octets,
            &mut scene.desk,
        )
        .expect(rt, "step");
    scene.last = now;
}

/// What was counted.
fn counted(rt: &impl Abort, alloc: Global, engine: &Engine) -> String {
    let s = engine.summary();
    format!(in alloc;
        "records {}/dropped {}/outside {}/full {}/sessions {}/admitted {}/refused {}/cuts {}/",
        s.records, s.dropped, s.outside, s.full, s.sessions, s.admitted, s.refused, s.cuts
    )
    .expect(rt, "memory")
}

/// A line of a row.
fn line(rt: &impl Abort, alloc: Global, scene: &mut Scene, place: &Place<'_>) {
    let (word, rest) = place.line.split_once(' ').unwrap_or((place.line, ""));
    match word {
        "limit:" => {}
        ">" => {
            assert!(rt;
                scene.desk.packets.is_empty(),
                "{}, {}: more than the row says",
                place.row,
                place.line
            );
            steps(rt, alloc, scene, rest);
        }
        "<" => goes(rt, alloc, &NUMBERS, &mut scene.desk, place, rest),
        "log" => logs(rt, &mut scene.desk, place, rest),
        _ => same(rt, place, &counted(rt, alloc, &scene.engine), rest),
    }
}

/// A row, from its first line on.
pub fn plays(rt: &impl Abort, alloc: Global, block: &str) {
    let (name, lines) = named(block);
    let limit = field(lines, "limit: ").unwrap_or("1073741824");
    let mut scene = begins(rt, alloc, number(rt, limit));
    for part in lines.lines() {
        line(
            rt,
            alloc,
            &mut scene,
            &Place {
                row: name,
                line: part,
            },
        );
    }
    is_over(
        rt,
        &scene.desk,
        &Place {
            row: name,
            line: "",
        },
    );
}
