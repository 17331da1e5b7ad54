//! Worked exchanges over a desk in memory: what comes to a lane, and what it has put out in the end.
//!
//! - `asset:` names one of the two samples, or `sub`, which allows single commands to point 1000.
//! - `> MOMENT c OCTETS | OCTETS = USED cut REASON`: octets of the client come, or of the controller, `k`, in one slice or in two;
//!   so many of them are used, and the session is cut, or not.
//! - `> MOMENT c End REST = ended`: the client ends, after so many octets that were not used.
//! - `CONTROLLER:`, `CLIENT:`, `log` and `printed:` are what was put out, logged and counted.
ghost use Rattle.std.specs.Prelude.{◌≡◌, IfOk, true};
ghost use Rattle.cf_lane.specs.Handled.{IsOpen};
ghost use Rattle.cf_policy.specs.Within.{IsAssetWithin};

use super::packets::{moment, number};
use super::{Place, digits, field, is_over, logs, named, same, text};
use arrayvec::ArrayString;
use cf_audit::push_cut;
use cf_lane::{Fed, Lane};
use cf_outq::Outq;
use cf_outside::MemoryDesk;
use cf_policy::{Action, Asset, Items, Name, Protocol, Rule, Site};
use cf_samples::rows::row;
use cf_samples::{CLIENT, one_span, pump, rtu};
use cf_view::{Endpoint, Side, View};
use std::alloc::{AllocError, Global};
use std::marker::Model;
use std::process::Abort;

/// Modbus, DNP3 and IEC 60870-5-104.
pub const ROWS: &str = "\
row: a refused and an admitted write in pieces, then an end
asset: pump
> 0.000005 c 000100000006010600320064 | 000100 = 12
> 0.000006 c 000100000006010600280064 | 000100 = 12
> 0.000007 c End 3 = ended
CLIENT: 000100000003018602
CONTROLLER: 000100000006010600280064
printed: admitted 1/refused 1/
log 0.000005 10.0.0.5:49152 pump refuse default point code 6 group 0 point 50 value 100 replied 000100000006010600320064
log 0.000007 10.0.0.5:49152 pump partial client 3

row: a write in two slices, four of its octets in the first
asset: pump
> 0.000005 c 00010000 | 0006010600280064 = 12
CLIENT:
CONTROLLER: 000100000006010600280064
printed: admitted 1/refused 0/

row: no reply behind the controller's end, and a cut
asset: pump
> 0.000004 k 000100000006010600280064 = 12
> 0.000004 k End 0 = ended
> 0.000005 c 000100000006010600320064 | 00020001 = 12 cut client protocol
CLIENT: 000100000006010600280064
CONTROLLER:
printed: admitted 0/refused 1/
log 0.000005 10.0.0.5:49152 pump refuse default point code 6 group 0 point 50 value 100 unanswered 000100000006010600320064

row: a refused direct operate
asset: rtu
> 0.000005 c 056418c40a0001003d3ac0c3050c011701050301640000006400e3e7000000ffff = 33
CLIENT: 05641a4401000a00af5dc0c38100000c01170105030164000000bc516400000009d792
CONTROLLER:
printed: admitted 0/refused 1/
log 0.000005 10.0.0.5:49152 rtu refuse default function code 5 group 3073 point 5 value 3 replied c3050c01170105030164000000640000

row: a read of another master, and the first segment of a fragment that is left at an end
asset: rtu
> 0.000005 c 056408c40a00020057f2c0c301c610 | 056408c40a000100fc4240c3016145 = 30
> 0.000006 c End 0 = ended
CLIENT:
CONTROLLER:
printed: admitted 0/refused 0/
log 0.000005 10.0.0.5:49152 rtu stray client address
log 0.000006 10.0.0.5:49152 rtu partial client 0

row: a refused command, and an admitted one that closes the gap
asset: sub
> 0.000005 c 680407000000680e000000002d0106000100e9030081680e020002002d0106000100e8030001 = 38
CLIENT: 680e000002002d0147000100e9030081
CONTROLLER: 680407000000680e000000002d0106000100e8030001
printed: admitted 1/refused 1/
log 0.000005 10.0.0.5:49152 sub refuse default point code 45 group 6 point 1001 value 1 replied 680e000000002d0106000100e9030081

row: a refused command leaves an S frame of what it acknowledges
asset: sub
> 0.000003 c 680407000000 = 6
> 0.000004 k 680e0000000001010300010001000001 | 680e0200000001010300010001000001680e0400000001010300010001000001 = 48
> 0.000005 c 680e000006002d0106000100e9030081 = 16
CLIENT: 680e0000000001010300010001000001680e0200000001010300010001000001680e0400000001010300010001000001680e060002002d0147000100e9030081
CONTROLLER: 680407000000680401000600
printed: admitted 0/refused 1/
log 0.000005 10.0.0.5:49152 sub refuse default point code 45 group 6 point 1001 value 1 replied 680e000006002d0106000100e9030081

row: a mirror that is acknowledged is none of the controller's frames
asset: sub
> 0.000003 c 680407000000 = 6
> 0.000004 k 680e0000000001010300010001000001 = 16
> 0.000005 c 680e000000002d0106000100e9030081 | 680401000200680401000400 = 28
CLIENT: 680e0000000001010300010001000001680e020002002d0147000100e9030081
CONTROLLER: 680407000000680401000200680401000200
printed: admitted 0/refused 1/
log 0.000005 10.0.0.5:49152 sub refuse default point code 45 group 6 point 1001 value 1 replied 680e000000002d0106000100e9030081

row: a command for another station
asset: sub
> 0.000005 c 680407000000 | 680e000000002d0106000200e8030001 = 22
CLIENT: 680e000002002d0147000200e8030001
CONTROLLER: 680407000000
printed: admitted 0/refused 1/
log 0.000005 10.0.0.5:49152 sub refuse station station code 45 group 0 point 2 value - replied 680e000000002d0106000200e8030001

row: a first number of one cuts
asset: sub
> 0.000005 c 680407000000 | 680e020000002d0106000100e9030081 = 6 cut client send 0 1
CLIENT:
CONTROLLER: 680407000000
printed: admitted 0/refused 0/
";

/// A lane of an asset that has its endpoint for itself, its two queues and its desk.
#[derive(Drop)]
struct Scene {
    asset: Asset,
    lane: Lane,
    to_client: Outq,
    to_controller: Outq,
    desk: MemoryDesk,
}

impl Model for Scene {
    ghost use Rattle.std.specs.Prelude.{◌≤◌};
    ghost use Rattle.cf_lane.specs.Handled.{IsLaneOf, debt};
    ghost use Rattle.cf_policy.specs.Site.{IsSiteWithin, alone};
    ghost use Rattle.cf_policy.specs.declared.Asset.{Asset};

    ghost Value = { Asset };

    ghost view = { λ s. s.asset };

    ghost invariant = { λ s. IsSiteWithin (alone s.asset) × IsLaneOf (alone s.asset) s.lane × (debt s.lane ≤ 5300) };
}

/// The asset `sub`, which allows single commands to point 1000.
fn sub(alloc: Global) -> Result<Asset, AllocError>
    ensures within { IfOk result (λ asset. IsAssetWithin asset) }
{
    let mut rules = Vec::new(alloc);
    rules.push(Rule {
        name: Name::from_text("switch"),
        action: Action::Allow,
        clients: Items::new(Vec::new(alloc)),
        codes: one_span(alloc, 45, 45)?,
        groups: one_span(alloc, 6, 6)?,
        points: one_span(alloc, 1000, 1000)?,
        values: Items::new(Vec::new(alloc)),
        rate: None,
        log: false,
    })?;
    Ok(Asset {
        name: Name::from_text("sub"),
        endpoint: Endpoint {
            address: 0x0A00_000B,
            port: 2404,
        },
        protocol: Protocol::Iec104,
        station: 1,
        master: 0,
        rules: Items::new(rules),
    })
}

/// The asset of a name.
fn asset_of(alloc: Global, name: &str) -> Result<Asset, AllocError>
    ensures within { IfOk result (λ asset. IsAssetWithin asset) }
{
    match name {
        "pump" => pump(alloc),
        "rtu" => Ok(rtu(alloc)),
        _ => sub(alloc),
    }
}

/// A lane of an asset at its beginning.
#[tactic(auto, using(crate::proofs::Alone::alone_within))]
fn begins(rt: &impl Abort, alloc: Global, name: &str) -> Scene {
    let asset = asset_of(alloc, name).expect(rt, "asset");
    Scene {
        lane: Lane::new(alloc, &Site::alone(&asset), CLIENT, None).expect(rt, "lane"),
        asset,
        to_client: Outq::new(alloc).expect(rt, "memory"),
        to_controller: Outq::new(alloc).expect(rt, "memory"),
        desk: MemoryDesk::new(alloc),
    }
}

/// Whether the queue that a side's bytes go to has no End.
fn is_open(side: Side, to_client: &Outq, to_controller: &Outq) -> bool
    ensures { result ≡ true → IsOpen side to_client.now to_controller.now }
{
    match side {
        Side::Client => !to_controller.is_ended(),
        Side::Controller => !to_client.is_ended(),
    }
}

/// Octets of a side come.
#[tactic(auto, using(crate::proofs::Alone::owed_alone))]
fn feeds(rt: &impl Abort, scene: &mut Scene, now: u64, side: Side, bytes: View<'_>) -> Fed {
    assert!(rt; bytes.len() <= 1024 && scene.desk.faults == 0);
    assert!(rt; is_open(side, &scene.to_client, &scene.to_controller));
    assert!(rt; scene.to_client.room() >= 8192 && scene.to_client.length() < 1_000_000);
    assert!(rt; scene.to_controller.room() >= 8192 && scene.to_controller.length() < 1_000_000);
    assert!(rt; scene.lane.admitted() < 1 << 32 && scene.lane.refused() < 1 << 32);
    scene
        .lane
        .feed(
            &Site::alone(&scene.asset),
            now,
            side,
            bytes,
            &mut scene.to_client,
            &mut scene.to_controller,
            &mut scene.desk,
        )
        .expect(rt, "fed")
}

/// A side ends, after so many octets that were not used.
fn ends(rt: &impl Abort, scene: &mut Scene, now: u64, side: Side, rest: u32) {
    assert!(rt; scene.desk.faults == 0);
    assert!(rt; is_open(side, &scene.to_client, &scene.to_controller));
    assert!(rt; scene.to_client.length() < 1_000_000 && scene.to_controller.length() < 1_000_000);
    scene
        .lane
        .ended(
            &Site::alone(&scene.asset),
            now,
            side,
            u64::from(rest),
            &mut scene.to_client,
            &mut scene.to_controller,
            &mut scene.desk,
        )
        .expect(rt, "ended");
}

/// How many octets were used, and why the session is cut.
fn fed_text(rt: &impl Abort, alloc: Global, fed: &Fed) -> String {
    let mut cut = ArrayString::<64>::new();
    if let Some(reason) = fed.cut {
        cut.push_str(" cut ");
        push_cut(&mut cut, &reason);
    }
    format!(in alloc; "{}{}", fed.used, cut.as_str()).expect(rt, "memory")
}

/// What comes of a side at a moment, and what is answered.
fn comes(rt: &impl Abort, alloc: Global, scene: &mut Scene, given: &str) -> String {
    let (now, rest) = moment(rt, given);
    let (who, octets) = rest.split_once(' ').unwrap_or((rest, ""));
    let side = if who == "c" {
        Side::Client
    } else {
        Side::Controller
    };
    if let Some(count) = octets.strip_prefix("End ") {
        ends(rt, scene, now, side, number(rt, count));
        let is_open = is_open(side, &scene.to_client, &scene.to_controller);
        let found = if is_open { "open" } else { "ended" };
        return String::from_str(alloc, found).expect(rt, "memory");
    }
    let (first, second) = octets.split_once('|').unwrap_or((octets, ""));
    let first = text(rt, alloc, first);
    let second = text(rt, alloc, second);
    assert!(rt; first.len() <= 512 && second.len() <= 512);
    let fed = feeds(rt, scene, now, side, View::two(&first, &second));
    fed_text(rt, alloc, &fed)
}

/// The octets of a queue.
fn held(rt: &impl Abort, alloc: Global, queue: &mut Outq) -> String {
    let mut out = [0u8; 1024];
    queue.shown(1024);
    let sent = match queue.next_piece(1024) {
        Some(piece) => {
            assert!(rt; piece.len <= 1024);
            queue.copy(piece, &mut out[..piece.len]);
            &out[..piece.len]
        }
        None => &[],
    };
    digits(rt, alloc, sent)
}

/// How many commands were admitted, and how many refused.
fn counted(rt: &impl Abort, alloc: Global, lane: &Lane) -> String {
    format!(in alloc; "admitted {}/refused {}/", lane.admitted(), lane.refused()).expect(
        rt, "memory",
    )
}

/// A line of a row.
fn line(rt: &impl Abort, alloc: Global, scene: &mut Scene, place: &Place<'_>) {
    let (word, rest) = place.line.split_once(' ').unwrap_or((place.line, ""));
    if word == "log" {
        logs(rt, &mut scene.desk, place, rest);
        return;
    }
    let (given, wanted) = row(rest).unwrap_or(("", rest));
    let found = match word {
        ">" => comes(rt, alloc, scene, given),
        "CLIENT:" => held(rt, alloc, &mut scene.to_client),
        "CONTROLLER:" => held(rt, alloc, &mut scene.to_controller),
        _ => counted(rt, alloc, &scene.lane),
    };
    same(rt, place, &found, wanted);
}

/// A row, from its first line on.
pub fn plays(rt: &impl Abort, alloc: Global, block: &str) {
    let (name, lines) = named(block);
    let mut scene = begins(rt, alloc, field(lines, "asset: ").unwrap_or("pump"));
    for part in lines.lines().skip(1) {
        line(
            rt,
            alloc,
            &mut scene,
            &Place {
                row: name,
                line: part,
            },
        );
    }
    is_over(
        rt,
        &scene.desk,
        &Place {
            row: name,
            line: "",
        },
    );
}
