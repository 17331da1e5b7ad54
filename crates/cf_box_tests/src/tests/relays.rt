//! Relays of a pair in memory: what a relay is given, and what it answers and leaves.
ghost use Rattle.std.specs.Prelude.{IfOk};
ghost use Rattle.cf_policy.specs.Within.{IsAssetWithin};

use crate::tests::{field, same};
use cf_outside::{Fail as Scripted, MemoryFiles, MemoryPair, Told};
use cf_policy::{Asset, Site};
use cf_relay::relay;
use cf_samples::rows::{hex, octets};
use cf_samples::{CLIENT, pump, rtu};
use cf_view::Side;
use std::alloc::{AllocError, Global};
use std::fmt::Write;
use std::test::Fail;

/// A row has an asset; what the client sends before its end; the moments that are told, in microseconds; how many octets each move moves at
/// most; the calls that answer that nothing came, and those that fail. After `gives` stand the answer; how many answers of the pair there
/// were, and how many of them that nothing came, where the row says it; what the client and the controller were given; and the log. The
/// controller sends nothing, and the relay ends after five answers of each side that nothing came.
const ROWS: &str = "nothing comes, and the relay ends
asset: pump
gives
Ok(RelayDone { end: Done, admitted: 0, refused: 0 })
log
0.000000 10.0.0.5:49152 pump open
0.000000 10.0.0.5:49152 pump close admitted 0 refused 0

a refused write, and an admitted one
asset: pump
client: 000100000006010600320064 000100000006010600280064
moments: 1000000
gives
Ok(RelayDone { end: Done, admitted: 1, refused: 1 })
to client 000100000003018602
to controller 000100000006010600280064
log
1.000000 10.0.0.5:49152 pump open
1.000000 10.0.0.5:49152 pump refuse default point code 6 group 0 point 50 value 100 replied 000100000006010600320064
1.000000 10.0.0.5:49152 pump close admitted 1 refused 1

five idle answers of each side end a relay that waits for five
asset: pump
idle: 1 2 3 4 5 6 7 8 9 10 11 12 13 14 15 16 17 18 19 20
gives
Ok(RelayDone { end: IdleEnd, admitted: 0, refused: 0 })
answers 17
idles 10
log
0.000000 10.0.0.5:49152 pump open

the first fault ends all
asset: pump
fails: 4
gives
Err(Link)
answers 3
log
0.000000 10.0.0.5:49152 pump open

nobody is met
asset: pump
fails: 1
gives
Err(Link)
answers 0
log

a break cuts, and the moment does not go back
asset: pump
client: 00010001
moments: 3 2
gives
Ok(RelayDone { end: Cut(Framing(Client, Protocol)), admitted: 0, refused: 0 })
answers 4
log
0.000003 10.0.0.5:49152 pump open
0.000003 10.0.0.5:49152 pump cut client protocol

pieces of five octets, and idle answers between them
asset: pump
client: 000100000006010600320064 000100000006010600280064
moments: 1000000
pieces: 0 5*63
idle: 5 9 10 13 17 18
gives
Ok(RelayDone { end: Done, admitted: 1, refused: 1 })
to client 000100000003018602
to controller 000100000006010600280064
log
1.000000 10.0.0.5:49152 pump open
1.000000 10.0.0.5:49152 pump refuse default point code 6 group 0 point 50 value 100 replied 000100000006010600320064
1.000000 10.0.0.5:49152 pump close admitted 1 refused 1

a refused direct operate
asset: rtu
client: 056418c40a0001003d3a c0c3050c01170105030164000000 6400e3e7 000000ffff
moments: 5
gives
Ok(RelayDone { end: Done, admitted: 0, refused: 1 })
to client 05641a4401000a00af5dc0c38100000c01170105030164000000bc516400000009d792
log
0.000005 10.0.0.5:49152 rtu open
0.000005 10.0.0.5:49152 rtu refuse default function code 5 group 3073 point 5 value 3 replied c3050c01170105030164000000640000
0.000005 10.0.0.5:49152 rtu close admitted 0 refused 1";

/// Numbers with spaces between them; `5*63` is 63 times 5.
fn numbers(alloc: Global, text: &str) -> Result<Vec<u64>, Fail> {
    let mut numbers = Vec::new(alloc);
    for word in text.split_whitespace() {
        let (number, times) = word.split_once('*').unwrap_or((word, "1"));
        let number = number.parse::<u64>()?;
        for _ in 0..times.parse::<u32>()? {
            numbers.push(number)?;
        }
    }
    Ok(numbers)
}

fn pair_of(alloc: Global, row: &str) -> Result<MemoryPair, Fail> {
    let mut pair = MemoryPair::new(alloc);
    pair.client = CLIENT;
    pair.from_client = octets(alloc, field(row, "client:"))?;
    pair.moments = numbers(alloc, field(row, "moments:"))?;
    pair.idle = numbers(alloc, field(row, "idle:"))?;
    for piece in numbers(alloc, field(row, "pieces:"))? {
        pair.pieces.push(usize::try_from(piece)?)?;
    }
    for call in numbers(alloc, field(row, "fails:"))? {
        pair.fails.push(Scripted { call, left: 0 })?;
    }
    Ok(pair)
}

fn asset_of(alloc: Global, name: &str) -> Result<Asset, AllocError>
    ensures { IfOk result (λ asset. IsAssetWithin asset) }
{
    match name {
        "rtu" => Ok(rtu(alloc)),
        _ => pump(alloc),
    }
}

/// Adds what a side was given, if it was given something.
fn push_given(alloc: Global, text: &mut String, pair: &MemoryPair, side: Side) -> Result<(), Fail> {
    let mut octets = Vec::new(alloc);
    for told in pair.told.iter() {
        if let Told::Took(to, piece) = told {
            if *to == side {
                octets.extend_from_slice(piece.as_slice())?;
            }
        }
    }
    if !octets.is_empty() {
        let name = match side {
            Side::Client => "client",
            Side::Controller => "controller",
        };
        let octets = hex(alloc, octets.as_slice())?;
        write!(text, "to {name} {octets}\n")?;
    }
    Ok(())
}

/// What a relay answers and leaves, and the counts that are wanted, of an asset that has its endpoint for itself.
#[tactic(auto, using(crate::proofs::Alone::alone_within))]
fn relayed(alloc: Global, given: &str, wanted: &str) -> Result<String, Fail> {
    let mut pair = pair_of(alloc, given)?;
    let mut files = MemoryFiles::new(alloc);
    let asset = asset_of(alloc, field(given, "asset:"))?;
    let done = relay(
        alloc,
        &Site::alone(&asset),
        1502,
        5,
        "l",
        &mut pair,
        &mut files,
    );
    let mut text = format!(in alloc; "{done:?}\n")?;
    if !field(wanted, "answers").is_empty() {
        write!(&mut text, "answers {}\n", pair.told.len())?;
    }
    if !field(wanted, "idles").is_empty() {
        write!(&mut text, "idles {}\n", pair.idles)?;
    }
    push_given(alloc, &mut text, &pair, Side::Client)?;
    push_given(alloc, &mut text, &pair, Side::Controller)?;
    let log = files.files.get("l").ok_or("no log")?;
    text.push_str("log\n")?;
    text.push_str(&String::from_utf8_lossy(alloc, log.as_slice())?)?;
    Ok(text)
}

#[test]
fn relays(rt: HostRuntime) -> Result<(), Fail> {
    let alloc = rt.alloc();
    for row in ROWS.split("\n\n") {
        let (given, wanted) = row.split_once("\ngives\n").unwrap_or((row, ""));
        let found = relayed(alloc, given, wanted)?;
        same(&rt, given, &found, &format!(in alloc; "{wanted}\n")?);
    }
    Ok(())
}
