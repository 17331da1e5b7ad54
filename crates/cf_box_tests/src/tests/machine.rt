//! A full disk, and the pair of streams over the loopback, in one thread: the system holds what a peer would take.

use cf_machine::{Gather, LinkPair, RealFiles};
use cf_outside::{Files, GiveAnswer, MeetAnswer, Pair, ReadAnswer, TakeAnswer, WriteAnswer};
use cf_view::{Endpoint, Side};
use std::io::{Read, Write};
use std::net::{Net, TcpListener, TcpStream};
use std::process::Abort;
use std::rt::Clock;
use std::test::Fail as TestFail;

/// Asserts that this holds.
fn holds(rt: &impl Abort, what: &str, is_so: bool) {
    assert!(rt; is_so, "{what}");
}

const HOME: u32 = 0x7F00_0001;

/// What a side sent, asked for so often that the system has brought it.
fn take<R: Net + Clock + Eprint + AllocGlobal>(
    pair: &mut LinkPair<'_, R>,
    side: Side,
) -> Option<[u8; 3]> {
    let mut buf = [0u8; 3];
    for _ in 0..1_000 {
        let _ = pair.moment();
        match pair.take(side, &mut buf) {
            TakeAnswer::Idle => {}
            TakeAnswer::Got(_) => return Some(buf),
            _ => return None,
        }
    }
    None
}

#[test]
fn a_pair_moves_bytes_and_ends(rt: HostRuntime) -> Result<(), TestFail> {
    let listener = TcpListener::bind(&rt, "127.0.0.1:0")?;
    let far = TcpListener::bind(&rt, "127.0.0.1:0")?;
    let peer = Endpoint {
        address: HOME,
        port: far.local_addr()?.port(),
    };
    let mut client = TcpStream::connect(&rt, listener.local_addr()?)?;
    let mut pair = LinkPair::over(&rt, listener);
    let from = Endpoint {
        address: HOME,
        port: client.local_addr()?.port(),
    };
    holds(
        &rt,
        "the client is met",
        pair.meet(1, peer) == MeetAnswer::Met(from),
    );
    let (mut controller, _) = far.accept()?;

    let mut buf = [0u8; 3];
    holds(
        &rt,
        "nothing came yet",
        pair.take(Side::Client, &mut buf) == TakeAnswer::Idle,
    );
    client.write_all(b"abc")?;
    holds(
        &rt,
        "the client's bytes",
        take(&mut pair, Side::Client) == Some(*b"abc"),
    );
    holds(
        &rt,
        "the controller took bytes",
        pair.give(Side::Controller, b"xyz") == GiveAnswer::Took(3),
    );
    holds(
        &rt,
        "bytes came to the controller",
        controller.read(&mut buf)? == 3,
    );
    holds(&rt, "the bytes that it got", &buf == b"xyz");
    ends(&rt, &mut pair, client)
}

/// A side that was closed for sending may still send; its end is the last that comes of it.
fn ends<R: Net + Clock + Eprint + AllocGlobal>(
    rt: &impl Abort,
    pair: &mut LinkPair<'_, R>,
    mut client: TcpStream,
) -> Result<(), TestFail> {
    let mut buf = [0u8; 3];
    holds(
        rt,
        "the client is closed for sending",
        pair.finish(Side::Client) == WriteAnswer::Done,
    );
    holds(rt, "the client hears the end", client.read(&mut buf)? == 0);
    client.write_all(b"def")?;
    holds(
        rt,
        "the client sends on",
        take(pair, Side::Client) == Some(*b"def"),
    );
    drop(client);
    holds(rt, "the client is gone", take(pair, Side::Client).is_none());
    holds(
        rt,
        "the client's end",
        pair.take(Side::Client, &mut buf) == TakeAnswer::End,
    );
    holds(rt, "no fault", pair.fault().is_none());
    Ok(())
}

#[test]
fn a_full_disk_is_told_at_the_end_where_a_read_met_it(rt: HostRuntime) -> Result<(), TestFail> {
    let mut files = RealFiles::new(&rt, rt.alloc(), Gather::Pieces);
    let mut buf = [0u8; 3];
    holds(
        &rt,
        "a file is made",
        files.create("/dev/full") == WriteAnswer::Done,
    );
    holds(
        &rt,
        "bytes are gathered for it",
        files.append("/dev/full", b"abc") == WriteAnswer::Done,
    );
    holds(
        &rt,
        "they cannot be written before the read",
        files.read_at("/dev/full", 0, &mut buf) == ReadAnswer::Failed,
    );
    holds(&rt, "the end tells it", !files.finish());
    Ok(())
}
