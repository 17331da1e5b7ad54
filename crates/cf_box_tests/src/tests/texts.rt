//! The draws of seeds, the policy's text, and the texts that the hosts of a world send. The words of PCG32 were worked out beside
//! this code, by a program of its own that spreads a seed as `rand_core` states it and that gives the first words of the generator's
//! reference (state 42, stream 54: a15c02b7, 7b47f409, ba1d3330); and so were the texts, by what each draw means.
use crate::tests::same;
use cf_hosts::{Draws, make_document};
use cf_outside::MemoryFiles;
use cf_packet::{Packet, read_packet};
use cf_policy::Policy;
use cf_policylang::read_policy;
use cf_records::{NextRecord, RecordReader};
use cf_samples::rows::hex;
use cf_view::LinkKind;
use cf_world::{RECORD_LIMIT, WorldNames, make_world};
use std::alloc::{AllocError, Global};
use std::fmt::Write;
use std::test::Fail;

/// A row: a seed, and its first sixteen draws: the words modulo 8.
const DRAWS: &str = "0 => 3 7 3 6 3 5 6 6 0 6 1 4 5 6 6 1
7 => 1 6 5 4 4 5 4 0 3 0 4 2 0 5 2 5
18446744073709551615 => 6 6 4 5 2 0 5 5 2 0 7 1 4 1 6 1";

fn drawn(alloc: Global, seed: &str) -> Result<String, Fail> {
    let mut draws = Draws::new(seed.parse::<u64>()?);
    let mut text = String::new(alloc);
    for _ in 0..16 {
        let mark = if text.is_empty() { "" } else { " " };
        write!(&mut text, "{mark}{}", draws.draw())?;
    }
    Ok(text)
}

#[test]
fn draws_are_the_words_modulo_8(rt: HostRuntime) -> Result<(), Fail> {
    for row in DRAWS.lines() {
        let (seed, wanted) = row.split_once(" => ").unwrap_or((row, ""));
        same(&rt, row, &drawn(rt.alloc(), seed)?, wanted);
    }
    Ok(())
}

fn asset_names(alloc: Global, policy: &Policy) -> Result<String, AllocError> {
    let mut names = String::new(alloc);
    for asset in policy.assets.as_slice() {
        names.push_str(asset.name.as_str())?;
        names.push_str(" ")?;
    }
    Ok(names)
}

/// The text is read again as a policy of the same assets.
#[test]
fn document_is_a_policy(rt: HostRuntime) -> Result<(), Fail> {
    let alloc = rt.alloc();
    let document = make_document(alloc)?;
    let policy = read_policy(alloc, document.text.as_bytes())?;
    same(&rt, "the text", &asset_names(alloc, &policy)?, "w0 w1 w2 ");
    same(
        &rt,
        "the value",
        &asset_names(alloc, &document.policy)?,
        "w0 w1 w2 ",
    );
    Ok(())
}

/// A row: a seed, a host of its world of one session, and how many of its first texts follow: where each starts in its stream, and its
/// octets. A command and its echo have 12 octets, and the third command, which no controller hears, is refused. A draw is for the next
/// text of the client or the controller, in turn, but that after the third command is for the client again. A text goes whole; by 3 in
/// two halves; by 4 so, the second first; by 5 twice; by 6 whole, and then its second half with all bits inverted; by 7 not, and then
/// again by the next draw. So some texts start below the one before, some places are carried twice with equal octets, and some with two
/// different ones.
const TEXTS: &str = "7 client 8
0 000000000006010600000000
12 000100000006010600010001
12 000100000006010600010001
30 010600140002
24 000200000006
36 000300000006010600030003
36 000300000006010600030003
48 000400000006010600040004

7 controller 8
0 000000000006010600000000
6 fef9ffffffff
18 010600010001
12 000100000006
30 010600030003
24 000300000006
36 000400000006
42 010600040004

18446744073709551615 client 8
0 000000000006010600000000
6 fef9ffffffff
18 010600010001
12 000100000006
24 000200000006010600140002
36 000300000006010600030003
48 000400000006010600040004
48 000400000006010600040004

18446744073709551615 controller 7
0 000000000006010600000000
6 fef9ffffffff
12 000100000006010600010001
12 000100000006010600010001
24 000300000006010600030003
24 000300000006010600030003
36 000400000006010600040004

0 client 8
0 000000000006
6 010600000000
12 000100000006010600010001
18 fef9fffefffe
24 000200000006010600140002
24 000200000006010600140002
36 000300000006010600030003
42 fef9fffcfffc

0 controller 8
0 000000000006
6 010600000000
12 000100000006
18 010600010001
24 000300000006010600030003
30 fef9fffcfffc
36 000400000006010600040004
42 fef9fffbfffb";

/// The first texts of a host.
fn texts(alloc: Global, given: &str) -> Result<String, Fail> {
    let (seed, rest) = given.split_once(' ').unwrap_or((given, ""));
    let (side, count) = rest.split_once(' ').unwrap_or((rest, ""));
    let count = count.parse::<usize>()?;
    let names = WorldNames {
        policy: "p",
        capture: "c",
    };
    let mut files = MemoryFiles::new(alloc);
    make_world(alloc, seed.parse::<u64>()?, 1, &names, &mut files)?;
    let mut reader = RecordReader::open(alloc, "c", &mut files)?;
    let mut text = String::new(alloc);
    for _ in 0..RECORD_LIMIT {
        if text.lines().count() == count {
            break;
        }
        let NextRecord::Whole(_) = reader.next("c", &mut files) else {
            break;
        };
        let packet = read_packet(&LinkKind::RawIp, reader.body())
            .ok()
            .ok_or("no packet")?;
        push_text(alloc, &mut text, &packet, side == "client")?;
    }
    Ok(text)
}

/// Adds the text of a packet, where it is of this host. The client's SYN has the number 1,000, and the controller's 501,000.
fn push_text(
    alloc: Global,
    text: &mut String,
    packet: &Packet<'_>,
    of_client: bool,
) -> Result<(), Fail> {
    let is_of_client = packet.source.port != 502;
    if packet.text.is_empty() || is_of_client != of_client {
        return Ok(());
    }
    let first = if of_client { 1_001 } else { 501_001 };
    let start = packet.seq.wrapping_sub(first);
    let octets = hex(alloc, packet.text)?;
    let mark = if text.is_empty() { "" } else { "\n" };
    write!(text, "{mark}{start} {octets}")?;
    Ok(())
}

#[test]
fn texts_go_as_they_are_drawn(rt: HostRuntime) -> Result<(), Fail> {
    for row in TEXTS.split("\n\n") {
        let (given, wanted) = row.split_once('\n').unwrap_or((row, ""));
        same(&rt, given, &texts(rt.alloc(), given)?, wanted);
    }
    Ok(())
}
