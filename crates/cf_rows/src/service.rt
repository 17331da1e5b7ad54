//! The clients that come to a service, what each sends and how it ends, and what each and its controller were given.
ghost use Rattle.std.specs.Prelude.{◌≡◌, false, ℕ};
ghost use Rattle.cf_links.specs.MemoryLinks.{serves_in};

use crate::fault::{Fault, Wanted};
use crate::left::Left;
use crate::packets::client_named;
use crate::reader::Reader;
use crate::row::Row;
use cf_links::{LinksTold, MemoryClient, MemoryLinks};
use cf_outside::{Fail, MemoryPair, Told};
use cf_view::Side;
use std::alloc::Global;

/// How many calls of a session that goes silent answer that nothing came or went.
const SILENCE: u64 = 1_000;

/// The moment that a client tells where it has none of its own.
const MOMENT: &str = "1.000000";

/// How many waits are answered, the moment at which the places are opened, and by how much each wait moves it on, in microseconds.
#[derive(Clone, Copy)]
struct Rounds {
    number: u64,
    clock: u64,
    step: u64,
}

/// The rounds of a row; none at moment 0 where it has no line of them.
fn rounds_of(reader: &mut Reader<'_>, row: &Row) -> Rounds {
    let spelled = row.field("rounds:").unwrap_or("0 0.000000 0.000000");
    let (number, moments) = spelled
        .split_once(' ')
        .unwrap_or((spelled, "0.000000 0.000000"));
    let (clock, step) = moments.split_once(' ').unwrap_or((moments, "0.000000"));
    Rounds {
        number: reader.word64(number),
        clock: reader.moment(clock),
        step: reader.moment(step),
    }
}

/// The links of a row, to which its clients come in the order of their lines.
pub fn links_of(reader: &mut Reader<'_>, row: &Row, words: &str) -> MemoryLinks
    ensures free { (session : ℕ) → serves_in result session ≡ false }
{
    let rounds = rounds_of(reader, row);
    let deaf = match row.field("listen fails:") {
        Some(asset) => Some(place_of(reader, words, asset)),
        None => None,
    };
    let clients = clients_of(reader, row, words);
    links_with(reader.alloc, clients, rounds, deaf)
}

/// Links to which these clients come, in their order, and which cannot listen at one place, if there is one.
fn links_with(
    alloc: Global,
    clients: Vec<MemoryClient>,
    rounds: Rounds,
    deaf: Option<u32>,
) -> MemoryLinks
    ensures free { (session : ℕ) → serves_in result session ≡ false }
{
    let mut links = MemoryLinks::new(alloc);
    links.clients = clients;
    links.rounds = rounds.number;
    links.clock = rounds.clock;
    links.step = rounds.step;
    links.deaf = deaf;
    links
}

/// The clients of a row, in the order of their coming.
fn clients_of(reader: &mut Reader<'_>, row: &Row, words: &str) -> Vec<MemoryClient> {
    let mut clients = Vec::new(reader.alloc);
    for line in row.all("arrives:").iter() {
        let client = client_of(reader, row, words, line);
        if clients.push(client).is_err() {
            reader.notes(Fault::NoMemory);
        }
        reader.is_at(line);
    }
    clients
}

/// The client of a line `WHO ASSET TURNS`, whose controller is reached after so many turns, or at once.
fn client_of(reader: &mut Reader<'_>, row: &Row, words: &str, line: &str) -> MemoryClient {
    let (who, rest) = line.split_once(' ').unwrap_or((line, ""));
    let (asset, waits) = rest.split_once(' ').unwrap_or((rest, "0"));
    let place = place_of(reader, words, asset);
    let waits = reader.word64(waits);
    let mut pair = MemoryPair::new(reader.alloc);
    set_pair(reader, row, who, &mut pair);
    let mut client = MemoryClient::new(place, pair);
    client.waits = waits;
    set_end(reader, row, who, &mut client);
    client
}

/// What a client and its controller send, and the moments that they tell.
fn set_pair(reader: &mut Reader<'_>, row: &Row, who: &str, pair: &mut MemoryPair) {
    pair.client = client_named(reader, row, who);
    let sent = of_client(row, "client sends:", who).unwrap_or("");
    reader.spells(sent, &mut pair.from_client);
    let sent = of_client(row, "controller sends:", who).unwrap_or("");
    reader.spells(sent, &mut pair.from_controller);
    push_moments(reader, row, who, &mut pair.moments);
}

/// The number of an asset's place among the words of a service.
fn place_of(reader: &mut Reader<'_>, words: &str, asset: &str) -> u32 {
    let mut number = 0_u32;
    for place in words.split(' ').skip(4) {
        let (name, _) = place.split_once('=').unwrap_or(("=", ""));
        if name == asset {
            return number;
        }
        number = number.saturating_add(1);
    }
    reader.wants(Wanted::Place);
    0
}

/// What stands behind a client in the lines of a key.
fn of_client<'a>(row: &'a Row, key: &str, who: &str) -> Option<&'a str> {
    for line in row.all(key).iter() {
        let (name, behind) = line.split_once(' ').unwrap_or(("", ""));
        if name == who {
            return Some(behind);
        }
    }
    None
}

/// The moments of a client: that of its beginning, then that of each turn.
fn push_moments(reader: &mut Reader<'_>, row: &Row, who: &str, moments: &mut Vec<u64>) {
    let spelled = of_client(row, "moments:", who).unwrap_or(MOMENT);
    for spelled in spelled.split(' ') {
        let moment = reader.moment(spelled);
        if moments.push(moment).is_err() {
            reader.notes(Fault::NoMemory);
        }
    }
}

/// How a client's session ends otherwise than by both ends: it is gone, its controller is not reached, one of its calls fails, or
/// nothing comes or goes from one of its calls on.
fn set_end(reader: &mut Reader<'_>, row: &Row, who: &str, client: &mut MemoryClient) {
    let Some(spelled) = of_client(row, "ends:", who) else {
        return;
    };
    let (how, call) = spelled.split_once(' ').unwrap_or((spelled, "1"));
    let first = reader.word64(call);
    match how {
        "gone" => client.gone = true,
        "unreached" | "lost" => fails_at(reader, first, &mut client.pair.fails),
        "silent" => is_silent(reader, first, &mut client.pair.idle),
        _ => reader.wants(Wanted::End),
    }
}

fn fails_at(reader: &mut Reader<'_>, call: u64, fails: &mut Vec<Fail>) {
    if fails.push(Fail { call, left: 0 }).is_err() {
        reader.notes(Fault::NoMemory);
    }
}

fn is_silent(reader: &mut Reader<'_>, first: u64, idle: &mut Vec<u64>) {
    for call in first..first.saturating_add(SILENCE) {
        if idle.push(call).is_err() {
            reader.notes(Fault::NoMemory);
        }
    }
}

/// The line of the first client that, or whose controller, was given other octets than the row says, or was closed for sending
/// otherwise; or that another number of controllers was reached.
pub fn wrong_session<'a>(reader: &mut Reader<'_>, row: &'a Row, left: &Left) -> Option<&'a str> {
    let mut session = 0_u64;
    for line in row.all("arrives:").iter() {
        let (who, _) = line.split_once(' ').unwrap_or((line, ""));
        let controller = of_client(row, "CONTROLLER:", who).unwrap_or("");
        let client = of_client(row, "CLIENT:", who).unwrap_or("");
        if !is_given(reader, left, session, Side::Controller, controller)
            || !is_given(reader, left, session, Side::Client, client)
        {
            return Some(line);
        }
        session = session.saturating_add(1);
    }
    if reached_in(left) == reader.size(row.field("reached:").unwrap_or("0")) {
        None
    } else {
        Some("the controllers that were reached")
    }
}

/// Whether a side of a session was given these octets, and closed for sending where `end` stands behind them, and there alone.
fn is_given(reader: &mut Reader<'_>, left: &Left, session: u64, side: Side, spelled: &str) -> bool {
    let front = spelled.strip_suffix("end");
    let wanted = reader.octets(front.unwrap_or(spelled).trim());
    let mut given = Vec::new(reader.alloc);
    let mut ended = false;
    for told in left.links.told.iter() {
        match told {
            LinksTold::Of(number, Told::Took(to, piece)) if *number == session && *to == side => {
                reader.puts(piece, &mut given);
            }
            LinksTold::Of(number, Told::Finished(to)) if *number == session && *to == side => {
                ended = true;
            }
            _ => {}
        }
    }
    given.as_slice() == wanted.as_slice() && ended == front.is_some()
}

/// How many controllers were reached.
fn reached_in(left: &Left) -> usize {
    let mut reached = 0_usize;
    for told in left.links.told.iter() {
        if let LinksTold::Of(_, Told::Met(_)) = told {
            reached = reached.saturating_add(1);
        }
    }
    reached
}
