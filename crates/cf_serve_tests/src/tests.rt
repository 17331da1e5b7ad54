//! Services over links and files in memory. A row is a block of lines; what it gives stands after the line `gives`, and what was found
//! is compared with it as text. What is wanted was written by hand, from the pages on the log and on the service.
ghost use Rattle.std.specs.Prelude.{◌≡◌, false, ℕ};
ghost use Rattle.cf_links.specs.MemoryLinks.{serves_in};
ghost use Rattle.cf_policy.specs.Site.{IsSiteWithin};
ghost use Rattle.cf_policy.specs.Within.{IsWithin};

mod door;
mod flood;
mod full;
mod logs;
mod minutes;
mod rates;
mod runs;
mod sessions;
mod set_back;
mod sites;

use cf_links::{LinksTold, MemoryClient, MemoryLinks};
use cf_outside::{Fail as Scripted, MemoryFiles, MemoryPair, Told};
use cf_policy::{Policy, Site, site_at, sites_are_whole};
use cf_policylang::read_policy;
use cf_samples::rows::{hex, octets};
use cf_serve::{Place, ServeFault, serve};
use cf_view::{Endpoint, Side};
use itoa::Buffer;
use std::alloc::Global;
use std::process::Abort;

/// An asset of each protocol.
const POLICY: &str = "version = 1
[[asset]]
name = \"pump\"
address = \"10.0.0.9\"
port = 502
protocol = \"modbus\"
station = 1
[[asset.rule]]
name = \"poll\"
action = \"allow\"
codes = [3]
[[asset.rule]]
name = \"set\"
action = \"allow\"
codes = [6, 16]
points = [\"40..49\"]
values = [\"0..500\"]
[[asset]]
name = \"rtu\"
address = \"10.0.0.10\"
port = 20000
protocol = \"dnp3\"
station = 10
master = 1
[[asset.rule]]
name = \"trip\"
action = \"allow\"
codes = [3, 4]
groups = [\"3073\"]
points = [\"0..3\"]
[[asset]]
name = \"sub\"
address = \"10.0.0.11\"
port = 2404
protocol = \"iec104\"
station = 1
[[asset.rule]]
name = \"switch\"
action = \"allow\"
codes = [45]
groups = [\"6\"]
points = [\"1000\"]
";

/// After how many seconds a session goes silent: ten answers in a row that nothing came or went.
const SECONDS: u32 = 5;

/// The moment of each round, in microseconds.
const CLOCK: u64 = 7_000_000;

/// A service that was run: its answer, its links, and its log.
#[derive(Drop)]
struct Run {
    answer: Result<(), ServeFault>,
    links: MemoryLinks,
    files: MemoryFiles,
}

/// Asserts that what was found is what a row wants.
fn same(rt: &impl Abort, row: &str, found: &str, wanted: &str) {
    assert!(rt; found == wanted, "{row}\nfound\n{found}\nwanted\n{wanted}");
}

/// Adds pieces to a text.
fn put(rt: &impl Abort, text: &mut String, pieces: &[&str]) {
    for piece in pieces {
        text.push_str(piece).expect(rt, "memory");
    }
}

/// What stands after a word at the front of a line of a row; nothing where no line begins so.
fn field<'a>(row: &'a str, word: &str) -> &'a str {
    for line in row.lines() {
        if let Some(rest) = line.strip_prefix(word) {
            return rest.trim_start();
        }
    }
    ""
}

/// Numbers with spaces between them; `5*63` is 63 times 5.
fn numbers(rt: &impl Abort, alloc: Global, text: &str) -> Vec<u64> {
    let mut numbers = Vec::new(alloc);
    for word in text.split_whitespace() {
        let (number, times) = word.split_once('*').unwrap_or((word, "1"));
        let number = number.parse::<u64>().expect(rt, word);
        for _ in 0..times.parse::<u32>().expect(rt, word) {
            numbers.push(number).expect(rt, "memory");
        }
    }
    numbers
}

/// The number of a field; 0 where the row has none.
fn number(row: &str, word: &str) -> u64 {
    field(row, word).parse::<u64>().unwrap_or(0)
}

/// The last octet of the address of a row's client.
fn host_of(row: &str) -> u64 {
    match number(row, "host:") {
        0 => 5,
        h => h,
    }
}

/// The client of a row, as the log names it.
fn name_of(rt: &impl Abort, alloc: Global, row: &str) -> String {
    let h = host_of(row);
    format!(in alloc; "10.0.0.{h}:49152").expect(rt, "memory")
}

/// An address 10.0.0.H, and a port.
fn host(h: u64, port: u16) -> Endpoint {
    Endpoint {
        address: 0x0A00_0000 | (h % 65_536) as u32,
        port,
    }
}

/// The pair of a row: what its client, 10.0.0.5 or `host:`, and its controller send, and its script. Its moment is 1 second where it has
/// none.
fn pair_of(rt: &impl Abort, alloc: Global, row: &str) -> MemoryPair {
    let mut pair = MemoryPair::new(alloc);
    pair.client = host(host_of(row), 49_152);
    pair.from_client = octets(alloc, field(row, "client:")).expect(rt, row);
    pair.from_controller = octets(alloc, field(row, "controller:")).expect(rt, row);
    pair.idle = numbers(rt, alloc, field(row, "idle:"));
    pair.moments = numbers(rt, alloc, field(row, "moments:"));
    set_moves(rt, alloc, row, &mut pair);
    pair
}

/// The moments, the sizes of moves, and the call that fails.
fn set_moves(rt: &impl Abort, alloc: Global, row: &str, pair: &mut MemoryPair) {
    if pair.moments.is_empty() {
        pair.moments.push(1_000_000).expect(rt, "memory");
    }
    for piece in numbers(rt, alloc, field(row, "pieces:")) {
        pair.pieces.push(piece as usize).expect(rt, "memory");
    }
    fail_at(rt, pair, number(row, "fails:"));
}

/// Has the call of this number fail; there is none of number 0.
fn fail_at(rt: &impl Abort, pair: &mut MemoryPair, call: u64) {
    pair.fails
        .push(Scripted { call, left: 0 })
        .expect(rt, "memory");
}

/// The client of a row, at the place of the site of its asset.
fn client_of(rt: &impl Abort, alloc: Global, row: &str) -> MemoryClient {
    let place = match field(row, "asset:") {
        "pump" => 0,
        "rtu" => 1,
        _ => 2,
    };
    let mut client = MemoryClient::new(place, pair_of(rt, alloc, row));
    client.waits = number(row, "waits:");
    client.gone = number(row, "gone:") == 1;
    client.wakes = number(row, "wakes:");
    client.rests = number(row, "rests:");
    client
}

/// Links of these clients, so many waits of which are answered.
fn links_of(
    alloc: Global,
    clients: Vec<MemoryClient>,
    rounds: u64,
    deaf: Option<u32>,
) -> MemoryLinks
    ensures free { (session : ℕ) → serves_in result session ≡ false }
{
    let mut links = MemoryLinks::new(alloc);
    links.clients = clients;
    links.clock = CLOCK;
    links.rounds = rounds;
    links.deaf = deaf;
    links
}

/// Files of which this call fails, and leaves so many bytes.
fn files_of(rt: &impl Abort, alloc: Global, fail: Option<Scripted>) -> MemoryFiles {
    let mut files = MemoryFiles::new(alloc);
    files.fails.extend(fail).expect(rt, "memory");
    files
}

/// The policy of all runs.
fn policy(rt: &impl Abort, alloc: Global) -> Policy
    ensures { IsWithin result }
{
    read_policy(alloc, POLICY.as_bytes()).expect(rt, "policy")
}

/// The site of the asset with a name.
fn site_named<'a>(rt: &impl Abort, policy: &'a Policy, name: &str) -> Site<'a>
    requires { IsWithin policy.now }
    ensures { IsSiteWithin result }
{
    sites_are_whole();
    let mut assets = policy.assets.as_slice().iter();
    let asset = assets
        .find(|asset| asset.name.as_str() == name)
        .expect(rt, name);
    site_at(policy.assets.as_slice(), &asset.endpoint).expect(rt, name)
}

/// Serves the sites of `pump`, `rtu` and `sub`, each of one asset, at 10.0.0.1, ports 5020 to 5022.
fn serve_three(
    rt: &impl Abort,
    alloc: Global,
    policy: &Policy,
    mut links: MemoryLinks,
    mut files: MemoryFiles,
) -> Run
    requires within { IsWithin policy.now }
    requires free { (session : ℕ) → serves_in links session ≡ false }
{
    let places = [
        Place {
            site: site_named(rt, policy, "pump"),
            at: host(1, 5020),
        },
        Place {
            site: site_named(rt, policy, "rtu"),
            at: host(1, 5021),
        },
        Place {
            site: site_named(rt, policy, "sub"),
            at: host(1, 5022),
        },
    ];
    let answer = serve(alloc, &places, SECONDS, "l", &mut links, &mut files);
    Run {
        answer,
        links,
        files,
    }
}

/// The answer of a run, all that the links told, and the log.
fn text_of(rt: &impl Abort, alloc: Global, run: &Run) -> String {
    let answer = &run.answer;
    let told = run.told(rt, alloc);
    let log = run.log();
    format!(in alloc; "{answer:?}\n{told}log\n{log}").expect(rt, "memory")
}

impl Run {
    /// The text of the log; nothing where there is none.
    fn log(&self) -> &str {
        match self.files.files.get("l") {
            Some(log) => str::from_utf8(log.as_slice()).unwrap_or("no text"),
            None => "",
        }
    }

    /// What was given in answers of this word of a session, and `end` where there is one of the other word.
    fn put_given(
        &self,
        rt: &impl Abort,
        session: u64,
        took: &str,
        finished: &str,
        text: &mut String,
    ) {
        let mut given = Vec::new(*text.allocator());
        let mut is_ended = false;
        for entry in self.links.told.iter() {
            let told = told_of(entry);
            if told.number == session && told.word == took {
                given.extend_from_slice(told.bytes).expect(rt, "memory");
            }
            if told.number == session && told.word == finished {
                is_ended = true;
            }
        }
        put_octets(rt, &given, text);
        put(rt, text, &[if is_ended { " end" } else { "" }]);
    }

    /// All that the links told, each answer in a line: the number of its session or place, or the moment, a word, and its bytes.
    fn told(&self, rt: &impl Abort, alloc: Global) -> String {
        let mut text = String::new(alloc);
        for entry in self.links.told.iter() {
            let told = told_of(entry);
            let mut number = Buffer::new();
            put(rt, &mut text, &[number.format(told.number), " ", told.word]);
            put_octets(rt, told.bytes, &mut text);
            put(rt, &mut text, &["\n"]);
        }
        text
    }
}

/// Adds octets in digits behind a space, if there are some.
fn put_octets(rt: &impl Abort, octets: &[u8], text: &mut String) {
    if !octets.is_empty() {
        let digits = hex(*text.allocator(), octets).expect(rt, "memory");
        put(rt, text, &[" ", &digits]);
    }
}

/// An answer of the links: the number of its session or place, or the moment; its word; and its bytes.
#[derive(Clone, Copy)]
struct Answer<'a> {
    number: u64,
    word: &'static str,
    bytes: &'a [u8],
}

fn told_of(entry: &LinksTold) -> Answer<'_> {
    let (number, word) = match entry {
        LinksTold::Opened(place, _) => (u64::from(*place), "opened"),
        LinksTold::Woke(moment) => (*moment, "woke"),
        LinksTold::Came(session, _, _) => (*session, "came"),
        LinksTold::Ready(session) => (*session, "ready"),
        LinksTold::Left(session) => (*session, "left"),
        LinksTold::Of(session, told) => return answer_of(*session, told),
    };
    Answer {
        number,
        word,
        bytes: &[],
    }
}

fn answer_of(number: u64, told: &Told) -> Answer<'_> {
    let (word, bytes) = match told {
        Told::Met(_) => ("met", b"".as_slice()),
        Told::Moment(_) => ("moment", b"".as_slice()),
        Told::Got(side, bytes) => (
            of_side(*side, "got client", "got controller"),
            bytes.as_slice(),
        ),
        Told::Took(side, bytes) => (
            of_side(*side, "took client", "took controller"),
            bytes.as_slice(),
        ),
        Told::End(side) => (
            of_side(*side, "end client", "end controller"),
            b"".as_slice(),
        ),
        Told::Idle(side) => (
            of_side(*side, "idle client", "idle controller"),
            b"".as_slice(),
        ),
        Told::Finished(side) => (
            of_side(*side, "finished client", "finished controller"),
            b"".as_slice(),
        ),
    };
    Answer {
        number,
        word,
        bytes,
    }
}

fn of_side(side: Side, client: &'static str, controller: &'static str) -> &'static str {
    match side {
        Side::Client => client,
        Side::Controller => controller,
    }
}
