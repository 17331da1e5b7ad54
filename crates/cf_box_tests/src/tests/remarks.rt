//! What standard error says of work that was done, by how it ended: `box_main` tells that, over files of the machine, and `explain` is given
//! it and the files, as in the program.

use crate::tests::{field, same};
use cf_box::box_main;
use cf_help::{expect_files, explain};
use cf_machine::{Gather, RealFiles};
use cf_outside::{MemoryPair, MemorySink};
use cf_samples::rows::octets;
use cf_words::read_words;
use std::alloc::{Allocator, Global};
use std::cell::RefCell;
use std::fmt::{Display, Write};
use std::fs::{Metadata, OpenOptions};
use std::process::Abort;
use std::rt::Files;
use std::test::Fail;
use std::{fs, io};

/// A row has the words and the packets of the capture `c`, and then, by docs/COMMANDS.md and docs/RUN.md, the status, what was printed,
/// and what is said of it.
const ROWS: &str = "judge: no packet to the asset
words: judge p c
capture: X
gives
0 yes flows 0 commands 0
cmdwall: note: no connection to an asset of POLICY begins in CAPTURE: no SYN goes to an asset's address and port

judge: a command
words: judge p c
capture: S SA A W
gives
0 yes flows 1 commands 1

judge: a command without its SYN
words: judge p c
capture: W
gives
0 yes flows 0 commands 0
cmdwall: note: no connection to an asset of POLICY begins in CAPTURE: no SYN goes to an asset's address and port
cmdwall: note: 1 packets came without the SYN of their connection, and are not read: record from before it begins

judge: an objection, and a datagram that is dropped
words: judge p c
capture: S SA A N D
gives
15 no 4 10.0.0.5:49152 pump refused default point
cmdwall: note: 1 of 5 records dropped: no TCP, as UDP or ICMP; the first is record 5

review: no packet to the asset
words: review p c l
capture: X
gives
0 flows 0
commands 0
admitted 0
refused rule 0
refused default 0
refused station 0
refused form 0
strays 0
conflicts 0
broken 0
cmdwall: note: no connection to an asset of POLICY is in CAPTURE: neither a SYN nor data goes to an asset's address and port

review: a command
words: review p c l
capture: S SA A W
gives
0 flows 1
commands 1
admitted 1
refused rule 0
refused default 0
refused station 0
refused form 0
strays 0
conflicts 0
broken 0

review: an objection, and a datagram that is dropped
words: review p c l
capture: S SA A N D
gives
15 flows 1
commands 1
admitted 0
refused rule 0
refused default 1
refused station 0
refused form 0
strays 0
conflicts 0
broken 0
cmdwall: note: 1 of 5 records dropped: no TCP, as UDP or ICMP; the first is record 5

learn: no packet to the asset
words: learn p c o
capture: X
gives
0 ok 1 0
cmdwall: note: nothing is learned: no command that can be read goes to an asset of POLICY in a connection that begins in CAPTURE
cmdwall: o also allows what an intruder did while the capture was taken: read it before use

learn: a command
words: learn p c o
capture: S SA A W
gives
0 ok 1 1
cmdwall: note: pump: 10.0.0.5 sent 1 command in 1 connection
cmdwall: o also allows what an intruder did while the capture was taken: read it before use

packets: a datagram
words: packets c
capture: S D
gives
0 1 1.000000 10.0.0.5:49152 > 10.0.0.9:502 S seq 1000 ack 0 win 65535 len 0
2 1.001000 dropped nottcp
cmdwall: note: 1 of 2 records dropped: no TCP, as UDP or ICMP; the first is record 2

packets: a SYN
words: packets c
capture: S
gives
0 1 1.000000 10.0.0.5:49152 > 10.0.0.9:502 S seq 1000 ack 0 win 65535 len 0

packets: a datagram before the last lines
words: packets c
capture: D S SA A F
gives
0 1 1.000000 dropped nottcp
2 1.000000 10.0.0.5:49152 > 10.0.0.9:502 S seq 1000 ack 0 win 65535 len 0
3 1.002000 10.0.0.9:502 > 10.0.0.5:49152 SA seq 5000 ack 1001 win 65535 len 0
4 1.003000 10.0.0.5:49152 > 10.0.0.9:502 A seq 1001 ack 5001 win 65535 len 0
5 1.004000 10.0.0.5:49152 > 10.0.0.9:502 FA seq 1001 ack 5001 win 65535 len 0
cmdwall: note: 1 of 5 records dropped: no TCP, as UDP or ICMP; the first is record 1

check: a policy
words: check p
capture: S
gives
0 ok 1 1

check: a rule that an earlier one covers
words: check q
capture: S
gives
0 ok 1 2
cmdwall: q:13:1: warning: asset 1 \"pump\", rule 2 \"one\": it decides nothing: rule 1 \"set\" stands before it and has all that it has

check: no policy
words: check c
capture: S
gives
5 policy refused 1 - asset 0 rule 0
cmdwall: c: it begins as a capture does, and a policy is a text
  in the words of a command POLICY stands before CAPTURE, as cmdwall judge POLICY CAPTURE

compare: an act beyond
words: compare q p
capture: S
gives
15 no pump client 0.0.0.0 code 6 group 0 point 50 value -
cmdwall: q:8:1: asset 1 \"pump\", rule 1 \"set\" allows code 6 (write single register), group 0, point 50, without a value from 0.0.0.0
  p: asset 1 \"pump\": no allow rule with its client, code and group has the point, so default refuses it
  no command has this act: a comparison goes over all numbers that rules can name
  the first that a command has:
q:8:1: asset 1 \"pump\", rule 1 \"set\" allows code 6 (write single register), group 0, point 50, value 0 from 0.0.0.0
  p: asset 1 \"pump\": no allow rule with its client, code and group has the point, so default refuses it

compare: included
words: compare p q
capture: S
gives
0 included

compare: the second is no policy
words: compare p c
capture: S
gives
5 policy refused 1 - asset 0 rule 0
cmdwall: c: it begins as a capture does, and a policy is a text
  in the words of a command POLICY stands before CAPTURE, as cmdwall judge POLICY CAPTURE

sift: no asset of the name
words: sift p pomp 10.0.0.5 c o r l
capture: S
gives
10 unknown asset
cmdwall: p: it has no asset \"pomp\"; did you mean pump?
  it has pump

run: a session that closes
words: run p c o l
capture: S SA A F G L
gives
0 records 6
dropped 0
outside 0
full 0
sessions 1
admitted 0
refused 0
cuts 0

run: a session that does not
words: run p c o l
capture: S SA A
gives
0 records 3
dropped 0
outside 0
full 0
sessions 1
admitted 0
refused 0
cuts 0
cmdwall: note: 1 of 1 sessions never closed: the capture ends before they do, or has not all of their packets

run: a session that is cut
words: run p c o l
capture: S SA A R
gives
0 records 4
dropped 0
outside 0
full 0
sessions 1
admitted 0
refused 0
cuts 1

run: a datagram
words: run p c o l
capture: D
gives
0 records 1
dropped 1
outside 0
full 0
sessions 0
admitted 0
refused 0
cuts 0
cmdwall: note: 1 of 1 records dropped: no TCP, as UDP or ICMP; the first is record 1

run: a command behind a reset, and a datagram
words: run p c o l
capture: S SA A R W D
gives
0 records 6
dropped 1
outside 1
full 0
sessions 1
admitted 0
refused 0
cuts 1
cmdwall: note: 1 of 6 records dropped: no TCP, as UDP or ICMP; the first is record 6
cmdwall: note: 1 of 5 packets were of no session: they came without the SYN of their connection, behind a cut, long behind a closing, \
or for a session that was not begun

run: a packet to another port, and one without its SYN
words: run p c o l
capture: X W
gives
0 records 2
dropped 0
outside 2
full 0
sessions 0
admitted 0
refused 0
cuts 0
cmdwall: note: 1 of 2 packets came without the SYN of their connection: the capture begins amid it, or its SYN was dropped; record from \
before it begins
cmdwall: note: 1 of 2 packets did not go between a client and an asset of POLICY: neither end, or both, has an asset's address and port

run: one client too many
words: run p c o l
capture: S*257
gives
0 records 257
dropped 0
outside 0
full 1
sessions 256
admitted 0
refused 0
cuts 0
cmdwall: note: 1 of 257 packets would have begun a session while 256 others were open, and began none
cmdwall: note: 256 of 256 sessions never closed: the capture ends before they do, or has not all of their packets

sift: a stream that breaks
words: sift p pump 10.0.0.5 c o r l
capture:
gives
12 cut client protocol
cmdwall: the stream is cut; the outputs have what came before the cut";

const POLICY: &str = "version = 1
[[asset]]
name = \"pump\"
address = \"10.0.0.9\"
port = 502
protocol = \"modbus\"
station = 1
[[asset.rule]]
name = \"set\"
action = \"allow\"
codes = [6]
points = [\"40..49\"]
";

/// The same with a point more, and a rule that the other covers.
const WIDER: &str = "version = 1
[[asset]]
name = \"pump\"
address = \"10.0.0.9\"
port = 502
protocol = \"modbus\"
station = 1
[[asset.rule]]
name = \"set\"
action = \"allow\"
codes = [6]
points = [\"40..50\"]
[[asset.rule]]
name = \"one\"
action = \"allow\"
codes = [6]
points = [\"45\"]
";

/// The packets of a client, 10.0.0.5:49152, and of the controller to it, each with its checksums (RFC 791, RFC 9293): the opening, an
/// allowed write and a refused one, both FINs and the last ACK, a reset, an ACK to port 503, and a datagram of UDP.
const PACKETS: &str = "\
SA 4500002800004000400626c30a0000090a00000501f6c00000001388000003e95012ffffc25d0000
A 4500002800004000400626c30a0000050a000009c00001f6000003e9000013895010ffffc25e0000
W 4500003400004000400626b70a0000050a000009c00001f6000003e9000013895018ffffc0b10000000100000006010600280064
N 4500003400004000400626b70a0000050a000009c00001f6000003e9000013895018ffffc0a70000000100000006010600320064
F 4500002800004000400626c30a0000050a000009c00001f6000003e9000013895011ffffc25d0000
G 4500002800004000400626c30a0000090a00000501f6c00000001389000003ea5011ffffc25c0000
L 4500002800004000400626c30a0000050a000009c00001f6000003ea0000138a5010ffffc25c0000
R 4500002800004000400626c30a0000050a000009c00001f6000003e90000138950140000c25a0000
X 4500002800004000400626c30a0000050a000009c00001f7000003e9000013895010ffffc25d0000
D 4500001c00004000401126c40a0000050a000009c00001f600080000";

/// A SYN of the client before and behind its port, and behind its sum. Where the port is one higher, the sum is one lower (RFC 1071).
const OPENING: [&str; 3] = [
    "4500002800004000400626c30a0000050a000009",
    "01f6000003e8000000005002ffff",
    "0000",
];

/// The port and the sum of the first SYN.
const FIRST: [u16; 2] = [0xc000, 0xd5f6];

/// The header of a capture of raw IP, in microseconds.
const HEADER: &str = "d4c3b2a1020004000000000000000000 0000040065000000";

/// The machine, of which the files lie in a folder, and what is said on standard error is kept.
#[derive(Drop)]
struct Machine<'a> {
    rt: &'a HostRuntime,
    folder: String,
    said: RefCell<String>,
    /// The policies that were opened, in their order.
    opened: RefCell<String>,
}

impl Machine<'_> {
    /// Notes that a file is opened.
    fn note(&self, name: &str) -> io::Result<()> {
        if !is_policy(name) {
            return Ok(());
        }
        let Ok(mut opened) = self.opened.try_borrow_mut() else {
            return unasked();
        };
        opened.push_str(name)?;
        Ok(())
    }

    /// Where a file of this name lies.
    fn place_of(&self, name: &str) -> io::Result<String> {
        Ok(format!(in self.rt.alloc(); "{}/{name}", self.folder)?)
    }

    fn keep<D: Display + Drop>(&self, value: D, end: &str) -> io::Result<()> {
        let Ok(mut said) = self.said.try_borrow_mut() else {
            return unasked();
        };
        write!(&mut *said, "{value}{end}").map_err(|_| io::Error::from(io::ErrorKind::OutOfMemory))
    }
}

impl Alloc for Machine<'_> {
    type A = Global;

    fn alloc(&self) -> Global {
        self.rt.alloc()
    }
}

impl Eprint for Machine<'_> {
    fn eprint<D: Display + Drop>(&self, value: D) -> io::Result<()> {
        self.keep(value, "")
    }

    fn eprintln<D: Display + Drop>(&self, value: D) -> io::Result<()> {
        self.keep(value, "\n")
    }
}

fn is_policy(name: &str) -> bool {
    name == "p" || name == "q"
}

/// What no command asks of the machine.
fn unasked<T>() -> io::Result<T> {
    Err(io::Error::from(io::ErrorKind::Unsupported))
}

impl Files for Machine<'_> {
    type File = <HostRuntime as Files>::File;

    type Dir = <HostRuntime as Files>::Dir;

    fn open_file(&self, how: &OpenOptions, path: &str) -> io::Result<Self::File> {
        self.note(path)?;
        self.rt.open_file(how, self.place_of(path)?.as_str())
    }

    fn open_dir(&self, _path: &str) -> io::Result<Self::Dir> {
        unasked()
    }

    fn metadata(&self, path: &str) -> io::Result<Metadata> {
        self.rt.metadata(self.place_of(path)?.as_str())
    }

    fn symlink_metadata(&self, _path: &str) -> io::Result<Metadata> {
        unasked()
    }

    fn copy(&self, _from: &str, _to: &str) -> io::Result<u64> {
        unasked()
    }

    fn rename(&self, _from: &str, _to: &str) -> io::Result<()> {
        unasked()
    }

    fn remove_file(&self, _path: &str) -> io::Result<()> {
        unasked()
    }

    fn create_dir(&self, _path: &str) -> io::Result<()> {
        unasked()
    }

    fn remove_dir(&self, _path: &str) -> io::Result<()> {
        unasked()
    }

    fn remove_dir_all<B: Allocator>(&self, _alloc: B, _path: &str) -> io::Result<()> {
        unasked()
    }
}

/// The packet of a name, in digits.
fn digits_of(name: &str) -> &'static str {
    for line in PACKETS.lines() {
        if let Some((named, digits)) = line.split_once(' ') {
            if named == name {
                return digits;
            }
        }
    }
    ""
}

/// Adds the record of a packet, at some microseconds behind 1.000000.
fn push_record(alloc: Global, all: &mut Vec<u8>, micros: u32, digits: &str) -> Result<(), Fail> {
    let packet = octets(alloc, digits)?;
    let length = (packet.len() % (1 << 32)) as u32;
    for number in [1, micros, length, length] {
        all.extend_from_slice(&number.to_le_bytes())?;
    }
    Ok(all.extend_from_slice(packet.as_slice())?)
}

/// Adds openings, each from the next port.
fn push_openings(alloc: Global, all: &mut Vec<u8>, times: u16) -> Result<(), Fail> {
    let [before, between, behind] = OPENING;
    for place in 0..times {
        let port = FIRST[0].wrapping_add(place);
        let sum = FIRST[1].wrapping_sub(place);
        let digits = format!(in alloc; "{before}{port:04x}{between}{sum:04x}{behind}")?;
        push_record(alloc, all, u32::from(place), &digits)?;
    }
    Ok(())
}

/// Adds the packets of a row, each a millisecond after the one before; `S*N` are N openings, a microsecond apart.
fn push_packets(alloc: Global, all: &mut Vec<u8>, given: &str) -> Result<(), Fail> {
    let mut micros = 0u32;
    for word in given.split_whitespace() {
        match word.strip_prefix("S*") {
            Some(times) => push_openings(alloc, all, times.parse::<u16>()?)?,
            None if word == "S" => push_openings(alloc, all, 1)?,
            None => push_record(alloc, all, micros, digits_of(word))?,
        }
        micros = micros.saturating_add(1_000);
    }
    Ok(())
}

/// The capture of a row; of no packets a stream that breaks.
fn capture(alloc: Global, given: &str) -> Result<Vec<u8>, Fail> {
    if given.is_empty() {
        return Ok(octets(alloc, "0001 0001 0006")?);
    }
    let mut all = octets(alloc, HEADER)?;
    push_packets(alloc, &mut all, given)?;
    Ok(all)
}

/// The words of a row.
fn words_of(alloc: Global, given: &str) -> Result<Vec<String>, Fail> {
    let mut words = Vec::new(alloc);
    for word in given.split(' ') {
        words.push(String::from_str(alloc, word)?)?;
    }
    Ok(words)
}

/// The status of words, what they print, and what is said of it.
fn told(machine: &Machine<'_>, words: &[String]) -> Result<String, Fail> {
    let alloc = machine.alloc();
    let mut files = RealFiles::new(machine, alloc, Gather::Pieces);
    let is_expected = match read_words(words) {
        Some(command) => expect_files(&command, &mut files).is_ok(),
        None => false,
    };
    let mut out = MemorySink::new(alloc);
    let mut pair = MemoryPair::new(alloc);
    let mut told = None;
    let status = box_main(alloc, words, &mut files, &mut out, &mut pair, &mut told);
    let is_written = files.finish();
    explain(machine, words, told.as_ref(), status, &mut files, None);
    let mark = if is_expected && is_written {
        ""
    } else {
        "unwritten "
    };
    let printed = str::from_utf8(out.bytes.as_slice())
        .unwrap_or("")
        .trim_end();
    match machine.said.try_replace(String::new(alloc)) {
        Ok(said) => Ok(format!(in alloc; "{mark}{status} {printed}\n{said}")?),
        Err(_) => Err("a cell in use".into()),
    }
}

fn plays(rt: &impl Abort, machine: &Machine<'_>, row: &str) -> Result<(), Fail> {
    let (given, wanted) = row.split_once("\ngives\n").unwrap_or((row, ""));
    let octets = capture(machine.alloc(), field(given, "capture:"))?;
    fs::write(machine, "c", octets.as_slice())?;
    let words = words_of(machine.alloc(), field(given, "words:"))?;
    same(rt, given, told(machine, &words)?.trim_end(), wanted);
    let mut policies = String::new(machine.alloc());
    for word in words.iter().filter(|word| is_policy(word.as_str())) {
        policies.push_str(word.as_str())?;
    }
    match machine.opened.try_replace(String::new(machine.alloc())) {
        // What is said of a policy is made of what was read of it: it is opened once, as a pipe has to be.
        Ok(opened) => same(rt, given, opened.as_str(), policies.as_str()),
        Err(_) => return Err("a cell in use".into()),
    }
    Ok(())
}

/// A folder that was not there, below the one in which the test runs.
fn new_folder(rt: &HostRuntime) -> Result<String, Fail> {
    for number in 0..1_000 {
        let name = format!(in rt.alloc(); "cmdwall-remarks-{number}")?;
        if fs::create_dir(rt, name.as_str()).is_ok() {
            return Ok(name);
        }
    }
    Err("no folder".into())
}

#[test]
fn what_was_printed_is_remarked_on(rt: HostRuntime) -> Result<(), Fail> {
    let machine = Machine {
        rt: &rt,
        folder: new_folder(&rt)?,
        said: RefCell::new(String::new(rt.alloc())),
        opened: RefCell::new(String::new(rt.alloc())),
    };
    fs::write(&rt, machine.place_of("p")?.as_str(), POLICY)?;
    fs::write(&rt, machine.place_of("q")?.as_str(), WIDER)?;
    for row in ROWS.split("\n\n") {
        plays(&rt, &machine, row)?;
    }
    Ok(fs::remove_dir_all(&rt, machine.folder.as_str())?)
}
