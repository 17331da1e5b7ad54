//! What `--help` and `--version` print.

use crate::source::{DATE, SOURCE};
use std::alloc::Global;
use std::io;

/// The program's version, by Cargo's rules.
const VERSION: &str = "0.2.0";

const HELP: &str = "\
cmdwall: a firewall for the commands of Modbus TCP, DNP3 and IEC 60870-5-104

usage:
  cmdwall sift POLICY ASSET CLIENT STREAM OUT REPLIES LOG
      filters a stored stream of one client: OUT gets what the controller of ASSET would
      get, REPLIES what the client would get, LOG a line for each refused command, and for
      each admitted one that a rule with a log allows
  cmdwall run POLICY CAPTURE OUT LOG
      runs a policy over a capture of what reached the box: OUT gets the packets that the
      box sends, LOG a line for each session that begins, ends or is cut, for each refused
      command, and for each admitted one that a rule with a log allows
  cmdwall relay POLICY ASSET PORT IDLES LOG
      stands between one client, which comes to PORT of this machine, and the controller of
      ASSET: what the policy refuses is answered and does not go on
  cmdwall serve POLICY SECONDS LOG NAME=A.B.C.D:PORT..
      serves the clients that come to each place, until it is ended: each is a relay to the
      controller of the asset NAME; a client that no rule of it allows is closed at once
  cmdwall world SEED SESSIONS POLICY CAPTURE OUT LOG
      makes a policy and a capture of many sessions from a number, and runs the one over the
      other
  cmdwall check POLICY
      reads a policy, and prints its numbers of assets and of all rules
  cmdwall compare POLICY OTHER
      says whether POLICY allows only what OTHER allows, and else prints the first act that
      it allows beyond
  cmdwall learn POLICY CAPTURE OUT
      writes a policy with the assets of POLICY that allows exactly what clients sent them in
      a capture; read it before use
  cmdwall draft POLICY OUT CAPTURE..
      writes a first policy with the assets of POLICY, in few rules, that allows all that
      clients sent them in 1 to 64 captures; read it before use
  cmdwall migrate POLICY OUT
      writes a policy as a document of version 2, or of version 3 where that alone can state
      it, in which lists of points that several rules have stand once, as sets: OUT means
      exactly what POLICY means
  cmdwall packets CAPTURE
      prints a line for each record of a capture: the fields of its TCP segment over IPv4,
      or why it has none
  cmdwall judge POLICY CAPTURE
      says whether what clients sent to the assets in a capture keeps POLICY, whoever recorded
      it, and else prints the first record with which something is wrong
  cmdwall review POLICY CAPTURE.. LOG
      writes a line for all that POLICY objects to in what clients sent in 1 to 64 captures:
      each command that it refuses, and all else with which something is wrong
  cmdwall help COMMAND
      says more of one command, with an example
  cmdwall --help
  cmdwall --version

CLIENT is an IPv4 address, as 10.0.0.5. POLICY and OTHER are texts in the policy language
(docs/POLICY.md). CAPTURE is a pcap or pcapng file, of Ethernet or raw IP. OUT, REPLIES and
LOG are created, by world POLICY and CAPTURE too; serve goes on with LOG. All names of files
differ.

status:
   0  the work was done to the end of its input
   2  the words have none of these forms
   3  a file could not be read
   4  a file or standard output could not be written
   5  the policy's text means no policy; what is printed names the place
   6  the capture is refused: 1 it is short, 2 its magic, 3 its version, 4 its link type,
      5 a record of more than 262,144 bytes, 6 a moment of 2^32 seconds or more, 7 a byte
      at place 2^40, 9 the length of a pcapng block or what stands in it, 10 a section
      header, 11 an interface, 12 a unit of time; and for judge and learn 8 more than
      67,108,864 bytes
   7  the capture ends inside the record or the block that begins at the printed place
   8  the port, the client or the controller of a relay failed; or a place of serve cannot be
      listened at, or its wait or clock failed
   9  so many turns of a relay came in which nothing moved that it ended
  10  the policy has no asset of that name
  12  a stream is cut, for the printed reason
  13  memory ran out
  15  POLICY allows what OTHER does not: the asset that OTHER lacks or the act is printed;
      or CAPTURE does not keep POLICY: judge prints the first objection, review counts them
  16  CAPTURE of learn or draft shows so much of the printed asset that it would have more
      than 1,024 rules
  17  the rules of the printed asset are too many to compare
";

const SIFT: &str = "\
cmdwall sift POLICY ASSET CLIENT STREAM OUT REPLIES LOG

filters a stored stream of one client

  POLICY   a text in the policy language (docs/POLICY.md)
  ASSET    the name of the asset in it to which the stream goes; of several behind one address
           and port any of their names, and each command is for the one of its station
  CLIENT   the client's IPv4 address, as the rules' clients name it
  STREAM   the bytes that the client sends
  OUT      is created, and gets what the controller would get: the commands that the policy
           allows, as they came
  REPLIES  is created, and gets what the client would get of the box: a reply for each
           command that is refused
  LOG      is created, and gets a line for each refused command

All names of files differ. Standard output has the numbers of admitted and refused commands.

examples, the second with a rule that says how often:
  cmdwall sift examples/pump.toml pump 10.0.0.5 examples/requests.bin out.bin replies.bin log.txt
  cmdwall sift examples/paced.toml tank 10.0.0.5 examples/openings.bin out.bin replies.bin log.txt
";

const CHECK: &str = "\
cmdwall check POLICY

reads a policy, and prints 'ok' with its numbers of assets and of all rules

  POLICY   a text in the policy language (docs/POLICY.md), at most 4,194,304 bytes

A policy that is refused has status 5, 'policy refused N KEY asset A rule R' on standard
output, and on standard error the file with line and column, what is wrong, and what is
allowed. A policy that is read has status 0, and on standard error a warning for each set
that no rule names or that has the points of another, each rule that no command meets, each
code of a rule that none brings, each rule that an earlier one covers, and each asset without
a rule that allows; in version 3 also a note for each asset with rules that allow more than
reads and have no log.

example:
  cmdwall check examples/pump.toml
";

const COMPARE: &str = "\
cmdwall compare POLICY OTHER

says whether POLICY allows only what OTHER allows, for every client and every act, also one
that no command has

  POLICY   a text in the policy language (docs/POLICY.md)
  OTHER    another

Standard output has 'included', with status 0; or, with status 15, 'no' and the first asset of
POLICY that OTHER does not have with the same address, port, protocol, station and master, or
the first client and act that POLICY allows there and OTHER refuses; or, with status 17, 'too
many cells' and the asset. Standard error has the rule that allows the act, and what refuses
it. How often a rule lets commands through plays no part, nor does its log; where 'included'
is printed, standard error has the rules whose rates or logs differ.

examples, of which the first prints an act and the second 'included':
  cmdwall compare examples/pump.toml examples/pump-narrow.toml
  cmdwall compare examples/pump-narrow.toml examples/pump.toml
";

const LEARN: &str = "\
cmdwall learn POLICY CAPTURE OUT

writes a policy that allows exactly what a capture shows

  POLICY    a text in the policy language (docs/POLICY.md) with the assets; its rules play no part
  CAPTURE   a pcap or pcapng file of at most 67,108,864 bytes, of Ethernet or raw IP
  OUT       is created behind all else, and gets the policy: for each asset the rules r1, r2 and
            so on, each for one client, code and group, with the points and the value

The three names differ. What counts are the commands with the right station and form in the
streams that clients sent to an asset, each from its SYN on. Standard output has 'ok' with the
numbers of assets and of all rules, as check has it, or with status 16 'too many rules' and the
asset that would have more than 1,024.

A learned policy also allows what an intruder did while the capture was taken: read it before
use (docs/POLICY.md, 'From a recording to a policy').

example:
  cmdwall world 7 3 world.toml world.pcap out.pcap out.log
  cmdwall learn world.toml world.pcap learned.toml
";

const DRAFT: &str = "\
cmdwall draft POLICY OUT CAPTURE..

writes a first policy that allows what captures show, as a person would have written it

  POLICY    a text in the policy language (docs/POLICY.md) with the assets; its rules play no part
  OUT       is created behind all else, and gets the policy, of version 3
  CAPTURE   1 to 64 pcap or pcapng files in the order in which they were recorded, of Ethernet,
            raw IP or Linux cooked, which are read as one recording, as review reads them

All names differ. A rule has all codes, groups, points, values and clients that belong together.
Above it stands how many commands it would have let through, from when to when (UTC), and how the
last of them began. Rules that write stand first, and of these the rare ones. Standard output has
'ok', the numbers of assets and of all rules, and 'widened' with the number of assets that allow
more than the captures show: those that would have had more than 32 rules. They have the span of
the values seen, then that of the points, and then clients of one code share these.

A draft also allows what an intruder did while the captures were taken: read it before use
(docs/REVIEW.md, 'Observe first').

example:
  cmdwall world 7 3 world.toml world.pcap out.pcap out.log
  cmdwall draft world.toml draft.toml world.pcap
";

const MIGRATE: &str = "\
cmdwall migrate POLICY OUT

writes a policy as a document of version 2, or of version 3 where a rule has a log or several
assets have one address and port, that means exactly the same

  POLICY   a text in the policy language (docs/POLICY.md), of any version
  OUT      is created behind all else, and gets the document: each list of points that two
           rules have at least is a set, the first 64 of them, named set1, set2 and so on

The two names differ. Comments and layout of POLICY are not kept. Standard output has 'ok'
with the numbers of assets and of all rules, as check has it.

examples, of which the second prints 'included':
  cmdwall migrate examples/waterworks.toml new.toml
  cmdwall compare examples/waterworks.toml new.toml
";

const JUDGE: &str = "\
cmdwall judge POLICY CAPTURE

says whether what clients sent to the assets of POLICY in a capture keeps POLICY: the OUT of
any box, or a recording of a line without one

  POLICY   a text in the policy language (docs/POLICY.md)
  CAPTURE  a pcap or pcapng file, of Ethernet or raw IP, of at most 67,108,864 bytes

A flow is what one client sends to the address and port of an asset, from a SYN in the capture
on; packets before it are not used. Where several assets have them, each command is judged by
the one of its station. Standard output has 'yes', with the numbers of flows and of commands
that POLICY allows, with status 0; or, with status 15, 'no' and the first objection: the number
of its record, the client, the asset, and one of

  conflict POSITION     two packets carry different bytes at one position of the flow
  broken WHY            the bytes are no units of the protocol
  refused RULE REASON   a command that POLICY refuses
  stray WHY             a frame, segment or fragment of DNP3 that belongs to nothing

How often a rule lets commands through plays no part, nor do the numbers of IEC 60870-5-104.
Nothing is judged where the capture is refused or cut.

example:
  cmdwall judge examples/pump.toml examples/four.pcap
";

const REVIEW: &str = "\
cmdwall review POLICY CAPTURE.. LOG

writes all that POLICY objects to in what clients sent to its assets in a recording, a line each
(docs/REVIEW.md): what a box with POLICY would have met there

  POLICY   a text in the policy language (docs/POLICY.md)
  CAPTURE  1 to 64 pcap or pcapng files, of Ethernet, raw IP or 'tcpdump -i any', in the order in
           which they were recorded: a flow goes on from one to the next
  LOG      is created behind all else, and gets the lines, in the order of the records

All names differ. A flow is what one client sends to the address and port of an asset, from a
SYN on, or from its first data in the captures on; where several assets have them, each command
is judged by the one of its station. VLAN tags are passed over, and a TCP sum of the pseudo header
alone, as a sending host records it, counts as right. Each line has the moment of the record
with which the thing was whole, the client, the asset, and one of

  refuse RULE REASON code C group G point X value V unanswered HEX   (docs/LOG.md)
  stray client WHY      a frame, segment or fragment of DNP3 that belongs to nothing
  broken WHY            the bytes are no units of the protocol; the flow is read up to here
  conflict POSITION     two packets carry different bytes at one position of the flow
  begins midstream      the SYN of the flow is not in the captures; it is read from the first place
                        on at which a unit of the protocol begins
  gap POSITION          the flow's first bytes end here, as where a packet was not recorded, and
                        it has others, which are read so too; one line a flow

Standard output has the numbers of flows, of commands, of those that POLICY allows and refuses,
by what refuses them, of strays and conflicts, and of flows that are broken. The status is 0
where there is no line, and 15 where there is one. How often a rule lets commands through plays no part, nor do the numbers of
IEC 60870-5-104. Nothing is written where a capture is refused or cut.

example:
  cmdwall review examples/pump.toml examples/four.pcap log.txt
";

const PACKETS: &str = "\
cmdwall packets CAPTURE

prints a line for each record of a capture: its number and moment, and the fields of its TCP
segment over IPv4, or why it has none

  CAPTURE  a pcap or pcapng file, of Ethernet or raw IP

'editcap -F pcap IN OUT' writes other captures as pcap. Where many records are dropped for
'badsum' or 'badtcpsum', the capture was made on the machine that sent them, and its card
filled the checksums in later: record with 'ethtool -K INTERFACE tx off', or on another machine.

example:
  cmdwall packets examples/four.pcap
";

const RUN: &str = "\
cmdwall run POLICY CAPTURE OUT LOG

runs a policy over a capture of what reached the two ports of the box

  POLICY   a text in the policy language (docs/POLICY.md)
  CAPTURE  a pcap or pcapng file, of Ethernet or raw IP
  OUT      is created, and gets the packets that the box sends, as a capture
  LOG      is created, and gets a line for each session that begins, closes or is cut, and for
           each refused command (docs/LOG.md)

All names of files differ. Standard output has what was counted: records, those dropped, those
of no session, those for which the table was full, sessions, commands admitted and refused,
sessions cut.

CAPTURE has what reached the box: the packets of clients and controllers as they came to its two
ports. In a recording from between two hosts, or of one of them, they acknowledge what the box
would not have sent, so that little of it counts: 'review' is the command for a recording.

Standard error says what cannot be known of CAPTURE, in lines 'cmdwall: note: ..' behind the
counts: segments that acknowledge what the box had not sent, or stand beyond its window, and
in how many sessions; sessions that never closed; packets without the SYN of their connection;
records dropped, by reason (docs/RUN.md). All four names are those of files then, not of pipes.

example:
  cmdwall run examples/waterworks.toml examples/waterworks.pcap out.pcap log.txt
";

const RELAY: &str = "\
cmdwall relay POLICY ASSET PORT IDLES LOG

stands between a client and the controller of an asset: one client, which comes to PORT of
127.0.0.1, and one connection to the asset's address and port (docs/SERVE.md)

  POLICY   a text in the policy language (docs/POLICY.md)
  ASSET    the name of the asset in it; of several behind one address and port any of their
           names, and each command is for the one of its station
  PORT     the port at which the client is awaited, 1 to 65535
  IDLES    how many turns in which nothing moves end the relay, 1 to 1000000. Such a turn lasts
           5 milliseconds, so 12000 are a minute; it takes twice as many once one side has
           ended
  LOG      is created, and gets a line as the session begins and closes or is cut, and for each
           refused command; each stands in the file as soon as it is written (docs/LOG.md)

Standard error has where it listens and to whom it connects. When both sides have ended,
standard output has the numbers of admitted and refused commands.

example:
  cmdwall relay examples/pump.toml pump 5020 12000 log.txt
";

const SERVE: &str = "\
cmdwall serve POLICY SECONDS LOG NAME=A.B.C.D:PORT..

serves clients until it is ended: each that comes to a place gets a session of its own with the
controller of the asset, as in relay (docs/SERVE.md)

  POLICY   a text in the policy language (docs/POLICY.md)
  SECONDS  after about how long a session in which nothing moves ends, 2 to 1000000
  LOG      is gone on with, and made where it is not there, also once it is renamed away; it
           gets a line as each session begins and ends, for each refused command, and before it
           goes out for each admitted one that a rule with a log allows (docs/LOG.md)
  NAME=A.B.C.D:PORT
           an asset of the policy, and an address and a port of this machine at which its
           clients come; 0.0.0.0 is every address. One to 256 such words, no asset and no place
           twice; of several assets behind one address and port one, whose place is that of all

At most 256 sessions stand at a time, and 32 of one place; further clients are closed. A client
that no rule of its assets allows anything is closed as it comes. A line that cannot be appended
ends the service: no command goes out behind a line that could not be written. Standard error
has where it listens, and what the system said of each connection that failed; a line that it
does not take at once is dropped and counted, so that no session waits for it.

example:
  cmdwall serve examples/pump.toml 300 log.txt pump=127.0.0.1:5020
";

const WORLD: &str = "\
cmdwall world SEED SESSIONS POLICY CAPTURE OUT LOG

makes a large valid input from a number, and runs it: a policy of three assets, one of each
protocol, and a capture of sessions with them, in which segments come late, twice, in pieces,
out of order or changed

  SEED     a number of 64 bits, which decides what becomes of the segments
  SESSIONS how many there are, 1 to 200; each sends fifteen commands, of which the policy
           allows ten
  POLICY   is created, and gets the policy
  CAPTURE  is created, and gets the capture
  OUT      is created, and gets the packets that the box sends, as a capture
  LOG      is created, and gets the lines of the log (docs/LOG.md)

All names of files differ. The same numbers make the same files. Standard output is that of
run.

example:
  cmdwall world 7 30 policy.toml in.pcap out.pcap log.txt
";

/// What the words ask of `main` itself.
pub enum Asked {
    Help,
    HelpOf(Topic),
    Version,
    /// All else.
    Work,
}

/// The commands that help says more of.
#[derive(Clone, Copy, PartialEq, Eq)]
pub enum Topic {
    Sift,
    Check,
    Compare,
    Learn,
    Draft,
    Migrate,
    Packets,
    Judge,
    Review,
    Run,
    Relay,
    Serve,
    World,
}

/// What the words ask of `main`: the text of help, also with a command before or after that word, or the version.
pub fn question_of(words: &[String]) -> Asked {
    match words {
        [word] => question_alone(word.as_str()),
        [first, second] => {
            let named = if first.as_str() == "help" {
                topic_of(second.as_str())
            } else if is_help(second.as_str()) {
                topic_of(first.as_str())
            } else {
                None
            };
            match named {
                Some(topic) => Asked::HelpOf(topic),
                None => Asked::Work,
            }
        }
        _ => Asked::Work,
    }
}

fn question_alone(word: &str) -> Asked {
    if word == "help" || is_help(word) {
        Asked::Help
    } else if is_version(word) {
        Asked::Version
    } else {
        Asked::Work
    }
}

fn is_help(word: &str) -> bool {
    word == "--help" || word == "-h"
}

fn is_version(word: &str) -> bool {
    word == "--version" || word == "-V" || word == "-v" || word == "version"
}

fn topic_of(word: &str) -> Option<Topic> {
    match word {
        "sift" => Some(Topic::Sift),
        "check" => Some(Topic::Check),
        "compare" => Some(Topic::Compare),
        "learn" => Some(Topic::Learn),
        "draft" => Some(Topic::Draft),
        "migrate" => Some(Topic::Migrate),
        "packets" => Some(Topic::Packets),
        "judge" => Some(Topic::Judge),
        "review" => Some(Topic::Review),
        "run" => Some(Topic::Run),
        "relay" => Some(Topic::Relay),
        "serve" => Some(Topic::Serve),
        "world" => Some(Topic::World),
        _ => None,
    }
}

/// Prints the help.
pub fn print_help(rt: &impl Print) -> io::Result<()> {
    print!(rt; "{HELP}")
}

/// Prints the help on one command.
pub fn print_topic(rt: &impl Print, topic: Topic) -> io::Result<()> {
    let text = match topic {
        Topic::Sift => SIFT,
        Topic::Check => CHECK,
        Topic::Compare => COMPARE,
        Topic::Learn => LEARN,
        Topic::Draft => DRAFT,
        Topic::Migrate => MIGRATE,
        Topic::Packets => PACKETS,
        Topic::Judge => JUDGE,
        Topic::Review => REVIEW,
        Topic::Run => RUN,
        Topic::Relay => RELAY,
        Topic::Serve => SERVE,
        Topic::World => WORLD,
    };
    print!(rt; "{text}")
}

/// Prints the program's name and version, the day of its source and the first digits of that source's sum.
pub fn print_version(rt: &impl Print) -> io::Result<()> {
    println!(rt; "cmdwall {VERSION} ({DATE}, source {SOURCE})")
}

/// The same, as a service says it.
pub(crate) fn version_text(alloc: Global) -> io::Result<String> {
    Ok(format!(in alloc; "version {VERSION} ({DATE}, source {SOURCE})")?)
}
