//! What is said of words, captures, outputs and assets.
use cf_explain::{
    asset_message, capture_message, outputs_message, own_endpoint_message, same_site_message,
    words_message,
};
use cf_outside::MemoryFiles;
use cf_policylang::read_policy;
use cf_samples::rows::octets;
use cf_view::LinkSet;
use std::alloc::Global;
use std::test::Fail;

/// A row: words, apart by spaces (`-` is an empty one), and what is said of them.
pub(super) const WORDS: &str = r#"
there are no words; a first one names the command
  commands are sift, check, compare, learn, draft, migrate, packets, judge, review, run, relay, serve, world; 'cmdwall --help' says more

chek p
"chek" is no command; did you mean check?
  commands are sift, check, compare, learn, draft, migrate, packets, judge, review, run, relay, serve, world; 'cmdwall --help' says more

help juge
"juge" is no command; did you mean judge?
  commands are sift, check, compare, learn, draft, migrate, packets, judge, review, run, relay, serve, world; 'cmdwall --help' says more

filter p
"filter" is no command
  commands are sift, check, compare, learn, draft, migrate, packets, judge, review, run, relay, serve, world; 'cmdwall --help' says more

check
check takes 1 word, and has 0
  cmdwall check POLICY

sift p a 10.0.0.5 s o r
sift takes 7 words, and has 6
  cmdwall sift POLICY ASSET CLIENT STREAM OUT REPLIES LOG

packets -
the name of CAPTURE is empty
  cmdwall packets CAPTURE

sift p a 10.0.0.256 s o r l
CLIENT is "10.0.0.256", no IPv4 address as 10.0.0.5: one of its four numbers is not from 0 to 255
  cmdwall sift POLICY ASSET CLIENT STREAM OUT REPLIES LOG

sift p a client s o r l
CLIENT is "client", no IPv4 address as 10.0.0.5: it has not four numbers
  cmdwall sift POLICY ASSET CLIENT STREAM OUT REPLIES LOG

sift p 10.0.0.5 a s o r l
CLIENT is "a", no IPv4 address as 10.0.0.5: it has not four numbers; ASSET is "10.0.0.5": are the two exchanged?
  cmdwall sift POLICY ASSET CLIENT STREAM OUT REPLIES LOG

relay p 5020 a 12000 l
PORT is "a", no whole number from 1 to 65535; ASSET is "5020": are the two exchanged?
  cmdwall relay POLICY ASSET PORT IDLES LOG

sift p s 10.0.0.5 s o r o
OUT and LOG are both "o", and each file has a name of its own
  cmdwall sift POLICY ASSET CLIENT STREAM OUT REPLIES LOG

run p p o l
POLICY and CAPTURE are both "p", and each file has a name of its own
  cmdwall run POLICY CAPTURE OUT LOG

relay p a 0 1 l
PORT is "0", no whole number from 1 to 65535
  cmdwall relay POLICY ASSET PORT IDLES LOG

relay p a 5020 01 l
IDLES is "01", no whole number from 1 to 1000000
  cmdwall relay POLICY ASSET PORT IDLES LOG

world 18446744073709551616 1 p c o l
SEED is "18446744073709551616", no whole number from 0 to 18446744073709551615
  cmdwall world SEED SESSIONS POLICY CAPTURE OUT LOG

world 1 201 p c o l
SESSIONS is "201", no whole number from 1 to 200
  cmdwall world SEED SESSIONS POLICY CAPTURE OUT LOG"#;

/// What is said of words.
pub(super) fn words(alloc: Global, line: &str) -> Result<String, Fail> {
    let mut words = Vec::new(alloc);
    for word in line.split_whitespace() {
        let text = if word == "-" { "" } else { word };
        words.push(String::from_str(alloc, text)?)?;
    }
    Ok(words_message(alloc, words.as_slice())?)
}

/// A row: a command, the octets of its capture (`-` where no file is there), and what is said of them. The command `packets` gives
/// the records no moments, and so refuses none for its own.
pub(super) const CAPTURES: &str = r#"run d4c3b2a1 02000400 0000000000000000ffff0000 01000000
nothing

run d4c3b2a1 02000400
c: it has fewer than 24 bytes, and so is no capture

run 0a0d0d0a 1c000000 4d3c2b1a01000000ffffffff ffffffff
c: it has fewer than 28 bytes, and so is no pcapng capture

run 0a0d0d0a 1c000000 4d3c2b1a02000000ffffffff ffffffff 1c000000
c: it begins as a pcapng capture, but the byte order of its section header is not known, or its version is not 1

run 0a0d0d0a 1c000000 4d3c2b1a01000000ffffffff ffffffff 1c000000
nothing

run 0a0d0d0a 1c000000 4d3c2b1a01000000ffffffff ffffffff 1d000000
c: the block at byte 0, behind 0 records, has a length that is not allowed, another one at its end, or a packet that does not fit it

run 0a0d0d0a 1c000000 4d3c2b1a01000000ffffffff ffffffff 1c000000 06000000 20000000 00000000 00000000 07000000 00000000 00000000 20000000
c: the block at byte 28, behind 0 records, has a packet of interface 0, which its section does not describe

run 0a0d0d0a 1c000000 4d3c2b1a01000000ffffffff ffffffff 1c000000 01000000 14000000 01000000 00000400 14000000 01000000 14000000 71000000 00000400 14000000 06000000 20000000 00000000 00000000 07000000 00000000 00000000 20000000 06000000 20000000 01000000 00000000 07000000 00000000 00000000 20000000
c: the block at byte 100, behind 1 record, has a packet of interface 1, whose link type is 113 (Linux cooked, that of '-i any'); only 1 (Ethernet) and 101 (raw IP) are read
  'tshark -r IN -Y "frame.interface_id == 0" -w OUT' writes the packets of interface 0
  'editcap -F pcap IN OUT' writes the records before it

packets 0a0d0d0a 0000001c 1a2b3c4d00010000ffffffff ffffffff 0000001c 00000001 0000001c 00010000 00040000 000900010a000000 0000001c 00000006 00000020 00000000 00000000 00000007 00000000 00000000 00000020
c: the block at byte 56, behind 0 records, has a packet of an interface whose unit of time is no power of ten from a second to a nanosecond
  'editcap -F pcap IN OUT' writes its times in microseconds

packets 0a0d0d0a 1c000000 4d3c2b1a01000000ffffffff ffffffff 1c000000 03000000 14000000 00
c: the file ends inside the block at byte 28, behind 0 records

run 1f8b0800 00000000 000000000000000000000000 00000000
c: it is compressed
  'gunzip' writes it as it was

run 00000000 02000400 0000000000000000ffff0000 01000000
c: it does not begin as a pcap file
  'editcap -F pcap IN OUT' writes other captures as pcap

run 76657273696f6e203d20310a 5b5b61737365745d5d0a 6e61
c: it begins as a text does, and not as a capture
  in the words of a command CAPTURE stands behind POLICY, as cmdwall judge POLICY CAPTURE

run d4c3b2a1 02000300 0000000000000000ffff0000 01000000
c: its version is not 2.4
  'editcap -F pcap IN OUT' writes a capture of this version

run d4c3b2a1 02000400 0000000000000000ffff0000 71000000
c: its link type is 113 (Linux cooked, that of '-i any'), and only 1 (Ethernet) and 101 (raw IP) are read
  'cmdwall review' reads it; for others capture on one interface, as 'tcpdump -i eth0 -w OUT'

run d4c3b2a1 02000400 0000000000000000ffff0000 e4000000
c: its link type is 228 (raw IPv4), and only 1 (Ethernet) and 101 (raw IP) are read
  'editcap -F pcap -T rawip IN OUT' writes it as raw IP

run a1b2c3d4 00020004 00000000000000000000ffff 54000001
c: its link type is 1409286145 (Ethernet with a frame check sequence), and only 1 (Ethernet) and 101 (raw IP) are read
  'editcap -F pcap -T ether IN OUT' writes it as Ethernet

run d4c3b2a1 02000400 0000000000000000ffff0000 01000000 0000000000000000 02000000 02000000 abcd
nothing

run d4c3b2a1 02000400 0000000000000000ffff0000 01000000 0000000000000000 02000000 02000000 abcd 00
c: the file ends inside record 2, which begins at byte 42
  'editcap -F pcap IN OUT' writes the records before it

run d4c3b2a1 02000400 0000000000000000ffff0000 01000000 0000000000000000 03000000 03000000 abcd
c: the file ends inside record 1, which begins at byte 24

run d4c3b2a1 02000400 0000000000000000ffff0000 01000000 0000000000000000 02000000 02000000 abcd 0000000000000000 01000400 01000400
c: record 2, which begins at byte 42, has more than 262144 bytes
  'editcap -F pcap IN OUT' writes the records before it

run d4c3b2a1 02000400 0000000000000000ffff0000 01000000 ffffffff3f420f00 02000000 02000000 abcd
nothing

run d4c3b2a1 02000400 0000000000000000ffff0000 01000000 ffffffff3f420f00 02000000 02000000 abcd 0000000000000000 00000000 00000000
c: record 2, which begins at byte 42, comes at a moment past 4294967295.999999, the last that a capture can have
  'editcap -F pcap -t -SECONDS IN OUT' sets the moments of all records back

packets d4c3b2a1 02000400 0000000000000000ffff0000 01000000 ffffffff3f420f00 02000000 02000000 abcd 0000000000000000 00000000 00000000
nothing

run -
nothing"#;

/// What is said of a capture.
pub(super) fn capture(alloc: Global, given: &str) -> Result<String, Fail> {
    let (command, spelled) = given.split_once(' ').unwrap_or((given, ""));
    let mut files = MemoryFiles::new(alloc);
    if spelled != "-" {
        let name = String::from_str(alloc, "c")?;
        files.files.insert(name, octets(alloc, spelled)?)?;
    }
    match capture_message(alloc, LinkSet::Plain, "c", command == "run", &mut files)? {
        Some(message) => Ok(message),
        None => Ok(String::from_str(alloc, "nothing")?),
    }
}

/// A row: the names of outputs that were begun, and after `|` of those that were left, and what stands in them.
pub(super) const OUTPUTS: &str = "|
no file was changed

| o l
no file was changed

o l |
o, l: made anew, with a beginning of what it would have, or nothing

o r | l
o, r: made anew, with a beginning of what it would have, or nothing; l: left as it was";

/// What stands in outputs.
pub(super) fn outputs(alloc: Global, names: &str) -> Result<String, Fail> {
    let (begun, left) = names.split_once("|").unwrap_or((names, ""));
    let begun = listed(alloc, begun)?;
    let left = listed(alloc, left)?;
    Ok(outputs_message(alloc, begun.as_slice(), left.as_slice())?)
}

fn listed<'a>(alloc: Global, text: &'a str) -> Result<Vec<&'a str>, Fail> {
    let mut words = Vec::new(alloc);
    for word in text.split_whitespace() {
        words.push(word)?;
    }
    Ok(words)
}

const POLICY: &[u8] = br#"version = 1
asset = [
  { name = "pump", address = "10.0.0.9", port = 502, protocol = "modbus", station = 1 },
  { name = "bay-3", address = "10.0.0.9", port = 503, protocol = "modbus", station = 1 },
]"#;

/// A row: a name that no asset has, in which `/` is the end of a line, and what is meant.
pub(super) const ASSETS: &str = r#"bay3
p: it has no asset "bay3"; did you mean bay-3?
  it has pump bay-3

Kessel/
p: it has no asset "Kessel\n"
  it has pump bay-3"#;

/// A row: a place, and what is said where it is the controller of the first asset; or two places, and what is said where they are of one
/// site.
pub(super) const PLACES: &str = r#"bay-3=10.0.0.9:502
p: the place "bay-3=10.0.0.9:502" is the address and port of the controller of asset pump: the service would connect to itself

bay-3=10.0.0.1:5021 pump=10.0.0.1:5020
p: the places "bay-3=10.0.0.1:5021" and "pump=10.0.0.1:5020" are for assets of one address and port: one place serves all of them"#;

/// What is said of such places.
pub(super) fn place(alloc: Global, place: &str) -> Result<String, Fail> {
    if let Some((place, other)) = place.split_once(' ') {
        return Ok(same_site_message(alloc, "p", place, other)?);
    }
    let policy = read_policy(alloc, POLICY)?;
    match policy.assets.as_slice().first() {
        Some(asset) => Ok(own_endpoint_message(alloc, "p", asset, place)?),
        None => Ok(String::new(alloc)),
    }
}

/// What is meant by the name of no asset.
pub(super) fn asset(alloc: Global, name: &str) -> Result<String, Fail> {
    let policy = read_policy(alloc, POLICY)?;
    let name = name.replace(alloc, '/', "\n")?;
    Ok(asset_message(alloc, "p", &policy, &name)?)
}
