//! Remarks on runs. A row has the packets of a capture of Ethernet frames, as the lines of an exchange spell them; `bad` before one
//! changes its last octet, `partial` puts the sum of the pseudo header alone into it, `cut` leaves its last octet out, and `frame` and
//! octets are a frame as it stands. What is wanted are the remarks, or `nothing`; behind `unread:` those of a capture that is watched
//! from SYNs on, and behind `amid:` those of one whose connections may begin amid their stream. SYNs have the numbers 1000 and 5000.

use super::packets::{Origins, moment, packet};
use super::sessions::policy;
use super::{Place, named, same};
use cf_outside::MemoryFiles;
use cf_remarks::{Reading, run_text, survey_capture, survey_text};
use cf_run::{RunNames, Summary, run_capture};
use cf_samples::rows::octets;
use std::alloc::Global;
use std::process::Abort;

/// By hand: the box tells windows of 16,384 octets, and answers the refused write with nine octets, where a controller would send twelve.
pub const ROWS: &str = "\
row: nothing to say
1.000000 c S 1000 0 65535
1.010000 k SA 5000 1001 65535
1.020000 c A +0 +0 65535
1.030000 c PA +0 +0 65535 W
1.040000 k PA +0 +12 65535 W
1.050000 c FA +12 +12 65535
1.060000 k FA +12 +13 65535
1.070000 c A +13 +13 65535
says:
nothing

row: the same, cut off behind the write
1.000000 c S 1000 0 65535
1.010000 k SA 5000 1001 65535
1.020000 c A +0 +0 65535
1.030000 c PA +0 +0 65535 W
says:
note: 1 of 1 sessions never closed: the capture ends before they do, or has not all of their packets

row: a refused write as a span port has it, which the controller answers with twelve octets
1.000000 c S 1000 0 65535
1.010000 k SA 5000 1001 65535
1.020000 c A +0 +0 65535
1.030000 c PA +0 +0 65535 000100000006010600320064
1.040000 k PA +0 +12 65535 000100000006010600320064
1.050000 c A +12 +12 65535
1.060000 c PA +12 +12 65535 W
says:
note: 3 segments acknowledged what the box had not sent: the capture was not recorded at the box, but at a span port or \
on a host, where both hosts answer each other, or a packet is missing in it
note: 1 of 1 sessions never closed: the capture ends before they do, or has not all of their packets
note: for a recording from a span port or a host use 'cmdwall review POLICY CAPTURE LOG' (docs/REVIEW.md)

row: two octets of which the second is beyond the window, a probe at its edge, and the last octet in it
1.000000 c S 1000 0 65535
1.010000 k SA 5000 1001 65535
1.020000 c A +0 +0 65535
1.030000 c PA +16383 +0 65535 0001
1.040000 c PA +16384 +0 65535 00
1.050000 c PA +16383 +0 65535 00
1.060000 c RA +0 +0 0
says:
note: 1 segment stood beyond the window that the box had told: the hosts agreed on window scaling, which the box does \
not, or the capture was not recorded at the box, or a packet is missing in it
note: for a recording from a span port or a host use 'cmdwall review POLICY CAPTURE LOG' (docs/REVIEW.md)
unread:
note: 1 of 1 connections has a gap, as where a packet was not recorded; the first: that of 10.0.0.5:49152 at position 0, before record 4; 4 \
octets stand behind gaps and are not read, in 3 packets
amid:
note: 1 of 1 connections has a gap, as where a packet was not recorded; the first: that of 10.0.0.5:49152 at position 0, before record 4; 4 \
octets stand behind gaps and are read from the first unit on, in 3 packets

row: a closed session, and another from the same port, whose SYN stands far beyond the window that the first was told
1.000000 c S 1000 0 65535
1.010000 k SA 5000 1001 65535
1.020000 c A +0 +0 65535
1.030000 c FA +0 +0 65535
1.040000 k FA +0 +1 65535
1.050000 c A +1 +1 65535
2.000000 c S 900000 0 65535
says:
note: 1 of 2 sessions never closed: the capture ends before they do, or has not all of their packets

row: a capture that begins amid a connection, and a packet to another port
1.000000 c PA 2000 6000 65535 W
1.010000 k PA 6000 2012 65535 W
1.020000 ip 4500002800004000400626c30a0000050a000009c00001f7000003e9000013895010ffffc25d0000
says:
note: 2 of 3 packets came without the SYN of their connection: the capture begins amid it, or its SYN was dropped; record from before it begins
note: 1 of 3 packets did not go between a client and an asset of POLICY: neither end, or both, has an asset's address and port
unread:
note: 2 packets came without the SYN of their connection, and are not read: record from before it begins

row: a write behind a reset
1.000000 c S 1000 0 65535
1.010000 k SA 5000 1001 65535
1.020000 c A +0 +0 65535
1.030000 c RA +0 +0 0
1.040000 c PA +0 +12 65535 W
says:
note: 1 of 5 packets were of no session: they came without the SYN of their connection, behind a cut, long behind a closing, \
or for a session that was not begun

row: IPv6, tags, ARP, a wrong sum and a packet that is cut
1.000000 frame 020000000001020000000002 86dd 60000000
1.010000 frame 020000000001020000000002 8100 00050800 4500
1.020000 frame 020000000001020000000002 8100 00060800 4500
1.030000 frame 020000000001020000000002 88a8 00050800 4500
1.040000 frame 020000000001020000000002 0806 0001
1.050000 bad c PA +0 +0 65535 W
1.060000 cut c PA +0 +0 65535 W
1.070000 frame 0200
says:
note: 1 of 8 records dropped: IPv6, of which the box knows nothing; the first is record 1
note: 2 of 8 records dropped: frames with a VLAN tag (802.1Q); record on the VLAN's own interface, or where the tag is off; the first is record 2
note: 1 of 8 records dropped: frames with a service tag (802.1ad); record where both tags are off; the first is record 4
note: 1 of 8 records dropped: ARP, which carries no commands; the first is record 5
note: 1 of 8 records dropped: frames of other types, or cut within their header; the first is record 8
note: 1 of 8 records dropped: cut, as by a snap length; record whole packets, as 'tcpdump -s 0' does; the first is record 7
note: 1 of 8 records dropped: a wrong TCP sum, as where a card fills it in behind the recording; record with offload off ('ethtool -K \
INTERFACE tx off'), or off the host; the first is record 6
unread:
note: 1 of 8 records dropped: IPv6, of which the box knows nothing; the first is record 1
note: 2 of 8 records dropped: frames with a VLAN tag (802.1Q); record on the VLAN's own interface, or where the tag is off; the first is record 2
note: 1 of 8 records dropped: frames with a service tag (802.1ad); record where both tags are off; the first is record 4
note: 1 of 8 records dropped: ARP, which carries no commands; the first is record 5
note: 1 of 8 records dropped: frames of other types, or cut within their header; the first is record 8
note: 1 of 8 records dropped: cut, as by a snap length; record whole packets, as 'tcpdump -s 0' does; the first is record 7
note: 1 of 8 records dropped: a wrong TCP sum, as where a card fills it in behind the recording; record with offload off ('ethtool -K \
INTERFACE tx off'), or off the host; the first is record 6
amid:
note: 1 of 8 records dropped: IPv6, of which the box knows nothing; the first is record 1
note: 1 of 8 records dropped: ARP, which carries no commands; the first is record 5
note: 1 of 8 records dropped: frames of other types, or cut within their header; the first is record 8
note: 4 of 8 records dropped: cut, as by a snap length; record whole packets, as 'tcpdump -s 0' does; the first is record 2
note: 1 of 8 records dropped: a wrong TCP sum, as where a card fills it in behind the recording; record with offload off ('ethtool -K \
INTERFACE tx off'), or off the host; the first is record 6

row: a sum as a sending host's recorder leaves it
1.000000 c S 1000 0 65535
1.010000 k SA 5000 1001 65535
1.020000 c A +0 +0 65535
1.030000 frame 02000000000102000000000208004500003400004000400626b70a0000050a000009c00001f6000003e9000013895018ffff14340000000100000006010600280064
1.040000 c RA +0 +0 0
says:
note: 1 of 5 records dropped: a wrong TCP sum, as where a card fills it in behind the recording; record with offload off ('ethtool -K \
INTERFACE tx off'), or off the host; the first is record 4
note: 1 wrong TCP sum is that of the pseudo header alone, which a sending host's own recorder leaves: such packets were right on the wire
unread:
note: 1 of 5 records dropped: a wrong TCP sum, as where a card fills it in behind the recording; record with offload off ('ethtool -K \
INTERFACE tx off'), or off the host; the first is record 4
note: 1 wrong TCP sum is that of the pseudo header alone, which a sending host's own recorder leaves: such packets were right on the wire
amid:
note: 1 TCP sum was that of the pseudo header alone, which a sending host's own recorder leaves, and counted as right

row: a request that was not recorded, before two that were, of which one was sent again
1.000000 c S 1000 0 65535
1.010000 k SA 5000 1001 65535
1.020000 c A +0 +0 65535
1.030000 c PA +24 +0 65535 W
1.040000 c PA +12 +0 65535 W
1.050000 c PA +12 +0 65535 W
says:
note: 1 of 1 sessions never closed: the capture ends before they do, or has not all of their packets
unread:
note: 1 of 1 connections has a gap, as where a packet was not recorded; the first: that of 10.0.0.5:49152 at position 0, before record 4; \
36 octets stand behind gaps and are not read, in 3 packets
amid:
note: 1 of 1 connections has a gap, as where a packet was not recorded; the first: that of 10.0.0.5:49152 at position 0, before record 4; \
36 octets stand behind gaps and are read from the first unit on, in 3 packets

row: a connection without its SYN, with a gap, and behind it one whose packets came in another order
1.000000 c PA 2001 6000 65535 W
1.010000 c PA 2025 6000 65535 W
1.020000 c S 1000 0 65535
1.030000 k SA 5000 1001 65535
1.040000 c A +0 +0 65535
1.050000 c PA +12 +0 65535 W
1.060000 c PA +0 +0 65535 W
1.070000 c RA +24 +0 0
says:
note: 2 of 8 packets were of no session: they came without the SYN of their connection, behind a cut, long behind a closing, \
or for a session that was not begun
unread:
note: 2 packets came without the SYN of their connection, and are not read: record from before it begins
amid:
note: 1 of 2 connections has a gap, as where a packet was not recorded; the first: that of 10.0.0.5:49152 at position 12, before record 2; \
12 octets stand behind gaps and are read from the first unit on, in 1 packet
";

const NAMES: RunNames<'static> = RunNames {
    capture: "c",
    out: "o",
    log: "l",
};

/// The frame of a line.
fn frame(rt: &impl Abort, alloc: Global, spelled: &str) -> Vec<u8> {
    if let Some(spelled) = spelled.strip_prefix("frame ") {
        return octets(alloc, spelled).expect(rt, spelled);
    }
    let mut frame = octets(alloc, "0200000000010200000000020800").expect(rt, "memory");
    let (word, rest) = spelled.split_once(' ').expect(rt, spelled);
    let origins = Origins {
        client: 1000,
        controller: 5000,
    };
    let is_spoiled = word == "bad" || word == "cut";
    let packet = packet(rt, alloc, &origins, if is_spoiled { rest } else { spelled });
    frame.extend_from_slice(&packet).expect(rt, "memory");
    if is_spoiled {
        let last = frame.pop().expect(rt, spelled);
        if word == "bad" {
            frame.push(last ^ 1).expect(rt, "memory");
        }
    }
    frame
}

/// The capture of the lines of a row.
fn capture(rt: &impl Abort, alloc: Global, lines: &str) -> Vec<u8> {
    let header = "d4c3b2a1020004000000000000000000 0000040001000000";
    let mut all = octets(alloc, header).expect(rt, "memory");
    for line in lines.lines() {
        let (moment, spelled) = moment(rt, line);
        let frame = frame(rt, alloc, spelled);
        let seconds = (moment / 1_000_000 % (1 << 32)) as u32;
        let micros = (moment % 1_000_000) as u32;
        let length = (frame.len() % (1 << 32)) as u32;
        for number in [seconds, micros, length, length] {
            all.extend_from_slice(&number.to_le_bytes())
                .expect(rt, "memory");
        }
        all.extend_from_slice(&frame).expect(rt, "memory");
    }
    all
}

/// Files in memory, one of which has a name and octets.
fn holding(rt: &impl Abort, alloc: Global, name: &str, octets: Vec<u8>) -> MemoryFiles {
    let mut files = MemoryFiles::new(alloc);
    let key = String::from_str(alloc, name).expect(rt, "memory");
    let inserted: Result<_, _> = files.files.insert(key, octets);
    assert!(rt; inserted.is_ok());
    files
}

/// What is said of a capture of these octets.
fn remarks(rt: &impl Abort, alloc: Global, octets: Vec<u8>) -> String {
    let policy = policy(alloc).expect(rt, "memory");
    let mut files = holding(rt, alloc, "c", octets);
    let ran: Result<Summary, _> = run_capture(alloc, &policy, &NAMES, &mut files);
    let summary = ran.expect(rt, "a run");
    let assets = policy.assets.as_slice();
    let mut text = String::new(alloc);
    if summary.dropped > 0 {
        let found = survey_capture(alloc, &[], "c", Reading::FromSyn, &mut files);
        let dropped = survey_text(alloc, &found.expect(rt, "a survey"), Reading::FromSyn);
        text.push_str(&dropped.expect(rt, "memory"))
            .expect(rt, "memory");
    }
    let counted = run_text(alloc, &summary).expect(rt, "memory");
    text.push_str(&counted).expect(rt, "memory");
    if text.is_empty() {
        text.push_str("nothing\n").expect(rt, "memory");
    }
    for (word, reading) in [("unread:\n", Reading::FromSyn), ("amid:\n", Reading::Amid)] {
        let found = survey_capture(alloc, assets, "c", reading, &mut files).expect(rt, "a survey");
        let unread = survey_text(alloc, &found, reading).expect(rt, "memory");
        if !unread.is_empty() {
            text.push_str(word).expect(rt, "memory");
            text.push_str(&unread).expect(rt, "memory");
        }
    }
    text
}

/// The remarks on the capture of a row.
pub fn plays(rt: &impl Abort, alloc: Global, block: &str) {
    let (name, lines) = named(block);
    let (given, wanted) = lines.split_once("\nsays:\n").expect(rt, name);
    let found = remarks(rt, alloc, capture(rt, alloc, given));
    same(
        rt,
        &Place {
            row: name,
            line: "says",
        },
        found.as_str().trim_end(),
        wanted,
    );
}
