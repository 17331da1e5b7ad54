//! The remarks in words.

use crate::dropped::Dropped;
use crate::gaps::Gaps;
use crate::survey::{Reading, Survey};
use cf_run::Summary;
use cf_view::Endpoint;
use std::alloc::{AllocError, Global};
use std::fmt::Write;

const ABOVE: &str =
    " acknowledged what the box had not sent: the capture was not recorded at the box, \
    but at a span port or on a host, where both hosts answer each other, or a packet is missing in it";

const BEYOND: &str =
    " stood beyond the window that the box had told: the hosts agreed on window scaling, \
    which the box does not, or the capture was not recorded at the box, or a packet is missing in it";

const LEFT_OPEN: &str =
    " sessions never closed: the capture ends before they do, or has not all of their packets";

const AMID: &str = " came without the SYN of their connection: the capture begins amid it, \
    or its SYN was dropped; record from before it begins";

const FOREIGN: &str = " did not go between a client and an asset of POLICY: \
    neither end, or both, has an asset's address and port";

const REST: &str =
    " were of no session: they came without the SYN of their connection, behind a cut, long behind a closing, \
    or for a session that was not begun";

const REVIEW: &str =
    "for a recording from a span port or a host use 'cmdwall review POLICY CAPTURE LOG' \
    (docs/REVIEW.md)";

const UNREAD: &str = " packets came without the SYN of their connection, and are not read: \
    record from before it begins";

const PARTIAL: &str =
    " that of the pseudo header alone, which a sending host's own recorder leaves: \
    such packets were right on the wire";

const TAKEN: &str =
    " that of the pseudo header alone, which a sending host's own recorder leaves, and counted as right";

const FULL: &str = " would have begun a session while 256 others were open, and began none";

/// A text that is put together piece by piece, and whether it has all that was put to it.
#[derive(Drop)]
pub(crate) struct Lines {
    text: String,
    is_whole: bool,
}

/// A piece of a line.
#[derive(Clone, Copy)]
pub(crate) enum Piece<'a> {
    Words(&'a str),
    Number(u64),
}

use Piece::{Number, Words};

impl Lines {
    /// No line yet.
    pub(crate) fn new(alloc: Global) -> Lines {
        Lines {
            text: String::new(alloc),
            is_whole: true,
        }
    }

    /// The text; an error where memory ran out for a part of it.
    pub(crate) fn finish(self) -> Result<String, AllocError> {
        if self.is_whole {
            Ok(self.text)
        } else {
            Err(AllocError)
        }
    }

    /// Puts a line, after the word with which each remark begins.
    pub(crate) fn put(&mut self, pieces: &[Piece<'_>]) {
        self.begin();
        self.push_all(pieces);
        self.end();
    }

    /// Begins a line with the word with which each remark begins.
    pub(crate) fn begin(&mut self) {
        self.push("note: ");
    }

    /// Ends a line.
    pub(crate) fn end(&mut self) {
        self.push("\n");
    }

    /// Puts pieces, one after the other; numbers are decimal.
    pub(crate) fn push_all(&mut self, pieces: &[Piece<'_>]) {
        for piece in pieces {
            match piece {
                Words(words) => self.push(words),
                Number(number) => {
                    self.is_whole = self.is_whole && write!(self.text, "{number}").is_ok();
                }
            }
        }
    }

    /// A dotted address and a port.
    fn push_endpoint(&mut self, endpoint: &Endpoint) {
        self.push_address(endpoint.address);
        self.push_all(&[Words(":"), Number(u64::from(endpoint.port))]);
    }

    /// A dotted address.
    pub(crate) fn push_address(&mut self, address: u32) {
        for (place, octet) in address.to_be_bytes().iter().enumerate() {
            self.push_all(&[
                Words(if place == 0 { "" } else { "." }),
                Number(u64::from(*octet)),
            ]);
        }
    }

    fn push(&mut self, words: &str) {
        self.is_whole = self.is_whole && self.text.push_str(words).is_ok();
    }
}

/// A line for each reason for which records were dropped, how many packets came amid connections of which nothing is read, how many were
/// read whose sum is partial, and what stands behind gaps: nothing where all of a capture is read, and each sum is right.
pub fn survey_text(alloc: Global, survey: &Survey, reading: Reading) -> Result<String, AllocError> {
    let mut lines = Lines::new(alloc);
    put_dropped(&mut lines, &survey.dropped);
    if survey.amid > 0 && reading == Reading::FromSyn {
        lines.put(&[Number(survey.amid), Words(UNREAD)]);
    }
    if survey.partial > 0 {
        put_partial(
            &mut lines,
            survey.partial,
            [" TCP sum was", " TCP sums were"],
            TAKEN,
        );
    }
    put_gaps(&mut lines, &survey.gaps, reading);
    lines.finish()
}

/// How many connections have a gap, the first of them, and what stands behind, which a review reads.
fn put_gaps(lines: &mut Lines, gaps: &Gaps, reading: Reading) {
    let Some(first) = gaps.first else {
        return;
    };
    lines.begin();
    lines.push_all(&[
        Number(gaps.broken),
        Words(" of "),
        Number(gaps.flows),
        Words(" connections "),
        Words(if gaps.broken == 1 { "has" } else { "have" }),
        Words(" a gap, as where a packet was not recorded; the first: that of "),
    ]);
    lines.push_endpoint(&first.client);
    lines.push_all(&[
        Words(" at position "),
        Number(first.position),
        Words(", before record "),
        Number(first.record),
        Words("; "),
        Number(gaps.octets),
        Words(" octets stand behind gaps and are "),
        Words(match reading {
            Reading::FromSyn => "not read, in ",
            Reading::Amid => "read from the first unit on, in ",
        }),
        Number(gaps.packets),
        Words(if gaps.packets == 1 {
            " packet"
        } else {
            " packets"
        }),
    ]);
    lines.end();
}

/// What a run cannot know of its capture, by what it counted, a line each: nothing where there is nothing to say.
pub fn run_text(alloc: Global, summary: &Summary) -> Result<String, AllocError> {
    let mut lines = Lines::new(alloc);
    put_outside(&mut lines, summary);
    put_misfits(&mut lines, summary.above, ABOVE);
    put_misfits(&mut lines, summary.beyond, BEYOND);
    let left = summary
        .sessions
        .saturating_sub(summary.cuts)
        .saturating_sub(summary.closed);
    if left > 0 {
        lines.put(&[
            Number(left),
            Words(" of "),
            Number(summary.sessions),
            Words(LEFT_OPEN),
        ]);
    }
    if summary.above > 0 || summary.beyond > 0 {
        lines.put(&[Words(REVIEW)]);
    }
    lines.finish()
}

/// Segments of sessions that do not fit, and what that means.
fn put_misfits(lines: &mut Lines, segments: u64, meaning: &str) {
    if segments > 0 {
        lines.put(&[
            Number(segments),
            Words(if segments == 1 {
                " segment"
            } else {
                " segments"
            }),
            Words(meaning),
        ]);
    }
}

/// Packets of no session, by why. Where no session was cut or closed, and none found no room, all of them came before any SYN of theirs.
fn put_outside(lines: &mut Lines, summary: &Summary) {
    let is_amid = summary.cuts == 0 && summary.closed == 0 && summary.full == 0;
    let packets = summary.records.saturating_sub(summary.dropped);
    let parts = [
        (
            summary.outside.saturating_sub(summary.foreign),
            if is_amid { AMID } else { REST },
        ),
        (summary.foreign, FOREIGN),
        (summary.full, FULL),
    ];
    for (count, meaning) in parts {
        if count > 0 {
            lines.put(&[
                Number(count),
                Words(" of "),
                Number(packets),
                Words(" packets"),
                Words(meaning),
            ]);
        }
    }
}

fn put_dropped(lines: &mut Lines, dropped: &Dropped) {
    for (place, count) in dropped.counts.iter().enumerate() {
        if *count > 0 {
            lines.put(&[
                Number(*count),
                Words(" of "),
                Number(dropped.records),
                Words(" records dropped: "),
                Words(reason_words(place)),
                Words("; the first is record "),
                Number(dropped.firsts[place]),
            ]);
        }
    }
    if dropped.partial > 0 {
        let words = [" wrong TCP sum is", " wrong TCP sums are"];
        put_partial(lines, dropped.partial, words, PARTIAL);
    }
}

/// How many sums are partial, with the words for one and for more, and what that means.
fn put_partial<'a>(lines: &mut Lines, count: u64, words: [&'a str; 2], meaning: &'a str) {
    let [one, more] = words;
    lines.put(&[
        Number(count),
        Words(if count == 1 { one } else { more }),
        Words(meaning),
    ]);
}

/// What the records of a reason are, and what helps.
fn reason_words(place: usize) -> &'static str {
    match place {
        0 => "IPv6, of which the box knows nothing",
        1 =>
            "frames with a VLAN tag (802.1Q); record on the VLAN's own interface, or where the tag is off",
        2 => "frames with a service tag (802.1ad); record where both tags are off",
        3 => "ARP, which carries no commands",
        4 => "frames of other types, or cut within their header",
        5 => "cut, as by a snap length; record whole packets, as 'tcpdump -s 0' does",
        6 => "an IPv4 header whose lengths cannot be",
        7 =>
            "a wrong sum over the IPv4 header; record with offload off ('ethtool -K INTERFACE tx off'), or off the host",
        8 => "fragments of IPv4 datagrams, which the box does not join",
        9 => "no TCP, as UDP or ICMP",
        10 => "a TCP header that is cut or cannot be",
        _ =>
            "a wrong TCP sum, as where a card fills it in behind the recording; record with offload off \
            ('ethtool -K INTERFACE tx off'), or off the host",
    }
}
