//! Between whom a TCP end stands, and what its calls answer.

use cf_view::Endpoint;

/// How a connection begins at an end. RFC 9293, section 3.3: the end of an active open sends the SYN, and that of a
/// passive open got it.
#[derive(Clone, Copy)]
pub enum Role {
    /// The sequence number of the SYN that it sends.
    Active(u32),
    /// The sequence number of the SYN that came, and its maximum segment size.
    Passive(u32, Option<u16>),
}

/// The two ends of the connection, seen from the one that sends. This project's own.
#[derive(Clone, Copy)]
pub struct Ends {
    /// The endpoint of the end.
    pub own: Endpoint,
    /// That of its peer.
    pub peer: Endpoint,
    /// Which of the two sent the SYN.
    pub role: Role,
}

/// How far a connection is at an end. RFC 9293, section 3.3.2, has these as states:
///
/// ```text
///              an active end                 a passive end
///                    |                             |
///   Made          CLOSED                     LISTEN, with a SYN in hand
///                    | SYN goes out                | SYN ACK goes out
///                    v                             v
///   Greeted       SYN-SENT                   SYN-RECEIVED
///                    | SYN ACK comes               | the ACK of the SYN ACK comes
///                    v                             v
///   Open          ESTABLISHED, and every state after it
/// ```
///
/// FIN is a letter like others, End, so that no phase follows: which of the states from FIN-WAIT-1 on an open end is in, its
/// queue and its window tell. An end that is reset, or gives up, is dropped with its session. One phase for several states is
/// this project's own.
#[derive(Clone, Copy)]
pub enum Phase {
    /// Neither SYN nor SYN ACK went out.
    Made,
    /// The SYN or the SYN ACK went out, and is unanswered.
    Greeted,
    /// Both SYNs are acknowledged.
    Open,
}

/// What became of a packet. RFC 9293, section 3.10.7, and RFC 5961; the names are this project's own.
#[derive(Clone, Copy)]
pub enum LegAnswer {
    /// It counts: it acknowledges letters, shows an edge, and offers its letters.
    Counted,
    /// It opened the leg.
    Opened,
    /// It does nothing.
    Ignored,
    /// It does nothing but draw an acknowledgment.
    Challenged,
    /// The peer gave up.
    Reset,
}

/// What a clock call did. RFC 9293, section 3.8.1; how often is this project's own.
#[derive(Clone, Copy)]
pub enum ClockAnswer {
    /// Nothing was due.
    Quiet,
    /// A segment went out again.
    Repeated,
    /// An empty segment went out, which asks for an acknowledgment.
    Probed,
    /// The retransmission timer expired for the seventh time without an answer.
    NoAnswer,
}

/// What a peer was told: the place of the first letter that it has not sent or that did not come, and the place below
/// which its letters are let in. RFC 9293, section 3.3.1: RCV.NXT, and RCV.NXT + RCV.WND.
#[derive(Clone, Copy)]
pub struct Advertised {
    /// RCV.NXT, as a place.
    pub base: u64,
    /// RCV.NXT + RCV.WND, as a place.
    pub edge: u64,
}

/// Between whom segments go, and the sequence numbers of the two SYNs. RFC 9293, section 3.3.1.
#[derive(Clone, Copy)]
pub struct Way {
    /// The source of the segments.
    pub source: Endpoint,
    /// Their destination.
    pub dest: Endpoint,
    /// ISS, the sequence number of the source's SYN.
    pub own: u32,
    /// IRS, the sequence number of the destination's SYN.
    pub other: u32,
}

/// An end as a packet finds it. RFC 9293, section 3.3.1.
#[derive(Clone, Copy)]
pub struct EndState {
    /// Which of the two ends sent the SYN.
    pub role: Role,
    /// The end's SYN or SYN ACK went out.
    pub is_greeted: bool,
    /// The end is open.
    pub is_open: bool,
    /// ISS, the sequence number of the end's own SYN.
    pub own: u32,
    /// IRS, the sequence number of the peer's SYN.
    pub other: u32,
    /// RCV.NXT and RCV.NXT + RCV.WND, as the peer was told them.
    pub told: Advertised,
    /// How many letters were sent: SND.NXT as a place.
    pub sent: u64,
}
