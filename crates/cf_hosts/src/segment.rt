//! A segment that a host is to send.
ghost use Rattle.std.specs.Prelude.{◌≡◌, ◌<◌};
ghost use Rattle.cf_hosts.specs.Segments.{flags_of};

use crate::message::Message;
use cf_packet::{ACK, FIN, PSH, SYN};

/// What a segment is for.
#[derive(Clone, Copy, Default)]
pub(crate) enum Purpose {
    /// It begins a session.
    Syn,
    /// It answers the SYN.
    SynAck,
    /// It acknowledges, and no more.
    #[default]
    Acknowledges,
    /// It brings text.
    Brings,
    /// It ends what the host says.
    Ends,
}

impl Purpose {
    /// Its flags. RFC 9293, section 3.1.
    pub(crate) fn flags(&self) -> u8
        ensures value { result ≡ flags_of self.now }
        ensures small { result < 64 }
    {
        match self {
            Purpose::Syn => SYN,
            Purpose::SynAck => SYN + ACK,
            Purpose::Acknowledges => ACK,
            Purpose::Brings => PSH + ACK,
            Purpose::Ends => FIN + ACK,
        }
    }
}

/// A segment of a host.
#[derive(Default, Drop)]
pub(crate) struct Segment {
    /// The moment from which on it may be sent, in microseconds.
    pub(crate) ready: u64,
    /// Its purpose, by which it has its flags.
    pub(crate) purpose: Purpose,
    /// Its sequence number.
    pub(crate) seq: u32,
    /// Its acknowledgment number.
    pub(crate) ack: u32,
    /// Its text.
    pub(crate) text: Message,
}
