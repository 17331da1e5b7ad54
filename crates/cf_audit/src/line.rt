//! What a line of the log says.

use cf_view::{Act, Break, Endpoint, Reason, Side, View};

/// The most bytes of a name in a line. This project's own choice.
pub const NAME_LIMIT: usize = 32;

/// Why a DNP3 frame, segment or fragment was dropped. This project's own names.
#[derive(Clone, Copy, PartialEq, Eq, Debug)]
pub enum Why {
    /// The link addresses are not those of the station and its master.
    Address,
    /// The direction bit does not fit the side.
    Direction,
    /// The link function is not served.
    Code,
    /// A data frame without a transport octet.
    Empty,
    /// A segment that continues no fragment.
    NoFirst,
    /// A segment out of order.
    Order,
    /// A fragment above 2,048 octets.
    TooLong,
    /// A fragment under two octets.
    Short,
}

/// Why a session was cut. This project's own reasons.
#[derive(Clone, Copy, PartialEq, Eq, Debug)]
pub enum CutReason {
    /// The bytes of a side are no units of the protocol.
    Framing(Side, Break),
    /// IEC 60870-5-104: the send number expected and the one seen.
    WrongSend(Side, u16, u16),
    /// IEC 60870-5-104: the two ends of the receive numbers that could stand, and the one seen.
    WrongReceive(Side, u16, u16, u16),
    /// IEC 60870-5-104: too many frames are unacknowledged.
    Outstanding(Side),
    /// IEC 60870-5-104: data before the transfer was started.
    NotStarted(Side),
    /// A stream reached its limit of letters.
    StreamLength(Side),
    /// A peer acknowledged nothing for too long.
    NoAnswer(Side),
    /// The client reset its connection.
    ResetByClient,
    /// The controller reset its connection.
    ResetByController,
}

/// What happened.
#[derive(Drop)]
pub enum What<'a> {
    /// A session began.
    Begun,
    /// A command was refused.
    Refuse {
        /// The name of the deciding rule, or `default`, `station` or `form`; at most `NAME_LIMIT` bytes.
        rule: &'a str,
        reason: Reason,
        /// The act that decided.
        act: Act,
        /// Whether a reply was added to the stream to the client.
        replied: bool,
        /// The ADU, fragment or APDU as it was received.
        unit: View<'a>,
    },
    /// A command was admitted by a rule whose commands are written to the log.
    Admit {
        /// The name of the rule; at most `NAME_LIMIT` bytes.
        rule: &'a str,
        /// The first act that the rule allowed.
        act: Act,
        /// The ADU, fragment or APDU as it was received.
        unit: View<'a>,
    },
    /// A DNP3 frame, segment or fragment was dropped.
    Stray {
        side: Side,
        why: Why,
    },
    /// A side ended with so many bytes left that are no whole unit.
    Partial {
        side: Side,
        count: u64,
    },
    /// A session closed, with its numbers of commands.
    Close {
        admitted: u64,
        refused: u64,
    },
    /// A session was cut.
    Cut(CutReason),
    /// A service began to listen for an asset.
    Listen,
    /// A client came where its asset, or the service, had no place, and was closed; so many such came at the asset since its last line of
    /// this kind.
    Away {
        came: u64,
    },
    /// A client came and its controller took no connection.
    Unreached,
    /// A client came and had gone before its controller was reached.
    Gone,
    /// A client came that no rule of the asset names, and was closed; so many such came since the last line of this kind.
    Stranger {
        came: u64,
    },
    /// A connection of a session failed, with the session's numbers of commands.
    Lost {
        admitted: u64,
        refused: u64,
    },
    /// Nothing moved in a session for too long, with its numbers of commands.
    Silent {
        admitted: u64,
        refused: u64,
    },
    /// Another connection came from the address of a session at an asset with a rate, with the session's numbers of commands.
    Again {
        admitted: u64,
        refused: u64,
    },
    /// Memory was wanting for a session.
    NoMemory,
    /// A service lives: so many sessions stand at the asset's place, and so many commands of that place's sessions were admitted and refused.
    Stands {
        standing: u64,
        admitted: u64,
        refused: u64,
    },
}

/// A line of the log.
#[derive(Drop)]
pub struct Line<'a> {
    /// Microseconds.
    pub moment: u64,
    pub client: Endpoint,
    /// The name of the asset; at most `NAME_LIMIT` bytes.
    pub asset: &'a str,
    pub what: What<'a>,
}
