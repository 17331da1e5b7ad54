//! What a policy says, as plain values.
use crate::lists::{Items, Name};
use cf_view::{Endpoint, Reason};

/// The protocol that a controller speaks.
#[derive(Clone, Copy, PartialEq, Eq)]
pub enum Protocol {
    /// Modbus TCP.
    Modbus,
    /// DNP3 over TCP (IEEE 1815).
    Dnp3,
    /// IEC 60870-5-104.
    Iec104,
}

/// What a rule does with the acts that it has.
#[derive(Clone, Copy, PartialEq, Eq)]
pub enum Action {
    Allow,
    Refuse,
}

/// The whole numbers from `low` to `high`, both of them included.
#[derive(Clone, Copy, PartialEq, Eq, Debug)]
pub struct Span {
    pub low: i64,
    pub high: i64,
}

/// How often a rule lets commands of a session through. This project's own.
#[derive(Clone, Copy)]
pub struct Rate {
    /// The most commands that it lets through in any `seconds` seconds, 1 to `HIGHEST_MOST`.
    pub most: u32,
    /// That time, in seconds, 1 to `LONGEST_RATE`.
    pub seconds: u32,
}

/// A rule of an asset. It has an act of a client if each list that it states has the matching number. An empty list
/// states nothing.
#[derive(Drop)]
pub struct Rule {
    pub name: Name,
    pub action: Action,
    /// Addresses of clients, as numbers of 32 bits, the first octet the highest.
    pub clients: Items<Span>,
    /// Function codes of Modbus and DNP3, type identifications of IEC 60870-5-104.
    pub codes: Items<Span>,
    /// The groups of acts, in the terms of `cf_view::Act`.
    pub groups: Items<Span>,
    /// The points of acts, in the terms of `cf_view::Act`.
    pub points: Items<Span>,
    /// The values that acts write. A rule that states some does not have an act without a value.
    pub values: Items<Span>,
    /// How often it lets a command through; `None`: as often as one comes. A rule that refuses has none.
    pub rate: Option<Rate>,
    /// Whether each command that it lets through has a line in the log. A rule that refuses has none of these lines.
    pub log: bool,
}

/// A controller, and the rules about commands to it.
#[derive(Drop)]
pub struct Asset {
    pub name: Name,
    pub endpoint: Endpoint,
    pub protocol: Protocol,
    /// The unit identifier of Modbus, the outstation's link address of DNP3, the common address of IEC 60870-5-104.
    pub station: u16,
    /// The master's link address of DNP3, and 0 for the other protocols.
    pub master: u16,
    pub rules: Items<Rule>,
}

/// The assets that the firewall stands before.
#[derive(Drop)]
pub struct Policy {
    pub assets: Items<Asset>,
}

/// What decided about an act or a command.
#[derive(Clone, Copy, PartialEq, Eq, Debug)]
pub enum Decider {
    /// The rule of this number, counted from 0.
    Rule(usize),
    /// No rule has the act.
    Default,
    /// The command is for another station.
    Station,
    /// The command's reader refuses it.
    Form,
    /// The rule of this number, counted from 0, allows it, and has let through as many commands as its rate lets.
    Spent(usize),
}

/// What becomes of an act.
#[derive(Clone, Copy)]
pub enum Verdict {
    /// The rule of this number, counted from 0, allows it.
    Allow(usize),
    /// It is refused, by this decider and for this reason.
    Refuse(Decider, Reason),
}
