//! Gaps in what clients sent: octets that no packet of a capture has, before some that one has.

use crate::flags::{has, is_opening};
use crate::pair::PairKey;
use cf_packet::{ACK, Packet, RST, SYN};
use cf_view::{Endpoint, NoMemory};
use cf_watch::REACH;
use std::alloc::Global;
use std::collections::BTreeMap;

/// Which connections are read.
#[derive(Clone, Copy, PartialEq, Eq)]
pub(crate) enum Begins {
    /// From a SYN on.
    WithSyn,
    /// From the first packet with data too.
    Amid,
}

/// The data of a packet that came ahead of what stands before it: the number of its connection, where it stands, and the number of its
/// record, from 1.
#[derive(Clone, Copy, PartialEq, Eq, PartialOrd, Ord, Drop)]
struct Piece {
    flow: usize,
    start: u64,
    end: u64,
    record: u64,
}

/// The connection of a pair.
#[derive(Clone, Copy)]
struct Track {
    flow: usize,
    /// The sequence number before its first octet.
    origin: u32,
    /// Whether a packet with ACK has followed.
    answered: bool,
    /// The end of its newest data.
    top: u64,
}

/// A connection.
#[derive(Clone, Copy)]
struct Connection {
    client: Endpoint,
    /// How many of its first octets came, each behind those before it.
    reached: u64,
}

/// What clients sent to assets, connection by connection.
#[derive(Drop)]
pub(crate) struct Sent {
    begins: Begins,
    connections: Vec<Connection>,
    tracks: BTreeMap<PairKey, Track>,
    pieces: Vec<Piece>,
}

/// The gaps of a capture: those behind which data stands.
#[derive(Clone, Copy)]
pub struct Gaps {
    /// The connections.
    pub flows: u64,
    /// Those with a gap.
    pub broken: u64,
    /// The packets with data that stands behind the first gap of their connection.
    pub packets: u64,
    /// The octets of these packets.
    pub octets: u64,
    /// The first gap by the record that shows it.
    pub first: Option<Gap>,
}

/// A gap of a connection.
#[derive(Clone, Copy)]
pub struct Gap {
    pub client: Endpoint,
    /// How many octets stand before it.
    pub position: u64,
    /// The number, from 1, of the first record with data behind it.
    pub record: u64,
}

impl Sent {
    /// What no client has sent yet.
    pub(crate) fn new(alloc: Global, begins: Begins) -> Sent {
        Sent {
            begins,
            connections: Vec::new(alloc),
            tracks: BTreeMap::new(alloc),
            pieces: Vec::new(alloc),
        }
    }

    /// Takes a packet of a pair to its asset, of the record of this number.
    pub(crate) fn take(
        &mut self,
        key: PairKey,
        number: u64,
        packet: &Packet<'_>,
    ) -> Result<(), NoMemory> {
        let known = self.tracks.get(&key).copied();
        let Some(mut track) = self.track_of(known, packet)? else {
            return Ok(());
        };
        let (place, end) = track.place_of(packet);
        let start = place.max(self.first_read(track.top));
        if start < end {
            track.top = track.top.max(end);
            let piece = Piece {
                flow: track.flow,
                start,
                end,
                record: number,
            };
            self.put(piece)?;
        }
        track.answered = track.answered || has(packet, ACK);
        match self.tracks.insert(key, track) {
            Ok(_) => Ok(()),
            Err(_) => Err(NoMemory),
        }
    }

    /// The lowest place that is read, where the newest data ends at a place: a review reads none that stands `REACH` places below it.
    fn first_read(&self, top: u64) -> u64 {
        match self.begins {
            Begins::WithSyn => 0,
            Begins::Amid => top.saturating_sub(REACH),
        }
    }

    /// Puts data behind that of its connection, or keeps it where something is missing before it.
    fn put(&mut self, piece: Piece) -> Result<(), NoMemory> {
        if let Some(connection) = self.connections.get_mut(piece.flow) {
            if piece.start <= connection.reached {
                connection.reached = connection.reached.max(piece.end);
                return Ok(());
            }
        }
        self.pieces.push(piece).map_err(|_| NoMemory)
    }

    /// The connection that a packet is of, if it is one that is read.
    fn track_of(
        &mut self,
        known: Option<Track>,
        packet: &Packet<'_>,
    ) -> Result<Option<Track>, NoMemory> {
        match known {
            Some(track) if !track.begins_anew(packet) => Ok(Some(track)),
            _ if is_opening(packet) => Ok(Some(self.begin(packet.source, packet.seq)?)),
            None if self.begins == Begins::Amid && has_data_alone(packet) => {
                let origin = packet.seq.wrapping_sub(1);
                Ok(Some(self.begin(packet.source, origin)?))
            }
            _ => Ok(None),
        }
    }

    fn begin(&mut self, client: Endpoint, origin: u32) -> Result<Track, NoMemory> {
        let flow = self.connections.len();
        let connection = Connection { client, reached: 0 };
        self.connections.push(connection).map_err(|_| NoMemory)?;
        Ok(Track {
            flow,
            origin,
            answered: false,
            top: 0,
        })
    }

    /// The gaps, once all records were taken.
    pub(crate) fn gaps(&mut self) -> Result<Gaps, NoMemory> {
        self.pieces.sort().map_err(|_| NoMemory)?;
        let mut gaps = Gaps {
            flows: self.connections.len() as u64,
            broken: 0,
            packets: 0,
            octets: 0,
            first: None,
        };
        let mut walk = Walk {
            flow: None,
            reached: 0,
            is_behind: false,
        };
        for piece in &self.pieces {
            let Some(connection) = self.connections.get(piece.flow) else {
                continue;
            };
            if walk.passes(connection, piece) {
                gaps.count(&walk, piece, connection.client);
                walk.is_behind = true;
            }
        }
        Ok(gaps)
    }
}

impl Track {
    /// Whether a packet begins another connection. A SYN that is sent again does not.
    fn begins_anew(&self, packet: &Packet<'_>) -> bool {
        is_opening(packet) && !(packet.seq == self.origin && !self.answered)
    }

    /// Where the data of a packet stands: from the first place to before the second, near the newest data. Data below the first
    /// octet has none.
    fn place_of(&self, packet: &Packet<'_>) -> (u64, u64) {
        let syn = u32::from(has(packet, SYN));
        let first = packet
            .seq
            .wrapping_add(syn)
            .wrapping_sub(self.origin)
            .wrapping_sub(1);
        let ahead = first.wrapping_sub((self.top % (1 << 32)) as u32);
        let length = packet.text.len() as u64;
        let start = if ahead < 1 << 31 {
            self.top.saturating_add(u64::from(ahead))
        } else {
            let back = (1u64 << 32).saturating_sub(u64::from(ahead));
            if back > self.top {
                return (0, length.saturating_sub(back - self.top));
            }
            self.top - back
        };
        (start, start.saturating_add(length))
    }
}

/// Whether a packet has data, and neither SYN nor RST.
fn has_data_alone(packet: &Packet<'_>) -> bool {
    !has(packet, SYN | RST) && !packet.text.is_empty()
}

/// A walk over the data of connections that came ahead, in the order of connections and places.
#[derive(Clone, Copy)]
struct Walk {
    flow: Option<usize>,
    /// How many octets of the connection stand before its first gap.
    reached: u64,
    /// Whether that gap was come to.
    is_behind: bool,
}

impl Walk {
    /// Whether data stands behind the first gap of its connection.
    fn passes(&mut self, connection: &Connection, piece: &Piece) -> bool {
        if self.flow != Some(piece.flow) {
            self.flow = Some(piece.flow);
            self.reached = connection.reached;
            self.is_behind = false;
        }
        if !self.is_behind && piece.start <= self.reached {
            self.reached = self.reached.max(piece.end);
            return false;
        }
        true
    }
}

impl Gaps {
    /// Counts data behind the first gap of its connection.
    fn count(&mut self, walk: &Walk, piece: &Piece, client: Endpoint) {
        self.packets = self.packets.saturating_add(1);
        self.octets = self
            .octets
            .saturating_add(piece.end.saturating_sub(piece.start));
        if !walk.is_behind {
            self.broken = self.broken.saturating_add(1);
        }
        let is_first = match &self.first {
            Some(gap) => piece.record < gap.record,
            None => true,
        };
        if is_first {
            self.first = Some(Gap {
                client,
                position: walk.reached,
                record: piece.record,
            });
        }
    }
}
