//! Requests that a client sent before: the same few come over and over, and what is told of them but for when they came. Those of Modbus
//! differ in their transaction identifier, those of DNP3 in the sequences of their segment and their fragment, and so in a CRC.

use cf_dnplink::crc;
use cf_policy::Protocol;
use cf_view::View;
use std::alloc::{AllocError, Global};

/// So many are remembered of a flow, a prime. This project's own.
const PLACES: usize = 251;
/// The octets of a transaction identifier of Modbus, which no two requests in a row have in common.
const TRANSACTION: usize = 2;
/// The header of a frame of DNP3, its CRC included. The transport header and the application control octet stand behind it.
const HEADER: usize = 10;
/// Where the function code of DNP3 stands in a frame.
const CODE: usize = 12;
/// What LENGTH of a frame counts beside the user octets.
const LEAST_LENGTH: usize = 5;
/// The user octets of a whole block.
const BLOCK: usize = 16;
/// The lowest number of a transport header with FIR and FIN: the sequence is below 40.
const SINGLE: u8 = 0xC0;
/// How many octets give the place: of Modbus up to the quantity.
const NUMBERS: usize = 10;

/// A request of a flow.
#[derive(Clone, Copy)]
pub(crate) struct Repeat<'a> {
    /// Its ADU or its frame; none where there is no request.
    octets: &'a [u8],
    /// The place of the note at which all of its acts are counted.
    pub(crate) note: usize,
}

impl Repeat<'_> {
    /// The length of its ADU or its frame.
    pub(crate) fn used(&self) -> usize {
        self.octets.len()
    }
}

/// Requests of a flow, each at the place that its numbers give. A later one stands in the place of an earlier one.
#[derive(Drop)]
pub(crate) struct Repeats<'a> {
    protocol: Protocol,
    places: Vec<Repeat<'a>>,
}

impl<'a> Repeats<'a> {
    /// None.
    pub(crate) fn new(alloc: Global, protocol: Protocol) -> Result<Repeats<'a>, AllocError> {
        let none = Repeat {
            octets: &[],
            note: 0,
        };
        let places = vec![in alloc; none; PLACES]?;
        Ok(Repeats { protocol, places })
    }

    /// The one that stands at the front of a client's bytes once more.
    pub(crate) fn find(&self, bytes: &[u8]) -> Option<Repeat<'a>> {
        let told = told_of(self.protocol, bytes)?;
        let repeat = self.places.get(place_of(told))?;
        if repeat.octets.is_empty() || !is_same(self.protocol, repeat.octets, bytes) {
            return None;
        }
        Some(*repeat)
    }

    /// Remembers an ADU, or a frame that is a whole fragment: a request all of whose acts are counted at one note.
    pub(crate) fn put(&mut self, unit: &'a [u8], note: usize) {
        if let Some(told) = told_of(self.protocol, unit) {
            if let Some(place) = self.places.get_mut(place_of(told)) {
                *place = Repeat { octets: unit, note };
            }
        }
    }
}

/// What a request has in common with those that are the same, or the first of it, if the bytes begin with one that may come once more.
fn told_of(protocol: Protocol, bytes: &[u8]) -> Option<&[u8]> {
    match protocol {
        Protocol::Modbus => bytes.get(TRANSACTION..),
        Protocol::Dnp3 => {
            if *bytes.get(HEADER)? < SINGLE {
                return None;
            }
            bytes.get(CODE..stop_of(bytes))
        }
        Protocol::Iec104 => None,
    }
}

/// Whether bytes begin with the same request as a unit of a protocol is.
fn is_same(protocol: Protocol, unit: &[u8], bytes: &[u8]) -> bool {
    match protocol {
        Protocol::Modbus => is_part(unit, bytes, TRANSACTION, unit.len()),
        Protocol::Dnp3 => is_same_frame(unit, bytes),
        Protocol::Iec104 => false,
    }
}

/// Whether bytes begin with the same frame of DNP3, but for the sequences and the CRC of the first block, which is right. Both are whole
/// fragments.
fn is_same_frame(frame: &[u8], bytes: &[u8]) -> bool {
    let stop = stop_of(frame);
    is_part(frame, bytes, 0, HEADER)
        && is_part(frame, bytes, CODE, stop)
        && has_same_flags(frame.get(CODE - 1), bytes.get(CODE - 1))
        && is_part(frame, bytes, stop.saturating_add(2), frame.len())
        && has_crc(bytes, stop)
}

/// Whether the same octets stand between two places.
fn is_part(unit: &[u8], bytes: &[u8], from: usize, to: usize) -> bool {
    match (unit.get(from..to), bytes.get(from..to)) {
        (Some(one), Some(other)) => other.starts_with(one),
        _ => false,
    }
}

/// Whether two application control octets differ in the sequence alone, the low four bits.
fn has_same_flags(one: Option<&u8>, other: Option<&u8>) -> bool {
    match (one, other) {
        (Some(one), Some(other)) => *one / 16 == *other / 16,
        _ => false,
    }
}

/// Whether the CRC of the first block of a frame is right.
fn has_crc(frame: &[u8], stop: usize) -> bool {
    let Some(block) = frame.get(HEADER..stop) else {
        return false;
    };
    let sum = usize::from(crc(View::one(block)));
    match (frame.get(stop), frame.get(stop.saturating_add(1))) {
        (Some(low), Some(high)) => sum == usize::from(*low) + usize::from(*high) * 256,
        _ => false,
    }
}

/// Where the octets of the first block of a frame end, behind which its CRC stands.
fn stop_of(frame: &[u8]) -> usize {
    match frame.get(2) {
        Some(length) => HEADER + usize::from(*length).saturating_sub(LEAST_LENGTH).min(BLOCK),
        None => HEADER,
    }
}

/// The place of a request, by the first that it has in common with the same ones.
fn place_of(told: &[u8]) -> usize {
    let mut sum = 0;
    for octet in told.iter().take(NUMBERS) {
        sum = sum % PLACES * 31 + usize::from(*octet);
    }
    sum % PLACES
}
