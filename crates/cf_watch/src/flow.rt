//! Flows that a capture shows.
ghost use Rattle.std.specs.Prelude.{◌≡◌, ◌<◌, ◌≤◌, length, slice_index};
ghost use Rattle.cf_watch.specs.FlowValue.{flow_value};
ghost use Rattle.cf_watch.specs.Trail.{IsWithout};

use crate::born::Born;
use cf_view::Endpoint;

/// Two packets of a flow carried different letters at one position.
#[derive(Clone, Copy)]
pub struct Conflict {
    /// The number, counted from 1, of the record that has the later packet.
    pub at_record: u64,
    /// The position, counted from 0 for the letter after the SYN or the first one that was seen, and at least 0.
    pub position: i64,
}

/// What a client sent to the address and port of assets, from a SYN on or from amid its stream, as the packets of a capture carry
/// it. This project's own.
#[derive(Drop)]
pub struct Flow {
    /// The address and the port that the packets come from.
    pub client: Endpoint,
    /// The place in the policy of the first asset with this address and port, counted from 0.
    pub asset: u32,
    /// The number, counted from 1, of the record with which it begins, where that is amid its stream: no SYN of it was seen.
    pub midstream: Option<u64>,
    /// The bytes at the positions 0, 1 and so on, up to the first gap or End.
    pub bytes: Vec<u8>,
    /// For each byte the number, counted from 1, of the record with which the bytes reached it.
    pub born: Born,
    /// That of the first record that has one, at its lowest position.
    pub conflict: Option<Conflict>,
}

impl Flow {
    /// The number, counted from 1, of the record with which the bytes reached that at a place, counted from 0.
    pub fn record_at(&self, place: usize) -> u64
        requires place { place < length self.now.born }
        ensures { result ≡ slice_index (flow_value self.now).born place }
    {
        self.born.record_at(place)
    }

    /// Keeps its first bytes, so many, and their records no more.
    pub(crate) fn forget(&mut self, count: usize)
        requires inside { count ≤ length self.old.bytes.items }
        requires born { length self.old.born ≡ length self.old.bytes.items }
        ensures { IsWithout count (flow_value self.old) (flow_value self.new) }
    {
        let left = self.bytes.len() - count;
        self.bytes.rotate_left(count);
        self.bytes.truncate(left);
        self.born.forget(count);
    }
}

/// Bytes of a flow one after the other that do not follow on its first ones, which are those of `Flow`: they stand behind a gap, as where a
/// packet was not recorded, or below position 0, as behind a SYN that its controller never took. This project's own.
#[derive(Drop)]
pub struct Stretch {
    /// The bytes as a flow that begins amid its stream, with the first of them; it has no conflict, since that of the flow is of all its
    /// bytes.
    pub flow: Flow,
    /// Of the first stretch of a flow the position at which its first bytes end.
    pub gap: Option<i64>,
}

/// What captures show that are read one behind the other: their flows to the assets of a policy, in the order of their beginning, also those
/// whose beginning they do not have, and the stamp of each record. A flow without a SYN begins with its first packet with text that has
/// neither SYN nor RST, and goes on up to the next SYN.
#[derive(Drop)]
pub struct Recording {
    pub flows: Vec<Flow>,
    /// The bytes of these flows that do not follow on their first ones: flow by flow, in the order of their places.
    pub stretches: Vec<Stretch>,
    /// That of the record with the number 1 first, in microseconds since the epoch.
    pub stamps: Vec<u64>,
}
