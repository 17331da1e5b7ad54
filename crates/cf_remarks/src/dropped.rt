//! Records by why they were dropped.

use crate::reason::{DropReason, REASONS, reason_of};
use cf_packet::{PacketRefusal, read_recorded};
use cf_view::LinkKind;

/// How many records there are, and how many of them were dropped for each reason. A count that would pass `u64::MAX` stays there.
#[derive(Clone, Copy)]
pub struct Dropped {
    pub records: u64,
    pub(crate) counts: [u64; REASONS],
    /// The number, from 1, of the first record of each reason.
    pub(crate) firsts: [u64; REASONS],
    /// Those with a wrong TCP sum that is what a sending host's recorder leaves.
    pub(crate) partial: u64,
}

impl Dropped {
    /// No records.
    pub(crate) fn new() -> Dropped {
        Dropped {
            records: 0,
            counts: [0; REASONS],
            firsts: [0; REASONS],
            partial: 0,
        }
    }

    /// Counts the newest record, which was dropped.
    pub(crate) fn count(&mut self, link: &LinkKind, body: &[u8], refusal: PacketRefusal) {
        let reason = reason_of(link, body, refusal);
        let place = reason as usize;
        if self.counts[place] == 0 {
            self.firsts[place] = self.records;
        }
        self.counts[place] = self.counts[place].saturating_add(1);
        if matches!(reason, DropReason::BadTcpSum) && read_recorded(link, body).is_ok() {
            self.partial = self.partial.saturating_add(1);
        }
    }
}
