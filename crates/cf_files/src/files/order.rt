//! The order in which octets were gathered, over all files.

use std::alloc::Global;

/// How many runs of octets are kept at most. Where two files take turns at each line, their octets fill a piece before.
const RUNS: usize = 4_096;

/// Octets of one file, named by its place among the open ones, that came one after the other.
#[derive(Clone, Copy)]
struct Run {
    place: usize,
    count: usize,
}

/// In which order the octets came that are gathered for the open files.
#[derive(Drop)]
pub(crate) struct Order {
    runs: Vec<Run>,
}

impl Order {
    /// An order in which nothing is gathered.
    pub(crate) fn new(alloc: Global) -> Self {
        Order {
            runs: Vec::new(alloc),
        }
    }

    /// Notes octets that came for a file, behind all others; whether they were noted.
    pub(crate) fn note(&mut self, place: usize, count: usize) -> bool {
        if let Some(run) = self.runs.last_mut()
            && run.place == place
        {
            run.count = run.count.saturating_add(count);
            return true;
        }
        self.runs.len() < RUNS && self.runs.push(Run { place, count }).is_ok()
    }

    /// How many octets of a file are among the first of all.
    pub(crate) fn share(&self, place: usize, first: usize) -> usize {
        let mut left = first;
        let mut share = 0usize;
        for run in self.runs.iter() {
            let count = run.count.min(left);
            left = left.saturating_sub(count);
            if run.place == place {
                share = share.saturating_add(count);
            }
        }
        share
    }

    /// How many octets of all files came before the one of a file before which so many of its own came.
    pub(crate) fn before(&self, place: usize, own: usize) -> usize {
        let mut own = own;
        let mut all = 0usize;
        for run in self.runs.iter() {
            if run.place == place {
                if run.count > own {
                    return all.saturating_add(own);
                }
                own = own.saturating_sub(run.count);
            }
            all = all.saturating_add(run.count);
        }
        all
    }

    /// Forgets all octets, once they are written or given up.
    pub(crate) fn clear(&mut self) {
        self.runs.clear();
    }
}
