//! The stamps of those records that remarks are of.
ghost use Rattle.std.specs.Prelude.{◌≡◌, ◌+◌, true, ◌<◌, ◌≤◌, ◌++◌, ◌∷◌, ◌^◌, [], List, ℕ, OnOk, Some, length, slice_get};
ghost use Rattle.cf_review.specs.Stamps.{AreStamps, has_stamp, stamp_by};

use cf_view::NoMemory;
use std::alloc::Global;
use std::marker::Model;

/// The stamp of a record.
#[derive(Clone, Copy)]
pub(crate) struct Stamp {
    /// The number of the record, counted from 1.
    pub(crate) number: u64,
    /// In microseconds since the epoch.
    pub(crate) stamp: u64,
}

/// The stamps of some records, in the order of the records.
#[derive(Drop)]
pub struct Stamps {
    pub(crate) kept: Vec<Stamp>,
}

impl Model for Stamps {
    ghost use Rattle.std.specs.Prelude.{List};
    ghost use Rattle.std.specs.List.Sorted.{IsNonDecreasingBy};
    ghost use Rattle.cf_review.specs.declared.stamps.Stamp.{Stamp as Fields};

    ghost Value = { List Fields };

    ghost view = { λ s. s.kept.items };

    ghost invariant = { λ s. IsNonDecreasingBy (λ (x : Fields). x.number) s.kept.items };
}

impl Stamps {
    /// No stamps.
    pub fn new(alloc: Global) -> Stamps
        ensures { (stamps : List ℕ) → AreStamps stamps result }
    {
        Stamps {
            kept: Vec::new(alloc),
        }
    }

    /// Keeps that of the newest record.
    pub(crate) fn keep(&mut self, number: u64, stamp: u64) -> Result<(), NoMemory>
        requires number { (0 < number) × (number < 2 ^ 32) }
        requires newest { (i : ℕ) (x : Stamp) → slice_get self.old i ≡ Some x → x.number < number }
        ensures has { OnOk result (has_stamp self.new number ≡ true) }
        ensures others { OnOk result ((other : ℕ) → has_stamp self.old other ≡ true → has_stamp self.new other ≡ true) }
        ensures stamps { OnOk result ((stamps : List ℕ) → length stamps < number → number ≤ length stamps + 1 → AreStamps stamps self.old
            → AreStamps (stamps ++ stamp ∷ []) self.new) }
    {
        match self.kept.push(Stamp { number, stamp }) {
            Ok(()) => Ok(()),
            Err(_) => Err(NoMemory),
        }
    }

    /// That of a record that has one.
    pub(crate) fn at(&self, number: u64) -> u64
        ensures { result ≡ stamp_by self.now number }
    {
        let behind = self
            .kept
            .as_slice()
            .partition_point(|stamp| stamp.number < number);
        match self.kept.as_slice().get(behind) {
            Some(stamp) if stamp.number == number => stamp.stamp,
            Some(_) | None => 0,
        }
    }
}
