//! What was seen, each act once however often it comes: acts in order, and behind them those that came since, which are put in order once
//! they are half as many.
ghost use Rattle.std.specs.Prelude.{◌≡◌, ◌<◌, ◌++◌, ◌∷◌, [], Contains, IfOk, OnOk, length, true};
ghost use Rattle.std.specs.List.Sorted.{IsStrictlySortedBy};
ghost use Rattle.cf_learn.specs.Reading.{HaveSame};
ghost use Rattle.cf_learn.specs.Rules.{seen_cmp};

use crate::seen::{Seen, is_same_kind};
use std::alloc::{AllocError, Global};

/// So many acts come in any case before they are put in order. This project's own.
const FEW: usize = 4_096;

/// Acts of clients.
#[derive(Drop)]
pub(crate) struct Gathering {
    /// Those that were put in order.
    pub(crate) sorted: Vec<Seen>,
    /// Those that came since and are none of these.
    pub(crate) loose: Vec<Seen>,
    /// The place in order behind the last that came once more: commands name points that follow each other.
    next: usize,
}

impl Gathering {
    /// None.
    pub(crate) fn new(alloc: Global) -> Gathering
        ensures { result.sorted.items ++ result.loose.items ≡ [] }
    {
        Gathering {
            sorted: Vec::new(alloc),
            loose: Vec::new(alloc),
            next: 0,
        }
    }

    /// Adds acts.
    pub(crate) fn add(&mut self, fresh: &[Seen]) -> Result<(), AllocError>
        ensures { OnOk result (HaveSame (self.new.sorted.items ++ self.new.loose.items)
            ((self.old.sorted.items ++ self.old.loose.items) ++ fresh.now)) }
    {
        for one in fresh {
            self.add_one(one)?;
        }
        Ok(())
    }

    fn add_one(&mut self, one: &Seen) -> Result<(), AllocError>
        ensures { OnOk result (HaveSame (self.new.sorted.items ++ self.new.loose.items)
            ((self.old.sorted.items ++ self.old.loose.items) ++ one.now ∷ [])) }
    {
        if self.has(one) {
            return Ok(());
        }
        self.loose.push(*one)?;
        if self.loose.len() > self.sorted.len() / 2 + FEW {
            self.settle()?;
        }
        Ok(())
    }

    /// Whether an act is one of those in order.
    fn has(&mut self, one: &Seen) -> bool
        ensures found { result ≡ true → Contains self.old.sorted.items one.now }
        ensures sorted { self.new.sorted ≡ self.old.sorted }
        ensures loose { self.new.loose ≡ self.old.loose }
    {
        if !is_at(self.sorted.as_slice(), self.next, one) {
            self.next = place_of(self.sorted.as_slice(), one);
            if !is_at(self.sorted.as_slice(), self.next, one) {
                return false;
            }
        }
        self.next += 1;
        true
    }

    /// Puts all in order, each once.
    fn settle(&mut self) -> Result<(), AllocError>
        ensures same { OnOk result (HaveSame self.new.sorted.items (self.old.sorted.items ++ self.old.loose.items)) }
        ensures none { OnOk result (self.new.loose.items ≡ []) }
        ensures once { OnOk result (IsStrictlySortedBy seen_cmp self.new.sorted.items) }
    {
        self.sorted.append(&mut self.loose)?;
        self.sorted.sort_unstable();
        self.sorted.dedup();
        Ok(())
    }

    /// All of them in order, each once.
    pub(crate) fn finish(self) -> Result<Vec<Seen>, AllocError>
        ensures same { IfOk result (λ seen. HaveSame seen.items (self.sorted.items ++ self.loose.items)) }
        ensures once { IfOk result (λ seen. IsStrictlySortedBy seen_cmp seen.items) }
    {
        let mut all = self;
        all.settle()?;
        Ok(all.sorted)
    }
}

/// Whether an act stands at a place.
fn is_at(sorted: &[Seen], place: usize, one: &Seen) -> bool
    ensures { result ≡ true → (place < length sorted.now) × Contains sorted.now one.now }
{
    match sorted.get(place) {
        Some(other) => is_same_kind(&other.kind, &one.kind) && other.point == one.point,
        None => false,
    }
}

/// Where an act stands in order, or would.
fn place_of(sorted: &[Seen], one: &Seen) -> usize {
    match sorted.binary_search(one) {
        Ok(place) => place,
        Err(place) => place,
    }
}
