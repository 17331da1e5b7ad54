//! What is kept of sessions that ended, for later ones of their clients: what they used of the rules that have a rate.
//! A walk goes over what is kept once, and is made only where a session begins or ends.
ghost use Rattle.std.specs.Prelude.{◌≡◌, ◌++◌, ◌∷◌, ◌<◌, ◌≤◌, [], IfOk, None, Some, false, if◌then◌else◌, is_some, length, option_map, true};
ghost use Rattle.std.specs.List.{filter, position};
ghost use Rattle.cf_lane.specs.Over.{are_over};
ghost use Rattle.cf_serve.specs.Keeping.{counts_still, held_value, takes_entry};
ghost use Rattle.cf_serve.specs.Lending.{Drops, Has, KeepsOthers, KeptValue, Lent, MayLend, kept_at, most_kept, rings_in};

use cf_lane::Rings;
use std::alloc::{AllocError, Global};
use std::marker::Model;

/// Of how many clients something is kept at most. This project's own choice.
const KEPT_LIMIT: usize = 1024;

/// What the sessions of a client left as the last of them ended; or the number of the session that has it, or had.
#[derive(Drop)]
pub(crate) enum Held {
    Here(Rings),
    Lent(u64),
}

impl Held {
    /// Whether something of it counts at a moment, or a session has it.
    fn counts_still(&self, moment: u64) -> bool
        ensures { result ≡ counts_still moment (held_value self.now) }
    {
        match self {
            Held::Here(rings) => !rings.are_over(moment),
            Held::Lent(_) => true,
        }
    }
}

/// The rings that are there.
fn rings_of(held: Option<Held>) -> Option<Rings>
    ensures { result ≡ rings_in (option_map held_value held) }
{
    match held {
        Some(Held::Here(rings)) => Some(rings),
        Some(Held::Lent(_)) | None => None,
    }
}

/// What is kept of the client of an address at a listening place.
#[derive(Drop)]
pub(crate) struct Kept {
    place: usize,
    address: u32,
    held: Held,
}

impl Model for Kept {
    ghost use Rattle.cf_serve.specs.Keeping.{held_value};
    ghost use Rattle.cf_serve.specs.Lending.{KeptValue};

    ghost Value = { KeptValue };

    ghost view = { λ k. record { place = k.place; address = k.address; kept = held_value k.held } };
}

impl Kept {
    /// Whether it is of the client of this address at a listening place.
    fn is_of(&self, place: usize, address: u32) -> bool
        ensures { result ≡ takes_entry place address self.now }
    {
        self.place == place && self.address == address
    }

    /// Whether something of it counts at a moment, or a session has it.
    fn counts_still(&self, moment: u64) -> bool
        ensures { result ≡ counts_still moment self.now.kept }
    {
        self.held.counts_still(moment)
    }

    /// Whether no session has it.
    fn is_here(&self) -> bool
        ensures { result ≡ is_some (rings_in (Some self.now.kept)) }
    {
        matches!(&self.held, Held::Here(_))
    }

    /// What is kept.
    fn into_held(self) -> Held
        ensures { held_value result ≡ self.kept }
    {
        self.held
    }
}

/// What is kept of all clients, one entry for each. Its memory is taken once.
#[derive(Drop)]
pub(crate) struct Keeping {
    kept: Vec<Kept>,
}

impl Model for Keeping {
    ghost use Rattle.std.specs.Prelude.{List, length, vec_capacity, ◌≤◌};
    ghost use Rattle.cf_serve.specs.Keeping.{AreSingle};
    ghost use Rattle.cf_serve.specs.Lending.{KeptValue, most_kept};

    ghost Value = { List KeptValue };

    ghost view = { λ k. k.kept.items };

    ghost invariant = { λ k. AreSingle k.kept.items × (length k.kept.items ≤ most_kept) × (most_kept ≤ vec_capacity k.kept) };
}

impl Keeping {
    /// Nothing is kept yet, and there is room for all that may be.
    pub(crate) fn new(alloc: Global) -> Result<Keeping, AllocError>
        ensures none { IfOk result (λ keeping. keeping ≡ []) }
    {
        let kept = Vec::with_capacity(alloc, KEPT_LIMIT)?;
        Ok(Keeping { kept })
    }

    /// The place of the entry of the client of this address at a listening place, if it has one.
    fn place_of(&self, place: usize, address: u32) -> Option<usize>
        ensures { result ≡ position (takes_entry place address) self.now }
    {
        self.kept.iter().position(|kept| kept.is_of(place, address))
    }

    /// Drops what counts no more at a moment.
    fn drop_over(&mut self, moment: u64)
        ensures { self.new ≡ filter (λ k. counts_still moment k.kept) self.old }
    {
        self.kept.retain(|kept| kept.counts_still(moment));
    }

    /// Puts an entry of a client that has none behind the others.
    fn add(&mut self, entry: Kept)
        requires room { length self.old < most_kept }
        requires free { kept_at self.old entry.place entry.address ≡ None }
        ensures { self.new ≡ self.old ++ entry ∷ [] }
    {
        let _ = self.kept.push(entry);
    }

    /// Takes out what is kept of the client of this address at a listening place, if something is.
    fn take(&mut self, place: usize, address: u32) -> Option<Held>
        ensures held { option_map held_value result ≡ kept_at self.old place address }
        ensures gone { kept_at self.new place address ≡ None }
        ensures others { KeepsOthers place address self.old self.new }
        ensures room { is_some result ≡ true → length self.new < most_kept }
        ensures same { is_some result ≡ false → self.new ≡ self.old }
    {
        let index = self.place_of(place, address)?;
        Some(self.kept.remove(index).into_held())
    }

    /// Whether something may be kept of one more client. Where room is wanting, what counts no more at this moment is dropped first.
    fn has_room(&mut self, moment: u64) -> bool
        ensures room { result ≡ true → length self.new < most_kept }
        ensures full { result ≡ false → length self.new ≡ most_kept }
        ensures drops { Drops moment self.old self.new }
        ensures same { length self.old < most_kept → self.new ≡ self.old }
    {
        if self.kept.len() < KEPT_LIMIT {
            return true;
        }
        self.drop_over(moment);
        self.kept.len() < KEPT_LIMIT
    }

    /// Whether a session of a client may have what is kept of it: no other one has it, and where nothing is kept, there is room. Where room
    /// is wanting, what counts no more at this moment is dropped first.
    pub(crate) fn may_lend(&mut self, place: usize, address: u32, moment: u64) -> bool
        ensures may { result ≡ true → MayLend place address self.new }
        ensures not { result ≡ false → MayLend place address self.new → ⊥ }
        ensures own { kept_at self.new place address ≡ kept_at self.old place address }
        ensures drops { Drops moment self.old self.new }
        ensures same { MayLend place address self.old → self.new ≡ self.old }
    {
        match self.place_of(place, address) {
            Some(index) => self.kept[index].is_here(),
            None => self.has_room(moment),
        }
    }

    /// Lends a session what is kept of its client.
    pub(crate) fn lend(&mut self, session: u64, place: usize, address: u32) -> Option<Rings>
        requires may { MayLend place address self.old }
        ensures rings { result ≡ rings_in (kept_at self.old place address) }
        ensures lent { kept_at self.new place address ≡ Some (Lent session) }
        ensures others { KeepsOthers place address self.old self.new }
    {
        let held = self.take(place, address);
        self.add(Kept {
            place,
            address,
            held: Held::Lent(session),
        });
        rings_of(held)
    }

    /// Keeps what a session leaves that ended at a moment, unless nothing of it counts any more.
    pub(crate) fn give_back(
        &mut self,
        session: u64,
        place: usize,
        address: u32,
        rings: Rings,
        moment: u64,
    )
        requires lent { kept_at self.old place address ≡ Some (Lent session) }
        ensures own { kept_at self.new place address ≡ (if are_over moment rings then None else Some (Has rings)) }
        ensures others { KeepsOthers place address self.old self.new }
    {
        let _ = self.take(place, address);
        if !rings.are_over(moment) {
            self.add(Kept {
                place,
                address,
                held: Held::Here(rings),
            });
        }
    }
}
