//! The names of files of which a read failed, as clauses see them.
ghost use Rattle.std.specs.Borrow.{ftrue};
ghost use Rattle.std.specs.Prelude.{◌≡◌, ◌≢◌, ◌≤◌, ◌∷◌, [], List, ℕ};
ghost use Rattle.cf_outside.specs.Faults.{Rose, times_in};

use std::marker::Model;

/// The names of the files of which a read failed, the newest first. They exist in clauses alone: this has no bytes, and its calls do
/// nothing at run time, so that no name is lost where memory runs out. This project's own.
#[derive(Drop)]
pub struct FailedReads {
    /// The names.
    pub ghost names: { List (List ℕ) },
}

impl Model for FailedReads {
    ghost also_owns = { λ _. ftrue };
}

/// The name of a file.
#[derive(Clone, Copy, Drop)]
struct Named<'a> {
    name: &'a str,
}

impl FailedReads {
    /// No name.
    pub fn new() -> FailedReads
        ensures { result.names ≡ [] }
    {
        FailedReads {}
    }

    /// Notes a name once more.
    pub fn note(&mut self, name: &str)
        ensures names { self.new.names ≡ name.now ∷ self.old.names }
        ensures later { times_in self.old.names name.now ≤ times_in self.new.names name.now }
        ensures rose { Rose (times_in self.old.names name.now) (times_in self.new.names name.now) }
        ensures others { (other : List ℕ) → other ≢ name.now → times_in self.new.names other ≡ times_in self.old.names other }
    {
        *self = self.with(&Named { name });
    }

    fn with(&self, _named: &Named<'_>) -> FailedReads
        ensures { result.names ≡ _named.now.name.now ∷ self.now.names }
    {
        FailedReads {}
    }
}
