//! What earlier sessions of a client used of the rules that have a rate.
ghost use Rattle.std.specs.Prelude.{◌≡◌};
ghost use Rattle.cf_lane.specs.Over.{are_over};

use crate::rules::{Rules, all_are_over};
use std::marker::Model;

/// The rings that a session of a client leaves to a later one, of each asset of its site: one for each rule that has a rate. They
/// stand with the rules that the session had, so that leaving them takes no memory.
#[derive(Drop)]
pub struct Rings {
    pub(crate) rules: Vec<Rules>,
}

impl Model for Rings {
    ghost use Rattle.std.specs.Prelude.{List};
    ghost use Rattle.cf_lane.specs.Ring.{RingValue};
    ghost use Rattle.cf_lane.specs.Rings.{rings_in};

    ghost Value = { List (List RingValue) };

    ghost view = { λ r. rings_in r.rules.items };
}

impl Rings {
    /// Whether nothing that they keep counts any more, at this moment or later.
    pub fn are_over(&self, moment: u64) -> bool
        ensures { result ≡ are_over moment self.now }
    {
        all_are_over(self.rules.as_slice(), moment)
    }
}
