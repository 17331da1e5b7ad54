//! Laws of the list of links, as the contracts of functions with empty bodies.
ghost use Rattle.cf_links.specs.Laws.{SessionsAreApart};

/// What a session adds to the list of all is its own, and no other's.
#[tactic(auto, using(crate::proofs::Projection::added_own, crate::proofs::Projection::added_other))]
pub fn sessions_are_apart()
    ensures apart { SessionsAreApart }
{}
