//! A law of what is learned: the contract of a function that does nothing.
ghost use Rattle.cf_learn.specs.OwnUnits.{ShowsOwnUnits};

/// What is shown of an asset of a site came in units that the filter takes for that asset, and for no other of the site.
pub fn shows_own_units()
    ensures { ShowsOwnUnits }
{}
