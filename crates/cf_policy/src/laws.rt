//! Laws of the verdict and of sites: each is the contract of a function that does nothing.
ghost use Rattle.cf_policy.specs.Laws.{AllowsByFirstRule, KeepsDecidedActs};
ghost use Rattle.cf_policy.specs.SiteLaws.{AssetsStandAlone, SitesAreWhole, SitesAreWithin, SitesBeginWithAssets};

/// An act is allowed exactly where some allow rule has it and no earlier rule has it.
pub fn allows_by_first_rule()
    ensures { AllowsByFirstRule }
{}

/// A rule put at the end changes only acts that `Decider::Default` decided.
pub fn keeps_decided_acts()
    ensures { KeepsDecidedActs }
{}

/// The site at an endpoint of a policy that was read has each asset of the endpoint, and is in form. It begins with the asset at
/// the endpoint, which is alone where no two assets have one endpoint.
pub fn sites_are_whole()
    ensures whole { SitesAreWhole }
    ensures within { SitesAreWithin }
    ensures first { SitesBeginWithAssets }
    ensures lone { AssetsStandAlone }
{}
