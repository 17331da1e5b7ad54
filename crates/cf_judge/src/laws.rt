//! Laws of what is judged: contracts of functions that do nothing.
ghost use Rattle.cf_judge.specs.SiteLaws.{OneAssetFates, PartsFates};

/// Each asset of a site is judged as if it had its endpoint for itself, and as if only its own units came.
pub fn each_asset_is_judged_alone()
    ensures one { OneAssetFates }
    ensures parts { PartsFates }
{}
