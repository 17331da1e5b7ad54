//! A law of what policies mean: the contract of a function that does nothing.
ghost use Rattle.cf_policylang.specs.Laws.{LoneAssetsAreReadAlone};

/// An asset whose endpoint no earlier one has is read by its own table alone, as every asset is in versions 1 and 2.
pub fn lone_assets_are_read_alone()
    ensures { LoneAssetsAreReadAlone }
{}
