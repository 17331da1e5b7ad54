//! The numbers of the formats.
ghost use Rattle.cf_box.specs.Numbers.{HasNumbers};

/// The numbers that definitions cite by name are these.
pub(crate) fn numbers_are()
    ensures { HasNumbers }
{}
