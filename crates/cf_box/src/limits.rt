//! The numbers of the limits.
ghost use Rattle.cf_box.specs.Limits.{HasLimits};

/// The limits that definitions cite by name are these numbers.
pub(crate) fn limits_are()
    ensures { HasLimits }
{}
