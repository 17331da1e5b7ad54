//! The four axes of what a rule tests beside the code.
ghost use Rattle.std.specs.Prelude.{◌≡◌};
ghost use Rattle.cf_compare.specs.Cells.{axis_spans, lowest, highest};

use cf_policy::{
    HIGHEST_ADDRESS, HIGHEST_GROUP, HIGHEST_POINT, HIGHEST_VALUE, Items, LOWEST_VALUE, Rule, Span,
};

/// Where a rule's lists of numbers lie, but for the codes.
#[derive(Clone, Copy)]
pub(crate) enum Axis {
    Clients,
    Groups,
    Points,
    Values,
}

/// The least number of an axis.
pub(crate) fn lowest(axis: Axis) -> i64
    ensures { result ≡ lowest axis }
{
    match axis {
        Axis::Clients | Axis::Groups | Axis::Points => 0,
        Axis::Values => LOWEST_VALUE,
    }
}

/// The greatest number of an axis.
pub(crate) fn highest(axis: Axis) -> i64
    ensures { result ≡ highest axis }
{
    match axis {
        Axis::Clients => HIGHEST_ADDRESS,
        Axis::Groups => HIGHEST_GROUP,
        Axis::Points => HIGHEST_POINT,
        Axis::Values => HIGHEST_VALUE,
    }
}

/// What a rule states on an axis.
pub(crate) fn axis_spans(axis: Axis, rule: &Rule) -> &Items<Span>
    ensures { result.now ≡ axis_spans axis rule.now }
{
    match axis {
        Axis::Clients => &rule.clients,
        Axis::Groups => &rule.groups,
        Axis::Points => &rule.points,
        Axis::Values => &rule.values,
    }
}
