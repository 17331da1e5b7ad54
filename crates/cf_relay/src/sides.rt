//! One thing for each side.
use cf_view::Side;

/// One thing for each side.
#[derive(Drop)]
pub(crate) struct Sides<T> {
    pub(crate) client: T,
    pub(crate) controller: T,
}

impl<T> Sides<T> {
    ghost use Rattle.std.specs.Prelude.{◌≡◌};
    ghost use Rattle.std.specs.Borrow.{sem};
    ghost use Rattle.cf_relay.specs.Sides.{LendsSide, of_side};

    /// That of a side.
    pub(crate) fn of_mut(&mut self, side: Side) -> &mut T
        ensures* lends { sem 𝓛 (LendsSide T.row self.entry side result) }
        ensures value { result.now ≡ of_side side self.old }
    {
        match side {
            Side::Client => &mut self.client,
            Side::Controller => &mut self.controller,
        }
    }
}
