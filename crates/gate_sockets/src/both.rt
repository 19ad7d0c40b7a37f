//! What there is once a side.

ghost use Rattle.std.specs.Prelude.{◌≡◌};
ghost use Rattle.gate_sockets.specs.inner.Both.{of_side};

use gate_outside::Side;

/// The client's and the host's.
#[derive(Drop)]
pub(crate) struct Both<T> {
    pub(crate) client: T,
    pub(crate) host: T,
}

impl<T> Both<T> {
    ghost use Rattle.std.specs.Borrow.{sem};
    ghost use Rattle.gate_sockets.specs.inner.Lent.{lends_side};

    /// The side's.
    pub(crate) fn of(&self, side: Side) -> &T
        ensures { result.now ≡ of_side self.now side }
    {
        match side {
            Side::Client => &self.client,
            Side::Host => &self.host,
        }
    }

    /// The side's, to change.
    pub(crate) fn of_mut(&mut self, side: Side) -> &mut T
        ensures* writes_back { sem 𝓛 (lends_side T.row self.entry side result) }
        ensures value { result.now ≡ of_side self.old side }
    {
        match side {
            Side::Client => &mut self.client,
            Side::Host => &mut self.host,
        }
    }
}
