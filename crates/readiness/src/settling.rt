//! What settles after every accepted act, and the two ways of settling.

ghost use Rattle.std.specs.Prelude.{◌≡◌};
ghost use Rattle.readiness.specs.Settling.{concerns, leaves, state_after, settled};

use crate::passes::pass_until;
use field::field::Field;
use holds::interlocking::Interlocking;
use holds::state::RouteState;
use sheets::sheet::Sheets;

/// What is done with the routes: clear ones that are not ready are dropped, waiting ones that are ready are raised.
#[derive(Clone, Copy)]
pub enum Settling {
    Dropping,
    Raising,
}

impl Settling {
    /// Whether routes in a state are concerned: clear ones by dropping, waiting ones by raising.
    pub(crate) fn concerns(self, state: RouteState) -> bool
        ensures { result ≡ concerns self state }
    {
        match self {
            Settling::Dropping => state.is_clear(),
            Settling::Raising => state.is_waiting(),
        }
    }

    /// Whether a route that is concerned is left as it is, ready or not.
    pub(crate) fn leaves(self, ready: bool) -> bool
        ensures { result ≡ leaves self ready }
    {
        match self {
            Settling::Dropping => ready,
            Settling::Raising => !ready,
        }
    }

    /// The state after a drop or a raise.
    pub(crate) fn state_after(self, state: RouteState, ready: bool) -> RouteState
        ensures { result ≡ state_after self state ready }
    {
        match self {
            Settling::Dropping => state.falls(ready),
            Settling::Raising => state.rises(ready),
        }
    }
}

/// Drops clear routes until every clear route is ready, then raises waiting routes until none of them is ready.
pub fn settle<F: Field>(sheets: &Sheets, interlocking: &mut Interlocking, field: &F)
    ensures { interlocking.new ≡ settled sheets.now (F.meaning field.now) interlocking.old }
{
    pass_until(Settling::Dropping, sheets, interlocking, field);
    pass_until(Settling::Raising, sheets, interlocking, field);
}
