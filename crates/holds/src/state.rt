//! The states of a route.

ghost use Rattle.std.specs.Prelude.{◌≡◌};
ghost use Rattle.holds.specs.States.{state_number, state_word, stands, is_waiting, is_clear, falls, rises, after};

use std::fmt;

/// What has become of a route.
#[derive(Clone, Copy, PartialEq, Eq)]
pub enum RouteState {
    /// Not set.
    Absent = 0,
    /// Set, and not ready yet.
    Waiting = 1,
    /// Ready: its start signal is permissive.
    Clear = 2,
    /// No longer ready: its start signal is at stop until the route is cleared again.
    Dropped = 3,
}

/// An accepted act on a route, as far as it concerns the route's state.
#[derive(Clone, Copy)]
pub(crate) enum RouteAct {
    Set,
    Clear,
    Release,
}

impl RouteState {
    /// The number of the state.
    pub fn number(self) -> u8
        ensures { result ≡ state_number self }
    {
        self as u8
    }

    /// The word for the state.
    fn word(self) -> &'static str
        ensures { result.now ≡ state_word self }
    {
        match self {
            RouteState::Absent => "absent",
            RouteState::Waiting => "waiting",
            RouteState::Clear => "clear",
            RouteState::Dropped => "dropped",
        }
    }

    /// Whether the route stands: all but absent do.
    pub fn stands(self) -> bool
        ensures { result ≡ stands self }
    {
        self != RouteState::Absent
    }

    pub fn is_waiting(self) -> bool
        ensures { result ≡ is_waiting self }
    {
        self == RouteState::Waiting
    }

    pub fn is_clear(self) -> bool
        ensures { result ≡ is_clear self }
    {
        self == RouteState::Clear
    }

    /// The state after a drop: a clear route that is not ready is dropped.
    pub fn falls(self, ready: bool) -> RouteState
        ensures { result ≡ falls self ready }
    {
        match (self, ready) {
            (RouteState::Clear, false) => RouteState::Dropped,
            (state, _) => state,
        }
    }

    /// The state after a raise: a waiting route that is ready is clear.
    pub fn rises(self, ready: bool) -> RouteState
        ensures { result ≡ rises self ready }
    {
        match (self, ready) {
            (RouteState::Waiting, true) => RouteState::Clear,
            (state, _) => state,
        }
    }

    /// The state after an act: a set route waits, a dropped one that is cleared waits again, a released one is absent.
    pub(crate) fn after(self, act: RouteAct) -> RouteState
        ensures { result ≡ after self act }
    {
        match (self, act) {
            (_, RouteAct::Set) | (RouteState::Dropped, RouteAct::Clear) => RouteState::Waiting,
            (state, RouteAct::Clear) => state,
            (_, RouteAct::Release) => RouteState::Absent,
        }
    }
}

impl fmt::Display for RouteState {
    ghost use Rattle.std.specs.Prelude.{Some};

    ghost output = { λ state. Some (state_word state) };

    fn fmt<W: fmt::Write>(&self, f: &mut fmt::Formatter<W>) -> fmt::Result {
        f.write_str(self.word())
    }
}
