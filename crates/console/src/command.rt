//! What a line can ask for.

use acts::act::Act;
use spoken::asked::Asked;

/// What is asked of an open station, and does not change it.
#[derive(Clone, Copy)]
pub(crate) enum Question {
    /// The state of a route.
    State(u8),
    /// The aspect of a signal.
    Aspect(u8),
    /// What protects a route.
    Protection(u8),
    /// The same, with lists of two lengths lent to the call.
    Lent {
        route: u8,
        requests: u8,
        branches: u8,
    },
    /// The acts since the opening, again.
    Replay,
}

/// What a line asks for.
#[derive(Clone, Copy)]
pub(crate) enum Command<'a> {
    /// What is asked of a closed station, or at any time.
    Usual(Asked<'a>),
    Open,
    Perform(Act),
    Ask(Question),
    Close,
}
