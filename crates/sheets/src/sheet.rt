//! What a sheet has.

use bounded::bounded::Bounded;
use layout::kind::Kind;
use layout::position::Position;

/// What the start signal of a route shows when the route is clear.
#[derive(Clone, Copy, PartialEq, Eq)]
pub enum Showing {
    /// Shunting is allowed.
    Shunting,
    /// Proceed slowly: the route has a zero overlap.
    Slow,
    /// Proceed.
    Proceed,
}

/// What a route wants of an element.
#[derive(Clone, Copy, PartialEq, Eq, Default)]
pub struct Want {
    /// The position in which the route itself needs it: a point as it is passed, a derailer off, its start signal in use.
    pub need: Option<Position>,
    /// The position in which it is to shield a flank of the route.
    pub request: Option<Position>,
}

/// Whether a route uses a section in its path, and in its overlap.
#[derive(Clone, Copy, PartialEq, Eq, Default)]
pub struct SectionUse {
    pub path: bool,
    pub overlap: bool,
}

/// All that the acts need to know of a route.
#[derive(Clone, Copy)]
pub struct RouteSheet {
    pub showing: Showing,
    /// The start signal, which is the first element of the path; 0 where there is no path.
    pub first: u8,
    /// The signal at which the path ends, if it ends at one.
    pub last_signal: Option<u8>,
    /// The signal whose stop lamp is to be proved at the end, if any.
    pub end_lamp: Option<u8>,
    /// What the route wants, by element.
    pub wants: [Want; 96],
    /// The elements of which it wants anything, ascending.
    pub wanted: Bounded<u8, 96>,
    /// What the route uses, by section.
    pub sections: [SectionUse; 64],
    /// The sections that it uses, ascending.
    pub used: Bounded<u8, 64>,
}

/// All that the acts need to know of an element.
#[derive(Clone, Copy, PartialEq, Eq, Default)]
pub struct ElementSheet {
    pub kind: Kind,
    pub section: Option<u8>,
}

/// All that the acts need to know of a plan.
#[derive(Clone, Copy)]
pub struct Sheets {
    /// By element.
    pub elements: [ElementSheet; 96],
    /// Whether some element lies in a section, by section.
    pub known: [bool; 64],
    /// By route.
    pub routes: Bounded<RouteSheet, 64>,
}
