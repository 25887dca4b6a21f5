//! What can be done with a station.

use std::fmt;

/// What the outdoor equipment tells, with the number of an element or section and a value.
#[derive(Clone, Copy, PartialEq, Eq)]
pub enum Event {
    /// A point or derailer reports 0, 1, or 2 for no control.
    Report { element: u8, value: u8 },
    /// A point or derailer is blocked (1) or not (0).
    Block { element: u8, value: u8 },
    /// The stop lamp of a signal burns (1) or is dark (0).
    Lamp { signal: u8, value: u8 },
    /// A section is occupied (1) or free (0).
    Occupation { section: u8, value: u8 },
}

/// What can be done with an open station.
#[derive(Clone, Copy, PartialEq, Eq)]
pub enum Act {
    /// A route is set.
    Set { route: u8 },
    /// A route is cleared: dropped, it waits again.
    Clear { route: u8 },
    /// A route is released.
    Release { route: u8 },
    /// Something is told.
    Tell { event: Event },
}

/// An event is an act: it is told.
impl From<Event> for Act {
    ghost use Rattle.std.specs.Prelude.{◌≡◌};
    ghost use Rattle.acts.specs.declared.act.Act.TheVariants.{Tell};

    ghost from_gives = { λ event act. act ≡ Tell event };

    fn from(event: Event) -> Act {
        Act::Tell { event }
    }
}

impl fmt::Display for Event {
    ghost use Rattle.std.specs.Prelude.{Some};
    ghost use Rattle.acts.specs.Texts.{event_text};

    ghost output = { λ event. Some (event_text event) };

    fn fmt<W: fmt::Write>(&self, f: &mut fmt::Formatter<W>) -> fmt::Result {
        match *self {
            Event::Report { element, value } => write!(f, "report {element} {value}"),
            Event::Block { element, value } => write!(f, "block {element} {value}"),
            Event::Lamp { signal, value } => write!(f, "lamp {signal} {value}"),
            Event::Occupation { section, value } => write!(f, "occupy {section} {value}"),
        }
    }
}

impl fmt::Display for Act {
    ghost use Rattle.std.specs.Prelude.{Some};
    ghost use Rattle.acts.specs.Texts.{act_text};

    ghost output = { λ act. Some (act_text act) };

    fn fmt<W: fmt::Write>(&self, f: &mut fmt::Formatter<W>) -> fmt::Result {
        match *self {
            Act::Set { route } => write!(f, "set {route}"),
            Act::Clear { route } => write!(f, "clear {route}"),
            Act::Release { route } => write!(f, "release {route}"),
            Act::Tell { event } => write!(f, "{event}"),
        }
    }
}
