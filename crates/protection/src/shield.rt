//! A request of a route, as a station sees it.

ghost use Rattle.protection.specs.Shields.{shield_of};

use flank::answering::Answering;
use flank::answers::Request;
use holds::interlocking::Interlocking;
use layout::position::Position;
use std::fmt;

/// An element that a route requests to shield a flank, the position in which it is requested, and whether the route holds it in that position.
#[derive(Clone, Copy, PartialEq, Eq, Default)]
pub struct Shield {
    pub element: u8,
    pub position: Position,
    pub held: bool,
}

/// A route, with what is held.
#[derive(Clone, Copy)]
pub(crate) struct Holder<'a> {
    pub(crate) interlocking: &'a Interlocking,
    pub(crate) route: usize,
}

/// A request of the route, with whether the route holds it.
impl Answering for Holder<'_> {
    type Answer = Shield;

    ghost answer_to = { λ holder request. shield_of holder.interlocking.now holder.route request };

    fn answer(&self, request: Request) -> Shield {
        let Request { element, position } = request;
        let held = self.interlocking.is_held_in(self.route, element, position);
        Shield {
            element,
            position,
            held,
        }
    }
}

impl fmt::Display for Shield {
    ghost use Rattle.std.specs.Prelude.{Some, codes, cond, decimal, ◌++◌};
    ghost use Rattle.layout.specs.Numbers.{position_number};

    ghost output = { λ shield. Some (codes "request " ++ (decimal shield.element ++ (codes " " ++ (decimal (position_number shield.position) ++ (codes " " ++ cond shield.held (codes "held") (codes "not held")))))) };

    fn fmt<W: fmt::Write>(&self, f: &mut fmt::Formatter<W>) -> fmt::Result {
        let element = self.element;
        let position = self.position.number();
        let held = if self.held { "held" } else { "not held" };
        write!(f, "request {element} {position} {held}")
    }
}
