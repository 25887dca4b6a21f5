//! What the search out of the flanks of a route answers.

use layout::position::Position;
use std::fmt;

/// An element, and the position in which a route requests it to shield a flank.
#[derive(Clone, Copy, PartialEq, Eq, Default)]
pub struct Request {
    pub element: u8,
    pub position: Position,
}

/// A used point, and the last point of a walk out of its flank that ends open.
#[derive(Clone, Copy, PartialEq, Eq, Default)]
pub struct Branch {
    pub from: u8,
    pub last: u8,
}

/// What walks leave at an element: whether it is requested in plus and in minus, and whether one of them ends open there.
#[derive(Clone, Copy, PartialEq, Eq, Default)]
pub struct Mark {
    pub plus: bool,
    pub minus: bool,
    pub open_end: bool,
}

impl fmt::Display for Request {
    ghost use Rattle.std.specs.Prelude.{Some, codes, decimal, ◌++◌};
    ghost use Rattle.layout.specs.Numbers.{position_number};

    ghost output = { λ request. Some (codes "request " ++ (decimal request.element ++ (codes " " ++ decimal (position_number request.position)))) };

    fn fmt<W: fmt::Write>(&self, f: &mut fmt::Formatter<W>) -> fmt::Result {
        let element = self.element;
        let position = self.position.number();
        write!(f, "request {element} {position}")
    }
}

impl fmt::Display for Branch {
    ghost use Rattle.std.specs.Prelude.{Some, codes, decimal, ◌++◌};

    ghost output = { λ branch. Some (codes "open " ++ (decimal branch.from ++ (codes " " ++ decimal branch.last))) };

    fn fmt<W: fmt::Write>(&self, f: &mut fmt::Formatter<W>) -> fmt::Result {
        let from = self.from;
        let last = self.last;
        write!(f, "open {from} {last}")
    }
}
