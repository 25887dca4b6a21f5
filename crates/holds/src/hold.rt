//! The hold of one element.

ghost use Rattle.std.specs.Prelude.{◌≡◌};
ghost use Rattle.holds.specs.Holds.{granted, left_by, held_in, open_to};

use crate::routes::{NO_ROUTES, RouteSet};
use layout::position::Position;

/// The position in which an element is held, and the routes that hold it.
#[derive(Clone, Copy)]
pub struct Hold {
    pub(crate) position: Position,
    pub(crate) routes: RouteSet,
}

/// A hold of nobody.
pub(crate) const FREE: Hold = Hold {
    position: Position::Plus,
    routes: NO_ROUTES,
};

impl Hold {
    /// The route joins, in this position.
    pub(crate) fn grant(&mut self, route: usize, position: Position)
        ensures { self.new ≡ granted self.old route position }
    {
        self.position = position;
        self.routes.insert(route);
    }

    /// The route leaves.
    pub(crate) fn leave(&mut self, route: usize)
        ensures { self.new ≡ left_by self.old route }
    {
        self.routes.remove(route);
    }

    /// Whether the route holds the element in this position.
    pub(crate) fn is_held_in(&self, route: usize, position: Position) -> bool
        ensures { result ≡ held_in self.now route position }
    {
        self.routes.contains(route) && self.position == position
    }

    /// Whether nobody holds the element, or it is held in this position.
    pub(crate) fn is_open_to(&self, position: Position) -> bool
        ensures { result ≡ open_to self.now position }
    {
        self.routes.is_empty() || self.position == position
    }
}
