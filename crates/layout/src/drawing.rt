//! The content of a plan, not yet checked.

ghost use Rattle.std.specs.Prelude.{◌≡◌};
ghost use Rattle.layout.specs.Drawings.{no_drawing};

use crate::element::Element;
use crate::route::Route;
use bounded::bounded::Bounded;

/// Elements and routes, each numbered from 0 in their order.
#[derive(Clone, Copy)]
pub struct Drawing {
    pub elements: Bounded<Element, 96>,
    pub routes: Bounded<Route, 64>,
}

impl Drawing {
    /// A drawing with no element and no route.
    pub fn blank() -> Drawing
        ensures { result ≡ no_drawing }
    {
        Drawing {
            elements: Bounded::empty(Element::default()),
            routes: Bounded::empty(Route::default()),
        }
    }
}
