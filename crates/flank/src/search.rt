//! The search for what shields the flanks of a route.

ghost use Rattle.std.specs.Prelude.{◌≡◌, false, slice_index_or};
ghost use Rattle.flank.specs.Used.{used_table};
ghost use Rattle.flank.specs.Search.{marks, walk};

use crate::answers::Mark;
use crate::marks::change_mark;
use crate::meeting::Meeting;
use crate::signals::{beyond_leg, far_end, pass_signals};
use crate::used::used_by;
use layout::element::{Element, Join};
use layout::position::Position;
use layout::route::Route;
use tables::table::at_or;

/// A drawing and a route over it, with the table of the elements that the route uses.
#[derive(Drop)]
pub(crate) struct Search<'a> {
    pub(crate) elements: &'a [Element],
    pub(crate) route: &'a Route,
    used: [bool; 96],
    ghost uses: { used ≡ used_table elements.now route.now },
}

impl<'a> Search<'a> {
    pub(crate) fn of(elements: &'a [Element], route: &'a Route) -> Search<'a>
        ensures elements { result.elements.now ≡ elements.now }
        ensures route { result.route.now ≡ route.now }
    {
        Search {
            elements,
            route,
            used: used_by(elements, route),
        }
    }

    /// Whether the route uses an element.
    pub(crate) fn is_used(&self, number: u8) -> bool
        ensures { result ≡ slice_index_or self.now.used number false }
    {
        at_or(&self.used, number as usize, false)
    }

    /// Marks what the walks request that come to a port and may still pass `spare` points that count, and where they end open.
    #[tactic(auto, using(crate::proofs::Marking::marks_append), unfolding(crate::specs::Search::found, crate::specs::Search::marks))]
    pub(crate) fn walk(&self, from: Join, spare: u8, marked: &mut [Mark])
        ensures { marked.new ≡ marks (walk spare self.now.elements.now self.now.used from) marked.old }
    {
        let met = pass_signals(self.elements, from, false);
        let element = met.element;
        match self.meet(met) {
            Meeting::Ends => {}
            Meeting::Shields(position) => {
                change_mark(marked, element, |mark| mark.asked(position));
            }
            Meeting::AtToe if spare > 0 => {
                let plus = beyond_leg(self.elements, element, Position::Plus);
                self.walk(plus, spare - 1, marked);
                let minus = beyond_leg(self.elements, element, Position::Minus);
                self.walk(minus, spare - 1, marked);
            }
            Meeting::AtLeg if spare > 0 => {
                let toe = far_end(self.elements, Join { element, port: 0 });
                self.walk(toe, spare - 1, marked);
            }
            Meeting::AtToe | Meeting::AtLeg => change_mark(marked, element, Mark::opened),
        }
    }
}
