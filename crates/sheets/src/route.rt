//! The sheet of one route.

ghost use Rattle.std.specs.Prelude.{◌≡◌};
ghost use Rattle.sheets.specs.Sheets.{showing_of, signal_at, is_spared, last_signal_of, end_lamp_of, sheet_of};

use crate::lists::numbers_in;
use crate::sections::sections_of;
use crate::sheet::{RouteSheet, Showing};
use crate::wants::wants_of;
use layout::element::Element;
use layout::kind::Marks;
use layout::ports::element_at;
use layout::route::{Route, RouteClass};

/// What the start signal of a clear route shows.
fn showing_of(route: &Route) -> Showing
    ensures { result ≡ showing_of route.now }
{
    match (route.class, route.zero_overlap) {
        (RouteClass::Shunting, _) => Showing::Shunting,
        (RouteClass::Train, true) => Showing::Slow,
        (RouteClass::Train, false) => Showing::Proceed,
    }
}

/// An element, if it is a signal.
fn signal_at(elements: &[Element], number: u8) -> Option<u8>
    ensures { result ≡ signal_at elements.now number }
{
    element_at(elements, number as usize)
        .kind
        .is_signal()
        .then_some(number)
}

/// Whether marks spare the lamp.
fn is_spared(marks: Option<Marks>) -> bool
    ensures { result ≡ is_spared marks }
{
    marks.is_some_and(|marks| marks.lamp_spared)
}

/// The signal at which a path ends.
fn last_signal_of(elements: &[Element], path: &[u8]) -> Option<u8>
    ensures { result ≡ last_signal_of elements.now path.now }
{
    path.last().and_then(|number| signal_at(elements, *number))
}

/// The signal whose lamp is to be proved at the end of a route.
fn end_lamp_of(elements: &[Element], last_signal: Option<u8>, zero_overlap: bool) -> Option<u8>
    ensures { result ≡ end_lamp_of elements.now last_signal zero_overlap }
{
    last_signal.filter(|signal| {
        !(zero_overlap || is_spared(element_at(elements, *signal as usize).marks))
    })
}

/// The sheet of a route.
#[tactic(auto, unfolding(crate::specs::Sheets::sheet_of))]
pub(crate) fn sheet_of(elements: &[Element], route: &Route) -> RouteSheet
    ensures { result ≡ sheet_of elements.now route.now }
{
    let path = route.path_elements();
    let last_signal = last_signal_of(elements, path);
    let wants = wants_of(elements, route);
    let sections = sections_of(elements, route);
    RouteSheet {
        showing: showing_of(route),
        first: path.first().copied().unwrap_or(0),
        last_signal,
        end_lamp: end_lamp_of(elements, last_signal, route.zero_overlap),
        wants,
        wanted: numbers_in(&wants),
        sections,
        used: numbers_in(&sections),
    }
}
