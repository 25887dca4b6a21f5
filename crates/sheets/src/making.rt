//! The sheets of a whole drawing.

ghost use Rattle.std.specs.Prelude.{◌≡◌};
ghost use Rattle.bounded.specs.Lists.{empty_of};
ghost use Rattle.sheets.specs.Sheets.{element_sheets, no_sheet, route_sheets, sheets_of};

use crate::route::sheet_of;
use crate::sections::known_of;
use crate::sheet::{ElementSheet, RouteSheet, SectionUse, Sheets, Showing, Want};
use bounded::bounded::Bounded;
use layout::drawing::Drawing;
use layout::element::Element;
use layout::kind::Kind;
use layout::ports::element_at;
use layout::route::Route;
use std::array;

/// What the acts need to know of each element.
fn element_sheets(elements: &[Element]) -> [ElementSheet; 96]
    ensures { result ≡ element_sheets elements.now }
{
    array::from_fn(|number| {
        let element = element_at(elements, number);
        ElementSheet {
            kind: element.kind,
            section: element.section,
        }
    })
}

/// A list with no sheet of a route.
#[tactic(auto, unfolding(crate::specs::Sheets::no_sheet))]
fn no_routes() -> Bounded<RouteSheet, 64>
    ensures { result ≡ empty_of no_sheet }
{
    Bounded::empty(RouteSheet {
        showing: Showing::Shunting,
        first: 0,
        last_signal: None,
        end_lamp: None,
        wants: [Want::default(); 96],
        wanted: Bounded::empty(0),
        sections: [SectionUse::default(); 64],
        used: Bounded::empty(0),
    })
}

/// Lists the sheets of routes, in their order.
#[tactic(auto, using(crate::proofs::SheetsTurn::sheets_more, crate::proofs::SheetsTurn::sheets_all), unfolding(crate::specs::Sheets::route_sheets))]
fn list_routes(sheets: &mut Bounded<RouteSheet, 64>, elements: &[Element], routes: &[Route])
    ensures { sheets.new ≡ route_sheets elements.now routes.now }
{
    *sheets = no_routes();
    for route in routes {
        sheets.push(sheet_of(elements, route));
    }
}

/// Works out the sheets of a drawing, in the place of those that were there.
pub fn work_out(sheets: &mut Sheets, drawing: &Drawing)
    ensures { sheets.new ≡ sheets_of drawing.now }
{
    let elements = drawing.elements.as_slice();
    sheets.elements = element_sheets(elements);
    sheets.known = known_of(elements);
    list_routes(&mut sheets.routes, elements, drawing.routes.as_slice());
}

/// The sheets of a drawing.
pub fn sheets_of(drawing: &Drawing) -> Sheets
    ensures { result ≡ sheets_of drawing.now }
{
    let mut sheets = Sheets {
        elements: [ElementSheet::default(); 96],
        known: [false; 64],
        routes: no_routes(),
    };
    work_out(&mut sheets, drawing);
    sheets
}
