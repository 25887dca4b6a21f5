//! The checks of a drawing in their order, to the first fault.

ghost use Rattle.std.specs.Prelude.{◌≡◌};
ghost use Rattle.std.specs.Result.{result_err};
ghost use Rattle.plan.specs.Checks.{unmet, Demand, AnswersBy, elements_fault, route_fault, routes_fault, drawing_fault};

use crate::fields::{entry_fits, fields_fit};
use crate::joins::joins_fit;
use crate::requests::asks_both_ways;
use faults::fault::{Cause, Fault};
use layout::drawing::Drawing;
use layout::element::Element;
use layout::route::Route;
use paths::overlap::has_allowed_overlap;
use paths::path::has_sound_path;

/// The fault of a place at which something is not met.
fn demanded(met: bool, cause: Cause, place: usize) -> Result<(), Fault>
    ensures { result_err result ≡ unmet met cause place }
{
    if met {
        Ok(())
    } else {
        Err(Fault { cause, place })
    }
}

/// One demand over all elements in turn; the first that does not meet it is at fault, for a cause.
#[tactic(auto, using(crate::proofs::FirstTurn::first_none, crate::proofs::FirstTurn::first_all), unfolding(crate::specs::Checks::elements_fault))]
fn check_elements<F: Fn(usize, &Element) -> bool>(
    elements: &[Element],
    cause: Cause,
    is_met: F,
) -> Result<(), Fault>
    requires { F.IsAlwaysCallable is_met }
    ensures { (demand : Demand) → AnswersBy (F.post is_met) demand → result_err result ≡ elements_fault elements.now demand cause }
{
    for (number, element) in elements.iter().enumerate() {
        demanded(is_met(number, element), cause, number)?;
    }
    Ok(())
}

/// The demands on one route in their order.
fn check_route(elements: &[Element], route: &Route, number: usize) -> Result<(), Fault>
    ensures { result_err result ≡ route_fault elements.now route.now number }
{
    demanded(has_sound_path(elements, route), Cause::Path, number)?;
    demanded(has_allowed_overlap(elements, route), Cause::Overlap, number)?;
    demanded(!asks_both_ways(elements, route), Cause::BothWays, number)
}

/// All routes in turn.
#[tactic(auto, using(crate::proofs::FirstTurn::first_none, crate::proofs::FirstTurn::first_more, crate::proofs::FirstTurn::first_all), unfolding(crate::specs::Checks::routes_fault))]
fn check_routes(elements: &[Element], routes: &[Route]) -> Result<(), Fault>
    ensures { result_err result ≡ routes_fault elements.now routes.now }
{
    for (number, route) in routes.iter().enumerate() {
        check_route(elements, route, number)?;
    }
    Ok(())
}

/// Each demand over all elements, then all routes.
pub(crate) fn check_drawing(drawing: &Drawing) -> Result<(), Fault>
    ensures { result_err result ≡ drawing_fault drawing.now }
{
    let elements = drawing.elements.as_slice();
    check_elements(elements, Cause::Fields, |_, element| fields_fit(element))?;
    check_elements(
        elements,
        Cause::Join,
        |number, _| joins_fit(elements, number),
    )?;
    check_elements(
        elements,
        Cause::EntryMarked,
        |_, element| entry_fits(element),
    )?;
    check_routes(elements, drawing.routes.as_slice())
}
