//! Points that a route would request both ways.

ghost use Rattle.std.specs.Prelude.{◌≡◌};
ghost use Rattle.plan.specs.RequestTests.{is_torn, asks_both_ways};

use flank::answers::Mark;
use flank::protection::shields;
use layout::element::Element;
use layout::route::Route;

/// Whether a point without the dual field is asked for in both positions.
fn is_torn(element: &Element, mark: &Mark) -> bool
    ensures { result ≡ is_torn (element.now, mark.now) }
{
    element.kind.is_point() && element.dual.is_none() && mark.plus && mark.minus
}

/// Whether a route requests a point without the dual field both ways.
#[tactic(auto, unfolding(crate::specs::RequestTests::asks_both_ways))]
pub(crate) fn asks_both_ways(elements: &[Element], route: &Route) -> bool
    ensures { result ≡ asks_both_ways elements.now route.now }
{
    let marked = shields(elements, route);
    elements
        .iter()
        .zip(&marked)
        .any(|(element, mark)| is_torn(element, mark))
}
