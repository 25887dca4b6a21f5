//! What a route wants of each element.

ghost use Rattle.std.specs.Prelude.{◌≡◌, ◌<◌, false, slice_index_or};
ghost use Rattle.flank.specs.Used.{used_table};
ghost use Rattle.sheets.specs.Wants.{requested, derailer_need, need_at, wants_of};

use crate::sheet::Want;
use flank::answers::Mark;
use flank::flanks::flank_of;
use flank::protection::shields;
use flank::used::used_by;
use layout::element::Element;
use layout::kind::Kind;
use layout::ports::element_at;
use layout::position::Position;
use layout::route::Route;
use std::array;

/// The position in which an element is requested.
fn requested(mark: Mark) -> Option<Position>
    ensures { result ≡ requested mark }
{
    let plus = mark.plus.then_some(Position::Plus);
    plus.or(mark.minus.then_some(Position::Minus))
}

/// The need of an element that the route uses or not: a derailer off.
fn derailer_need(kind: Kind, used: bool) -> Option<Position>
    ensures { result ≡ derailer_need kind used }
{
    (used && kind == Kind::Derailer).then_some(Position::Minus)
}

/// The position in which the route itself needs an element.
#[tactic(auto, using(crate::proofs::Unneeded::unneeded))]
fn need_at(elements: &[Element], route: &Route, used: bool, number: u8) -> Option<Position>
    requires low { number < 96 }
    requires used { used ≡ slice_index_or (used_table elements.now route.now) number false }
    ensures { result ≡ need_at elements.now route.now used number }
{
    if route.path_elements().first() == Some(&number) {
        return Some(Position::Minus);
    }
    if !used {
        return None;
    }
    flank_of(elements, route, number)
        .map(|flank| flank.leg.other())
        .or_else(|| derailer_need(element_at(elements, number as usize).kind, used))
}

/// What a route wants, by element.
pub(crate) fn wants_of(elements: &[Element], route: &Route) -> [Want; 96]
    ensures { result ≡ wants_of elements.now route.now }
{
    let used = used_by(elements, route);
    let marked = shields(elements, route);
    array::from_fn(|number| Want {
        need: need_at(elements, route, used[number], number as u8),
        request: requested(marked[number]),
    })
}
