//! The flanks of a route.

ghost use Rattle.std.specs.Prelude.{◌≡◌};
ghost use Rattle.flank.specs.Flanks.{leads_to, free_leg, flank_in, path_spare, flank_of};

use layout::element::{Element, Join};
use layout::ports::element_at;
use layout::position::Position;
use layout::route::{Route, RouteClass};

/// The leg of a used point that the route does not use, and how many points that count a walk out of it may pass.
#[derive(Clone, Copy, PartialEq, Eq)]
pub struct Flank {
    pub leg: Position,
    pub spare: u8,
}

/// Whether a join leads to an element.
fn leads_to(join: Option<Join>, number: u8) -> bool
    ensures { result ≡ leads_to join number }
{
    join.is_some_and(|far| far.element == number)
}

/// The leg of a point that a way from one neighbour to another does not use.
fn free_leg(elements: &[Element], before: u8, point: u8, after: u8) -> Position
    ensures { result ≡ free_leg elements.now before point after }
{
    let plus = element_at(elements, point as usize).join(1);
    if leads_to(plus, before) || leads_to(plus, after) {
        Position::Minus
    } else {
        Position::Plus
    }
}

/// The free leg of a point inside a way, which comes from the element `first`.
#[tactic(auto, using(crate::proofs::Turns::flank_nowhere), unfolding(crate::specs::Flanks::flank_in))]
fn flank_in(elements: &[Element], first: u8, way: &[u8], point: u8) -> Option<Position>
    ensures { result ≡ flank_in elements.now first way.now point }
{
    let mut before = first;
    for [element, after] in way.array_windows::<2>() {
        if *element == point {
            return Some(free_leg(elements, before, point, *after));
        }
        before = *element;
    }
    None
}

/// How many points that count a walk may pass: two out of the path of a train route, so that it ends open at the third; else none.
fn path_spare(class: RouteClass) -> u8
    ensures { result ≡ path_spare class }
{
    match class {
        RouteClass::Train => 2,
        RouteClass::Shunting => 0,
    }
}

/// The flank of an element, where it is a point that the route uses.
#[tactic(auto, unfolding(crate::specs::Flanks::flank_over))]
pub fn flank_of(elements: &[Element], route: &Route, number: u8) -> Option<Flank>
    ensures { result ≡ flank_of elements.now route.now number }
{
    if !element_at(elements, number as usize).kind.is_point() {
        return None;
    }
    let path = route.path_elements();
    let (first, way) = path.split_first()?;
    let last = path.last()?;
    let spare = path_spare(route.class);
    flank_in(elements, *first, way, number)
        .map(|leg| Flank { leg, spare })
        .or_else(|| {
            // A walk out of an overlap ends open at the first point that counts.
            flank_in(elements, *last, route.overlap_elements(), number).map(|leg| Flank {
                leg,
                spare: 0,
            })
        })
}
