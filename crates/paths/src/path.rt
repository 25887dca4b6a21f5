//! The path of a route.

ghost use Rattle.std.specs.Prelude.{◌≡◌, ◌∷◌};
ghost use Rattle.paths.specs.Paths.{may_start, is_start, may_end, is_end, is_path, has_path};
ghost use Rattle.paths.specs.Exactly.{PathsExact};

use crate::places::{all_new, all_signals_between, all_within};
use crate::way::follow;
use layout::element::Element;
use layout::kind::{Kind, Sort};
use layout::ports::element_at;
use layout::route::{Route, RouteClass};

/// Whether a route of a class may start at a signal of a sort.
fn may_start(class: RouteClass, sort: Option<Sort>) -> bool
    ensures { result ≡ may_start class sort }
{
    matches!(
        (class, sort),
        (RouteClass::Train, Some(Sort::Train | Sort::Entry))
            | (RouteClass::Shunting, Some(Sort::Shunting | Sort::Train))
    )
}

/// Whether an element is a signal at which a route of a class may start.
fn is_start(elements: &[Element], class: RouteClass, number: u8) -> bool
    ensures { result ≡ is_start elements.now class number }
{
    let element = element_at(elements, number as usize);
    element.kind.is_signal() && may_start(class, element.sort)
}

/// Whether a path may end at an element of a kind that it enters at a port.
fn may_end(kind: Kind, entered: u8) -> bool
    ensures { result ≡ may_end kind entered }
{
    match kind {
        Kind::Track => true,
        Kind::Signal => entered == 0,
        Kind::Point | Kind::Derailer | Kind::PlanEnd => false,
    }
}

/// Whether the way over a path, its first element and the others, can be followed to an element at which it may end.
fn ends_soundly(elements: &[Element], first: u8, rest: &[u8]) -> bool
    ensures { result ≡ is_end elements.now (first ∷ rest.now) }
{
    let kind = element_at(elements, *rest.last().unwrap_or(&first) as usize).kind;
    follow(elements, first, rest).is_some_and(|entered| may_end(kind, entered))
}

/// Whether elements in a row are a sound path for a route of a class.
fn is_sound_path(elements: &[Element], class: RouteClass, path: &[u8]) -> bool
    ensures { result ≡ is_path elements.now class path.now }
{
    let [first, rest @ ..] = path else {
        return false;
    };
    rest.len() > 1
        && all_within(elements, path)
        && all_new(&[], path)
        && is_start(elements, class, *first)
        && !all_signals_between(elements, path)
        && ends_soundly(elements, *first, rest)
}

/// Whether a route has a path, and a sound one. On sound elements this test passes exactly the sound paths.
#[tactic(auto, using(crate::proofs::PathsExact::paths_exact))]
pub fn has_sound_path(elements: &[Element], route: &Route) -> bool
    ensures test { result ≡ has_path elements.now route.now }
    ensures exact { PathsExact }
{
    route.path.as_ref().is_some_and(|path| is_sound_path(elements, route.class, path.as_slice()))
}
