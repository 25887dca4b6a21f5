//! The overlap of a route.

ghost use Rattle.std.specs.Prelude.{◌≡◌};
ghost use Rattle.paths.specs.Overlaps.{is_overlap, is_overlap_allowed};
ghost use Rattle.paths.specs.Exactly.{OverlapsExact};

use crate::places::{all_new, all_within};
use crate::way::follow;
use layout::element::Element;
use layout::ports::element_at;
use layout::route::{Route, RouteClass};

/// Whether elements in a row are a sound overlap beyond the end of a path.
fn is_sound_overlap(elements: &[Element], path: &[u8], overlap: &[u8]) -> bool
    ensures { result ≡ is_overlap elements.now path.now overlap.now }
{
    let (Some(last), Some(far)) = (path.last(), overlap.last()) else {
        return false;
    };
    element_at(elements, *last as usize).kind.is_signal()
        && all_within(elements, overlap)
        && all_new(path, overlap)
        && follow(elements, *last, overlap).is_some()
        && !element_at(elements, *far as usize).kind.is_point()
}

/// Whether a route has no overlap, a sound one or a zero overlap, as its class allows.
/// On sound elements this test passes exactly the allowed overlaps of the routes with a sound path.
pub fn has_allowed_overlap(elements: &[Element], route: &Route) -> bool
    ensures test { result ≡ is_overlap_allowed elements.now route.now }
    ensures exact { OverlapsExact }
{
    match (route.class, &route.path, &route.overlap, route.zero_overlap) {
        (_, _, None, false) => true,
        (RouteClass::Train, _, None, true) => true,
        (RouteClass::Train, Some(path), Some(overlap), false) => {
            is_sound_overlap(elements, path.as_slice(), overlap.as_slice())
        }
        _ => false,
    }
}
