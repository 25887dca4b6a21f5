//! The elements that a route uses.

ghost use Rattle.std.specs.Prelude.{◌≡◌};
ghost use Rattle.flank.specs.Used.{with_one, with_used, used_table};

use layout::element::Element;
use layout::ports::element_at;
use layout::route::Route;
use layout::ways::inner;
use tables::table::put;

/// Adds an element to the table of used elements, if it lies in a section.
fn use_one(elements: &[Element], number: u8, used: &mut [bool])
    ensures { used.new ≡ with_one elements.now number used.old }
{
    let place = number as usize;
    if element_at(elements, place).kind.has_section() {
        put(used, place, true);
    }
}

/// Adds the tracks, points and derailers of a way to the table of used elements.
#[tactic(auto, unfolding(crate::specs::Used::with_used))]
fn use_way(elements: &[Element], way: &[u8], used: &mut [bool])
    ensures { used.new ≡ with_used elements.now way.now used.old }
{
    for number in way {
        use_one(elements, *number, used);
    }
}

/// The table of the elements that a route uses, by number.
#[tactic(auto, unfolding(crate::specs::Used::used_table))]
pub fn used_by(elements: &[Element], route: &Route) -> [bool; 96]
    ensures { result ≡ used_table elements.now route.now }
{
    let mut used = [false; 96];
    use_way(elements, inner(route.path_elements()), &mut used);
    use_way(elements, route.overlap_elements(), &mut used);
    used
}
