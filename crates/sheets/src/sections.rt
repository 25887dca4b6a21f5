//! The sections that a route uses, and those of the plan.

ghost use Rattle.std.specs.Prelude.{◌≡◌};
ghost use Rattle.sheets.specs.Sections.{lies_in, is_on_way, section_use, sections_of, is_known, known_of};

use crate::sheet::SectionUse;
use layout::element::Element;
use layout::ports::element_at;
use layout::route::Route;
use layout::ways::inner;
use std::array;

/// Whether an element lies in a section.
fn lies_in(element: &Element, section: u8) -> bool
    ensures { result ≡ lies_in element.now section }
{
    element.section == Some(section)
}

/// Whether some element of a way lies in a section.
#[tactic(auto, unfolding(crate::specs::Sections::is_on_way))]
fn is_on_way(elements: &[Element], way: &[u8], section: u8) -> bool
    ensures { result ≡ is_on_way elements.now way.now section }
{
    way.iter().any(|number| lies_in(&element_at(elements, *number as usize), section))
}

/// Whether a route uses a section in its path, and in its overlap.
fn section_use(elements: &[Element], route: &Route, section: u8) -> SectionUse
    ensures { result ≡ section_use elements.now route.now section }
{
    SectionUse {
        path: is_on_way(elements, inner(route.path_elements()), section),
        overlap: is_on_way(elements, route.overlap_elements(), section),
    }
}

/// What a route uses, by section.
pub(crate) fn sections_of(elements: &[Element], route: &Route) -> [SectionUse; 64]
    ensures { result ≡ sections_of elements.now route.now }
{
    array::from_fn(|section| section_use(elements, route, section as u8))
}

/// Whether some element lies in a section.
#[tactic(auto, unfolding(crate::specs::Sections::is_known))]
fn is_known(elements: &[Element], section: u8) -> bool
    ensures { result ≡ is_known elements.now section }
{
    elements.iter().any(|element| lies_in(element, section))
}

/// The sections of the plan.
pub(crate) fn known_of(elements: &[Element]) -> [bool; 64]
    ensures { result ≡ known_of elements.now }
{
    array::from_fn(|section| is_known(elements, section as u8))
}
