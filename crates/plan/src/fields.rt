//! The fields of an element against its kind.

ghost use Rattle.std.specs.Prelude.{◌≡◌};
ghost use Rattle.plan.specs.ElementTests.{are_joins_its_own, are_fields_needed, are_fields_allowed, is_section_low, has_its_fields, is_entry_unmarked};

use layout::element::Element;
use layout::kind::Sort;

/// Whether there is a join for each port of the kind, and no other.
fn ports_fit(element: &Element) -> bool
    ensures { result ≡ are_joins_its_own element.now }
{
    let ports = element.kind.port_count();
    (0..3).all(|port| element.join(port).is_some() == (port < ports))
}

/// Whether section and sort are there exactly where the kind needs them.
fn needed_fit(element: &Element) -> bool
    ensures { result ≡ are_fields_needed element.now }
{
    element.section.is_some() == element.kind.has_section()
        && element.sort.is_some() == element.kind.is_signal()
}

/// Whether dual field and marks are there only where the kind may have them.
fn allowed_fit(element: &Element) -> bool
    ensures { result ≡ are_fields_allowed element.now }
{
    (element.dual.is_none() || element.kind.is_point())
        && (element.marks.is_none() || element.kind.is_signal())
}

/// Whether the section, if there is one, has a number that sections have.
fn section_fits(section: Option<u8>) -> bool
    ensures { result ≡ is_section_low section }
{
    section.is_none_or(|number| number < 64)
}

/// Whether an element has the fields of its kind.
pub(crate) fn fields_fit(element: &Element) -> bool
    ensures { result ≡ has_its_fields element.now }
{
    ports_fit(element)
        && needed_fit(element)
        && allowed_fit(element)
        && section_fits(element.section)
}

/// Whether an element is no entry signal that is marked as requested at a flank.
pub(crate) fn entry_fits(element: &Element) -> bool
    ensures { result ≡ is_entry_unmarked element.now }
{
    element.sort != Some(Sort::Entry) || element.marks.is_none_or(|marks| !marks.requested)
}
