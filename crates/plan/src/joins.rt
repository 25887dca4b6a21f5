//! The joins of an element.

ghost use Rattle.std.specs.Prelude.{◌≡◌};
ghost use Rattle.plan.specs.ElementTests.{goes_to, is_join_sound, are_apart, is_apart, is_port_sound, are_joins_sound};

use layout::element::{Element, Join};
use layout::ports::element_at;

/// Whether a join goes to a port of an element.
fn goes_to(join: Option<Join>, element: usize, port: u8) -> bool
    ensures { result ≡ goes_to join element port }
{
    join.is_some_and(|join| join.element as usize == element && join.port == port)
}

/// Whether a port is not joined, or to a port of another element that is joined back.
fn join_fits(elements: &[Element], number: usize, port: u8, join: Option<Join>) -> bool
    ensures { result ≡ is_join_sound elements.now number port join }
{
    let Some(join) = join else {
        return true;
    };
    let far = join.element as usize;
    elements.get(far).is_some_and(|other| {
        join.port < other.kind.port_count()
            && far != number
            && goes_to(other.join(join.port), number, port)
    })
}

/// Whether two joins do not go to the same element.
fn are_apart(one: Option<Join>, other: Option<Join>) -> bool
    ensures { result ≡ are_apart one other }
{
    match (one, other) {
        (Some(one), Some(other)) => one.element != other.element,
        _ => true,
    }
}

/// Whether the join of a port does not go to the same element as the join of a port before it.
fn is_apart(element: &Element, port: u8) -> bool
    ensures { result ≡ is_apart element.now port }
{
    let join = element.join(port);
    (0..port).all(|earlier| are_apart(element.join(earlier), join))
}

/// Whether the join of a port is sound, and apart from those before it.
fn port_fits(elements: &[Element], number: usize, port: u8) -> bool
    ensures { result ≡ is_port_sound elements.now number port }
{
    let element = element_at(elements, number);
    join_fits(elements, number, port, element.join(port)) && is_apart(&element, port)
}

/// Whether the joins of an element are sound.
pub(crate) fn joins_fit(elements: &[Element], number: usize) -> bool
    ensures { result ≡ are_joins_sound elements.now number }
{
    (0..3).all(|port| port_fits(elements, number, port))
}
