//! Which elements are ordered.

ghost use Rattle.std.specs.Prelude.{◌≡◌};
ghost use Rattle.acts.specs.Orders.{section_free, due, sent_one, sent};

use field::field::Field;
use holds::interlocking::Interlocking;
use sheets::sheet::{ElementSheet, Sheets};

/// Whether the section of an element, if it has one, is free.
fn is_section_free<F: Field>(field: &F, section: Option<u8>) -> bool
    ensures { result ≡ section_free (F.meaning field.now) section }
{
    section.is_none_or(|section| !field.is_occupied(section))
}

/// Whether an element is a point or derailer that the route holds, that does not report the position in which it is held, whose section is free, and that is not blocked.
fn is_due<F: Field>(
    sheet: ElementSheet,
    interlocking: &Interlocking,
    field: &F,
    route: usize,
    element: u8,
) -> bool
    ensures { result ≡ due sheet interlocking.now route (F.meaning field.now) element }
{
    sheet.moves()
        && interlocking.is_held_by(route, element)
        && field.report(element) != Some(interlocking.position(element))
        && is_section_free(field, sheet.section)
        && !field.is_blocked(element)
}

fn send_one<F: Field>(
    sheet: ElementSheet,
    interlocking: &Interlocking,
    field: &mut F,
    route: usize,
    element: u8,
)
    ensures { F.meaning field.new ≡ sent_one sheet interlocking.now route (F.meaning field.old) element }
{
    if is_due(sheet, interlocking, field, route, element) {
        field.order(element, interlocking.position(element));
    }
}

/// Orders what is to be ordered for a route, by number.
#[tactic(auto, using(crate::proofs::Turns::sent_none, crate::proofs::Turns::sent_more))]
pub(crate) fn send_orders<F: Field>(
    sheets: &Sheets,
    interlocking: &Interlocking,
    field: &mut F,
    route: usize,
)
    ensures { F.meaning field.new ≡ sent sheets.now interlocking.now route (F.meaning field.old) 96 }
{
    for (element, sheet) in sheets.elements.iter().enumerate() {
        send_one(*sheet, interlocking, field, route, element as u8);
    }
}
