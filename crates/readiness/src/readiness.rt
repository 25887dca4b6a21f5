//! When a route is ready.

ghost use Rattle.std.specs.Prelude.{◌≡◌};
ghost use Rattle.readiness.specs.Readiness.{need_met, shields, request_met, want_met, is_free, lamp_proved, sheet_ready};
ghost use Rattle.std.specs.List.{list_all};
ghost use Rattle.sheets.specs.Reading.{wanted_by, used_by};

use crate::planned::{PlannedElement, PlannedRoute};
use field::field::Field;
use holds::interlocking::Interlocking;
use layout::position::Position;
use sheets::sheet::{RouteSheet, Sheets};

/// What shows whether a route is ready: what is held and the state of each route, and the outdoor equipment.
#[derive(Drop)]
pub(crate) struct Evidence<'a, F> {
    pub(crate) interlocking: &'a Interlocking,
    pub(crate) field: &'a F,
}

impl<F: Field> Evidence<'_, F> {
    /// Whether a point or derailer that the route itself needs is held by it and reported right.
    fn is_need_met(&self, route: usize, element: PlannedElement, need: Option<Position>) -> bool
        ensures { result ≡ need_met element.sheet.kind self.now.interlocking.now (F.meaning self.now.field.now) route element.number need }
    {
        need.is_none_or(|position| {
            !element.sheet.moves()
                || self
                    .interlocking
                    .is_held_in(route, element.number, position)
                    && self.field.report(element.number) == Some(position)
        })
    }

    /// Whether a point or derailer is reported in its position, or a signal has its stop lamp burning.
    fn is_shielding(&self, element: PlannedElement, position: Position) -> bool
        ensures { result ≡ shields element.sheet.kind (F.meaning self.now.field.now) element.number position }
    {
        if element.sheet.moves() {
            self.field.report(element.number) == Some(position)
        } else {
            self.field.is_burning(element.number)
        }
    }

    /// Whether a request is granted, and the element shields.
    fn is_request_met(
        &self,
        route: usize,
        element: PlannedElement,
        request: Option<Position>,
    ) -> bool
        ensures { result ≡ request_met element.sheet.kind self.now.interlocking.now (F.meaning self.now.field.now) route element.number request }
    {
        match request {
            None => true,
            Some(position) => {
                self.interlocking
                    .is_held_in(route, element.number, position)
                    && self.is_shielding(element, position)
            }
        }
    }

    /// Whether all that a route wants of an element is met.
    fn is_want_met(&self, route: PlannedRoute, number: u8) -> bool
        ensures { result ≡ want_met route.entry.sheets.now route.entry.sheet.now self.now.interlocking.now (F.meaning self.now.field.now) route.entry.number number }
    {
        let want = route.sheet.want(number);
        let element = PlannedElement {
            number,
            sheet: route.sheets.element(number),
        };
        self.is_need_met(route.number, element, want.need)
            && self.is_request_met(route.number, element, want.request)
    }

    /// Whether all that a route wants of every element is met.
    fn are_wants_met(&self, route: PlannedRoute) -> bool
        ensures { result ≡ list_all (want_met route.entry.sheets.now route.entry.sheet.now self.now.interlocking.now (F.meaning self.now.field.now) route.entry.number) (wanted_by route.entry.sheet.now) }
    {
        route
            .sheet
            .wanted
            .as_slice()
            .iter()
            .all(|element| self.is_want_met(route, *element))
    }

    /// Whether every section that a route uses is free.
    fn are_sections_free(&self, sheet: &RouteSheet) -> bool
        ensures { result ≡ list_all (is_free (F.meaning self.now.field.now)) (used_by sheet.now) }
    {
        sheet
            .used
            .as_slice()
            .iter()
            .all(|section| !self.field.is_occupied(*section))
    }

    /// Whether the end lamp, if there is one, burns or its signal is permissive.
    fn is_lamp_proved(&self, sheets: &Sheets, end_lamp: Option<u8>) -> bool
        ensures { result ≡ lamp_proved sheets.now self.now.interlocking.now (F.meaning self.now.field.now) end_lamp }
    {
        end_lamp.is_none_or(|signal| {
            self.field.is_burning(signal) || self.interlocking.is_permissive(sheets, signal)
        })
    }

    /// Whether a route is ready.
    pub(crate) fn is_ready(&self, route: PlannedRoute) -> bool
        ensures { result ≡ sheet_ready route.entry.sheets.now route.entry.sheet.now self.now.interlocking.now (F.meaning self.now.field.now) route.entry.number }
    {
        self.are_wants_met(route)
            && self.are_sections_free(route.sheet)
            && self.is_lamp_proved(route.sheets, route.sheet.end_lamp)
    }
}
