//! A route and an element of a plan, each with its number and its sheet.

use sheets::sheet::{ElementSheet, RouteSheet, Sheets};

/// A route of a plan, with the sheets of the plan.
#[derive(Clone, Copy)]
pub(crate) struct PlannedRoute<'a> {
    pub(crate) number: usize,
    pub(crate) sheet: &'a RouteSheet,
    pub(crate) sheets: &'a Sheets,
}

/// An element of a plan.
#[derive(Clone, Copy)]
pub(crate) struct PlannedElement {
    pub(crate) number: u8,
    pub(crate) sheet: ElementSheet,
}
