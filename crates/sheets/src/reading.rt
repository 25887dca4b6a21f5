//! What is read off the sheets of a plan. A number that names nothing of the plan reads as nothing.

ghost use Rattle.std.specs.Prelude.{◌≡◌};
ghost use Rattle.std.specs.List.{slice_get};
ghost use Rattle.std.specs.Option.{option_map};
ghost use Rattle.bounded.specs.Lists.{listed};
ghost use Rattle.sheets.specs.Reading.{want_of, use_of, element_of, moves, has_section};

use crate::sheet::{ElementSheet, RouteSheet, SectionUse, Sheets, Want};
use layout::kind::Kind;
use tables::table::at_or;

impl ElementSheet {
    /// Whether the element is moved by orders, and reports.
    pub fn moves(self) -> bool
        ensures { result ≡ moves self.kind }
    {
        matches!(self.kind, Kind::Point | Kind::Derailer)
    }
}

impl RouteSheet {
    /// What the route wants of an element.
    pub fn want(&self, element: u8) -> Want
        ensures { result ≡ want_of self.now element }
    {
        at_or(&self.wants, element as usize, Want::default())
    }

    /// How the route uses a section.
    pub fn use_of(&self, section: u8) -> SectionUse
        ensures { result ≡ use_of self.now section }
    {
        at_or(&self.sections, section as usize, SectionUse::default())
    }
}

impl Sheets {
    /// The sheet of a route, if there is such a route.
    pub fn route(&self, route: usize) -> Option<&RouteSheet>
        ensures { option_map (λ x. x.now) result ≡ slice_get (listed self.now.routes) route }
    {
        self.routes.as_slice().get(route)
    }

    /// The kind and the section of an element; a track without a section where the plan has no such element.
    pub fn element(&self, element: u8) -> ElementSheet
        ensures { result ≡ element_of self.now element }
    {
        at_or(&self.elements, element as usize, ElementSheet::default())
    }

    /// Whether some element of the plan lies in a section.
    pub fn has_section(&self, section: u8) -> bool
        ensures { result ≡ has_section self.now section }
    {
        at_or(&self.known, section as usize, false)
    }
}
