//! When a route may be set, and when it may be cleared.

ghost use Rattle.std.specs.Prelude.{◌≡◌};
ghost use Rattle.std.specs.Result.{result_err};
ghost use Rattle.holds.specs.Refusing.{excuses, clashes, apart, admits, all_admit, fits, all_fit, set_refusal, clear_refusal};

use crate::interlocking::Interlocking;
use refusals::refusal::Refusal;
use sheets::concern::Concern;
use sheets::sheet::{RouteSheet, Sheets};

/// Whether the second route begins at the last signal of the first, and the first does not have the section in its path.
fn excuses(first: &RouteSheet, second: &RouteSheet, section: u8) -> bool
    ensures { result ≡ excuses first.now second.now section }
{
    first.last_signal == Some(second.first) && !first.use_of(section).path
}

/// Whether the second route uses a section of the first with no excuse.
fn clashes(first: &RouteSheet, second: &RouteSheet, section: u8) -> bool
    ensures { result ≡ clashes first.now second.now section }
{
    second.use_of(section).is_any()
        && !(excuses(first, second, section) || excuses(second, first, section))
}

/// Whether no section of the first route clashes with the second.
fn are_apart(first: &RouteSheet, second: &RouteSheet) -> bool
    ensures { result ≡ apart first.now second.now }
{
    first
        .used
        .as_slice()
        .iter()
        .all(|section| !clashes(first, second, *section))
}

impl Interlocking {
    /// Whether another route does not stand, or no section clashes with it.
    fn admits(&self, sheet: &RouteSheet, route: usize, other: &RouteSheet) -> bool
        ensures { result ≡ admits sheet.now self.now route other.now }
    {
        !self.state(route).stands() || are_apart(sheet, other)
    }

    /// Whether no standing route uses a section of the route with no excuse.
    fn all_admit(&self, sheets: &Sheets, sheet: &RouteSheet) -> bool
        ensures { result ≡ all_admit sheets.now sheet.now self.now }
    {
        let routes = sheets.routes.as_slice();
        routes
            .iter()
            .enumerate()
            .all(|(route, other)| self.admits(sheet, route, other))
    }

    /// Whether an element may be held as the route needs it.
    fn fits(&self, sheet: &RouteSheet, element: u8) -> bool
        ensures { result ≡ fits sheet.now self.now element }
    {
        let need = sheet.want(element).need;
        need.is_none_or(|position| self.hold(element).is_open_to(position))
    }

    /// Whether each element that the route needs may be held so.
    fn all_fit(&self, sheet: &RouteSheet) -> bool
        ensures { result ≡ all_fit sheet.now self.now }
    {
        sheet
            .wanted
            .as_slice()
            .iter()
            .all(|element| self.fits(sheet, *element))
    }

    /// Whether a route of the plan may be set, and if not, why.
    pub fn may_set(&self, sheets: &Sheets, sheet: &RouteSheet, route: usize) -> Result<(), Refusal>
        ensures { result_err result ≡ set_refusal sheets.now sheet.now route self.now }
    {
        if self.state(route).stands() {
            Err(Refusal::StandsAlready)
        } else if !self.all_admit(sheets, sheet) {
            Err(Refusal::SectionInUse)
        } else if !self.all_fit(sheet) {
            Err(Refusal::HeldOtherwise)
        } else {
            Ok(())
        }
    }

    /// Whether a route of the plan may be cleared, and if not, why.
    pub fn may_clear(&self, route: usize) -> Result<(), Refusal>
        ensures { result_err result ≡ clear_refusal route self.now }
    {
        if self.state(route).stands() {
            Ok(())
        } else {
            Err(Refusal::NotStanding)
        }
    }
}
