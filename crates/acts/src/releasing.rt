//! When a route may be released.

ghost use Rattle.std.specs.Prelude.{◌≡◌};
ghost use Rattle.std.specs.Result.{result_err};
ghost use Rattle.acts.specs.Answers.{path_free_at, path_free, release_refusal};

use field::field::Field;
use holds::interlocking::Interlocking;
use refusals::refusal::Refusal;
use sheets::sheet::RouteSheet;

/// Whether a section is free, or the path of the route does not use it.
fn is_path_free_at<F: Field>(sheet: &RouteSheet, field: &F, section: u8) -> bool
    ensures { result ≡ path_free_at sheet.now (F.meaning field.now) section }
{
    !(sheet.use_of(section).path && field.is_occupied(section))
}

/// Whether every section that the path of a route uses is free.
fn is_path_free<F: Field>(sheet: &RouteSheet, field: &F) -> bool
    ensures { result ≡ path_free sheet.now (F.meaning field.now) }
{
    sheet
        .used
        .as_slice()
        .iter()
        .all(|section| is_path_free_at(sheet, field, *section))
}

/// Whether a route of the plan may be released, and if not, why.
pub(crate) fn may_release<F: Field>(
    sheet: &RouteSheet,
    interlocking: &Interlocking,
    field: &F,
    route: usize,
) -> Result<(), Refusal>
    ensures { result_err result ≡ release_refusal sheet.now route interlocking.now (F.meaning field.now) }
{
    if !interlocking.state(route).stands() {
        Err(Refusal::NotStanding)
    } else if !is_path_free(sheet, field) {
        Err(Refusal::PathOccupied)
    } else {
        Ok(())
    }
}
