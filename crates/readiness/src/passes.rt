//! Passes over the routes that drop or raise them.

ghost use Rattle.std.specs.Prelude.{◌≡◌, not};
ghost use Rattle.sheets.specs.Reading.{route_count};
ghost use Rattle.readiness.specs.Settling.{settle_one, pass, stays, all_stay, passes_until};

use crate::planned::PlannedRoute;
use crate::readiness::Evidence;
use crate::settling::Settling;
use field::field::Field;
use holds::interlocking::Interlocking;
use sheets::sheet::Sheets;

/// Drops or raises a route, if that is due, and says whether it was.
#[tactic(auto, using(crate::proofs::Turns::one_left))]
fn settle_one<F: Field>(
    settling: Settling,
    interlocking: &mut Interlocking,
    field: &F,
    route: PlannedRoute,
) -> bool
    ensures settled { interlocking.new ≡ settle_one settling route.entry.sheets.now (F.meaning field.now) interlocking.old route.entry.sheet.now route.entry.number }
    ensures changed { result ≡ not (stays settling route.entry.sheets.now (F.meaning field.now) interlocking.old route.entry.sheet.now route.entry.number) }
{
    let state = interlocking.state(route.number);
    if !settling.concerns(state) {
        return false;
    }
    let evidence = Evidence {
        interlocking,
        field,
    };
    let ready = evidence.is_ready(route);
    if settling.leaves(ready) {
        return false;
    }
    interlocking.change(route.number, settling.state_after(state, ready));
    true
}

/// A pass over all routes, in their order, which says whether it changed anything.
#[tactic(auto, using(crate::proofs::Turns::pass_none, crate::proofs::Turns::pass_more, crate::proofs::Turns::changed_more, crate::proofs::Turns::all_stay_numbered))]
fn pass<F: Field>(
    settling: Settling,
    sheets: &Sheets,
    interlocking: &mut Interlocking,
    field: &F,
) -> bool
    ensures passed { interlocking.new ≡ pass settling sheets.now (F.meaning field.now) interlocking.old (route_count sheets.now) }
    ensures changed { result ≡ not (all_stay settling sheets.now (F.meaning field.now) interlocking.old) }
{
    let mut changed = false;
    for (number, sheet) in sheets.routes.as_slice().iter().enumerate() {
        let route = PlannedRoute {
            number,
            sheet,
            sheets,
        };
        changed |= settle_one(settling, interlocking, field, route);
    }
    changed
}

/// Passes over the routes until there is nothing left to drop, or to raise; there are never more passes to do than routes.
#[tactic(auto, using(crate::proofs::Turns::until_stop, crate::proofs::Turns::until_more, crate::proofs::Turns::until_end))]
pub(crate) fn pass_until<F: Field>(
    settling: Settling,
    sheets: &Sheets,
    interlocking: &mut Interlocking,
    field: &F,
)
    ensures { interlocking.new ≡ passes_until settling sheets.now (F.meaning field.now) interlocking.old (route_count sheets.now) }
{
    for _route in sheets.routes.as_slice() {
        if !pass(settling, sheets, interlocking, field) {
            return;
        }
    }
}
