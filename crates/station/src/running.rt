//! A whole run: a station is opened and acts are performed, one after another.

ghost use Rattle.std.specs.Prelude.{◌≡◌};
ghost use Rattle.acts.specs.Situations.{situation_of, opened};
ghost use Rattle.safety.specs.Words.{run};
ghost use Rattle.safety.specs.Law.{Law};
ghost use Rattle.safety.specs.States.{StandsExactly};
ghost use Rattle.safety.specs.Signals.{AspectsExactly};
ghost use Rattle.safety.specs.Holding.{HoldsExactly};
ghost use Rattle.safety.specs.Ordering.{OrdersExactly};
ghost use Rattle.safety.specs.Granting.{GrantsExactly};
ghost use Rattle.station.specs.Runs.{acts_in, answered};

use crate::closed::ClosedStation;
use crate::journal::Entry;
use crate::open_station::OpenStation;
use field::field::Field;
use plan::plan::Plan;

/// Opens a station on a plan and a field, performs the acts of a journal in their order, writes the answer to each in its place,
/// and gives the open station. Whatever the acts, the law over runs holds after every one of them,
/// and a route stands from an accepted set of it to an accepted release of it, and at no other time.
pub fn perform_all<F: Field>(plan: Plan, field: F, journal: &mut [Entry]) -> OpenStation<F>
    ensures situation { situation_of F.meaning result.yard ≡ run plan.drawing (F.meaning field) (acts_in journal.old) }
    ensures answers { journal.new ≡ answered plan.drawing (opened (F.meaning field)) journal.old }
    ensures plan { result.plan ≡ plan }
    ensures law { Law plan.drawing (F.meaning field) (acts_in journal.old) }
    ensures stands { StandsExactly plan.drawing }
    ensures aspects { AspectsExactly plan.drawing }
    ensures holds { HoldsExactly plan.drawing }
    ensures orders { OrdersExactly plan.drawing }
    ensures grants { GrantsExactly plan.drawing }
{
    let mut station = ClosedStation { plan, field }.open();
    for entry in journal.iter_mut() {
        entry.refusal = station.perform(entry.act).err();
    }
    station
}
