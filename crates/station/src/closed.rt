//! A station that is closed.

ghost use Rattle.std.specs.Prelude.{◌≡◌};
ghost use Rattle.holds.specs.Interlockings.{idle};

use crate::open_station::OpenStation;
use field::field::Field;
use holds::interlocking::Interlocking;
use plan::plan::Plan;
use readiness::yard::Yard;

/// A closed station: its plan and its field, to be opened or taken apart.
pub struct ClosedStation<F> {
    pub plan: Plan,
    pub field: F,
}

impl<F: Field> ClosedStation<F> {
    /// Opens the station: nothing is held, and all routes are absent.
    pub fn open(self) -> OpenStation<F>
        ensures plan { result.plan ≡ self.plan }
        ensures interlocking { result.yard.interlocking ≡ idle }
        ensures field { result.yard.field ≡ self.field }
    {
        let ClosedStation { plan, field } = self;
        OpenStation {
            plan,
            yard: Yard {
                interlocking: Interlocking::idle(),
                field,
            },
        }
    }
}
