//! A station that is open.

ghost use Rattle.std.specs.Prelude.{◌≡◌};
ghost use Rattle.sheets.specs.Sheets.{sheets_of};
ghost use Rattle.acts.specs.Questions.{state_answer, aspect_answer};
ghost use Rattle.acts.specs.declared.act.Act.TheVariants.{Set, Clear, Release, Tell};
ghost use Rattle.runlaws.specs.Settled.{SettlingIsExact};
ghost use Rattle.safety.specs.Setting.{SetExactly, SameOnEveryField, RefusedChangesNothing};
ghost use Rattle.safety.specs.Ready.{ReadyExactly, SettledAfter};
ghost use Rattle.safety.specs.States.{DroppedStays};
ghost use Rattle.safety.specs.Accepting.{ClearExactly, ReleaseExactly, EventExactly};
ghost use Rattle.safety.specs.Granting.{GrantedBySetOrClear};
ghost use Rattle.safety.specs.Refused.{SetRefusedExactly, ClearRefusedExactly, ReleaseRefusedExactly, EventRefusedExactly};
ghost use Rattle.station.specs.Performing.{Performs};
ghost use Rattle.station.specs.Protection.{protection_answer, protection_shields, protection_branches};
ghost use Rattle.station.specs.Shields.{ShieldsExact, OpenBranchesExact};

use crate::closed::ClosedStation;
use crate::protecting::protection_on;
use acts::act::{Act, Event};
use acts::performing::perform_in;
use acts::questions::{aspect, state};
use field::field::Field;
use flank::answers::Branch;
use holds::aspect::Aspect;
use holds::state::RouteState;
use plan::plan::Plan;
use protection::shield::Shield;
use readiness::yard::Yard;
use refusals::refusal::Refusal;

/// An open station: it has its plan and its field to itself until it is closed.
pub struct OpenStation<F> {
    pub(crate) plan: Plan,
    pub(crate) yard: Yard<F>,
}

impl<F: Field> OpenStation<F> {
    /// Closes the station and hands plan and field back.
    pub fn close(self) -> ClosedStation<F>
        ensures plan { result.plan ≡ self.plan }
        ensures field { result.field ≡ self.yard.field }
    {
        let OpenStation { plan, yard } = self;
        let Yard {
            interlocking: _,
            field,
        } = yard;
        ClosedStation { plan, field }
    }

    /// The plan, for display.
    pub fn plan(&self) -> &Plan
        ensures { result.now ≡ self.now.plan }
    {
        &self.plan
    }

    /// The field, for display.
    pub fn field(&self) -> &F
        ensures { result.now ≡ self.now.yard.field }
    {
        &self.yard.field
    }

    /// Performs an act, or says why not. A refused act changes nothing, after an accepted one all is settled, and no want of protection refuses a set.
    pub fn perform(&mut self, act: Act) -> Result<(), Refusal>
        ensures performed { Performs F.meaning self.old self.new act result }
        ensures set { SetExactly self.old.plan.drawing }
        ensures field { SameOnEveryField self.old.plan.drawing }
        ensures refused { RefusedChangesNothing self.old.plan.drawing }
        ensures ready { ReadyExactly self.old.plan.drawing }
        ensures settled { SettledAfter self.old.plan.drawing }
        ensures dropped { DroppedStays self.old.plan.drawing }
        ensures clear { ClearExactly self.old.plan.drawing }
        ensures release { ReleaseExactly self.old.plan.drawing }
        ensures event { EventExactly self.old.plan.drawing }
        ensures refusals { SetRefusedExactly self.old.plan.drawing }
        ensures granted { GrantedBySetOrClear self.old.plan.drawing }
        ensures clear_refused { ClearRefusedExactly self.old.plan.drawing }
        ensures release_refused { ReleaseRefusedExactly self.old.plan.drawing }
        ensures event_refused { EventRefusedExactly self.old.plan.drawing }
        ensures orderless { SettlingIsExact }
    {
        perform_in(self.plan.sheets(), &mut self.yard, act)
    }

    /// Sets a route.
    pub fn set(&mut self, route: u8) -> Result<(), Refusal>
        ensures { Performs F.meaning self.old self.new (Set route) result }
    {
        self.perform(Act::Set { route })
    }

    /// Clears a route: dropped, it waits again.
    pub fn clear(&mut self, route: u8) -> Result<(), Refusal>
        ensures { Performs F.meaning self.old self.new (Clear route) result }
    {
        self.perform(Act::Clear { route })
    }

    /// Releases a route.
    pub fn release(&mut self, route: u8) -> Result<(), Refusal>
        ensures { Performs F.meaning self.old self.new (Release route) result }
    {
        self.perform(Act::Release { route })
    }

    /// Takes an event: the field is told.
    pub fn take(&mut self, event: Event) -> Result<(), Refusal>
        ensures { Performs F.meaning self.old self.new (Tell event) result }
    {
        self.perform(event.into())
    }

    /// The state of a route.
    pub fn state(&self, route: u8) -> Result<RouteState, Refusal>
        ensures { result ≡ state_answer (sheets_of self.now.plan.drawing) self.now.yard.interlocking route }
    {
        state(self.plan.sheets(), &self.yard.interlocking, route)
    }

    /// The aspect of a signal.
    pub fn aspect(&self, signal: u8) -> Result<Aspect, Refusal>
        ensures { result ≡ aspect_answer (sheets_of self.now.plan.drawing) self.now.yard.interlocking signal }
    {
        aspect(self.plan.sheets(), &self.yard.interlocking, signal)
    }

    /// Fills two lists with what a route requests at its flanks, by element, each held by it or not, and with its open branches, by
    /// used point and last point, and answers the two numbers. A refusal leaves both lists as they are.
    pub fn protection(
        &self,
        route: u8,
        shields: &mut [Shield],
        branches: &mut [Branch],
    ) -> Result<(usize, usize), Refusal>
        ensures answer { result ≡ protection_answer self.now.plan.drawing route shields.old branches.old }
        ensures shields { shields.new ≡ protection_shields self.now.plan.drawing self.now.yard.interlocking route shields.old branches.old }
        ensures branches { branches.new ≡ protection_branches self.now.plan.drawing route shields.old branches.old }
        ensures requested { ShieldsExact self.now.plan.drawing }
        ensures open { OpenBranchesExact self.now.plan.drawing }
    {
        protection_on(
            &self.plan,
            &self.yard.interlocking,
            route,
            shields,
            branches,
        )
    }
}
