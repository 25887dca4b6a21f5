//! The law of every run of a station.
#![tactic(auto)]

ghost use Rattle.runlaws.specs.Beside.{NoWantRefuses, SetExactly, AdmitsOverLocked, RefusedChangesNothing, OneStandingStart};
ghost use Rattle.runlaws.specs.Ready.{ReadyExactly, SettledAfter};
ghost use Rattle.runlaws.specs.Settled.{SettlingIsExact};
ghost use Rattle.runlaws.specs.SheetLaw.{LawOfRuns};

/// The law holds of every run.
pub fn law_of_runs()
    ensures { LawOfRuns }
{}

/// Settling is what its words say, in whichever order routes are taken.
pub fn settling_is_exact()
    ensures { SettlingIsExact }
{}

/// A route is ready exactly if its words say so.
#[tactic(auto, using(crate::proofs::ReadyExact::ready_exactly))]
pub fn readiness_is_exact()
    ensures { ReadyExactly }
{}

/// Every accepted act leaves every clear route ready and no waiting one, and only a clear route is dropped.
#[tactic(auto, using(crate::proofs::Runs::settled_after))]
pub fn settled_after_every_act()
    ensures { SettledAfter }
{}

/// What a set may be refused for, that a refusal changes nothing, and that one signal starts one standing route.
pub fn beside_the_law()
    ensures protection { NoWantRefuses }
    ensures set { SetExactly }
    ensures locked { AdmitsOverLocked }
    ensures refused { RefusedChangesNothing }
    ensures starts { OneStandingStart }
{}
