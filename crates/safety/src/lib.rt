//! The law over runs, in the words of the subject, for every checked plan.
#![tactic(auto)]

ghost use Rattle.layout.specs.declared.drawing.Drawing.{Drawing};
ghost use Rattle.std.specs.Prelude.{◌≡◌, List};
ghost use Rattle.field.specs.Meaning.{Meaning};
ghost use Rattle.acts.specs.declared.act.Act.{Act};
ghost use Rattle.plan.specs.Sound.{SoundPlan};
ghost use Rattle.safety.specs.Law.{Law};
ghost use Rattle.safety.specs.Setting.{SetExactly, SameOnEveryField, RefusedChangesNothing};
ghost use Rattle.safety.specs.Ready.{ReadyExactly, SettledAfter};
ghost use Rattle.safety.specs.States.{StandsExactly, DroppedStays};
ghost use Rattle.safety.specs.Accepting.{ClearExactly, ReleaseExactly, EventExactly};
ghost use Rattle.safety.specs.Signals.{AspectsExactly};
ghost use Rattle.safety.specs.Holding.{HoldsExactly};
ghost use Rattle.safety.specs.Ordering.{OrdersExactly};
ghost use Rattle.safety.specs.Granting.{GrantsExactly, GrantedBySetOrClear};
ghost use Rattle.safety.specs.Refused.{SetRefusedExactly, ClearRefusedExactly, ReleaseRefusedExactly, EventRefusedExactly};

/// The law holds of every run on a sound plan.
pub fn law_of_runs()
    ensures { (d : Drawing) → SoundPlan d → (m : Meaning) (acts : List Act) → Law d m acts }
{}

/// On a sound plan: when a set is accepted, that no field decides it, that a refused act changes nothing,
/// when a route is ready, what every accepted act leaves settled, which routes stand after an act, which dropped ones are still dropped,
/// when a clear, a release and an event are accepted, which refusal each act gets, what signals show, what routes hold, what acts order, and
/// which requests are granted.
#[tactic(auto, using(crate::proofs::SetExact::set_exactly, crate::proofs::SetExact::same_on_every_field, crate::proofs::SetExact::refused_changes_nothing, crate::proofs::ReadyExact::ready_exactly, crate::proofs::SettledExact::settled_after))]
pub fn acts_are_exact()
    ensures set { (d : Drawing) → SoundPlan d → SetExactly d }
    ensures field { (d : Drawing) → SoundPlan d → SameOnEveryField d }
    ensures refused { (d : Drawing) → SoundPlan d → RefusedChangesNothing d }
    ensures ready { (d : Drawing) → SoundPlan d → ReadyExactly d }
    ensures settled { (d : Drawing) → SoundPlan d → SettledAfter d }
    ensures stands { (d : Drawing) → SoundPlan d → StandsExactly d }
    ensures dropped { (d : Drawing) → SoundPlan d → DroppedStays d }
    ensures clear { (d : Drawing) → SoundPlan d → ClearExactly d }
    ensures release { (d : Drawing) → SoundPlan d → ReleaseExactly d }
    ensures event { (d : Drawing) → SoundPlan d → EventExactly d }
    ensures refusals { (d : Drawing) → SoundPlan d → SetRefusedExactly d }
    ensures aspects { (d : Drawing) → SoundPlan d → AspectsExactly d }
    ensures holds { (d : Drawing) → SoundPlan d → HoldsExactly d }
    ensures orders { (d : Drawing) → SoundPlan d → OrdersExactly d }
    ensures grants { (d : Drawing) → SoundPlan d → GrantsExactly d }
    ensures granted { (d : Drawing) → GrantedBySetOrClear d }
    ensures clear_refused { (d : Drawing) → SoundPlan d → ClearRefusedExactly d }
    ensures release_refused { (d : Drawing) → SoundPlan d → ReleaseRefusedExactly d }
    ensures event_refused { (d : Drawing) → SoundPlan d → EventRefusedExactly d }
{}
