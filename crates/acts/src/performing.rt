//! Performing an act.

ghost use Rattle.std.specs.Prelude.{◌≡◌, IfErr};
ghost use Rattle.std.specs.Result.{result_err};
ghost use Rattle.acts.specs.Answers.{answer};
ghost use Rattle.acts.specs.Acts.{performed};
ghost use Rattle.acts.specs.Situations.{situation, situation_of};
ghost use Rattle.acts.specs.Performing.{Steps, Performs};
ghost use Rattle.acts.specs.declared.act.Act.TheVariants.{Set, Clear, Release, Tell};

use crate::act::{Act, Event};
use crate::events::{may_tell, tell};
use crate::orders::send_orders;
use crate::releasing::may_release;
use field::field::Field;
use holds::interlocking::Interlocking;
use readiness::settling::settle;
use readiness::yard::Yard;
use refusals::refusal::Refusal;
use sheets::sheet::Sheets;

fn set<F: Field>(
    sheets: &Sheets,
    interlocking: &mut Interlocking,
    field: &mut F,
    route: u8,
) -> Result<(), Refusal>
    ensures step { Steps sheets.now (situation interlocking.old (F.meaning field.old)) (situation interlocking.new (F.meaning field.new)) (Set route) result }
    ensures untouched { IfErr result (λ _. (interlocking.new ≡ interlocking.old) × (field.new ≡ field.old)) }
{
    let route = usize::from(route);
    let sheet = sheets.route(route).ok_or(Refusal::NoSuchRoute)?;
    interlocking.may_set(sheets, sheet, route)?;
    interlocking.take_up(sheet, route);
    send_orders(sheets, interlocking, field, route);
    Ok(())
}

fn clear<F: Field>(
    sheets: &Sheets,
    interlocking: &mut Interlocking,
    field: &mut F,
    route: u8,
) -> Result<(), Refusal>
    ensures step { Steps sheets.now (situation interlocking.old (F.meaning field.old)) (situation interlocking.new (F.meaning field.new)) (Clear route) result }
    ensures untouched { IfErr result (λ _. (interlocking.new ≡ interlocking.old) × (field.new ≡ field.old)) }
{
    let route = usize::from(route);
    let sheet = sheets.route(route).ok_or(Refusal::NoSuchRoute)?;
    interlocking.may_clear(route)?;
    interlocking.try_again(sheet, route);
    send_orders(sheets, interlocking, field, route);
    Ok(())
}

fn release<F: Field>(
    sheets: &Sheets,
    interlocking: &mut Interlocking,
    field: &F,
    route: u8,
) -> Result<(), Refusal>
    ensures step { Steps sheets.now (situation interlocking.old (F.meaning field.now)) (situation interlocking.new (F.meaning field.now)) (Release route) result }
    ensures untouched { IfErr result (λ _. interlocking.new ≡ interlocking.old) }
{
    let route = usize::from(route);
    let sheet = sheets.route(route).ok_or(Refusal::NoSuchRoute)?;
    may_release(sheet, interlocking, field, route)?;
    interlocking.give_up(route);
    Ok(())
}

fn take_event<F: Field>(
    sheets: &Sheets,
    interlocking: &Interlocking,
    field: &mut F,
    event: Event,
) -> Result<(), Refusal>
    ensures step { Steps sheets.now (situation interlocking.now (F.meaning field.old)) (situation interlocking.now (F.meaning field.new)) (Tell event) result }
    ensures untouched { IfErr result (λ _. field.new ≡ field.old) }
{
    may_tell(sheets, event)?;
    tell(field, event);
    Ok(())
}

/// The act's own step, or why not; a refused act changes nothing.
fn step<F: Field>(
    sheets: &Sheets,
    interlocking: &mut Interlocking,
    field: &mut F,
    act: Act,
) -> Result<(), Refusal>
    ensures step { Steps sheets.now (situation interlocking.old (F.meaning field.old)) (situation interlocking.new (F.meaning field.new)) act result }
    ensures untouched { IfErr result (λ _. (interlocking.new ≡ interlocking.old) × (field.new ≡ field.old)) }
{
    match act {
        Act::Set { route } => set(sheets, interlocking, field, route),
        Act::Clear { route } => clear(sheets, interlocking, field, route),
        Act::Release { route } => release(sheets, interlocking, field, route),
        Act::Tell { event } => take_event(sheets, interlocking, field, event),
    }
}

/// Performs an act, or says why not. After an accepted act all settles; a refused one changes nothing.
pub fn perform<F: Field>(
    sheets: &Sheets,
    interlocking: &mut Interlocking,
    field: &mut F,
    act: Act,
) -> Result<(), Refusal>
    ensures answer { result_err result ≡ answer sheets.now (situation interlocking.old (F.meaning field.old)) act }
    ensures situation { situation interlocking.new (F.meaning field.new) ≡ performed sheets.now (situation interlocking.old (F.meaning field.old)) act }
    ensures untouched { IfErr result (λ _. (interlocking.new ≡ interlocking.old) × (field.new ≡ field.old)) }
{
    step(sheets, interlocking, field, act)?;
    settle(sheets, interlocking, field);
    Ok(())
}

/// Performs an act in a yard, or says why not.
pub fn perform_in<F: Field>(sheets: &Sheets, yard: &mut Yard<F>, act: Act) -> Result<(), Refusal>
    ensures performed { Performs sheets.now (situation_of F.meaning yard.old) (situation_of F.meaning yard.new) act result }
    ensures untouched { IfErr result (λ _. yard.new ≡ yard.old) }
{
    perform(sheets, &mut yard.interlocking, &mut yard.field, act)
}
