//! What a station is told of its outdoor equipment.

ghost use Rattle.std.specs.Prelude.{◌≡◌};
ghost use Rattle.std.specs.Result.{result_err};
ghost use Rattle.acts.specs.Answers.{is_event, event_refusal};
ghost use Rattle.acts.specs.Acts.{told};

use crate::act::Event;
use field::field::Field;
use layout::position::Position;
use refusals::refusal::Refusal;
use sheets::sheet::Sheets;

/// Whether the number is of the plan and of the right kind, and the value is in its range.
fn is_event(sheets: &Sheets, event: Event) -> bool
    ensures { result ≡ is_event sheets.now event }
{
    match event {
        Event::Report { element, value } => sheets.element(element).moves() && value < 3,
        Event::Block { element, value } => sheets.element(element).moves() && value < 2,
        Event::Lamp { signal, value } => sheets.element(signal).kind.is_signal() && value < 2,
        Event::Occupation { section, value } => sheets.has_section(section) && value < 2,
    }
}

/// Whether an event may be told, and if not, why.
pub(crate) fn may_tell(sheets: &Sheets, event: Event) -> Result<(), Refusal>
    ensures { result_err result ≡ event_refusal sheets.now event }
{
    if is_event(sheets, event) {
        Ok(())
    } else {
        Err(Refusal::NotOfThePlan)
    }
}

/// Tells the field of an event.
pub(crate) fn tell<F: Field>(field: &mut F, event: Event)
    ensures { F.meaning field.new ≡ told (F.meaning field.old) event }
{
    match event {
        Event::Report { element, value } => field.tell_report(
            element,
            Position::try_from(value).ok(),
        ),
        Event::Block { element, value } => field.tell_block(element, value == 1),
        Event::Lamp { signal, value } => field.tell_lamp(signal, value == 1),
        Event::Occupation { section, value } => field.tell_occupation(section, value == 1),
    }
}
