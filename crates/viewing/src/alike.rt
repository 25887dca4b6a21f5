//! Two fields that answer alike.

ghost use Rattle.std.specs.Prelude.{Decides};
ghost use Rattle.viewing.specs.Answers.{AnswersAlike};

use field::field::Field;

/// Whether two fields answer the same of the element and of the section with a number.
pub fn alike<F: Field, G: Field>(one: &F, other: &G, number: u8) -> bool
    ensures { Decides result (AnswersAlike (F.meaning one.now) (G.meaning other.now) number) }
{
    one.report(number) == other.report(number)
        && one.is_blocked(number) == other.is_blocked(number)
        && one.is_burning(number) == other.is_burning(number)
        && one.standing_order(number) == other.standing_order(number)
        && one.is_occupied(number) == other.is_occupied(number)
}
