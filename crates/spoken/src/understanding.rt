//! What the words of a line ask for.

ghost use Rattle.std.specs.Prelude.{◌≡◌, ◌<◌, ◌==◌, length, is_ok, IfOk, IfErr, IfSome};
ghost use Rattle.std.specs.Option.{option_map, ok_or};
ghost use Rattle.std.specs.Str.Parse.{digits_value};
ghost use Rattle.spoken.specs.Commands.{unless_mistaken, both_texts, command_in, wish_of, wish_of_work, wish_in, field_in, telling_in, order_in, look_in};
ghost use Rattle.spoken.specs.Words.{number_in, two_numbers_in};
ghost use Rattle.spoken.specs.declared.mistake.Mistake.TheVariants.{WordTooMany, WantsOneNumber, WantsTwoNumbers};

use crate::asked::{Asked, Look, Work};
use crate::mistake::Mistake;
use crate::telling::{News, Ordering, Telling};
use crate::words::{first_word, number, two_numbers};

/// A line with a command: the name of the command, and the words after it.
#[derive(Clone, Copy)]
pub struct Line<'a> {
    pub name: &'a str,
    pub rest: &'a str,
}

/// The command on a line; none where the line is empty or a comment.
pub fn command_on<'a>(line: &'a str) -> Option<Line<'a>>
    ensures named { IfSome result (λ command. 0 < length command.name.now) }
    ensures command { option_map both_texts result ≡ command_in line.now }
{
    let (name, rest) = first_word(line);
    if name.is_empty() || name.starts_with('#') {
        None
    } else {
        Some(Line { name, rest })
    }
}

/// Nothing more, after a command that is one word.
pub fn wants_nothing(rest: &str) -> Result<(), Mistake>
    ensures nothing { is_ok result ≡ (length rest.now == 0) }
    ensures mistake { IfErr result (λ mistake. mistake ≡ WordTooMany) }
{
    if rest.is_empty() {
        Ok(())
    } else {
        Err(Mistake::WordTooMany)
    }
}

/// The number after a command that wants one.
pub fn one_wanted(rest: &str) -> Result<u8, Mistake>
    ensures number { IfOk result (λ n. n ≡ digits_value 10 rest.now) }
    ensures mistake { IfErr result (λ mistake. mistake ≡ WantsOneNumber) }
    ensures wanted { result ≡ ok_or (number_in rest.now) WantsOneNumber }
{
    number(rest).ok_or(Mistake::WantsOneNumber)
}

/// The numbers after a command that wants two.
pub fn two_wanted(rest: &str) -> Result<(u8, u8), Mistake>
    ensures mistake { IfErr result (λ mistake. mistake ≡ WantsTwoNumbers) }
    ensures wanted { result ≡ ok_or (two_numbers_in rest.now) WantsTwoNumbers }
{
    two_numbers(rest).ok_or(Mistake::WantsTwoNumbers)
}

/// What a command asks for.
pub fn asked<'a>(line: Line<'a>) -> Result<Asked<'a>, Mistake>
    ensures { unless_mistaken wish_of result ≡ wish_in line.entry.name.now line.entry.rest.now }
{
    let Line { name, rest } = line;
    match name {
        "plan" => Ok(Asked::Plan(rest)),
        "field" => Ok(Asked::Field(field(rest)?)),
        "tell" => Ok(Asked::Field(telling(rest)?)),
        "order" => Ok(Asked::Field(order(rest)?)),
        _ => Ok(Asked::See(look(line)?)),
    }
}

fn look(line: Line<'_>) -> Result<Look, Mistake>
    ensures { result ≡ look_in line.entry.name.now line.entry.rest.now }
{
    let Line { name, rest } = line;
    match name {
        "flanks" => Ok(Look::Flanks(one_wanted(rest)?)),
        "element" => Ok(Look::Element(one_wanted(rest)?)),
        "section" => Ok(Look::Section(one_wanted(rest)?)),
        "contacts" => wants_nothing(rest).map(|()| Look::Contacts),
        "show" => wants_nothing(rest).map(|()| Look::All),
        _ => Err(Mistake::NoSuchCommand),
    }
}

fn field<'a>(rest: &'a str) -> Result<Work<'a>, Mistake>
    ensures { unless_mistaken wish_of_work result ≡ field_in rest.now }
{
    let (form, digits) = first_word(rest);
    match (form, digits.is_empty()) {
        ("table", true) => Ok(Work::Table),
        ("contacts", _) => Ok(Work::Contacts(digits)),
        _ => Err(Mistake::NoForm),
    }
}

fn telling<'a>(rest: &'a str) -> Result<Work<'a>, Mistake>
    ensures { unless_mistaken wish_of_work result ≡ telling_in rest.now }
{
    let (word, numbers) = first_word(rest);
    let news = word.parse::<News>()?;
    let (number, value) = two_wanted(numbers)?;
    Ok(Work::Tell(Telling {
        news,
        number,
        value,
    }))
}

fn order<'a>(rest: &'a str) -> Result<Work<'a>, Mistake>
    ensures { unless_mistaken wish_of_work result ≡ order_in rest.now }
{
    let (element, position) = two_wanted(rest)?;
    Ok(Work::Order(Ordering { element, position }))
}
