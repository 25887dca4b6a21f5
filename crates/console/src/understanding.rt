//! The words of a line.

ghost use Rattle.std.specs.Prelude.{◌≡◌};
ghost use Rattle.acts.specs.declared.act.Act.{Act};
ghost use Rattle.acts.specs.declared.act.Act.TheVariants.{Tell};
ghost use Rattle.acts.specs.declared.act.Event.{Event};
ghost use Rattle.spoken.specs.Commands.{unless_mistaken};
ghost use Rattle.spoken.specs.Words.{number_in, two_numbers_in};
ghost use Rattle.spoken.specs.declared.mistake.Mistake.TheVariants.{WantsOneNumber, WantsTwoNumbers};
ghost use Rattle.console.specs.Commands.{Performing, Bids, bidding_of, bidding_in, alone_in, protection_in};

use crate::command::{Command, Question};
use acts::act::{Act, Event};
use spoken::mistake::Mistake;
use spoken::understanding::{Line, asked, one_wanted, two_wanted, wants_nothing};
use spoken::words::{first_word, number, two_numbers};

/// What a command asks for.
pub(crate) fn understood<'a>(line: Line<'a>) -> Result<Command<'a>, Mistake>
    ensures { unless_mistaken bidding_of result ≡ bidding_in line.entry.name.now line.entry.rest.now }
{
    let Line { name, rest } = line;
    match name {
        "open" => alone(rest, Command::Open),
        "close" => alone(rest, Command::Close),
        "replay" => alone(rest, Command::Ask(Question::Replay)),
        "set" => on_route(rest, |route| Act::Set { route }),
        "clear" => on_route(rest, |route| Act::Clear { route }),
        "release" => on_route(rest, |route| Act::Release { route }),
        "report" => told(rest, |element, value| Event::Report { element, value }),
        "block" => told(rest, |element, value| Event::Block { element, value }),
        "lamp" => told(rest, |signal, value| Event::Lamp { signal, value }),
        "occupy" => told(rest, |section, value| Event::Occupation { section, value }),
        "state" => Ok(Command::Ask(Question::State(one_wanted(rest)?))),
        "aspect" => Ok(Command::Ask(Question::Aspect(one_wanted(rest)?))),
        "protection" => Ok(Command::Ask(protection(rest).ok_or(Mistake::WantsOneNumberOrThree)?)),
        _ => Ok(Command::Usual(asked(line)?)),
    }
}

/// A command that is one word.
fn alone<'a>(rest: &str, command: Command<'a>) -> Result<Command<'a>, Mistake>
    ensures { unless_mistaken bidding_of result ≡ alone_in (bidding_of command.entry) rest.now }
{
    wants_nothing(rest)?;
    Ok(command)
}

/// An act on the route of a number.
fn on_route<'a, F: FnOnce(u8) -> Act>(rest: &str, act: F) -> Result<Command<'a>, Mistake>
    requires { F.IsAlwaysCallable act }
    ensures { Bids (number_in rest.now) WantsOneNumber (λ route bidding. (chosen : Act) × F.post act route chosen × (bidding ≡ Performing chosen)) result }
{
    let route = one_wanted(rest)?;
    Ok(Command::Perform(act(route)))
}

/// What is told of the element or section of a number, with a value.
fn told<'a, F: FnOnce(u8, u8) -> Event>(rest: &str, event: F) -> Result<Command<'a>, Mistake>
    requires { F.IsAlwaysCallable event }
    ensures { Bids (two_numbers_in rest.now) WantsTwoNumbers (λ numbers bidding. (told : Event) × F.post event numbers.0 numbers.1 told × (bidding ≡ Performing (Tell told))) result }
{
    let (number, value) = two_wanted(rest)?;
    let event = event(number, value);
    Ok(Command::Perform(event.into()))
}

/// The protection of a route, with or without the lengths of two lists.
fn protection(rest: &str) -> Option<Question>
    ensures { result ≡ protection_in rest.now }
{
    let (first, lengths) = first_word(rest);
    let route = number(first)?;
    if lengths.is_empty() {
        return Some(Question::Protection(route));
    }
    let (requests, branches) = two_numbers(lengths)?;
    Some(Question::Lent {
        route,
        requests,
        branches,
    })
}
