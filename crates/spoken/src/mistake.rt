//! Lines that no command is.

ghost use Rattle.spoken.specs.Mistakes.{mistake_text};

use std::error::Error;
use std::{fmt, io};

/// Why a line is no command.
#[derive(Clone, Copy, Debug, PartialEq, Eq)]
pub enum Mistake {
    NoText,
    NoSuchCommand,
    WordTooMany,
    WantsOneNumber,
    WantsTwoNumbers,
    WantsOneNumberOrThree,
    NoForm,
    NoNews,
}

impl fmt::Display for Mistake {
    ghost use Rattle.std.specs.Prelude.{Some};

    ghost output = { λ mistake. Some (mistake_text mistake) };

    fn fmt<W: fmt::Write>(&self, f: &mut fmt::Formatter<W>) -> fmt::Result {
        f.write_str(match self {
            Mistake::NoText => "the line is no text",
            Mistake::NoSuchCommand => "no such command",
            Mistake::WordTooMany => "a word too many",
            Mistake::WantsOneNumber => "one number is wanted, 0 to 255",
            Mistake::WantsTwoNumbers => "two numbers are wanted, 0 to 255",
            Mistake::WantsOneNumberOrThree => "one number is wanted or three, 0 to 255",
            Mistake::NoForm => "a field is a table, or contacts with their bytes",
            Mistake::NoNews => "a field is told of a report, block, lamp or occupied",
        })
    }
}

impl Error for Mistake {}

/// Prints what is wrong with a line.
pub fn print_error<E: fmt::Display + Drop>(rt: &HostRuntime, error: E) -> io::Result<()> {
    println!(rt; "error: {error}")
}
