//! The two positions of everything that a route can hold.

ghost use Rattle.std.specs.Prelude.{◌≡◌};
ghost use Rattle.std.specs.Option.{ok_or};
ghost use Rattle.layout.specs.Numbers.{position_number, position_with};
ghost use Rattle.layout.specs.Positions.{other};

use std::error::Error;
use std::fmt;

/// Plus for a point, on for a derailer, kept at stop for a signal; or minus, off, in use as a start.
#[derive(Clone, Copy, PartialEq, Eq, Default)]
pub enum Position {
    #[default]
    Plus = 0,
    Minus = 1,
}

impl Position {
    /// The number of the position.
    pub fn number(self) -> u8
        ensures { result ≡ position_number self }
    {
        self as u8
    }

    /// The other position.
    pub fn other(self) -> Position
        ensures { result ≡ other self }
    {
        match self {
            Position::Plus => Position::Minus,
            Position::Minus => Position::Plus,
        }
    }
}

/// A number that no position has.
#[derive(Clone, Copy, Debug, PartialEq, Eq)]
pub struct NoPosition(pub u8);

impl TryFrom<u8> for Position {
    type Error = NoPosition;

    ghost try_from_gives = { λ number answer. answer ≡ ok_or (position_with number) (record { 0 = number }) };

    fn try_from(number: u8) -> Result<Position, NoPosition> {
        match number {
            0 => Ok(Position::Plus),
            1 => Ok(Position::Minus),
            _ => Err(NoPosition(number)),
        }
    }
}

impl fmt::Display for NoPosition {
    ghost use Rattle.std.specs.Prelude.{Some, codes, decimal, ◌++◌};

    ghost output = { λ error. Some (codes "no position has the number " ++ decimal error.0) };

    fn fmt<W: fmt::Write>(&self, f: &mut fmt::Formatter<W>) -> fmt::Result {
        let number = self.0;
        write!(f, "no position has the number {number}")
    }
}

impl Error for NoPosition {}
