//! The one refusal that a refused call is answered with.

ghost use Rattle.std.specs.Prelude.{◌≡◌};
ghost use Rattle.refusals.specs.Numbers.{number_of};
ghost use Rattle.refusals.specs.Texts.{words_of};

use std::error::Error;
use std::fmt;

/// Why a call is refused.
#[derive(Clone, Copy, Debug, PartialEq, Eq)]
pub enum Refusal {
    /// The plan has no route with this number.
    NoSuchRoute = 10,
    /// The route stands already.
    StandsAlready = 11,
    /// A section that the route uses is used by another standing route.
    SectionInUse = 12,
    /// An element that the route needs is held in the other position.
    HeldOtherwise = 13,
    /// The route does not stand.
    NotStanding = 14,
    /// A section that the path of the route uses is occupied.
    PathOccupied = 15,
    /// The plan has nothing of that kind with this number, or the value is out of its range.
    NotOfThePlan = 16,
    /// A list of the caller is shorter than what is to be written into it.
    ListTooShort = 17,
}

impl Refusal {
    /// The number of the refusal.
    pub fn number(self) -> u8
        ensures { result ≡ number_of self }
    {
        self as u8
    }

    /// Why, in words.
    fn words(self) -> &'static str
        ensures { result.now ≡ words_of self }
    {
        match self {
            Refusal::NoSuchRoute => "no such route",
            Refusal::StandsAlready => "the route stands already",
            Refusal::SectionInUse => "another route uses a section of it",
            Refusal::HeldOtherwise => "an element is held in the other position",
            Refusal::NotStanding => "the route does not stand",
            Refusal::PathOccupied => "a section of its path is occupied",
            Refusal::NotOfThePlan => "the plan has no such number, or there is no such value",
            Refusal::ListTooShort => "a list is too short",
        }
    }
}

impl fmt::Display for Refusal {
    ghost use Rattle.std.specs.Prelude.{Some};
    ghost use Rattle.refusals.specs.Texts.{text_of};

    ghost output = { λ refusal. Some (text_of refusal) };

    fn fmt<W: fmt::Write>(&self, f: &mut fmt::Formatter<W>) -> fmt::Result {
        let number = self.number();
        let words = self.words();
        write!(f, "refused {number}, {words}")
    }
}

impl Error for Refusal {}
