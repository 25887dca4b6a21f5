//! The one fault that a rejected plan is answered with.

ghost use Rattle.std.specs.Prelude.{◌≡◌};
ghost use Rattle.faults.specs.Numbers.{number_of, layer_of};

use std::error::Error;
use std::fmt;

/// Why a plan is rejected.
#[derive(Clone, Copy, Debug, PartialEq, Eq)]
pub enum Cause {
    /// A byte is needed and there is none.
    Ended = 1,
    /// A byte's value is outside its range.
    OutOfRange = 2,
    /// Bytes follow the last record.
    LeftOver = 3,
    /// An element has not the fields of its kind.
    Fields = 4,
    /// A join of an element is not sound.
    Join = 5,
    /// An entry signal is marked as requested at a flank.
    EntryMarked = 6,
    /// A route's path is missing or unsound.
    Path = 7,
    /// A route's overlap or zero overlap is not allowed.
    Overlap = 8,
    /// A point without dual field is requested both ways by one route.
    BothWays = 9,
}

/// Why a plan is rejected, and where: a byte offset, an element or a route, by the layer.
#[derive(Clone, Copy, Debug, PartialEq, Eq)]
pub struct Fault {
    pub cause: Cause,
    pub place: usize,
}

impl Fault {
    /// The number of the fault.
    pub fn number(&self) -> u8
        ensures { result ≡ number_of self.now.cause }
    {
        self.cause as u8
    }

    /// The layer that found the fault: 1 bytes, 2 elements, 3 routes.
    pub fn layer(&self) -> u8
        ensures { result ≡ layer_of self.now.cause }
    {
        match self.cause {
            Cause::Ended | Cause::OutOfRange | Cause::LeftOver => 1,
            Cause::Fields | Cause::Join | Cause::EntryMarked => 2,
            Cause::Path | Cause::Overlap | Cause::BothWays => 3,
        }
    }
}

impl fmt::Display for Fault {
    ghost use Rattle.std.specs.Prelude.{Some, codes, decimal, ◌++◌};

    ghost output = { λ fault. Some (codes "fault " ++ (decimal (number_of fault.cause) ++ (codes ", layer " ++ (decimal (layer_of fault.cause) ++ (codes ", place " ++ decimal fault.place))))) };

    fn fmt<W: fmt::Write>(&self, f: &mut fmt::Formatter<W>) -> fmt::Result {
        let number = self.number();
        let layer = self.layer();
        let place = self.place;
        write!(f, "fault {number}, layer {layer}, place {place}")
    }
}

impl Error for Fault {}
