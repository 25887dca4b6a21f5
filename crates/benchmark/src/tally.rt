//! What came of a work.

use std::fmt;

/// How many acts or readings there were, how many of them were accepted, and a checksum of all that was seen.
#[derive(Clone, Copy, Default)]
pub(crate) struct Tally {
    done: u64,
    accepted: u64,
    checksum: u64,
}

impl Tally {
    /// Something was seen that has a number.
    pub(crate) fn see(&mut self, number: u8) {
        self.checksum = self
            .checksum
            .wrapping_mul(31)
            .wrapping_add(u64::from(number));
    }

    /// An act or a reading was accepted.
    pub(crate) fn accept(&mut self) {
        self.done = self.done.wrapping_add(1);
        self.accepted = self.accepted.wrapping_add(1);
        self.see(0);
    }

    /// An act was refused, or a plan rejected, with a number.
    pub(crate) fn refuse(&mut self, number: u8) {
        self.done = self.done.wrapping_add(1);
        self.see(number);
    }
}

impl fmt::Display for Tally {
    ghost use Rattle.std.specs.Prelude.{Some, codes, decimal, ◌++◌};

    ghost output = { λ tally. Some (codes "done " ++ (decimal tally.done ++ (codes ", accepted " ++ (decimal tally.accepted ++ (codes ", checksum " ++ decimal tally.checksum))))) };

    fn fmt<W: fmt::Write>(&self, f: &mut fmt::Formatter<W>) -> fmt::Result {
        let Tally {
            done,
            accepted,
            checksum,
        } = self;
        write!(f, "done {done}, accepted {accepted}, checksum {checksum}")
    }
}
