//! A journal: acts, and a place for the answer to each.

ghost use Rattle.std.specs.Prelude.{◌≡◌, None};

use acts::act::Act;
use refusals::refusal::Refusal;
use std::fmt;

/// An act, and what it was answered.
#[derive(Clone, Copy, PartialEq, Eq)]
pub struct Entry {
    pub act: Act,
    /// Why the act was refused; none where it was accepted.
    pub refusal: Option<Refusal>,
}

/// An act that is still to be answered.
impl From<Act> for Entry {
    ghost from_gives = { λ act entry. entry ≡ record { act = act; refusal = None } };

    fn from(act: Act) -> Entry {
        Entry { act, refusal: None }
    }
}

impl fmt::Display for Entry {
    ghost use Rattle.std.specs.Prelude.{Some};
    ghost use Rattle.station.specs.Texts.{entry_text};

    ghost output = { λ entry. Some (entry_text entry) };

    fn fmt<W: fmt::Write>(&self, f: &mut fmt::Formatter<W>) -> fmt::Result {
        let act = self.act;
        match self.refusal {
            None => write!(f, "{act}: accepted"),
            Some(refusal) => write!(f, "{act}: {refusal}"),
        }
    }
}
