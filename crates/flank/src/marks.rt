//! Marking in a table, by element, what walks find.

ghost use Rattle.std.specs.Prelude.{◌≡◌, slice_index_or, slice_set};
ghost use Rattle.flank.specs.Search.{asked, opened, unmarked};

use crate::answers::Mark;
use layout::position::Position;
use tables::table::{at_or, put};

impl Mark {
    /// The mark of an element that is requested in a position too.
    pub(crate) fn asked(self, position: Position) -> Mark
        ensures { result ≡ asked position self }
    {
        match position {
            Position::Plus => Mark { plus: true, ..self },
            Position::Minus => Mark {
                minus: true,
                ..self
            },
        }
    }

    /// The mark of an element at which a walk ends open too.
    pub(crate) fn opened(self) -> Mark
        ensures { result ≡ opened self }
    {
        Mark {
            open_end: true,
            ..self
        }
    }
}

/// Changes the mark of an element, if the table has it.
pub(crate) fn change_mark<F: FnOnce(Mark) -> Mark>(marked: &mut [Mark], number: u8, change: F)
    requires { F.IsAlwaysCallable change }
    ensures { (mark : _) × F.post change (slice_index_or marked.old number unmarked) mark × (marked.new ≡ slice_set marked.old number mark) }
{
    let place = number as usize;
    let mark = at_or(marked, place, Mark::default());
    put(marked, place, change(mark));
}
