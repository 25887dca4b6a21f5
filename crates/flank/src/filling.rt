//! A list of a caller that is filled from the front, as far as it has room.

ghost use Rattle.std.specs.Prelude.{◌≡◌, ◌<◌, [], ◌∷◌};
ghost use Rattle.flank.specs.Fillings.{Adds};

use tables::table::put;

/// A list, and how many answers it was given, also those for which it had no room.
#[derive(Drop)]
pub(crate) struct Filling<'a, T> {
    list: &'a mut [T],
    count: usize,
}

impl<'a, T: Copy> Filling<'a, T> {
    /// A list that was given no answer yet.
    pub(crate) fn of(list: &'a mut [T]) -> Filling<'a, T>
        ensures same_list { result.list.ghost_name ≡ list.entry.ghost_name }
        ensures list { result.list.now ≡ list.entry.now }
        ensures count { result.count ≡ 0 }
    {
        Filling { list, count: 0 }
    }

    /// Writes the next answer, if the list has room for it.
    pub(crate) fn add(&mut self, answer: T)
        requires { self.old.count < usize.MAX }
        ensures { Adds self.old (answer ∷ []) self.new }
    {
        put(self.list, self.count, answer);
        self.count += 1;
    }

    /// How many answers the list was given.
    pub(crate) fn count(&self) -> usize
        ensures { result ≡ self.now.count }
    {
        self.count
    }
}
