//! Making, growing and reading a bounded list.

ghost use Rattle.std.specs.Prelude.{◌≡◌, ltb};
ghost use Rattle.bounded.specs.Lists.{listed, empty_of, pushed};

use crate::bounded::Bounded;

impl<T: Copy, const N: usize> Bounded<T, N> {
    /// A list that holds nothing; `blank` fills its places.
    #[tactic(auto, unfolding(crate::specs::Lists::blanks))]
    pub fn empty(blank: T) -> Self
        ensures { result ≡ empty_of blank }
    {
        Bounded {
            count: 0,
            places: [blank; N],
        }
    }

    /// The items, in order.
    pub fn as_slice(&self) -> &[T]
        ensures { result.now ≡ listed self.now }
    {
        &self.places[..self.count.min(N)]
    }

    /// Adds an item at the end; answers false, and changes nothing, where the list is full.
    pub fn push(&mut self, item: T) -> bool
        ensures answer { result ≡ ltb self.old.count N }
        ensures list { self.new ≡ pushed self.old item }
    {
        if self.count < N {
            self.places[self.count] = item;
            self.count += 1;
            true
        } else {
            false
        }
    }
}
