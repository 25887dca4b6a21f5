//! A table read past its end has a blank; written past its end it stays as it is.

ghost use Rattle.std.specs.Prelude.{◌≡◌, slice_index_or, slice_set};

/// What a table has at a place, `blank` past its end.
pub fn at_or<T: Copy>(table: &[T], place: usize, blank: T) -> T
    ensures { result ≡ slice_index_or table.now place blank }
{
    if place < table.len() {
        table[place]
    } else {
        blank
    }
}

/// Writes an item at a place, if the table has that place.
#[tactic(auto, using(crate::proofs::set_past))]
pub fn put<T: Copy>(table: &mut [T], place: usize, item: T)
    ensures { table.new ≡ slice_set table.old place item }
{
    if place < table.len() {
        table[place] = item;
    }
}
