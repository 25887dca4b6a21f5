//! The type of bounded lists.

/// A list of at most `N` items: the first `count` places of a table.
#[derive(Clone, Copy)]
pub struct Bounded<T, const N: usize> {
    pub(crate) count: usize,
    pub(crate) places: [T; N],
}
