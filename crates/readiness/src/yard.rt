//! What acts on a station change.

use holds::interlocking::Interlocking;

/// What is held and the state of each route, with the outdoor equipment.
pub struct Yard<F> {
    pub interlocking: Interlocking,
    pub field: F,
}
