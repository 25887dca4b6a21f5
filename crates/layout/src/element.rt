//! Elements of a drawn station.

use crate::kind::{Dual, Kind, Marks, Sort};

/// A port of an element, as the far end of a join.
#[derive(Clone, Copy, PartialEq, Eq)]
pub struct Join {
    pub element: u8,
    pub port: u8,
}

/// An element: its kind, what its ports are joined to, and the fields that its kind has. The default has no field.
#[derive(Clone, Copy, Default)]
pub struct Element {
    pub kind: Kind,
    pub joins: [Option<Join>; 3],
    pub section: Option<u8>,
    pub dual: Option<Dual>,
    pub sort: Option<Sort>,
    pub marks: Option<Marks>,
}
