//! What a port of an element is joined to.

ghost use Rattle.std.specs.Prelude.{◌≡◌};
ghost use Rattle.layout.specs.Ports.{at, join_of};

use crate::element::{Element, Join};

/// The element with a number, one with no field where there is none.
pub fn element_at(elements: &[Element], number: usize) -> Element
    ensures { result ≡ at elements.now number }
{
    if number < elements.len() {
        elements[number]
    } else {
        Element::default()
    }
}

impl Element {
    /// What a port is joined to.
    pub fn join(&self, port: u8) -> Option<Join>
        ensures { result ≡ join_of self.now port }
    {
        *self.joins.get(port as usize)?
    }
}
