//! The requests and open branches of a route in the lists of a caller.

ghost use Rattle.std.specs.Prelude.{◌≡◌};
ghost use Rattle.flank.specs.Protection.{counts_listed};
ghost use Rattle.protection.specs.Shields.{shields_told, branches_told};

use crate::shield::{Holder, Shield};
use flank::answers::Branch;
use flank::protection::list_protection;
use holds::interlocking::Interlocking;
use layout::element::Element;
use layout::route::Route;

/// Fills two lists with what a route requests, by element, and with its open branches, by used point and last point; gives the two numbers.
/// Where either list is too short, both stay as they are and there is no answer.
pub fn protection(
    elements: &[Element],
    drawn: &Route,
    interlocking: &Interlocking,
    route: usize,
    shields: &mut [Shield],
    branches: &mut [Branch],
) -> Option<(usize, usize)>
    ensures counts { result ≡ counts_listed elements.now drawn.now shields.old branches.old }
    ensures shields { shields.new ≡ shields_told elements.now drawn.now interlocking.now route shields.old branches.old }
    ensures branches { branches.new ≡ branches_told elements.now drawn.now shields.old branches.old }
{
    let holder = Holder {
        interlocking,
        route,
    };
    list_protection(elements, drawn, &holder, shields, branches)
}
