//! The protection of a route of a plan.

ghost use Rattle.std.specs.Prelude.{◌≡◌};
ghost use Rattle.station.specs.Protection.{protection_answer, protection_shields, protection_branches};

use flank::answers::Branch;
use holds::interlocking::Interlocking;
use plan::plan::Plan;
use protection::protection::protection;
use protection::shield::Shield;
use refusals::refusal::Refusal;

/// Fills two lists with the requests and the open branches of a route, and answers the two numbers.
pub(crate) fn protection_on(
    plan: &Plan,
    interlocking: &Interlocking,
    route: u8,
    shields: &mut [Shield],
    branches: &mut [Branch],
) -> Result<(usize, usize), Refusal>
    ensures answer { result ≡ protection_answer plan.now.drawing route shields.old branches.old }
    ensures shields { shields.new ≡ protection_shields plan.now.drawing interlocking.now route shields.old branches.old }
    ensures branches { branches.new ≡ protection_branches plan.now.drawing route shields.old branches.old }
{
    let elements = plan.drawing().elements.as_slice();
    let drawn = plan.route(route)?;
    let number = usize::from(route);
    let counts = protection(elements, drawn, interlocking, number, shields, branches);
    counts.ok_or(Refusal::ListTooShort)
}
