//! Following joins, and passing signals.

ghost use Rattle.std.specs.Prelude.{◌≡◌};
ghost use Rattle.layout.specs.Uses.{leg};
ghost use Rattle.layout.specs.Ways.{port};
ghost use Rattle.flank.specs.Signals.{far_end, is_able_signal, passes, along};

use layout::element::{Element, Join};
use layout::ports::element_at;
use layout::position::Position;

/// As many ports as 96 signals have.
const SIGNAL_PORTS: usize = 192;

/// The port that a port is joined to; itself where it has no join.
pub(crate) fn far_end(elements: &[Element], from: Join) -> Join
    ensures { result ≡ far_end elements.now from }
{
    element_at(elements, from.element as usize)
        .join(from.port)
        .unwrap_or(from)
}

/// The port of a point's leg.
fn leg_port(position: Position) -> u8
    ensures { result ≡ leg position }
{
    match position {
        Position::Plus => 1,
        Position::Minus => 2,
    }
}

/// The port that a leg of a point is joined to.
pub(crate) fn beyond_leg(elements: &[Element], element: u8, position: Position) -> Join
    ensures { result ≡ far_end elements.now (port element (leg position)) }
{
    let port = leg_port(position);
    far_end(elements, Join { element, port })
}

/// Whether a signal met at a port is able to shield: it is marked, and met at its front.
pub(crate) fn is_able_signal(signal: Element, port: u8) -> bool
    ensures { result ≡ is_able_signal signal port }
{
    signal.marks.is_some_and(|marks| marks.requested) && port == 1
}

/// Whether a walk passes what it meets at a port: a signal, and an able one only where `able_too`.
fn is_passed(elements: &[Element], met: Join, able_too: bool) -> bool
    ensures { result ≡ passes able_too elements.now met }
{
    let element = element_at(elements, met.element as usize);
    element.kind.is_signal() && (able_too || !is_able_signal(element, met.port))
}

/// The first port that is met, from a port on, and not passed. A signal is passed to its other port.
#[tactic(auto, using(crate::proofs::Turns::along_rests, crate::proofs::Turns::along_more), unfolding(crate::specs::Signals::along))]
pub(crate) fn pass_signals(elements: &[Element], from: Join, able_too: bool) -> Join
    ensures { result ≡ along able_too elements.now 192 from }
{
    let mut met = from;
    for _ in 0..SIGNAL_PORTS {
        if !is_passed(elements, met, able_too) {
            return met;
        }
        let port = 1u8.saturating_sub(met.port);
        met = far_end(elements, Join { port, ..met });
    }
    met
}
