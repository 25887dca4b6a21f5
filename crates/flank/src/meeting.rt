//! What happens where a walk meets an element.

ghost use Rattle.std.specs.Prelude.{◌≡◌};
ghost use Rattle.flank.specs.Meetings.{other_leg, may_shield, meets_leg, meets};

use crate::search::Search;
use crate::signals::{far_end, is_able_signal, pass_signals};
use layout::element::Join;
use layout::kind::{Dual, Kind};
use layout::ports::element_at;
use layout::position::Position;

/// A walk at an element that it does not just pass.
#[derive(Clone, Copy, PartialEq, Eq)]
pub enum Meeting {
    /// The walk ends, and not open.
    Ends,
    /// The element is able to shield.
    Shields(Position),
    /// A point met at its toe, which counts.
    AtToe,
    /// A point met at a leg and not able, which counts.
    AtLeg,
}

/// The position of a point's other leg.
fn other_leg(port: u8) -> Position
    ensures { result ≡ other_leg port }
{
    if port == 1 {
        Position::Minus
    } else {
        Position::Plus
    }
}

/// Whether a point may shield in a position: without the dual field in both, with it only in the one that it prefers.
fn may_shield(dual: Option<Dual>, position: Position) -> bool
    ensures { result ≡ may_shield dual position }
{
    matches!(
        (dual, position),
        (None, _)
            | (Some(Dual::PrefersPlus), Position::Plus)
            | (Some(Dual::PrefersMinus), Position::Minus)
    )
}

impl Search<'_> {
    /// A point met at a leg. Where the route lies beyond its toe, signals left out, the walk ends.
    fn meet_leg(&self, met: Join) -> Meeting
        ensures { result ≡ meets_leg self.now.elements.now self.now.used met }
    {
        let toe = Join { port: 0, ..met };
        let beyond = pass_signals(self.elements, far_end(self.elements, toe), true);
        if self.is_used(beyond.element) {
            return Meeting::Ends;
        }
        let dual = element_at(self.elements, met.element as usize).dual;
        let position = other_leg(met.port);
        if may_shield(dual, position) {
            Meeting::Shields(position)
        } else {
            Meeting::AtLeg
        }
    }

    /// An element met at a port. What the route uses ends the walk, whatever it is.
    pub(crate) fn meet(&self, met: Join) -> Meeting
        ensures { result ≡ meets self.now.elements.now self.now.used met }
    {
        if self.is_used(met.element) {
            return Meeting::Ends;
        }
        let element = element_at(self.elements, met.element as usize);
        match element.kind {
            Kind::Track | Kind::PlanEnd => Meeting::Ends,
            Kind::Derailer => Meeting::Shields(Position::Plus),
            Kind::Signal if is_able_signal(element, met.port) => Meeting::Shields(Position::Plus),
            // A signal that is not able was passed: no chain of signals in a sound drawing is cut short here.
            Kind::Signal => Meeting::Ends,
            Kind::Point if met.port == 0 => Meeting::AtToe,
            Kind::Point => self.meet_leg(met),
        }
    }
}
