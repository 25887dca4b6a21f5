//! Holds by element and states by route. A number that names no element or route reads as nothing held, or absent.

ghost use Rattle.std.specs.Prelude.{◌≡◌};
ghost use Rattle.holds.specs.Holds.{held_in};
ghost use Rattle.holds.specs.Interlockings.{idle, hold_of, held_by, state_of, with_state};

use crate::hold::{FREE, Hold};
use crate::state::RouteState;
use layout::position::Position;
use tables::table::{at_or, put};

/// The hold of each element and the state of each route.
#[derive(Drop)]
pub struct Interlocking {
    pub(crate) holds: [Hold; 96],
    pub(crate) states: [RouteState; 64],
}

impl Interlocking {
    /// Nothing is held, and all routes are absent.
    #[tactic(auto, unfolding(crate::specs::Interlockings::idle))]
    pub fn idle() -> Interlocking
        ensures { result ≡ idle }
    {
        Interlocking {
            holds: [FREE; 96],
            states: [RouteState::Absent; 64],
        }
    }

    /// The hold of an element, lent.
    pub(crate) fn hold(&self, element: u8) -> &Hold
        ensures { result.now ≡ hold_of self.now element }
    {
        self.holds.get(element as usize).unwrap_or(&FREE)
    }

    /// Whether the route holds the element.
    pub fn is_held_by(&self, route: usize, element: u8) -> bool
        ensures { result ≡ held_by self.now route element }
    {
        self.hold(element).routes.contains(route)
    }

    /// Whether the route holds the element in this position.
    pub fn is_held_in(&self, route: usize, element: u8, position: Position) -> bool
        ensures { result ≡ held_in (hold_of self.now element) route position }
    {
        self.hold(element).is_held_in(route, position)
    }

    /// The position in which the element is held.
    pub fn position(&self, element: u8) -> Position
        ensures { result ≡ (hold_of self.now element).position }
    {
        self.hold(element).position
    }

    pub fn state(&self, route: usize) -> RouteState
        ensures { result ≡ state_of self.now route }
    {
        at_or(&self.states, route, RouteState::Absent)
    }

    /// Gives a route another state.
    pub fn change(&mut self, route: usize, state: RouteState)
        ensures { self.new ≡ with_state self.old route state }
    {
        put(&mut self.states, route, state);
    }
}
