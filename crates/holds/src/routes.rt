//! Sets of routes.

ghost use Rattle.std.specs.Prelude.{◌≡◌};
ghost use Rattle.holds.specs.RouteSets.{contains, with_route, without_route, is_empty};

use tables::table::{at_or, put};

/// A set of routes, by their numbers below 64.
#[derive(Clone, Copy)]
pub struct RouteSet {
    members: [bool; 64],
}

pub(crate) const NO_ROUTES: RouteSet = RouteSet {
    members: [false; 64],
};

impl RouteSet {
    pub(crate) fn contains(&self, route: usize) -> bool
        ensures { result ≡ contains self.now route }
    {
        at_or(&self.members, route, false)
    }

    pub(crate) fn insert(&mut self, route: usize)
        ensures { self.new ≡ with_route self.old route }
    {
        put(&mut self.members, route, true);
    }

    pub(crate) fn remove(&mut self, route: usize)
        ensures { self.new ≡ without_route self.old route }
    {
        put(&mut self.members, route, false);
    }

    #[tactic(auto, using(crate::proofs::SetTests::none_holds))]
    pub(crate) fn is_empty(&self) -> bool
        ensures { result ≡ is_empty self.now }
    {
        !self.members.contains(&true)
    }
}
