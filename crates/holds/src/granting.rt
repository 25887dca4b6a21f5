//! How a route comes into holds, and out of them.

ghost use Rattle.std.specs.Prelude.{◌≡◌, ℕ, Option};
ghost use Rattle.layout.specs.declared.position.Position.{Position};
ghost use Rattle.holds.specs.declared.interlocking.Interlocking.{Interlocking};
ghost use Rattle.holds.specs.Granting.{joined_by, AnswersBy, wanted_joined, needs_granted, requests_granted, taken_out, taken_up, tried_again, given_up};

use crate::interlocking::Interlocking;
use crate::state::RouteAct;
use layout::position::Position;
use sheets::sheet::RouteSheet;

impl Interlocking {
    /// The route joins the hold of an element, in a position.
    fn join(&mut self, route: usize, element: u8, position: Position)
        ensures { self.new ≡ joined_by self.old route element position }
    {
        let place = usize::from(element);
        if place < self.holds.len() {
            let hold = &mut self.holds[place];
            hold.grant(route, position);
        }
    }

    /// The route joins the holds of the elements that it wants, one after another, each in the position that a choice gives, if any.
    fn join_wanted<F: Fn(&Interlocking, u8) -> Option<Position>>(
        &mut self,
        sheet: &RouteSheet,
        route: usize,
        choice: F,
    )
        requires { F.IsAlwaysCallable choice }
        ensures { (rule : Interlocking → ℕ → Option Position) → AnswersBy (F.post choice) rule → self.new ≡ wanted_joined rule sheet.now route self.old }
    {
        for element in sheet.wanted.as_slice() {
            if let Some(position) = choice(self, *element) {
                self.join(route, *element, position);
            }
        }
    }

    /// What the route itself needs, it holds.
    fn grant_needs(&mut self, sheet: &RouteSheet, route: usize)
        ensures { self.new ≡ needs_granted sheet.now route self.old }
    {
        self.join_wanted(sheet, route, |_, element| sheet.want(element).need);
    }

    /// The request of an element is granted, if nobody holds it or it is held in the position requested.
    fn grant_requests(&mut self, sheet: &RouteSheet, route: usize)
        ensures { self.new ≡ requests_granted sheet.now route self.old }
    {
        self.join_wanted(sheet, route, |holds, element| {
            let hold = holds.hold(element);
            sheet
                .want(element)
                .request
                .filter(|position| hold.is_open_to(*position))
        });
    }

    /// The route leaves the holds of all elements.
    #[tactic(auto, using(crate::proofs::Leaving::left_none, crate::proofs::Leaving::left_more, crate::proofs::Leaving::left_all))]
    fn leave_all(&mut self, route: usize)
        ensures { self.new ≡ taken_out self.old route 96 }
    {
        for hold in &mut self.holds {
            hold.leave(route);
        }
    }

    /// Sets a route: it waits, holds what it needs, and has its requests granted where they may be.
    pub fn take_up(&mut self, sheet: &RouteSheet, route: usize)
        ensures { self.new ≡ taken_up sheet.now route self.old }
    {
        self.change(route, self.state(route).after(RouteAct::Set));
        self.grant_needs(sheet, route);
        self.grant_requests(sheet, route);
    }

    /// Clears a route: dropped it waits again, and its requests are tried again.
    pub fn try_again(&mut self, sheet: &RouteSheet, route: usize)
        ensures { self.new ≡ tried_again sheet.now route self.old }
    {
        self.change(route, self.state(route).after(RouteAct::Clear));
        self.grant_requests(sheet, route);
    }

    /// Releases a route: it is absent, and out of every hold.
    pub fn give_up(&mut self, route: usize)
        ensures { self.new ≡ given_up route self.old }
    {
        self.change(route, self.state(route).after(RouteAct::Release));
        self.leave_all(route);
    }
}
