//! What protects the flanks of a route.

ghost use Rattle.std.specs.Prelude.{◌≡◌, ◌<◌, length, map};
ghost use Rattle.flank.specs.Used.{used_table};
ghost use Rattle.flank.specs.Flanks.{flank_of};
ghost use Rattle.flank.specs.Protection.{flank_marks, no_marks, route_marks, marks_of, requests_of, branches_of, put_at, have_room, counts_listed, list_filled, requests_told, branches_told};

use crate::answering::{Answering, AsRequested};
use crate::answers::{Branch, Mark, Request};
use crate::filling::Filling;
use crate::flanks::flank_of;
use crate::listing::list_requests;
use crate::search::Search;
use crate::signals::beyond_leg;
use layout::element::Element;
use layout::route::Route;

/// A table with nothing marked.
#[tactic(auto, unfolding(crate::specs::Protection::no_marks))]
fn no_marks() -> [Mark; 96]
    ensures { result ≡ no_marks }
{
    [Mark::default(); 96]
}

impl Search<'_> {
    /// Marks what the walks out of the flank of an element find, if it has one.
    #[tactic(auto, using(crate::proofs::Unused::unused_marks))]
    fn mark_flank(&self, element: u8, marked: &mut [Mark])
        requires { element < 96 }
        ensures { marked.new ≡ flank_marks self.now.elements.now (used_table self.now.elements.now self.now.route.now) element (flank_of self.now.elements.now self.now.route.now element) marked.old }
    {
        if !self.is_used(element) {
            return;
        }
        if let Some(flank) = flank_of(self.elements, self.route, element) {
            let from = beyond_leg(self.elements, element, flank.leg);
            self.walk(from, flank.spare, marked);
        }
    }

    /// The table of what the route requests, and of where its walks end open, by element.
    #[tactic(auto, using(crate::proofs::Turns::marks_none, crate::proofs::Turns::no_marks_length, crate::proofs::Turns::marks_more))]
    fn shields(&self) -> [Mark; 96]
        ensures { result ≡ route_marks self.now.elements.now self.now.route.now }
    {
        let mut marked = no_marks();
        for number in 0..96u8 {
            self.mark_flank(number, &mut marked);
        }
        marked
    }

    /// The table of what the walks out of the flank of one element find.
    fn marks_of(&self, element: u8) -> [Mark; 96]
        requires { element < 96 }
        ensures { result ≡ marks_of self.now.elements.now self.now.route.now element }
    {
        let mut marked = no_marks();
        self.mark_flank(element, &mut marked);
        marked
    }

    /// Writes the open branches of the route into the first places of a list, as far as it has room, and gives their number.
    #[tactic(auto, using(crate::proofs::Filled::none_added, crate::proofs::Lists::below_few))]
    fn list_branches(&self, list: &mut [Branch]) -> usize
        ensures count { result ≡ length (branches_of self.now.elements.now self.now.route.now) }
        ensures list { list.new ≡ put_at (branches_of self.now.elements.now self.now.route.now) 0 list.old }
    {
        let mut filling = Filling::of(list);
        for point in 0..96u8 {
            filling.add_open(point, &self.marks_of(point));
        }
        filling.count()
    }
}

/// The table of what a route requests, and of where its walks end open, by element.
pub fn shields(elements: &[Element], route: &Route) -> [Mark; 96]
    ensures { result ≡ route_marks elements.now route.now }
{
    Search::of(elements, route).shields()
}

/// Fills two lists with the answer to each request of a route, by element, and with its open branches, by used point and last point; gives the two numbers.
/// Where either list is too short, both stay as they are and there is no answer.
#[tactic(auto, using(crate::proofs::Lists::put_filled, crate::proofs::Lists::put_made))]
pub fn list_protection<A: Answering>(
    elements: &[Element],
    route: &Route,
    answering: &A,
    requests: &mut [A::Answer],
    branches: &mut [Branch],
) -> Option<(usize, usize)>
    ensures counts { result ≡ counts_listed elements.now route.now requests.old branches.old }
    ensures requests { requests.new ≡ list_filled (have_room elements.now route.now requests.old branches.old) (map (A.answer_to answering.now) (requests_of elements.now route.now)) requests.old }
    ensures branches { branches.new ≡ list_filled (have_room elements.now route.now requests.old branches.old) (branches_of elements.now route.now) branches.old }
{
    let search = Search::of(elements, route);
    let marked = search.shields();
    // Listing into no place at all counts.
    let request_count = list_requests(&marked, answering, &mut []);
    let branch_count = search.list_branches(&mut []);
    if request_count > requests.len() || branch_count > branches.len() {
        return None;
    }
    list_requests(&marked, answering, requests);
    search.list_branches(branches);
    Some((request_count, branch_count))
}

/// Fills two lists with what a route requests, by element, and with its open branches, by used point and last point; gives the two numbers.
/// Where either list is too short, both stay as they are and there is no answer.
pub fn protection(
    elements: &[Element],
    route: &Route,
    requests: &mut [Request],
    branches: &mut [Branch],
) -> Option<(usize, usize)>
    ensures counts { result ≡ counts_listed elements.now route.now requests.old branches.old }
    ensures requests { requests.new ≡ requests_told elements.now route.now requests.old branches.old }
    ensures branches { branches.new ≡ branches_told elements.now route.now requests.old branches.old }
{
    list_protection(elements, route, &AsRequested, requests, branches)
}
