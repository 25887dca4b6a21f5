//! Lists of the requests and of the open branches in a table.

ghost use Rattle.std.specs.Prelude.{◌≡◌, ◌+◌, ◌≤◌, length, map};
ghost use Rattle.flank.specs.Fillings.{Adds, AddsMade};
ghost use Rattle.flank.specs.Protection.{requests_at, requests_in, branches_in, put_at};

use crate::answering::Answering;
use crate::answers::{Branch, Mark, Request};
use crate::filling::Filling;
use layout::position::Position;

/// Adds the answers to the requests of one element.
#[tactic(auto, using(crate::proofs::Filled::made_more))]
fn add_requests<A: Answering>(
    element: u8,
    mark: Mark,
    answering: &A,
    filling: &mut Filling<A::Answer>,
)
    requires { filling.old.count + 2 ≤ usize.MAX }
    ensures { AddsMade (A.answer_to answering.now) filling.old (requests_at element mark) filling.new }
{
    if mark.plus {
        let position = Position::Plus;
        filling.add(answering.answer(Request { element, position }));
    }
    if mark.minus {
        let position = Position::Minus;
        filling.add(answering.answer(Request { element, position }));
    }
}

/// Writes the answers to the requests of a table into the first places of a list, as far as it has room, and gives their number.
#[tactic(auto, using(crate::proofs::Lists::requests_none, crate::proofs::Filled::made_none))]
pub(crate) fn list_requests<A: Answering>(
    marked: &[Mark; 96],
    answering: &A,
    list: &mut [A::Answer],
) -> usize
    ensures count { result ≡ length (requests_in marked.now 96) }
    ensures list { list.new ≡ put_at (map (A.answer_to answering.now) (requests_in marked.now 96)) 0 list.old }
{
    let mut filling = Filling::of(list);
    for (element, mark) in marked.iter().enumerate() {
        add_requests(element as u8, *mark, answering, &mut filling);
    }
    filling.count()
}

impl Filling<'_, Branch> {
    /// Adds the open branches of a table of the flank of `from`.
    #[tactic(auto, using(crate::proofs::Lists::branches_none, crate::proofs::Lists::branches_few))]
    pub(crate) fn add_open(&mut self, from: u8, marked: &[Mark; 96])
        requires { self.old.count + 96 ≤ usize.MAX }
        ensures { Adds self.old (branches_in from marked.now 96) self.new }
    {
        for (last, mark) in marked.iter().enumerate() {
            if mark.open_end {
                let last = last as u8;
                self.add(Branch { from, last });
            }
        }
    }
}
