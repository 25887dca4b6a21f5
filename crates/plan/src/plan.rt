//! The checked plan.

ghost use Rattle.std.specs.Prelude.{◌≡◌, true, IfOk};
ghost use Rattle.std.specs.Result.{result_err, result_map_both};
ghost use Rattle.plan.specs.Plans.{is_sound, end_to, fresh_drawing, reading, drawing_after};
ghost use Rattle.sheets.specs.Sheets.{sheets_of};
ghost use Rattle.plan.specs.Flanks.{route_answer, flanks_answer, flanks_requests, flanks_branches};
ghost use Rattle.plan.specs.Sound.{SoundPlan, ChecksExact};
ghost use Rattle.plan.specs.Faults.{FaultsExact};
ghost use Rattle.walks.specs.Exactly.{RequestsExact, RequestsAscend, BranchesExact, BranchesAscend};

use crate::checking::check_drawing;
use faults::fault::Fault;
use flank::answers::{Branch, Request};
use flank::protection::protection;
use layout::drawing::Drawing;
use layout::element::{Element, Join};
use layout::kind::Kind;
use layout::route::Route;
use planbytes::reading::drawn;
use refusals::refusal::Refusal;
use sheets::making::{sheets_of, work_out};
use sheets::sheet::Sheets;

/// A drawing that passed all checks, with its sheets.
#[derive(Drop)]
pub struct Plan {
    drawing: Drawing,
    sheets: Sheets,
    ghost sound: { is_sound drawing ≡ true },
    ghost worked: { sheets ≡ sheets_of drawing },
}

/// The drawing that bytes say, if it passes all checks.
#[tactic(auto, using(crate::proofs::Drawn::drawn_passes), unfolding(crate::specs::Plans::reading))]
fn checked_drawing(bytes: &[u8]) -> Result<Drawing, Fault>
    ensures value { result ≡ reading bytes.now }
    ensures sound { IfOk result (λ d. is_sound d ≡ true) }
{
    let drawing = drawn(bytes)?;
    check_drawing(&drawing)?;
    Ok(drawing)
}

/// A plan end joined to another one.
fn end_to(number: u8) -> Element
    ensures { result ≡ end_to number }
{
    Element {
        kind: Kind::PlanEnd,
        joins: [
            Some(Join {
                element: number,
                port: 0,
            }),
            None,
            None,
        ],
        ..Element::default()
    }
}

fn two_ends() -> Drawing
    ensures { result ≡ fresh_drawing }
{
    let mut drawing = Drawing::blank();
    drawing.elements.push(end_to(1));
    drawing.elements.push(end_to(0));
    drawing
}

impl Plan {
    /// A plan of two plan ends joined to each other, with no route.
    #[tactic(auto, unfolding(bounded::specs::Lists::blanks, crate::specs::Plans::is_sound, crate::specs::Checks::elements_fault, crate::specs::Checks::routes_fault))]
    pub fn fresh() -> Plan
        ensures { result.drawing ≡ fresh_drawing }
    {
        let drawing = two_ends();
        Plan {
            drawing,
            sheets: sheets_of(&drawing),
        }
    }

    /// The elements and routes of the plan. Whatever was read, they are a sound plan, and the checks reject nothing that is one.
    pub fn drawing(&self) -> &Drawing
        ensures drawing { result.now ≡ self.now.drawing }
        ensures sound { SoundPlan result.now }
        ensures exact { ChecksExact }
        ensures requests { RequestsExact }
        ensures branches { BranchesExact }
        ensures requests_order { RequestsAscend }
        ensures branches_order { BranchesAscend }
    {
        &self.drawing
    }

    /// Takes up what the bytes draw; on a fault the plan keeps its content. The fault of a drawing is what comes first of all that is
    /// wrong with it.
    pub fn read(&mut self, bytes: &[u8]) -> Result<(), Fault>
        ensures answer { result_err result ≡ result_err (reading bytes.now) }
        ensures drawing { self.new.drawing ≡ drawing_after (reading bytes.now) self.old.drawing }
        ensures first { FaultsExact }
    {
        let drawing = checked_drawing(bytes)?;
        work_out(&mut self.sheets, &drawing);
        self.drawing = drawing;
        Ok(())
    }

    /// The sheets of the plan.
    pub fn sheets(&self) -> &Sheets
        ensures { result.now ≡ sheets_of self.now.drawing }
    {
        &self.sheets
    }

    /// The route with a number.
    pub fn route(&self, number: u8) -> Result<&Route, Refusal>
        ensures { result_map_both (λ route. route.now) (λ refusal. refusal) result ≡ route_answer self.now.drawing number }
    {
        let routes = self.drawing.routes.as_slice();
        routes.get(number as usize).ok_or(Refusal::NoSuchRoute)
    }

    /// Fills two lists with what a route requests at its flanks, by element, and with its open branches, by used point and last
    /// point, and answers the two numbers. A refusal leaves both lists as they are.
    pub fn flanks(
        &self,
        route: u8,
        requests: &mut [Request],
        branches: &mut [Branch],
    ) -> Result<(usize, usize), Refusal>
        ensures answer { result ≡ flanks_answer self.now.drawing route requests.old branches.old }
        ensures requests { requests.new ≡ flanks_requests self.now.drawing route requests.old branches.old }
        ensures branches { branches.new ≡ flanks_branches self.now.drawing route requests.old branches.old }
    {
        let elements = self.drawing.elements.as_slice();
        let route = self.route(route)?;
        protection(elements, route, requests, branches).ok_or(Refusal::ListTooShort)
    }
}
