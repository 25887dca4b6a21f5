//! A plan that is read from its bytes, over and over.

use crate::sites::Site;
use crate::tally::Tally;
use flank::answers::{Branch, Request};
use plan::plan::Plan;
use std::alloc::{AllocError, Global};

/// Sees what a route requests at its flanks, and its open branches.
fn see_flanks(tally: &mut Tally, plan: &Plan, route: u8) {
    let mut requests = [Request::default(); 8];
    let mut branches = [Branch::default(); 8];
    if plan.flanks(route, &mut requests, &mut branches).is_ok() {
        for request in requests {
            tally.see(request.element);
            tally.see(request.position.number());
        }
        for branch in branches {
            tally.see(branch.from);
            tally.see(branch.last);
        }
    }
}

/// Sees how many elements a plan has, and the last element of the path of each route.
fn see_plan(tally: &mut Tally, plan: &Plan) {
    let drawing = plan.drawing();
    for element in drawing.elements.as_slice() {
        tally.see(element.section.unwrap_or(64));
    }
    for route in drawing.routes.as_slice() {
        tally.see(route.path_elements().last().copied().unwrap_or(96));
    }
}

/// Reads the plan of a station a number of times.
pub(crate) fn read_over(heap: Global, site: Site, times: u32) -> Result<Tally, AllocError> {
    let bytes = site.bytes(heap)?;
    let mut plan = Plan::fresh();
    let mut tally = Tally::default();
    for _ in 0..times {
        match plan.read(bytes.as_slice()) {
            Ok(()) => tally.accept(),
            Err(fault) => tally.refuse(fault.number()),
        }
    }
    see_plan(&mut tally, &plan);
    for route in 0..64 {
        see_flanks(&mut tally, &plan, route);
    }
    Ok(tally)
}
