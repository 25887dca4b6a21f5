//! What the flanks of route 0 come to, on small stations.

use crate::readings;
use flank::answers::{Branch, Request};
use plan::plan::Plan;
use std::io;
use viewing::listing::print_listed;
use worked_plans::plans;

/// Prints what route 0 requests, and its open branches.
fn list(rt: &HostRuntime, plan: &Plan) -> io::Result<()> {
    let mut requests = [Request::default(); 8];
    let mut branches = [Branch::default(); 8];
    let counts = plan.flanks(0, &mut requests, &mut branches);
    print_listed(rt, counts, &requests, &branches)
}

fn show(rt: &HostRuntime, what: &str, bytes: &[u8]) -> io::Result<()> {
    let mut plan = Plan::fresh();
    match plan.read(bytes) {
        Ok(()) => {
            print!(rt; "{what}: ")?;
            list(rt, &plan)
        }
        Err(fault) => readings::show(rt, what, Err(fault)),
    }
}

/// Each station is drawn for one rule.
pub(crate) fn show_all(rt: &HostRuntime) -> io::Result<()> {
    show(rt, "K", plans::K)?;
    show(rt, "K with point 5 turned", plans::K_TURNED)?;
    show(rt, "the same with a shunting route", plans::K_SHUNTING)?;
    show(rt, "a walk ends at a track", plans::BY_TRACK)?;
    show(rt, "a walk comes to a derailer", plans::BY_DERAILER)?;
    show(
        rt,
        "a marked signal met at its front",
        plans::BY_SIGNAL_FRONT,
    )?;
    show(rt, "a marked signal met at its rear", plans::BY_SIGNAL_REAR)?;
    show(
        rt,
        "a dual point that prefers plus, met at its minus leg",
        plans::DUAL_PLUS,
    )?;
    show(
        rt,
        "a dual point that prefers minus, met at its minus leg",
        plans::DUAL_MINUS,
    )?;
    show(rt, "three points that are not able", plans::THREE_POINTS)?;
    show(
        rt,
        "a walk that comes back to the overlap of its route",
        plans::BACK_TO_ROUTE,
    )?;
    show(
        rt,
        "a point beyond whose toe, behind a signal, the route comes next",
        plans::BACK_BEYOND_TOE,
    )?;
    show(
        rt,
        "a point of an overlap, whose walks reach one point only",
        plans::IN_OVERLAP,
    )?;
    show(
        rt,
        "a chain of signals, and then a derailer",
        plans::CHAIN_OF_SIGNALS,
    )
}
