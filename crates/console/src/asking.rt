//! Questions to an open station.

use equipment::equipment::Equipment;
use flank::answers::Branch;
use protection::shield::Shield;
use refusals::refusal::Refusal;
use spoken::looking::{MOST_BRANCHES, MOST_REQUESTS};
use station::open_station::OpenStation;
use std::{fmt, io};
use viewing::listing::print_listed;

/// Prints what was answered of the number, or why nothing was.
fn print_answer<T: fmt::Display + Drop>(
    rt: &HostRuntime,
    name: &str,
    number: u8,
    answer: Result<T, Refusal>,
) -> io::Result<()> {
    match answer {
        Ok(answer) => println!(rt; "{name} {number}: {answer}"),
        Err(refusal) => println!(rt; "{name} {number}: {refusal}"),
    }
}

/// Prints the state of a route.
pub(crate) fn show_state(
    rt: &HostRuntime,
    station: &OpenStation<Equipment>,
    route: u8,
) -> io::Result<()> {
    print_answer(rt, "state", route, station.state(route))
}

/// Prints the aspect of a signal.
pub(crate) fn show_aspect(
    rt: &HostRuntime,
    station: &OpenStation<Equipment>,
    signal: u8,
) -> io::Result<()> {
    let number = station.aspect(signal).map(|aspect| aspect.number());
    print_answer(rt, "aspect", signal, number)
}

/// Prints the states of all routes and the aspects of all signals of the plan.
pub(crate) fn show_station(rt: &HostRuntime, station: &OpenStation<Equipment>) -> io::Result<()> {
    let drawing = station.plan().drawing();
    for (route, _) in (0..64u8).zip(drawing.routes.as_slice()) {
        show_state(rt, station, route)?;
    }
    for (number, element) in (0..96u8).zip(drawing.elements.as_slice()) {
        if element.kind.is_signal() {
            show_aspect(rt, station, number)?;
        }
    }
    Ok(())
}

/// Ends a line with what protects a route, as two lists of these lengths have room for it.
fn print_protection(
    rt: &HostRuntime,
    station: &OpenStation<Equipment>,
    route: u8,
    requests: usize,
    branches: usize,
) -> anyhow::Result<()> {
    let mut shields = vec![in rt.alloc(); Shield::default(); requests]?;
    let mut branches = vec![in rt.alloc(); Branch::default(); branches]?;
    let counts = station.protection(route, shields.as_mut_slice(), branches.as_mut_slice());
    print_listed(rt, counts, shields.as_slice(), branches.as_slice())?;
    Ok(())
}

/// Prints what protects a route.
pub(crate) fn show_protection(
    rt: &HostRuntime,
    station: &OpenStation<Equipment>,
    route: u8,
) -> anyhow::Result<()> {
    print!(rt; "protection {route}: ")?;
    print_protection(rt, station, route, MOST_REQUESTS, MOST_BRANCHES)
}

/// Prints the same, with lists of two lengths lent to the call.
pub(crate) fn show_protection_lent(
    rt: &HostRuntime,
    station: &OpenStation<Equipment>,
    route: u8,
    requests: u8,
    branches: u8,
) -> anyhow::Result<()> {
    print!(rt; "protection {route} {requests} {branches}: ")?;
    print_protection(rt, station, route, requests as usize, branches as usize)
}
