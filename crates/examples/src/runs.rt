//! Whole runs: a station is opened on a small plan, acts are performed, and signals are looked at.

use acts::act::{Act, Event};
use contacts::picture::ContactPicture;
use field::field::Field;
use plan::plan::Plan;
use station::closed::ClosedStation;
use station::journal::Entry;
use station::running::perform_all;
use std::alloc::{AllocError, Global};
use tablefield::table::TableField;
use worked_plans::plans;

const SET: Act = Act::Set { route: 0 };

const SET_NEXT: Act = Act::Set { route: 1 };

const CLEAR: Act = Act::Clear { route: 0 };

fn reported(element: u8, value: u8) -> Act {
    let event = Event::Report { element, value };
    Act::from(event)
}

fn burning(signal: u8) -> Act {
    let event = Event::Lamp { signal, value: 1 };
    Act::from(event)
}

/// A journal of acts.
fn journal_of(heap: Global, acts: &[Act]) -> Result<Vec<Entry>, AllocError> {
    acts.iter().map(|act| Entry::from(*act)).collect(heap)
}

/// The number of what a signal shows once the acts of a journal are performed.
fn shown<F: Field + Drop>(
    bytes: &[u8],
    field: F,
    journal: &mut [Entry],
    signal: u8,
) -> anyhow::Result<u8> {
    let mut plan = Plan::fresh();
    plan.read(bytes)?;
    let station = perform_all(plan, field, journal);
    let aspect = station.aspect(signal);
    let ClosedStation { plan: _, field: _ } = station.close();
    Ok(aspect?.number())
}

/// Prints what a signal shows after some acts, on a fresh table and on a dark contact picture with no contact closed.
fn show(
    rt: &HostRuntime,
    what: &str,
    bytes: &[u8],
    acts: &[Act],
    signal: u8,
) -> anyhow::Result<()> {
    let mut journal = journal_of(rt.alloc(), acts)?;
    let on_table = shown(bytes, TableField::fresh(), journal.as_mut_slice(), signal)?;
    let picture = ContactPicture::from([0; 104]);
    let on_picture = shown(bytes, picture, journal.as_mut_slice(), signal)?;
    println!(rt;
        "{what}: signal {signal} shows {on_table} on a table, {on_picture} on a contact picture"
    )?;
    Ok(())
}

/// Runs on K: set and reported, lost, found again, cleared.
fn on_k(rt: &HostRuntime) -> anyhow::Result<()> {
    let acts = [
        SET,
        reported(2, 0),
        reported(5, 0),
        burning(3),
        reported(5, 2),
        reported(5, 0),
        CLEAR,
    ];
    let k = plans::K;
    show(
        rt,
        "K, its route set, its points reported and the end lamp burning",
        k,
        &acts[0..4],
        1,
    )?;
    show(rt, "then the flank point loses control", k, &acts[0..5], 1)?;
    show(rt, "control comes back", k, &acts[0..6], 1)?;
    show(rt, "the route is cleared", k, &acts, 1)
}

/// Runs on two routes in prolongation, with dark lamps.
fn on_two_routes(rt: &HostRuntime) -> anyhow::Result<()> {
    let acts = [SET, SET_NEXT, burning(4)];
    let two = plans::TWO_ROUTES;
    show(
        rt,
        "two routes in prolongation, all lamps dark",
        two,
        &acts[0..2],
        0,
    )?;
    show(
        rt,
        "the last lamp burns, and the second route is clear",
        two,
        &acts,
        2,
    )?;
    show(
        rt,
        "the dark lamp of the permissive signal does not hold the first",
        two,
        &acts,
        0,
    )
}

/// Runs on both stations.
pub(crate) fn show_all(rt: &HostRuntime) -> anyhow::Result<()> {
    on_k(rt)?;
    on_two_routes(rt)
}
