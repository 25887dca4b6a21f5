//! The acts since the opening, performed again.

use crate::open_session::OpenSession;
use equipment::equipment::Equipment;
use plan::plan::Plan;
use station::closed::ClosedStation;
use station::journal::Entry;
use station::open_station::OpenStation;
use station::running::perform_all;
use std::alloc::{AllocError, Global};
use viewing::alike::alike;
use viewing::listing::print_lines;

/// The acts of a journal, without their answers.
fn unanswered(heap: Global, journal: &[Entry]) -> Result<Vec<Entry>, AllocError> {
    journal
        .iter()
        .map(|entry| Entry::from(entry.act))
        .collect(heap)
}

/// Whether two stations answer the same: states, aspects, and what their fields answer, which is fixed for sections above 63.
fn is_same(one: &OpenStation<Equipment>, other: &OpenStation<Equipment>) -> bool {
    let (field, other_field) = (one.field(), other.field());
    (0..64u8).all(|route| one.state(route) == other.state(route))
        && (0..96u8).all(|signal| one.aspect(signal) == other.aspect(signal))
        && (0..96u8).all(|number| alike(field, other_field, number))
}

/// The plan that bytes were read into; the fresh one where there are none, or where they have a fault.
fn plan_of(bytes: Option<&Vec<u8>>) -> Plan {
    let mut plan = Plan::fresh();
    if let Some(bytes) = bytes {
        let _ = plan.read(bytes.as_slice());
    }
    plan
}

/// Performs the acts since the opening again, on the same plan and on what the field was at the opening, prints the answers, and says
/// whether all came out the same.
pub(crate) fn replay(rt: &HostRuntime, session: &OpenSession) -> anyhow::Result<()> {
    let mut journal = unanswered(rt.alloc(), session.journal.as_slice())?;
    let replayed = perform_all(
        plan_of(session.bytes.as_ref()),
        session.first_field.duplicate(),
        journal.as_mut_slice(),
    );
    let same = is_same(&session.station, &replayed);
    let ClosedStation { plan: _, field: _ } = replayed.close();
    print_lines(rt, journal.as_slice())?;
    let word = if same { "same" } else { "different" };
    println!(rt; "replay: {word}")?;
    Ok(())
}
