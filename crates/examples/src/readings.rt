//! What is read from bytes: a plan, or its fault.

use faults::fault::Fault;
use plan::plan::Plan;
use std::io;
use worked_plans::plans;

/// Prints what a reading answered.
pub(crate) fn show(rt: &HostRuntime, what: &str, answer: Result<(), Fault>) -> io::Result<()> {
    match answer {
        Ok(()) => println!(rt; "{what}: accepted"),
        Err(fault) => println!(rt; "{what}: {fault}"),
    }
}

/// Reads K, and bytes that are nearly K.
pub(crate) fn show_all(rt: &HostRuntime) -> io::Result<()> {
    let k = *plans::K;
    let mut plan = Plan::fresh();
    show(rt, "no bytes", plan.read(&[]))?;
    show(rt, "the first 55 bytes of K", plan.read(&k[0..55]))?;
    let mut longer = [0; 57];
    longer[0..56].copy_from_slice(&k);
    show(rt, "K and a byte 00", plan.read(&longer))?;
    let mut turned = k;
    turned[49] = 2;
    show(
        rt,
        "K with the last byte of element 7 as 02",
        plan.read(&turned),
    )?;
    show(rt, "K", plan.read(&k))
}
