//! A plan that is read, and a field that is taken, told and ordered.

use crate::asked::Work;
use crate::hex::{HexFault, bytes_of, picture_of};
use crate::mistake::print_error;
use equipment::equipment::Equipment;
use plan::plan::Plan;

/// Prints why digits do not do; for want of memory nothing is printed.
fn print_fault(rt: &HostRuntime, fault: HexFault) -> anyhow::Result<()> {
    if fault == HexFault::OutOfMemory {
        return Err(fault.into());
    }
    print_error(rt, fault)?;
    Ok(())
}

/// Reads a plan from hexadecimal digits, prints what became of it, and gives the bytes of a plan that was accepted.
pub fn read_plan(
    rt: &HostRuntime,
    plan: &mut Plan,
    digits: &str,
) -> anyhow::Result<Option<Vec<u8>>> {
    let bytes = match bytes_of(rt.alloc(), digits) {
        Ok(bytes) => bytes,
        Err(fault) => {
            print_fault(rt, fault)?;
            return Ok(None);
        }
    };
    if let Err(fault) = plan.read(bytes.as_slice()) {
        println!(rt; "plan: {fault}")?;
        return Ok(None);
    }
    let elements = plan.drawing().elements.as_slice().len();
    let routes = plan.drawing().routes.as_slice().len();
    println!(rt; "plan: accepted, {elements} elements, {routes} routes")?;
    Ok(Some(bytes))
}

/// Takes a contact picture from hexadecimal digits.
fn take_contacts(rt: &HostRuntime, field: &mut Equipment, digits: &str) -> anyhow::Result<()> {
    match picture_of(rt.alloc(), digits) {
        Ok(bytes) => {
            *field = Equipment::contacts(bytes);
            println!(rt; "field: contacts")?;
            Ok(())
        }
        Err(fault) => print_fault(rt, fault),
    }
}

/// Does something to a field, and prints what was done.
pub fn work_on(rt: &HostRuntime, field: &mut Equipment, work: Work<'_>) -> anyhow::Result<()> {
    match work {
        Work::Table => {
            *field = Equipment::table();
            println!(rt; "field: table")?;
        }
        Work::Contacts(digits) => take_contacts(rt, field, digits)?,
        Work::Tell(telling) => {
            telling.tell(field);
            println!(rt; "{telling}: told")?;
        }
        Work::Order(order) => {
            order.send(field);
            println!(rt; "{order}: sent")?;
        }
    }
    Ok(())
}
