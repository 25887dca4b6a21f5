//! What can be seen at any time: the field and the flanks of routes.

use crate::asked::Look;
use crate::mistake::print_error;
use crate::telling::number_of;
use equipment::equipment::Equipment;
use field::field::Field;
use flank::answers::{Branch, Request};
use plan::plan::Plan;
use std::io;
use viewing::listing::print_listed;

/// Each of 96 elements in two positions, and each pair of 96 elements: no route has more requests, nor more open branches.
pub const MOST_REQUESTS: usize = 192;

pub const MOST_BRANCHES: usize = 9216;

fn show_element(rt: &HostRuntime, field: &Equipment, element: u8) -> io::Result<()> {
    let report = number_of(field.report(element));
    let blocked = u8::from(field.is_blocked(element));
    let lamp = u8::from(field.is_burning(element));
    let order = number_of(field.standing_order(element));
    println!(rt;
        "element {element}: report {report}, blocked {blocked}, lamp {lamp}, order {order}"
    )
}

fn show_section(rt: &HostRuntime, field: &Equipment, section: u8) -> io::Result<()> {
    let occupied = u8::from(field.is_occupied(section));
    println!(rt; "section {section}: occupied {occupied}")
}

/// Prints what the field answers of each element of the plan, and of each section.
fn show_field(rt: &HostRuntime, plan: &Plan, field: &Equipment) -> io::Result<()> {
    for (element, _) in (0..96u8).zip(plan.drawing().elements.as_slice()) {
        show_element(rt, field, element)?;
    }
    for section in 0..64u8 {
        show_section(rt, field, section)?;
    }
    Ok(())
}

/// Prints the bytes of the contact picture.
fn show_contacts(rt: &HostRuntime, field: &Equipment) -> io::Result<()> {
    let Some(bytes) = field.contact_bytes() else {
        return print_error(rt, "the field is a table");
    };
    print!(rt; "contacts: ")?;
    for byte in bytes {
        print!(rt; "{byte:02x}")?;
    }
    println!(rt; "")
}

/// Prints what a route requests at its flanks, and which branches stay open.
fn show_flanks(rt: &HostRuntime, plan: &Plan, route: u8) -> anyhow::Result<()> {
    let mut requests = vec![in rt.alloc(); Request::default(); MOST_REQUESTS]?;
    let mut branches = vec![in rt.alloc(); Branch::default(); MOST_BRANCHES]?;
    let counts = plan.flanks(route, requests.as_mut_slice(), branches.as_mut_slice());
    print!(rt; "flanks {route}: ")?;
    print_listed(rt, counts, requests.as_slice(), branches.as_slice())?;
    Ok(())
}

/// Prints what can be seen of a plan and a field.
pub fn see(rt: &HostRuntime, plan: &Plan, field: &Equipment, look: Look) -> anyhow::Result<()> {
    match look {
        Look::Element(element) => show_element(rt, field, element)?,
        Look::Section(section) => show_section(rt, field, section)?,
        Look::Contacts => show_contacts(rt, field)?,
        Look::Flanks(route) => show_flanks(rt, plan, route)?,
        Look::All => show_field(rt, plan, field)?,
    }
    Ok(())
}
