//! What is done when a plan, a field or a look at them is asked for.

use crate::asked::Asked;
use crate::looking::see;
use crate::preparing::{read_plan, work_on};
use equipment::equipment::Equipment;
use plan::plan::Plan;

/// Does what is asked for, prints what it did, and gives the bytes of a plan that was accepted.
pub fn answer(
    rt: &HostRuntime,
    plan: &mut Plan,
    field: &mut Equipment,
    asked: Asked<'_>,
) -> anyhow::Result<Option<Vec<u8>>> {
    match asked {
        Asked::Plan(digits) => return read_plan(rt, plan, digits),
        Asked::Field(work) => work_on(rt, field, work)?,
        Asked::See(look) => see(rt, plan, field, look)?,
    }
    Ok(None)
}
