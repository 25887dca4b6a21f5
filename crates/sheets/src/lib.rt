//! The sheets of a plan: all that the acts of a station need to know of each element and route, worked out once.
#![tactic(auto)]

pub mod concern;
mod lists;
pub mod making;
pub mod reading;
mod route;
mod sections;
pub mod sheet;
mod wants;
