//! Sound paths and overlaps of routes.
#![tactic(auto)]

pub mod overlap;
pub mod path;
mod places;
mod way;
