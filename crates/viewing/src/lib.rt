//! What programs print of the flanks of a route, and how they compare two fields.
#![tactic(auto)]

pub mod alike;
pub mod listing;
