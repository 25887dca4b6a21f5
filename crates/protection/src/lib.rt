//! What protects the flanks of a route on a station: its requests, each held or not, and its open branches.
#![tactic(auto)]

pub mod protection;
pub mod shield;
