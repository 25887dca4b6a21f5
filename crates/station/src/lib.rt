//! A station at work on a checked plan and any field.
#![tactic(auto)]

pub mod closed;
pub mod journal;
pub mod open_station;
mod protecting;
pub mod running;
