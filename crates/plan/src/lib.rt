//! Checked plans: a drawing is read, checked in a fixed order, and taken up or answered with its first fault.
#![tactic(auto)]

mod checking;
mod fields;
mod joins;
pub mod plan;
mod requests;
