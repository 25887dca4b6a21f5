//! The plans of the worked examples.
#![tactic(auto)]

pub mod plans;
