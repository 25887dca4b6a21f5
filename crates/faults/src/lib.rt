//! What can be wrong with the bytes of an offered plan.
#![tactic(auto)]

pub mod fault;
