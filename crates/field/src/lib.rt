//! What the outdoor equipment of a station means, and what everything that stands for it owes.
#![tactic(auto)]

pub mod device;
pub mod field;
pub mod orders;
