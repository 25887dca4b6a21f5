//! When a route is ready, and what settles after every accepted act.
#![tactic(auto)]

mod passes;
mod planned;
mod readiness;
pub mod settling;
pub mod yard;
