//! The search out of the flanks of a route: what it requests to shield them, and the branches that stay open.
#![tactic(auto)]

pub mod answering;
pub mod answers;
mod filling;
pub mod flanks;
mod listing;
mod marks;
pub mod meeting;
pub mod protection;
mod search;
mod signals;
pub mod used;
