//! What a station keeps without its field: the hold of each element and the state of each route.
#![tactic(auto)]

pub mod aspect;
mod aspects;
mod granting;
pub mod hold;
pub mod interlocking;
mod refusing;
pub mod routes;
pub mod state;
