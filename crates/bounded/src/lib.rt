//! Lists of at most a fixed number of items, in fixed memory.
#![tactic(auto)]

pub mod bounded;
mod operations;
