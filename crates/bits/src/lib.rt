//! A byte as eight bits, numbered from 0, the lowest.
#![tactic(auto)]

pub mod byte;
