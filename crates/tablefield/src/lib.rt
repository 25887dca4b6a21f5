//! A field kept as a table of records.
#![tactic(auto)]

pub mod operations;
pub mod table;
