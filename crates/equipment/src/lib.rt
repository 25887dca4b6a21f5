//! A field in one of two forms, a table or a contact picture, so that one type of station serves both.
#![tactic(auto)]

pub mod equipment;
pub mod operations;
