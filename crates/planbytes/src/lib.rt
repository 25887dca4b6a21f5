//! The bytes of a plan file, read into a drawing.
#![tactic(auto)]

mod map;
mod reader;
pub mod reading;
mod record;
