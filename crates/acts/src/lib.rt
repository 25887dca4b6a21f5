//! The acts on a station, over its holds and route states and any field.
#![tactic(auto)]

pub mod act;
mod events;
mod orders;
pub mod performing;
pub mod questions;
mod releasing;
