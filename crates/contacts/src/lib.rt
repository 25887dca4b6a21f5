//! A field kept as a picture of its contacts: 104 bytes.
#![tactic(auto)]

mod byte;
pub mod operations;
pub mod picture;
mod section;
