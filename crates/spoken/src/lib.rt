//! What the console reads and prints.
#![tactic(auto)]

pub mod answering;
pub mod asked;
pub mod hex;
pub mod looking;
pub mod mistake;
pub mod preparing;
pub mod telling;
pub mod understanding;
pub mod words;
