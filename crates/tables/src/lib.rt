//! Reading and writing tables at any place, also past their end.
#![tactic(auto)]

pub mod table;
