//! A drawn station: elements and how their ports are joined, and the routes over them.
#![tactic(auto)]

pub mod drawing;
pub mod element;
pub mod kind;
pub mod ports;
pub mod position;
pub mod route;
pub mod ways;
