//! Why a call is refused.
#![tactic(auto)]

pub mod refusal;
