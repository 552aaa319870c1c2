//! Columns of length calls on a sealed solver.
#![tactic(auto)]

pub mod column;
pub mod refusal;
