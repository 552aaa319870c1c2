//! Solvers: length calls under an allowance of steps, and the log of a sealed solver.
#![tactic(auto)]

pub mod log;
pub mod refusal;
pub mod session;
pub mod states;
