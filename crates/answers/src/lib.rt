//! Answers to lines of text, each by the sealed solver of the number form that it names.
#![tactic(auto)]

pub mod outcome;
pub mod solvers;
