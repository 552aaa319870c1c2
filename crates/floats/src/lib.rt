//! Sums of floats without error: a number as the sum of two floats, neither rounded away.
#![tactic(auto)]

pub mod double_double;
