//! The third side of a right triangle, as a pattern of a number form.
#![tactic(auto)]

pub mod answer;
pub mod examples;
pub mod resultant;
