//! From a proposal to the floor root of a radicand, one more digit of it, and its rounding.
#![tactic(auto)]

pub mod digit;
pub mod floor;
pub mod location;
pub mod rounded;
