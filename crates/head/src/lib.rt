//! The head of a radicand: the leading 63 or 64 bits of a float sum of scaled sides, from which a
//! root of the exact radicand is proposed.
#![tactic(auto)]

pub mod of_sides;
pub mod side;
pub mod squares;
pub mod word;
