//! Exact radicands in words.
#![tactic(auto)]

mod limbs;
mod scale;
pub mod sides;
mod wide;
pub mod words;
