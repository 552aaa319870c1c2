//! Root sources: proposals for the root of a word, each with a grade that says how near they are.
#![tactic(auto)]

pub mod digit;
pub mod refiner;
pub mod root_source;
pub mod table;
pub mod theorems;
