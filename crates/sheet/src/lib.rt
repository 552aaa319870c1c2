//! Lines of text with patterns in hexadecimal digits, and their answers.
#![tactic(auto)]

pub mod hex;
pub mod line;
pub mod pair;
