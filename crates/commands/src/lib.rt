//! The text of a sheet: lines to commands, answers to bytes, and input to lines.
#![tactic(auto)]

pub mod buffer;
pub mod command;
pub mod examples;
pub mod fault;
pub mod hex;
pub mod line_buffer;
pub mod parse;
pub mod pattern;
pub mod pending;
pub mod reply;
