//! The length of a call: the third side of a right triangle and the steps walked for it, as a pattern of a
//! number form.
#![tactic(auto)]

pub mod call;
pub mod examples;
pub mod finite;
pub mod length;
pub mod plain;
pub mod root;
pub mod theorems;
