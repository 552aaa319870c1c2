//! What the third side of a right triangle is, over whole numbers: the values of a number form, the
//! length of a root, and the theorems that the length is the value nearest to the root.
#![tactic(auto)]

pub mod form;
pub mod length;
pub mod theorems;
