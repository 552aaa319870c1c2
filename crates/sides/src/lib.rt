//! Sides by their magnitudes: their order, the far ones, their head and their exact radicand.
#![tactic(auto)]

mod near;
pub mod order;
pub mod ordered;
pub mod pose;
pub mod posed;
pub mod side;
