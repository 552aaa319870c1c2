//! Number forms: what each bit pattern means, and the one pattern of each value.
#![tactic(auto)]

pub mod binary;
pub mod examples;
pub mod number_form;
pub mod reading;
pub mod thousandths;
