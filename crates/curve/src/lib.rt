// Curves: a table goes in, and a curve or a refusal comes out.
#![tactic(auto)]

pub mod build;
pub mod curve;
