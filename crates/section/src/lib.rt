// The nine kinds of section that a curve is made of, and the choice among them. Their names, fields and parameters carry over from the original.
#![tactic(auto)]

pub mod combination;
pub mod constant_grad;
pub mod convex_monotone_part;
pub mod everywhere_constant;
pub mod quadratic_part;
pub mod section;
