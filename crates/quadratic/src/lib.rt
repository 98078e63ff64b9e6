// The two quadratic kinds of section. Their names, fields and parameters carry over from the original.
#![tactic(auto)]

mod parabola;
pub mod quadratic;
pub mod quadratic_min;
