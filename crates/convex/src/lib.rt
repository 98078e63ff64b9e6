// The four convex monotone kinds of section. Their names, fields and parameters carry over from the original.
#![tactic(auto)]

pub mod convex_monotone2;
pub mod convex_monotone3;
pub mod convex_monotone4;
pub mod convex_monotone4_min;
