// A table of knots and averages, and the method that makes a curve of it: what is refused, and the numbers that stand at each knot.
#![tactic(auto)]

pub mod check;
pub mod ends;
pub mod method;
