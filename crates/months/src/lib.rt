// Delivery months: from a first and a last month to the knots of their months, quarters or years, and to a curve.
#![tactic(auto)]

pub mod building;
pub mod calendar;
pub mod knots;
pub mod periods;
