// Queries of a curve: what each is refused for, the price at a point or the total up to it, the average price of a strip, and many of each at once, for
// which the curve is checked once.
#![tactic(auto)]

pub mod answer;
mod known;
pub mod many;
mod number;
mod place;
pub mod single;
pub mod strip;
pub mod strips;
