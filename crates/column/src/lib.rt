// A column beside a curve: the total up to each knot, written with the build, one entry of it, and strips between two knot places, which read two.
#![tactic(auto)]

pub mod between;
pub mod building;
pub mod entry;
mod filling;
