// Growth: a table that has grown by a point becomes a curve that goes on from the one before it.
#![tactic(auto)]

pub mod growth;
