// A long table in sheets: one sheet built by itself, into its place in the buffers of the whole; and a whole table sheet by sheet, which is the curve that
// the table built at once gives.
#![tactic(auto)]

pub mod pieces;
pub mod sheet;
