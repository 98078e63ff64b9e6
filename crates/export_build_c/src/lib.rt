// The calls of `export_build` under names that C can call. A crate is built as a library or for C, not as both, so each call stands here again, with the
// parameters and the clauses that it has there, and only calls that function. The other crates whose names end in `_c` are made in the same way.
#![tactic(auto)]

pub mod building;
pub mod by_months;
pub mod columns;
pub mod growing;
pub mod in_sheets;
pub mod one_sheet;
