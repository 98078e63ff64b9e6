// The boundary to programs in other languages, for what makes a curve: a table built or grown, also with its column, built in sheets, or one sheet of it built into its
// place.
// Only numbers, bools and slices cross the boundary. A call answers the refusal's number, or 0, and leaves its other answers in slices that the caller
// lends. Where a call is refused, no lent slice is touched. A module holds the calls of one kind. `export_query`, `export_many`,
// `export_strip` and `export_section` are the boundary for all else.
#![tactic(auto)]

pub mod building;
pub mod by_months;
pub mod columns;
pub mod growing;
pub mod in_sheets;
pub mod one_sheet;
mod settings;
