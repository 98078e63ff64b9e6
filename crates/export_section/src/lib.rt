// The boundary to programs in other languages, for one section: made from its own numbers, copied out of a curve's records, and asked by itself. What
// holds of every call is said in `export_build`.
#![tactic(auto)]

pub mod kinds;
pub mod records;
