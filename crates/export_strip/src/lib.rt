// The boundary to programs in other languages, for strips of a curve. What holds of every call is said in `export_build`. It stands apart from
// `export_query` and `export_many` for speed, as these do from each other.
#![tactic(auto)]

pub mod asking;
pub mod places;
