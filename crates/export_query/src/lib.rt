// The boundary to programs in other languages, for what is asked: a curve's price or total at a point, the settings where nothing else is asked for, and
// the square root. What holds of every call is said in `export_build`, and many points at once are `export_many`.
#![tactic(auto)]

pub mod asking;
pub mod settings;
pub mod square_root;
