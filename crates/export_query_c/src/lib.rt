// The calls of `export_query` under names that C can call. How such a crate is made is said in `export_build_c`.
#![tactic(auto)]

pub mod asking;
pub mod settings;
pub mod square_root;
