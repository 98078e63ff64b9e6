// The calls of `export_strip` under names that C can call. How such a crate is made is said in `export_build_c`.
#![tactic(auto)]

pub mod asking;
pub mod places;
