// The calls of `export_section` under names that C can call. How such a crate is made is said in `export_build_c`.
#![tactic(auto)]

pub mod kinds;
pub mod records;
