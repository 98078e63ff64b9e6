// The boundary to programs in other languages, for what is asked of a curve at many points. What holds of every call is said in `export_build`. It
// stands apart from `export_query` for speed: an object of the archive is one crate with all that it calls, and there a function that is called from
// one place is compiled into it. One query and many would be two places.
#![tactic(auto)]

pub mod many;
