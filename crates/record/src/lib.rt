// Records: a section's tag and slots for lent buffers, what the record of a period adds to them, and the way back: the section, the one number that a
// query asks of it, or only whether the tag is legal, or whether the record is of ordinary size, so that all its numbers are finite.
#![tactic(auto)]

pub mod knots;
pub mod legality;
pub mod number;
pub mod ordinary;
pub mod reader;
pub mod reading;
pub mod slots;
pub mod tag;
pub mod unusual;
