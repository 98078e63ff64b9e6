// One entry of a column, where it is read. A column keeps its numbers by their bits, so the mark whether one is finite comes with the reading.
ghost use Rattle.std.specs.Prelude.{◌≡◌};
ghost use Rattle.column.specs.Entry.{entry_of};

use numbers::{Marked, mark};
use refusal::Refusal;

// The total up to knot i, counted from 0.
pub fn entry(column: &[f64], i: usize) -> Result<Marked, Refusal>
    ensures { result ≡ entry_of column.now i }
{
    let total = column.get(i).ok_or(Refusal::BufferTooShort)?;
    Ok(mark(*total))
}
