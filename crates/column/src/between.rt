// The strip between two knot places. It reads two entries of the column, and of the knots only what their own refusals ask.
ghost use Rattle.std.specs.Prelude.{◌≡◌, length};
ghost use Rattle.refusal.specs.Refusal.{first};
ghost use Rattle.column.specs.Between.{between_tests, between_at};

use numbers::{Marked, mark};
use refusal::Refusal;
use table::check::knots_of;

fn places_verdict(xs: &[f64], column: usize, i: usize, j: usize) -> Result<(), Refusal>
    ensures { result ≡ first (between_tests xs.now column i j) }
{
    if xs.len() < 2 {
        return Err(Refusal::TooFewPoints);
    }
    let knots = knots_of(xs);
    if !knots.finite {
        return Err(Refusal::KnotNotFinite);
    }
    if !knots.rising {
        return Err(Refusal::KnotsNotRising);
    }
    if 4096 < xs.len() {
        return Err(Refusal::TooManyPoints);
    }
    if column < xs.len() {
        return Err(Refusal::BufferTooShort);
    }
    if i < j && j < xs.len() {
        return Ok(());
    }
    Err(Refusal::StripEndsNotRising)
}

// The average price from knot i to knot j, both counted from 0. It is marked by its own number, and not by those of its two ends.
pub fn strip_between(xs: &[f64], column: &[f64], i: usize, j: usize) -> Result<Marked, Refusal>
    ensures { result ≡ between_at xs.now column.now i j }
{
    places_verdict(xs, column.len(), i, j)?;
    Ok(mark((column[j] - column[i]) / (xs[j] - xs[i])))
}
