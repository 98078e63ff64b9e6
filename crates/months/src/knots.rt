// The knots of periods: the day on which each starts, and the day after the last.
ghost use Rattle.std.specs.Prelude.{◌≡◌, ◌≤◌, length};
ghost use Rattle.numbers.specs.OneOutcome.{pair};
ghost use Rattle.numbers.specs.Overlay.{overlay};
ghost use Rattle.months.specs.Knots.{knot_at, knots_made};
ghost use Rattle.months.specs.Steps.{InCalendar};

use crate::calendar::month_starts;
use crate::periods::{Periods, Size, periods_of};
use refusal::Refusal;

pub(crate) fn fill(periods: Periods, knots: &mut [f64])
    requires { InCalendar periods × (periods.knots ≤ length knots.old) }
    ensures { knots.new ≡ overlay 0 periods.knots (knot_at periods) knots.old }
{
    let first = periods.first;
    let months = periods.months;
    let count = periods.knots;
    let starts = month_starts();
    for i in 0..count {
        knots[i] = starts[first + i * months] as f64;
    }
}

// The knots of the periods from a first to a last month, written from the start of the lent slice, and how many they are; or the first refusal, 19 or 11,
// and nothing written.
pub fn month_knots(first: i64, last: i64, size: Size, knots: &mut [f64]) -> Result<usize, Refusal>
    ensures { pair result knots.new ≡ knots_made first last size knots.old }
{
    let periods = periods_of(first, last, size)?;
    let count = periods.knots;
    if knots.len() < count {
        return Err(Refusal::BufferTooShort);
    }
    fill(periods, knots);
    Ok(count)
}
