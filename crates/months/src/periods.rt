// Whole periods of the calendar, from a first to a last month. January 2000 is month 0.
ghost use Rattle.std.specs.Prelude.{◌≡◌, ◌<◌};
ghost use Rattle.months.specs.Periods.{months_in, place_of, are_periods, periods_of};

use refusal::Refusal;

// How long a period is.
#[derive(Clone, Copy, Debug, PartialEq, Eq)]
pub enum Size {
    Month,
    Quarter,
    Year,
}

impl Size {
    fn months(self) -> usize
        ensures { result ≡ months_in self }
    {
        match self {
            Size::Month => 1,
            Size::Quarter => 3,
            Size::Year => 12,
        }
    }
}

// Periods that follow one another: the first month, the months of a period, and how many knots bound the periods.
#[derive(Clone, Copy)]
pub struct Periods {
    pub first: usize,
    pub months: usize,
    pub knots: usize,
}

// The months of the calendar, which ends with December 2099. A month outside it is taken for this one, which it has not.
const MONTHS: usize = 1200;

fn place_of(month: i64) -> usize
    ensures { result ≡ place_of month }
{
    if month < 0 {
        return MONTHS;
    }
    if 1200 <= month {
        return MONTHS;
    }
    month as usize
}

fn are_periods(first: usize, last: usize, months: usize) -> bool
    requires { 0 < months }
    ensures { result ≡ are_periods first last months }
{
    if MONTHS <= last {
        return false;
    }
    if last < first {
        return false;
    }
    if first % months != 0 {
        return false;
    }
    (last + 1 - first) % months == 0
}

// The periods from a first to a last month, which belongs to them; or refusal 19, where they are not whole periods of the calendar.
pub fn periods_of(first: i64, last: i64, size: Size) -> Result<Periods, Refusal>
    ensures { result ≡ periods_of first last size }
{
    let from = place_of(first);
    let to = place_of(last);
    let months = size.months();
    if are_periods(from, to, months) {
        return Ok(Periods {
            first: from,
            months,
            knots: (to + 1 - from) / months + 1,
        });
    }
    Err(Refusal::MonthsNotPeriods)
}
