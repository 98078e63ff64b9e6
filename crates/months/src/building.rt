// From months and averages to a curve.
ghost use Rattle.std.specs.Prelude.{◌≡◌, length};
ghost use Rattle.refusal.specs.Refusal.{first};
ghost use Rattle.table.specs.Buffers.{buffers};
ghost use Rattle.months.specs.Building.{periods_tests, months_verdict, monthly, monthly_built, monthly_outcome};
ghost use Rattle.months.specs.Steps.{InCalendar, Ready};

use crate::knots::fill;
use crate::periods::{Periods, Size, periods_of};
use assembly::making::make;
use curve::build::whole_frame;
use curve::curve::Curve;
use refusal::Refusal;
use table::check::{all_finite, average_below, in_unit, room_verdict, seam_too_long};
use table::ends::Seam;
use table::method::ConvexMonotone;

// Build's refusals of averages for periods of the calendar. Their knots are finite and rise, and there are 2 to 1,201 of them: so 4, 5, 7 and 10 never
// come, and no knot is read.
fn periods_verdict(
    periods: Periods,
    averages: &[f64],
    method: ConvexMonotone,
    seam: Option<Seam>,
    knots: usize,
    nodes: usize,
    tags: usize,
    slots: usize,
) -> Result<(), Refusal>
    requires { InCalendar periods }
    ensures { result ≡ first (periods_tests periods averages.now method seam knots nodes tags slots) }
{
    let count = periods.knots;
    if count != averages.len() {
        return Err(Refusal::LengthsDiffer);
    }
    if !in_unit(method.monotonicity) {
        return Err(Refusal::MonotonicityOutside);
    }
    if !in_unit(method.quadraticity) {
        return Err(Refusal::QuadraticityOutside);
    }
    if !all_finite(averages) {
        return Err(Refusal::AverageNotFinite);
    }
    if seam_too_long(seam, count) {
        return Err(Refusal::SeamTooLong);
    }
    if average_below(averages, method) {
        return Err(Refusal::AverageBelowZero);
    }
    if knots < count {
        return Err(Refusal::BufferTooShort);
    }
    room_verdict(count, nodes, tags, slots)
}

// The first refusal of a build by months, for lent slices of these lengths: 19, then build's order.
pub fn build_months_verdict(
    first: i64,
    last: i64,
    size: Size,
    averages: &[f64],
    method: ConvexMonotone,
    seam: Option<Seam>,
    knots: usize,
    nodes: usize,
    tags: usize,
    slots: usize,
) -> Result<(), Refusal>
    ensures { result ≡ months_verdict first last size averages.now method seam knots nodes tags slots }
{
    let periods = periods_of(first, last, size)?;
    periods_verdict(periods, averages, method, seam, knots, nodes, tags, slots)
}

// The knots and the curve of periods that nothing refuses.
fn make_periods(
    periods: Periods,
    averages: &[f64],
    method: ConvexMonotone,
    hold: bool,
    seam: Option<Seam>,
    knots: &mut [f64],
    nodes: &mut [f64],
    tags: &mut [u16],
    slots: &mut [f64],
) -> Result<Curve, Refusal>
    requires { Ready periods (length averages.now) (length knots.old) (length nodes.old) (length tags.old) (length slots.old) }
    ensures { monthly result knots.new nodes.new tags.new slots.new ≡ monthly_built periods averages.now method hold seam knots.old (buffers nodes.old tags.old slots.old) }
{
    let count = periods.knots;
    fill(periods, knots);
    let frame = whole_frame(count, method, hold, seam);
    let tail = make(&knots[..count], averages, frame, nodes, tags, slots)?;
    Ok(Curve {
        sections: count - 1,
        held: hold,
        extrapolates: false,
        tail,
    })
}

// The curve of the periods from a first to a last month, as `build` makes it of their knots, which are written too; or the first refusal, and
// nothing written. The first average is not read.
pub fn build_months(
    first: i64,
    last: i64,
    size: Size,
    averages: &[f64],
    method: ConvexMonotone,
    hold: bool,
    seam: Option<Seam>,
    knots: &mut [f64],
    nodes: &mut [f64],
    tags: &mut [u16],
    slots: &mut [f64],
) -> Result<Curve, Refusal>
    ensures { monthly result knots.new nodes.new tags.new slots.new ≡ monthly_outcome first last size averages.now method hold seam knots.old (buffers nodes.old tags.old slots.old) }
{
    let periods = periods_of(first, last, size)?;
    periods_verdict(
        periods,
        averages,
        method,
        seam,
        knots.len(),
        nodes.len(),
        tags.len(),
        slots.len(),
    )?;
    make_periods(
        periods, averages, method, hold, seam, knots, nodes, tags, slots,
    )
}
