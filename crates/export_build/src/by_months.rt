// Delivery months: their knots, and a table of them built into a curve.
ghost use Rattle.std.specs.Prelude.{◌≡◌};
ghost use Rattle.table.specs.Buffers.{buffers};
ghost use Rattle.months.specs.Building.{monthly_outcome};
ghost use Rattle.export_build.specs.Building.{seam_of};
ghost use Rattle.export_build.specs.ByMonths.{no_size, size_of, not_periods, knots_left, knots_across, across_months, months_across};
ghost use Rattle.export_build.specs.Settings.{unknown, method_of};
ghost use Rattle.export_build.specs.Steps.{after_months};

use crate::building::{last_refusal, no_answer, seam_of, write_answer};
use crate::settings::method_of;
use months::building::{build_months, build_months_verdict};
use months::knots::month_knots;
use months::periods::{Size, periods_of};
use refusal::Refusal;

// Whether there is no period of so many months.
fn no_size(months: u8) -> bool
    ensures { result ≡ no_size months }
{
    months != 1 && months != 3 && months != 12
}

// The size of a period by its months. Every call refuses any other number beforehand.
fn size_of(months: u8) -> Size
    ensures { result ≡ size_of months }
{
    match months {
        1 => Size::Month,
        3 => Size::Quarter,
        _ => Size::Year,
    }
}

// What is told where another refusal is sure: 19, which comes before it, or that one.
fn after_months(first: i64, last: i64, size: Size, other: Refusal) -> u8
    ensures { result ≡ after_months first last size other }
{
    match periods_of(first, last, size) {
        Err(refusal) => refusal.number(),
        Ok(_) => other.number(),
    }
}

// Writes the knots of the periods of so many months, 1, 3 or 12, from a first to a last month, January 2000 being 0, and how many they are into `count`.
pub fn havgrunel_month_knots(
    first: i64,
    last: i64,
    months: u8,
    knots: &mut [f64],
    count: &mut [usize],
) -> u8
    ensures { knots_left result knots.new count.new ≡ knots_across first last months knots.old count.old }
{
    if no_size(months) {
        return Refusal::MonthsNotPeriods.number();
    }
    let size = size_of(months);
    if count.len() < 1 {
        return after_months(first, last, size, Refusal::BufferTooShort);
    }
    match month_knots(first, last, size, knots) {
        Err(refusal) => refusal.number(),
        Ok(made) => {
            count[0] = made;
            0
        }
    }
}

// Builds the curve of those periods as `havgrunel_build` does of their knots, and writes the knots too.
pub fn havgrunel_build_months(
    first: i64,
    last: i64,
    months: u8,
    averages: &[f64],
    quadraticity: f64,
    monotonicity: f64,
    positive: bool,
    split: u8,
    hold: bool,
    seamed: bool,
    seam_count: usize,
    seam_node: f64,
    knots: &mut [f64],
    nodes: &mut [f64],
    tags: &mut [u16],
    slots: &mut [f64],
    sections: &mut [usize],
    tail: &mut [f64],
) -> u8
    ensures { across_months result knots.new nodes.new tags.new slots.new sections.new tail.new ≡ months_across (not_periods first last months) (unknown split) knots.old (buffers nodes.old tags.old slots.old) sections.old tail.old (monthly_outcome first last (size_of months) averages.now (method_of quadraticity monotonicity positive split) hold (seam_of seamed seam_count seam_node) knots.old (buffers nodes.old tags.old slots.old)) }
{
    if no_size(months) {
        return Refusal::MonthsNotPeriods.number();
    }
    let size = size_of(months);
    if 2 < split {
        return after_months(first, last, size, Refusal::SplitUnknown);
    }
    let method = method_of(quadraticity, monotonicity, positive, split);
    let seam = seam_of(seamed, seam_count, seam_node);
    if no_answer(sections.len(), tail.len()) {
        return last_refusal(build_months_verdict(
            first,
            last,
            size,
            averages,
            method,
            seam,
            knots.len(),
            nodes.len(),
            tags.len(),
            slots.len(),
        ));
    }
    let built = build_months(
        first, last, size, averages, method, hold, seam, knots, nodes, tags, slots,
    );
    write_answer(built, sections, tail)
}
