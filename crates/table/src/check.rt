// What is asked of a table, in the order in which it is refused.
ghost use Rattle.std.specs.Prelude.{◌≡◌, ◌&&◌, ◌||◌, [], ◌∷◌, ◌≤◌, length};
ghost use Rattle.refusal.specs.Refusal.{first};
ghost use Rattle.table.specs.Check.{all_finite, knots_of, in_unit, from_zero, seam_too_long, average_below, no_room, table_tests, seam_test, room_tests};

use crate::ends::Seam;
use crate::method::ConvexMonotone;
use numbers::SLOTS;
use refusal::Refusal;

// These loops count what holds, and no test leaves them early: a refused table is rare, and a loop that always runs to its end goes several numbers at a
// time. With flags it does so too, but on Arm the compiler packs sixteen of them into one register, and reads a table of fewer knots one by one.
pub fn all_finite(xs: &[f64]) -> bool
    ensures { result ≡ all_finite xs.now }
{
    let mut finite = 0;
    for x in xs {
        finite += numbers::is_finite(*x) as usize;
    }
    finite == xs.len()
}

// What is asked of knots.
#[derive(Clone, Copy)]
pub struct Knots {
    pub finite: bool,
    pub rising: bool,
}

// One loop reads each knot once and carries the one before. It runs to the end of a table that will be refused too, because a bad knot late in it
// outranks a falling pair early in it.
pub fn knots_of(xs: &[f64]) -> Knots
    ensures { result ≡ knots_of xs.now }
{
    let [first, rest @ ..] = xs else {
        return Knots {
            finite: true,
            rising: true,
        };
    };
    let mut before = *first;
    let mut finite = numbers::is_finite(before) as usize;
    let mut rising = 0;
    for x in rest {
        let knot = *x;
        finite += numbers::is_finite(knot) as usize;
        rising += (before < knot) as usize;
        before = knot;
    }
    Knots {
        finite: finite == xs.len(),
        rising: rising == rest.len(),
    }
}

// Whether a setting is in range. A NaN is not, and -0.0 is.
pub fn in_unit(x: f64) -> bool
    ensures { result ≡ in_unit x }
{
    0.0 <= x && x <= 1.0
}

// Refusals 1 to 7.
pub fn table_verdict(xs: &[f64], ys: &[f64], method: ConvexMonotone) -> Result<(), Refusal>
    ensures { result ≡ first (table_tests xs.now ys.now method) }
{
    if xs.len() != ys.len() {
        return Err(Refusal::LengthsDiffer);
    }
    if !in_unit(method.monotonicity) {
        return Err(Refusal::MonotonicityOutside);
    }
    if !in_unit(method.quadraticity) {
        return Err(Refusal::QuadraticityOutside);
    }
    if xs.len() < 2 {
        return Err(Refusal::TooFewPoints);
    }
    let knots = knots_of(xs);
    if !knots.finite {
        return Err(Refusal::KnotNotFinite);
    }
    if !all_finite(ys) {
        return Err(Refusal::AverageNotFinite);
    }
    if !knots.rising {
        return Err(Refusal::KnotsNotRising);
    }
    Ok(())
}

// Refusal 8, computed without a sum that could wrap.
pub fn seam_too_long(seam: Option<Seam>, points: usize) -> bool
    ensures { result ≡ seam_too_long seam points }
{
    match seam {
        None => false,
        Some(seam) => points.saturating_sub(1) <= seam.count,
    }
}

// Whether each average that is read is at or above 0. The first is not read.
fn from_zero(ys: &[f64]) -> bool
    ensures { result ≡ from_zero ys.now }
{
    let [_, read @ ..] = ys else {
        return true;
    };
    let mut counted = 0;
    for y in read {
        counted += (0.0 <= *y) as usize;
    }
    counted == read.len()
}

// Refusal 29: no curve at or above 0 can keep an average below it.
pub fn average_below(ys: &[f64], method: ConvexMonotone) -> bool
    ensures { result ≡ average_below ys.now method }
{
    method.is_safe() && !from_zero(ys)
}

// Refusals 10 and 11, for lent buffers of these lengths.
pub fn room_verdict(points: usize, nodes: usize, tags: usize, slots: usize) -> Result<(), Refusal>
    ensures { result ≡ first (room_tests points nodes tags slots) }
{
    if 4096 < points {
        return Err(Refusal::TooManyPoints);
    }
    if nodes < points {
        return Err(Refusal::BufferTooShort);
    }
    let sections = points.saturating_sub(1);
    if tags < sections {
        return Err(Refusal::BufferTooShort);
    }
    if slots < SLOTS * sections {
        return Err(Refusal::BufferTooShort);
    }
    Ok(())
}
