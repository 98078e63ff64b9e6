// From a table to a curve.
ghost use Rattle.std.specs.Prelude.{◌≡◌};
ghost use Rattle.refusal.specs.Refusal.{first};
ghost use Rattle.table.specs.Buffers.{buffers, outcome};
ghost use Rattle.curve.specs.Build.{seamed_tests, build_tests, whole_frame, build_outcome};

use crate::curve::Curve;
use assembly::making::make;
use refusal::Refusal;
use table::check::{average_below, room_verdict, seam_too_long, table_verdict};
use table::ends::{Frame, Seam};
use table::method::ConvexMonotone;

// Refusals 1 to 8 and 29.
fn seamed_verdict(
    xs: &[f64],
    ys: &[f64],
    method: ConvexMonotone,
    seam: Option<Seam>,
) -> Result<(), Refusal>
    ensures { result ≡ first (seamed_tests xs.now ys.now method seam) }
{
    table_verdict(xs, ys, method)?;
    if seam_too_long(seam, xs.len()) {
        return Err(Refusal::SeamTooLong);
    }
    if average_below(ys, method) {
        return Err(Refusal::AverageBelowZero);
    }
    Ok(())
}

// The first refusal of a table, for lent buffers of these lengths.
pub fn build_verdict(
    xs: &[f64],
    ys: &[f64],
    method: ConvexMonotone,
    seam: Option<Seam>,
    nodes: usize,
    tags: usize,
    slots: usize,
) -> Result<(), Refusal>
    ensures { result ≡ first (build_tests xs.now ys.now method seam nodes tags slots) }
{
    seamed_verdict(xs, ys, method, seam)?;
    room_verdict(xs.len(), nodes, tags, slots)
}

// What is given about a whole table. Two points are one constant section, and their nodes are +0.0.
pub fn whole_frame(points: usize, method: ConvexMonotone, hold: bool, seam: Option<Seam>) -> Frame
    ensures { result ≡ whole_frame points method hold seam }
{
    if points == 2 {
        return Frame {
            method,
            hold: true,
            seam,
            left: Some(0.0),
            right: Some(0.0),
            start: 0.0,
        };
    }
    Frame {
        method,
        hold,
        seam,
        left: None,
        right: None,
        start: 0.0,
    }
}

// The curve of a table of knots and averages, its nodes, tags and slots written from the start of the lent buffers; or the first refusal, and no
// buffer changed. `hold` asks for a constant last period.
pub fn build(
    xs: &[f64],
    ys: &[f64],
    method: ConvexMonotone,
    hold: bool,
    seam: Option<Seam>,
    nodes: &mut [f64],
    tags: &mut [u16],
    slots: &mut [f64],
) -> Result<Curve, Refusal>
    ensures { outcome result nodes.new tags.new slots.new ≡ build_outcome xs.now ys.now method hold seam (buffers nodes.old tags.old slots.old) }
{
    seamed_verdict(xs, ys, method, seam)?;
    let frame = whole_frame(xs.len(), method, hold, seam);
    let tail = make(xs, ys, frame, nodes, tags, slots)?;
    Ok(Curve {
        sections: xs.len() - 1,
        held: hold,
        extrapolates: false,
        tail,
    })
}
