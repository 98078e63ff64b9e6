// A curve that is built or grown together with its column.
ghost use Rattle.std.specs.Prelude.{Ok, ◌≤◌, ◌≡◌, length};
ghost use Rattle.refusal.specs.Refusal.{first};
ghost use Rattle.table.specs.Buffers.{buffers};
ghost use Rattle.curve.specs.Build.{build_tests, build_outcome};
ghost use Rattle.curve.specs.declared.curve.Curve.{Curve};
ghost use Rattle.growth.specs.Growth.{grow_outcome};
ghost use Rattle.column.specs.Column.{columned, with_column};
ghost use Rattle.column.specs.Steps.{last_verdict, column_of, JustBuilt};

use crate::filling::fill;
use curve::build::{build, build_verdict};
use curve::curve::Curve;
use growth::growth::carry;
use refusal::Refusal;
use table::ends::Seam;
use table::method::ConvexMonotone;

// What the table is refused with where its column is too short: its own refusal, and else that one, which comes last.
fn short_verdict(
    xs: &[f64],
    ys: &[f64],
    method: ConvexMonotone,
    seam: Option<Seam>,
    nodes: usize,
    tags: usize,
    slots: usize,
) -> Result<Curve, Refusal>
    ensures { result ≡ last_verdict (first (build_tests xs.now ys.now method seam nodes tags slots)) }
{
    build_verdict(xs, ys, method, seam, nodes, tags, slots)?;
    Err(Refusal::BufferTooShort)
}

// Writes the column of a curve that was just built. A refusal is handed on, and the column then stays. It is made part of both its callers, and so is what it
// calls, down to the blocks: a function of its own takes the curve and hands it back through memory, in pieces that overlap, and a load of two of them waits.
#[inline(always)]
fn with_entries(
    xs: &[f64],
    ys: &[f64],
    method: ConvexMonotone,
    seam: Option<Seam>,
    built: Result<Curve, Refusal>,
    tags: &[u16],
    slots: &[f64],
    column: &mut [f64],
) -> Result<Curve, Refusal>
    requires xs_in_bounds { length xs.now ≤ length column.old }
    requires just_built { (c : Curve) → built ≡ Ok c → JustBuilt xs.now ys.now method seam c tags.now slots.now }
    ensures value { result ≡ built }
    ensures column_after { column.new ≡ column_of xs.now built tags.now slots.now column.old }
{
    let curve = built?;
    fill(xs, ys, method, seam, curve, tags, slots, column);
    Ok(curve)
}

// The curve of a table as `build` makes it, and the total up to each knot in the first entries of `column`. A column shorter than the knots is refused
// last, and nothing is written then.
pub fn build_with_column(
    xs: &[f64],
    ys: &[f64],
    method: ConvexMonotone,
    hold: bool,
    seam: Option<Seam>,
    nodes: &mut [f64],
    tags: &mut [u16],
    slots: &mut [f64],
    column: &mut [f64],
) -> Result<Curve, Refusal>
    ensures { columned result nodes.new tags.new slots.new column.new ≡ with_column xs.now (buffers nodes.old tags.old slots.old) column.old (build_outcome xs.now ys.now method hold seam (buffers nodes.old tags.old slots.old)) }
{
    if column.len() < xs.len() {
        return short_verdict(xs, ys, method, seam, nodes.len(), tags.len(), slots.len());
    }
    let built = build(xs, ys, method, hold, seam, nodes, tags, slots);
    with_entries(xs, ys, method, seam, built, tags, slots, column)
}

// The next curve of a table that grows, as `grow` makes it, with its column. It does not call `build_with_column`: with a second caller that would be a
// function of its own in the object, and its arguments would pass through memory once more than those of a build without a column.
pub fn grow_with_column(
    xs: &[f64],
    ys: &[f64],
    method: ConvexMonotone,
    localisation: usize,
    final_size: usize,
    previous: Option<Curve>,
    previous_tags: &[u16],
    previous_slots: &[f64],
    nodes: &mut [f64],
    tags: &mut [u16],
    slots: &mut [f64],
    column: &mut [f64],
) -> Result<Curve, Refusal>
    ensures { columned result nodes.new tags.new slots.new column.new ≡ with_column xs.now (buffers nodes.old tags.old slots.old) column.old (grow_outcome xs.now ys.now method localisation final_size previous previous_tags.now previous_slots.now (buffers nodes.old tags.old slots.old)) }
{
    let size = xs.len();
    let seam = carry(size, localisation, previous, previous_tags, previous_slots)?;
    if column.len() < size {
        return short_verdict(xs, ys, method, seam, nodes.len(), tags.len(), slots.len());
    }
    let hold = size != final_size;
    let next = build(xs, ys, method, hold, seam, nodes, tags, slots);
    with_entries(xs, ys, method, seam, next, tags, slots, column)
}
