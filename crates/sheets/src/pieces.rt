// A whole table, built sheet by sheet.
ghost use Rattle.std.specs.Prelude.{◌≡◌, true, false, ◌+◌, ◌-◌, ◌≤◌, ◌<◌, length};
ghost use Rattle.table.specs.Buffers.{buffers, outcome};
ghost use Rattle.table.specs.Table.{node_at};
ghost use Rattle.assembly.specs.Making.{after};
ghost use Rattle.assembly.specs.Sections.{tail_of};
ghost use Rattle.sheets.specs.Sheet.{none_given};
ghost use Rattle.sheets.specs.Pieces.{whole};
ghost use Rattle.sheets.specs.Cuts.{cuts_fit};
ghost use Rattle.sheets.specs.InSheets.{in_sheets_outcome};
ghost use Rattle.sheets.specs.Steps.{left_end, Fair, Ready, piece_of_whole};

use crate::sheet::{SheetEnd, sheet};
use assembly::nodes::inner;
use assembly::sections::Tail;
use curve::build::{build, build_verdict};
use curve::curve::Curve;
use refusal::Refusal;
use table::method::ConvexMonotone;

// Whether the cuts are inner knots of a table of so many points, each above the one before.
pub fn cuts_fit(cuts: &[usize], points: usize) -> bool
    ensures { result ≡ cuts_fit cuts.now points }
{
    let last = points.saturating_sub(1);
    let mut before = 0;
    for &cut in cuts {
        if cut <= before {
            return false;
        }
        if last <= cut {
            return false;
        }
        before = cut;
    }
    true
}

// The node at a cut.
fn cut_node(xs: &[f64], ys: &[f64], method: ConvexMonotone, i: usize) -> f64
    requires { (0 < i) × (i + 1 < length xs.now) × (length xs.now ≡ length ys.now) × (length xs.now ≤ 4096) }
    ensures { result ≡ node_at xs.now ys.now (whole method) i }
{
    inner(xs[i - 1], xs[i], xs[i + 1], ys[i], ys[i + 1])
}

// The node that a sheet is given on its left: where it was cut, that is the one which the sheet before it ended on.
fn left_end(nodes: &[f64], from: usize) -> Option<f64>
    requires { from < length nodes.now }
    ensures { result ≡ left_end nodes.now from }
{
    if from == 0 {
        return None;
    }
    Some(nodes[from])
}

// One sheet of a table that is accepted as a whole: it can't be refused.
fn build_sheet(
    xs: &[f64],
    ys: &[f64],
    method: ConvexMonotone,
    from: usize,
    to: usize,
    left: Option<f64>,
    right: Option<f64>,
    start: f64,
    nodes: &mut [f64],
    tags: &mut [u16],
    slots: &mut [f64],
) -> SheetEnd
    requires ready { Ready xs.now ys.now method (buffers nodes.old tags.old slots.old) }
    requires fair { Fair xs.now ys.now method (record { from = from; to = to; left = left; right = right; start = start }) }
    requires right_value { none_given left right ≡ false }
    ensures { outcome result nodes.new tags.new slots.new ≡ piece_of_whole xs.now ys.now method (record { from = from; to = to; left = left; right = right; start = start }) (buffers nodes.old tags.old slots.old) }
{
    let past = to + 1;
    sheet(
        &xs[from..past],
        &ys[from..past],
        method,
        left,
        right,
        start,
        from,
        nodes,
        tags,
        slots,
    )
    .unwrap()
}

// All sheets of an accepted table, one after the other; answers the tail.
fn build_sheets(
    xs: &[f64],
    ys: &[f64],
    method: ConvexMonotone,
    cuts: &[usize],
    nodes: &mut [f64],
    tags: &mut [u16],
    slots: &mut [f64],
) -> Tail
    requires ready { Ready xs.now ys.now method (buffers nodes.old tags.old slots.old) }
    requires cuts_nonzero { (0 < length cuts.now) × (cuts_fit cuts.now (length xs.now) ≡ true) }
    ensures { outcome result nodes.new tags.new slots.new ≡ record { answer = tail_of xs.now ys.now (whole method); buffers = after 0 xs.now ys.now (whole method) (buffers nodes.old tags.old slots.old) } }
{
    let mut from = 0;
    let mut total = 0.0;
    for &to in cuts {
        let left = left_end(nodes, from);
        let right = Some(cut_node(xs, ys, method, to));
        let answer = build_sheet(
            xs, ys, method, from, to, left, right, total, nodes, tags, slots,
        );
        total = answer.total;
        from = to;
    }
    let left = left_end(nodes, from);
    let last = xs.len() - 1;
    let answer = build_sheet(
        xs, ys, method, from, last, left, None, total, nodes, tags, slots,
    );
    answer.tail
}

// The curve of a table, built in sheets that end at the cuts, with no seam and no held last period: what `build` answers and leaves. Cuts that are
// not inner knots in rising order are refused before anything else; with no cut there is one sheet, the whole.
pub fn build_in_sheets(
    xs: &[f64],
    ys: &[f64],
    method: ConvexMonotone,
    cuts: &[usize],
    nodes: &mut [f64],
    tags: &mut [u16],
    slots: &mut [f64],
) -> Result<Curve, Refusal>
    ensures { outcome result nodes.new tags.new slots.new ≡ in_sheets_outcome xs.now ys.now method cuts.now (buffers nodes.old tags.old slots.old) }
{
    if !cuts_fit(cuts, xs.len()) {
        return Err(Refusal::CutsNotInner);
    }
    if cuts.len() == 0 {
        return build(xs, ys, method, false, None, nodes, tags, slots);
    }
    build_verdict(xs, ys, method, None, nodes.len(), tags.len(), slots.len())?;
    let tail = build_sheets(xs, ys, method, cuts, nodes, tags, slots);
    Ok(Curve {
        sections: xs.len() - 1,
        held: false,
        extrapolates: false,
        tail,
    })
}
