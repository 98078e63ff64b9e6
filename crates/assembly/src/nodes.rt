// The nodes of a table, written into a lent buffer.
ghost use Rattle.std.specs.Prelude.{◌≡◌, ◌+◌, ◌-◌, ◌≤◌, ◌<◌, length};
ghost use Rattle.numbers.specs.Overlay.{overlay};
ghost use Rattle.table.specs.Table.{inner, seamed, outer, or_given, middle_at, node_at};
ghost use Rattle.assembly.specs.Steps.{beside};

use table::ends::{Frame, Seam};

// The node at an inner knot, from its neighbours and the averages of the periods on its two sides.
pub fn inner(before: f64, here: f64, after: f64, y: f64, next: f64) -> f64
    ensures { result ≡ inner before here after y next }
{
    let p = here - before;
    let d = after - here;
    d / (d + p) * y + p / (d + p) * next
}

fn seamed(seam: Option<Seam>, i: usize, f: f64) -> f64
    ensures { result ≡ seamed seam i f }
{
    match seam {
        Some(seam) if i == seam.count => seam.node,
        _ => f,
    }
}

fn outer(positive: bool, y: f64, f: f64) -> f64
    ensures { result ≡ outer positive y f }
{
    let g = 1.5 * y - 0.5 * f;
    if positive && g < 0.0 {
        return 0.0;
    }
    g
}

fn middle_at(xs: &[f64], ys: &[f64], frame: Frame, i: usize) -> f64
    requires { (0 < i) × (i + 1 < length xs.now) × (length xs.now ≡ length ys.now) × (length xs.now ≤ 4096) }
    ensures { result ≡ middle_at xs.now ys.now frame i }
{
    seamed(
        frame.seam,
        i,
        inner(xs[i - 1], xs[i], xs[i + 1], ys[i], ys[i + 1]),
    )
}

// A node that is given for an end, and else this one.
fn or_given(end: Option<f64>, f: f64) -> f64
    ensures { result ≡ or_given end f }
{
    end.unwrap_or(f)
}

// The node at one end, if it is not given: from the average beside it and the next node f. Of two points each end has the other one next to it, as far as
// that is given.
fn end_node(points: usize, y: f64, positive: bool, other: Option<f64>, f: f64) -> f64
    ensures { result ≡ outer positive y (beside points other f) }
{
    let next = if points == 2 { or_given(other, 0.0) } else { f };
    outer(positive, y, next)
}

// Writes the nodes of a table of n points into the first n entries.
pub(crate) fn fill(xs: &[f64], ys: &[f64], frame: Frame, nodes: &mut [f64])
    requires { (2 ≤ length xs.now) × (length xs.now ≡ length ys.now) × (length xs.now ≤ 4096) × (length xs.now ≤ length nodes.old) }
    ensures { nodes.new ≡ overlay 0 (length xs.now) (node_at xs.now ys.now frame) nodes.old }
{
    let last = xs.len() - 1;
    let count = last - 1;
    for k in 0..count {
        nodes[k + 1] = middle_at(xs, ys, frame, k + 1);
    }
    let points = xs.len();
    let positive = frame.method.force_positive;
    let left = end_node(points, ys[1], positive, frame.right, nodes[1]);
    nodes[0] = or_given(frame.left, left);
    let right = end_node(points, ys[last], positive, frame.left, nodes[count]);
    nodes[last] = or_given(frame.right, right);
}
