// Which section a query lies in: strides come close to it, and a short walk over the inner knots ends at it.
ghost use Rattle.std.specs.Prelude.{◌≡◌, true, ◌⊎◌, ◌+◌, ◌≤◌, ◌<◌, length};
ghost use Rattle.table.specs.Check.{rising};
ghost use Rattle.query.specs.Query.{place_of};
ghost use Rattle.query.specs.Steps.{covers};

// Whether a query lies in section i, by the knots at its two ends.
fn covers(xs: &[f64], q: f64, i: usize) -> bool
    requires { (i + 1 < length xs.now) × (length xs.now ≤ 4096) }
    ensures { result ≡ covers xs.now q i }
{
    if i != 0 {
        if q < xs[i] {
            return false;
        }
    }
    if xs.len() - 2 <= i {
        return true;
    }
    q < xs[i + 1]
}

// The smaller of two.
pub(crate) fn least(a: usize, b: usize) -> usize
    ensures { (result ≤ a) × (result ≤ b) × ((result ≡ a) ⊎ (result ≡ b)) }
{
    if a < b {
        return a;
    }
    b
}

// From `from` on in steps, to less than a step before the place, which lies before `end`. No test decides where the code goes on, each goes into the sum as
// 0 or 1: queries in no order would mislead a branch every other time, and that costs more than the comparisons that are not needed.
fn stride(xs: &[f64], q: f64, from: usize, end: usize, step: usize) -> usize
    requires { (from ≤ place_of xs.now q) × (place_of xs.now q < end) × (end + 1 ≤ length xs.now) × (length xs.now ≤ 4096) × (1 ≤ step) × (step ≤ 256) × (rising xs.now ≡ true) }
    ensures { (result ≤ place_of xs.now q) × (place_of xs.now q < result + step) }
{
    let mut at = from;
    let mut probe = from + step;
    while probe < end {
        at = at + step * (!(q < xs[probe])) as usize;
        probe = probe + step;
    }
    at
}

// The place from one that is at or before it: the first inner knot above the query ends it, and where there is none it is the last section.
fn walk_from(xs: &[f64], q: f64, from: usize) -> usize
    requires { (from ≤ place_of xs.now q) × (2 ≤ length xs.now) × (length xs.now ≤ 4096) × (rising xs.now ≡ true) }
    ensures { result ≡ place_of xs.now q }
{
    let last = xs.len() - 2;
    let mut i = from;
    let at = loop {
        if last <= i {
            break i;
        }
        if q < xs[i + 1] {
            break i;
        }
        i += 1;
    };
    at
}

// The place of a query that is asked by itself: three strides of at most 15 steps, of 256, of 16 and of 2, leave the walk a step or none.
pub(crate) fn place_of(xs: &[f64], q: f64) -> usize
    requires { (2 ≤ length xs.now) × (length xs.now ≤ 4096) × (rising xs.now ≡ true) }
    ensures { result ≡ place_of xs.now q }
{
    let end = xs.len() - 1;
    let far = stride(xs, q, 0, end, 256);
    let near = stride(xs, q, far, least(far + 256, end), 16);
    walk_from(xs, q, stride(xs, q, near, least(near + 16, end), 2))
}

// The place of one of many queries: a last stride of 1 ends at it. With queries in no order the processor would guess the end of a walk wrong every other
// time.
pub(crate) fn search(xs: &[f64], q: f64) -> usize
    requires { (2 ≤ length xs.now) × (length xs.now ≤ 4096) × (rising xs.now ≡ true) }
    ensures { result ≡ place_of xs.now q }
{
    let end = xs.len() - 1;
    let far = stride(xs, q, 0, end, 256);
    let near = stride(xs, q, far, least(far + 256, end), 16);
    stride(xs, q, near, least(near + 16, end), 1)
}

// The same, where it is likely to be `near` or the place after: queries that rise take a step each.
pub(crate) fn place_from(xs: &[f64], q: f64, near: usize) -> usize
    requires { (near + 1 < length xs.now) × (length xs.now ≤ 4096) × (rising xs.now ≡ true) }
    ensures { result ≡ place_of xs.now q }
{
    if covers(xs, q, near) {
        return near;
    }
    if near + 2 < xs.len() {
        if covers(xs, q, near + 1) {
            return near + 1;
        }
    }
    search(xs, q)
}
