// What a curve depends on beside its numbers.
use crate::method::ConvexMonotone;

// The count of sections that a growing curve retains, and the node at which the last of them ended.
#[derive(Clone, Copy, Debug)]
pub struct Seam {
    pub count: usize,
    pub node: f64,
}

// The settings and all that is given about a table, passed whole. A node given for an end stands in place of the one that the rule gives; `start` is
// the total before the first period, and `hold` asks for a constant last period.
#[derive(Clone, Copy)]
pub struct Frame {
    pub method: ConvexMonotone,
    pub hold: bool,
    pub seam: Option<Seam>,
    pub left: Option<f64>,
    pub right: Option<f64>,
    pub start: f64,
}
