// A part of a table built into its place in the whole's buffers.
ghost use Rattle.std.specs.Prelude.{◌≡◌, ◌≤◌, length};
ghost use Rattle.table.specs.Buffers.{buffers};
ghost use Rattle.table.specs.Table.{inner};
ghost use Rattle.sheets.specs.Sheet.{sheet_outcome, sheet_in_numbers};
ghost use Rattle.export_build.specs.OneSheet.{end_of, across, end_left, in_mode_sheet};
ghost use Rattle.export_build.specs.Settings.{unknown, method_of};

use crate::building::last_refusal;
use crate::settings::method_of;
use refusal::Refusal;
use sheets::sheet::{SheetEnd, sheet, sheet_verdict};

// The node at an inner knot, from its neighbours and the averages of the periods that end at it and at the knot after it: what the sheets on both
// sides of a cut are given.
pub fn havgrunel_inner_node(before: f64, here: f64, after: f64, average: f64, next: f64) -> f64
    ensures { result ≡ inner before here after average next }
{
    assembly::nodes::inner(before, here, after, average, next)
}

// An end across the boundary: whether its node is given, and the node.
fn end_of(given: bool, node: f64) -> Option<f64>
    ensures { result ≡ end_of given node }
{
    given.then_some(node)
}

// A sheet in numbers: the total after it and the tail, written where there is room for them.
fn write_end(built: Result<SheetEnd, Refusal>, answer: &mut [f64]) -> u8
    requires { 4 ≤ length answer.old }
    ensures refusal { result ≡ (sheet_in_numbers built).refusal }
    ensures answer { answer.new ≡ end_left built answer.old }
{
    match built {
        Err(refusal) => refusal.number(),
        Ok(end) => {
            answer[0] = end.total;
            answer[1] = end.tail.value;
            answer[2] = end.tail.total;
            answer[3] = end.tail.from;
            0
        }
    }
}

// Builds a part of a table into the whole's buffers, from `place` on. A node that is given stands for the one at its end, and the totals go on from
// `start`. Into `answer` go the total after the sheet and the tail (value, total, from): three +0.0 where a right node is given.
pub fn havgrunel_sheet(
    knots: &[f64],
    averages: &[f64],
    quadraticity: f64,
    monotonicity: f64,
    positive: bool,
    split: u8,
    left_given: bool,
    left_node: f64,
    right_given: bool,
    right_node: f64,
    start: f64,
    place: usize,
    nodes: &mut [f64],
    tags: &mut [u16],
    slots: &mut [f64],
    answer: &mut [f64],
) -> u8
    ensures { across result nodes.new tags.new slots.new answer.new ≡ in_mode_sheet (unknown split) (buffers nodes.old tags.old slots.old) answer.old (sheet_outcome knots.now averages.now (method_of quadraticity monotonicity positive split) (end_of left_given left_node) (end_of right_given right_node) start place (buffers nodes.old tags.old slots.old)) }
{
    if 2 < split {
        return Refusal::SplitUnknown.number();
    }
    let method = method_of(quadraticity, monotonicity, positive, split);
    let left = end_of(left_given, left_node);
    let right = end_of(right_given, right_node);
    if answer.len() < 4 {
        return last_refusal(sheet_verdict(
            knots,
            averages,
            method,
            left,
            right,
            place,
            nodes.len(),
            tags.len(),
            slots.len(),
        ));
    }
    let built = sheet(
        knots, averages, method, left, right, start, place, nodes, tags, slots,
    );
    write_end(built, answer)
}
