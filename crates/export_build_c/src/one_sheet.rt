// A part of a table built into its place in the whole's buffers.
ghost use Rattle.std.specs.Prelude.{◌≡◌};
ghost use Rattle.table.specs.Buffers.{buffers};
ghost use Rattle.table.specs.Table.{inner};
ghost use Rattle.sheets.specs.Sheet.{sheet_outcome};
ghost use Rattle.export_build.specs.OneSheet.{end_of, across, in_mode_sheet};
ghost use Rattle.export_build.specs.Settings.{unknown, method_of};

// The node at an inner knot, from its neighbours and the averages of the periods that end at it and at the knot after it: what the sheets on both
// sides of a cut are given.
#[unsafe(no_mangle)]
pub extern "C" fn havgrunel_inner_node(
    before: f64,
    here: f64,
    after: f64,
    average: f64,
    next: f64,
) -> f64
    ensures { result ≡ inner before here after average next }
{
    export_build::one_sheet::havgrunel_inner_node(before, here, after, average, next)
}

// Builds a part of a table into the whole's buffers, from `place` on. A node that is given stands for the one at its end, and the totals go on from
// `start`. Into `answer` go the total after the sheet and the tail (value, total, from): three +0.0 where a right node is given.
#[unsafe(no_mangle)]
pub extern "C" fn havgrunel_sheet(
    knots: &[f64],
    averages: &[f64],
    quadraticity: f64,
    monotonicity: f64,
    positive: bool,
    split: u8,
    left_given: bool,
    left_node: f64,
    right_given: bool,
    right_node: f64,
    start: f64,
    place: usize,
    nodes: &mut [f64],
    tags: &mut [u16],
    slots: &mut [f64],
    answer: &mut [f64],
) -> u8
    ensures { across result nodes.new tags.new slots.new answer.new ≡ in_mode_sheet (unknown split) (buffers nodes.old tags.old slots.old) answer.old (sheet_outcome knots.now averages.now (method_of quadraticity monotonicity positive split) (end_of left_given left_node) (end_of right_given right_node) start place (buffers nodes.old tags.old slots.old)) }
{
    export_build::one_sheet::havgrunel_sheet(
        knots,
        averages,
        quadraticity,
        monotonicity,
        positive,
        split,
        left_given,
        left_node,
        right_given,
        right_node,
        start,
        place,
        nodes,
        tags,
        slots,
        answer,
    )
}
