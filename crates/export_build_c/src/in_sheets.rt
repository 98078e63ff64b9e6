// A table built in sheets.
ghost use Rattle.std.specs.Prelude.{◌≡◌};
ghost use Rattle.table.specs.Buffers.{buffers};
ghost use Rattle.sheets.specs.InSheets.{in_sheets_outcome};
ghost use Rattle.export_build.specs.Building.{across, in_mode};
ghost use Rattle.export_build.specs.Settings.{unknown, method_of};

// Builds the curve of a table in sheets that end at the cuts, which are inner knots in rising order, counted from 0. All that is returned and written is
// as for `havgrunel_build` with no held period and no seam.
#[unsafe(no_mangle)]
pub extern "C" fn havgrunel_build_in_sheets(
    knots: &[f64],
    averages: &[f64],
    quadraticity: f64,
    monotonicity: f64,
    positive: bool,
    split: u8,
    cuts: &[usize],
    nodes: &mut [f64],
    tags: &mut [u16],
    slots: &mut [f64],
    sections: &mut [usize],
    tail: &mut [f64],
) -> u8
    ensures { across result nodes.new tags.new slots.new sections.new tail.new ≡ in_mode (unknown split) (buffers nodes.old tags.old slots.old) sections.old tail.old (in_sheets_outcome knots.now averages.now (method_of quadraticity monotonicity positive split) cuts.now (buffers nodes.old tags.old slots.old)) }
{
    export_build::in_sheets::havgrunel_build_in_sheets(
        knots,
        averages,
        quadraticity,
        monotonicity,
        positive,
        split,
        cuts,
        nodes,
        tags,
        slots,
        sections,
        tail,
    )
}
