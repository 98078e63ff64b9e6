// A table built, or grown, together with its column.
ghost use Rattle.std.specs.Prelude.{◌≡◌};
ghost use Rattle.table.specs.Buffers.{buffers};
ghost use Rattle.curve.specs.Build.{build_outcome};
ghost use Rattle.growth.specs.Growth.{grow_outcome};
ghost use Rattle.column.specs.Column.{with_column};
ghost use Rattle.export_build.specs.Building.{seam_of};
ghost use Rattle.export_build.specs.Columns.{across_column, in_mode_column};
ghost use Rattle.export_build.specs.Growing.{previous_of};
ghost use Rattle.export_build.specs.Settings.{unknown, method_of};

// Builds the curve of a table as `havgrunel_build` does, and writes the total up to each knot into the first entries of `column`.
#[unsafe(no_mangle)]
pub extern "C" fn havgrunel_build_with_column(
    knots: &[f64],
    averages: &[f64],
    quadraticity: f64,
    monotonicity: f64,
    positive: bool,
    split: u8,
    hold: bool,
    seamed: bool,
    seam_count: usize,
    seam_node: f64,
    nodes: &mut [f64],
    tags: &mut [u16],
    slots: &mut [f64],
    sections: &mut [usize],
    tail: &mut [f64],
    column: &mut [f64],
) -> u8
    ensures { across_column result nodes.new tags.new slots.new sections.new tail.new column.new ≡ in_mode_column (unknown split) (buffers nodes.old tags.old slots.old) sections.old tail.old column.old (with_column knots.now (buffers nodes.old tags.old slots.old) column.old (build_outcome knots.now averages.now (method_of quadraticity monotonicity positive split) hold (seam_of seamed seam_count seam_node) (buffers nodes.old tags.old slots.old))) }
{
    export_build::columns::havgrunel_build_with_column(
        knots,
        averages,
        quadraticity,
        monotonicity,
        positive,
        split,
        hold,
        seamed,
        seam_count,
        seam_node,
        nodes,
        tags,
        slots,
        sections,
        tail,
        column,
    )
}

// Builds the next curve of a table that grows as `havgrunel_grow` does, with its column.
#[unsafe(no_mangle)]
pub extern "C" fn havgrunel_grow_with_column(
    knots: &[f64],
    averages: &[f64],
    quadraticity: f64,
    monotonicity: f64,
    positive: bool,
    split: u8,
    localisation: usize,
    final_size: usize,
    grown: bool,
    previous_sections: usize,
    previous_held: bool,
    previous_tags: &[u16],
    previous_slots: &[f64],
    nodes: &mut [f64],
    tags: &mut [u16],
    slots: &mut [f64],
    sections: &mut [usize],
    tail: &mut [f64],
    column: &mut [f64],
) -> u8
    ensures { across_column result nodes.new tags.new slots.new sections.new tail.new column.new ≡ in_mode_column (unknown split) (buffers nodes.old tags.old slots.old) sections.old tail.old column.old (with_column knots.now (buffers nodes.old tags.old slots.old) column.old (grow_outcome knots.now averages.now (method_of quadraticity monotonicity positive split) localisation final_size (previous_of grown previous_sections previous_held) previous_tags.now previous_slots.now (buffers nodes.old tags.old slots.old))) }
{
    export_build::columns::havgrunel_grow_with_column(
        knots,
        averages,
        quadraticity,
        monotonicity,
        positive,
        split,
        localisation,
        final_size,
        grown,
        previous_sections,
        previous_held,
        previous_tags,
        previous_slots,
        nodes,
        tags,
        slots,
        sections,
        tail,
        column,
    )
}
