// A table built into a curve.
ghost use Rattle.std.specs.Prelude.{◌≡◌};
ghost use Rattle.table.specs.Buffers.{buffers};
ghost use Rattle.curve.specs.Build.{build_outcome};
ghost use Rattle.export_build.specs.Building.{seam_of, across, in_mode};
ghost use Rattle.export_build.specs.Settings.{unknown, method_of};

// Builds the curve of a table. Nodes, tags and slots are written from the start of the lent buffers, the count of sections into `sections`, and
// its tail (value, total, from) into `tail`.
#[unsafe(no_mangle)]
pub extern "C" fn havgrunel_build(
    knots: &[f64],
    averages: &[f64],
    quadraticity: f64,
    monotonicity: f64,
    positive: bool,
    split: u8,
    hold: bool,
    seamed: bool,
    seam_count: usize,
    seam_node: f64,
    nodes: &mut [f64],
    tags: &mut [u16],
    slots: &mut [f64],
    sections: &mut [usize],
    tail: &mut [f64],
) -> u8
    ensures { across result nodes.new tags.new slots.new sections.new tail.new ≡ in_mode (unknown split) (buffers nodes.old tags.old slots.old) sections.old tail.old (build_outcome knots.now averages.now (method_of quadraticity monotonicity positive split) hold (seam_of seamed seam_count seam_node) (buffers nodes.old tags.old slots.old)) }
{
    export_build::building::havgrunel_build(
        knots,
        averages,
        quadraticity,
        monotonicity,
        positive,
        split,
        hold,
        seamed,
        seam_count,
        seam_node,
        nodes,
        tags,
        slots,
        sections,
        tail,
    )
}
