// A curve grown from the one before it.
ghost use Rattle.std.specs.Prelude.{◌≡◌};
ghost use Rattle.table.specs.Buffers.{buffers};
ghost use Rattle.growth.specs.Growth.{grow_outcome};
ghost use Rattle.export_build.specs.Building.{across, in_mode};
ghost use Rattle.export_build.specs.Growing.{previous_of};
ghost use Rattle.export_build.specs.Settings.{unknown, method_of};

// Builds the next curve of a table that grows. `grown` says whether there is a previous curve; `previous_sections` and `previous_held` are its count
// of sections and whether its last period was held.
#[unsafe(no_mangle)]
pub extern "C" fn havgrunel_grow(
    knots: &[f64],
    averages: &[f64],
    quadraticity: f64,
    monotonicity: f64,
    positive: bool,
    split: u8,
    localisation: usize,
    final_size: usize,
    grown: bool,
    previous_sections: usize,
    previous_held: bool,
    previous_tags: &[u16],
    previous_slots: &[f64],
    nodes: &mut [f64],
    tags: &mut [u16],
    slots: &mut [f64],
    sections: &mut [usize],
    tail: &mut [f64],
) -> u8
    ensures { across result nodes.new tags.new slots.new sections.new tail.new ≡ in_mode (unknown split) (buffers nodes.old tags.old slots.old) sections.old tail.old (grow_outcome knots.now averages.now (method_of quadraticity monotonicity positive split) localisation final_size (previous_of grown previous_sections previous_held) previous_tags.now previous_slots.now (buffers nodes.old tags.old slots.old)) }
{
    export_build::growing::havgrunel_grow(
        knots,
        averages,
        quadraticity,
        monotonicity,
        positive,
        split,
        localisation,
        final_size,
        grown,
        previous_sections,
        previous_held,
        previous_tags,
        previous_slots,
        nodes,
        tags,
        slots,
        sections,
        tail,
    )
}
