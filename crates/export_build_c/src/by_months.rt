// Delivery months: their knots, and a table of them built into a curve.
ghost use Rattle.std.specs.Prelude.{◌≡◌};
ghost use Rattle.table.specs.Buffers.{buffers};
ghost use Rattle.months.specs.Building.{monthly_outcome};
ghost use Rattle.export_build.specs.Building.{seam_of};
ghost use Rattle.export_build.specs.ByMonths.{size_of, not_periods, knots_left, knots_across, across_months, months_across};
ghost use Rattle.export_build.specs.Settings.{unknown, method_of};

// Writes the knots of the periods of so many months, 1, 3 or 12, from a first to a last month, January 2000 being 0, and how many they are into `count`.
#[unsafe(no_mangle)]
pub extern "C" fn havgrunel_month_knots(
    first: i64,
    last: i64,
    months: u8,
    knots: &mut [f64],
    count: &mut [usize],
) -> u8
    ensures { knots_left result knots.new count.new ≡ knots_across first last months knots.old count.old }
{
    export_build::by_months::havgrunel_month_knots(first, last, months, knots, count)
}

// Builds the curve of those periods as `havgrunel_build` does of their knots, and writes the knots too.
#[unsafe(no_mangle)]
pub extern "C" fn havgrunel_build_months(
    first: i64,
    last: i64,
    months: u8,
    averages: &[f64],
    quadraticity: f64,
    monotonicity: f64,
    positive: bool,
    split: u8,
    hold: bool,
    seamed: bool,
    seam_count: usize,
    seam_node: f64,
    knots: &mut [f64],
    nodes: &mut [f64],
    tags: &mut [u16],
    slots: &mut [f64],
    sections: &mut [usize],
    tail: &mut [f64],
) -> u8
    ensures { across_months result knots.new nodes.new tags.new slots.new sections.new tail.new ≡ months_across (not_periods first last months) (unknown split) knots.old (buffers nodes.old tags.old slots.old) sections.old tail.old (monthly_outcome first last (size_of months) averages.now (method_of quadraticity monotonicity positive split) hold (seam_of seamed seam_count seam_node) knots.old (buffers nodes.old tags.old slots.old)) }
{
    export_build::by_months::havgrunel_build_months(
        first,
        last,
        months,
        averages,
        quadraticity,
        monotonicity,
        positive,
        split,
        hold,
        seamed,
        seam_count,
        seam_node,
        knots,
        nodes,
        tags,
        slots,
        sections,
        tail,
    )
}
