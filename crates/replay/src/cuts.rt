// The table of a line `c`, built once more in sheets, and held against the whole that the line built. The lines that follow hold the whole
// against the original, and with it the sheets.
use crate::kept;
use crate::kept::{Buffers, Kept, Outcome};
use crate::points::{POINTS, Points};
use crate::tables::Table;
use curve::curve::Curve;
use sheets::pieces::build_in_sheets;
use table::ends::Seam;

// Whether the whole of a table that was cut was refused, and whether the sheets came to the same.
#[derive(Clone, Copy)]
pub(crate) struct Cut {
    pub refused: bool,
    pub agrees: bool,
}

// The places from the second on, of which a table's inner knots are the first so many.
fn places() -> [usize; POINTS] {
    let mut found = [0; POINTS];
    for (i, place) in found.iter_mut().enumerate() {
        *place = i + 1;
    }
    found
}

// What the table builds in sheets. The buffers start as those of the whole do, so that what is left in them is the same to the last entry. Sheets have no
// column.
fn built(table: &Table, cuts: &[usize]) -> Kept {
    let Points { knots, averages } = table.points;
    let mut lent = Buffers::new();
    let answer = build_in_sheets(
        knots.as_slice(),
        averages.as_slice(),
        table.method,
        cuts,
        &mut lent.nodes,
        &mut lent.tags,
        &mut lent.slots,
    );
    Kept {
        outcome: kept::outcome_of(answer),
        grown: false,
        knots,
        lent,
    }
}

fn same_floats<const N: usize>(one: &[f64; N], other: &[f64; N]) -> bool {
    one.iter()
        .zip(other)
        .all(|(x, y)| numbers::to_bits(*x) == numbers::to_bits(*y))
}

fn same_curve(one: Curve, other: Curve) -> bool {
    one.sections == other.sections
        && one.held == other.held
        && one.extrapolates == other.extrapolates
        && same_floats(
            &[one.tail.value, one.tail.total, one.tail.from],
            &[other.tail.value, other.tail.total, other.tail.from],
        )
}

fn same_outcome(one: Outcome, other: Outcome) -> bool {
    match (one, other) {
        (Ok(made), Ok(again)) => same_curve(made, again),
        (Err(number), Err(again)) => number == again,
        _ => false,
    }
}

fn same(whole: &Kept, sheets: &Kept) -> bool {
    same_outcome(whole.outcome, sheets.outcome)
        && same_floats(&whole.lent.nodes, &sheets.lent.nodes)
        && whole.lent.tags == sheets.lent.tags
        && same_floats(&whole.lent.slots, &sheets.lent.slots)
}

// What a table comes to in sheets, with what it built as a whole: it is cut at every inner knot and then once at the middle one. A table with a seam or a
// held last period has no sheets, and one with no inner knot has no place to be cut.
pub(crate) fn of_table(table: &Table, whole: &Kept) -> Option<Cut> {
    if table.hold {
        return None;
    }
    let None = table.seam else {
        return None;
    };
    let knots = table.points.knots.as_slice().len();
    if knots < 3 {
        return None;
    }
    let agrees = same(whole, &built(table, &places()[..knots - 2]))
        && same(whole, &built(table, &[knots / 2]));
    Some(Cut {
        refused: whole.outcome.is_err(),
        agrees,
    })
}
