// Prices and running totals at many points of one curve, which is checked once.
ghost use Rattle.std.specs.Prelude.{◌≡◌, length};
ghost use Rattle.numbers.specs.OneOutcome.{pair};
ghost use Rattle.section.specs.Section.{value, primitive};
ghost use Rattle.query.specs.Many.{many_outcome};
ghost use Rattle.query.specs.Query.{curve_with};
ghost use Rattle.export_many.specs.Many.{numbered};

use query::answer::{ManyInNumbers, curve_with};

// The price at each x, into the first entries of `answers`; where any x is refused, so are all, and nothing is written. The answer tells which x was
// refused first, counted from 0, or how many there are where none was.
pub fn havgrunel_values(
    knots: &[f64],
    tags: &[u16],
    slots: &[f64],
    tail_value: f64,
    tail_total: f64,
    tail_from: f64,
    extrapolate: bool,
    xs: &[f64],
    answers: &mut [f64],
) -> ManyInNumbers
    ensures { pair result answers.new ≡ numbered (many_outcome value knots.now (curve_with tail_value tail_total tail_from extrapolate) tags.now slots.now xs.now answers.old) (length xs.now) }
{
    let curve = curve_with(tail_value, tail_total, tail_from, extrapolate);
    let answered = query::many::values(knots, curve, tags, slots, xs, answers);
    ManyInNumbers::of(answered, xs.len())
}

// The total of all prices up to each x, in the same way.
pub fn havgrunel_primitives(
    knots: &[f64],
    tags: &[u16],
    slots: &[f64],
    tail_value: f64,
    tail_total: f64,
    tail_from: f64,
    extrapolate: bool,
    xs: &[f64],
    answers: &mut [f64],
) -> ManyInNumbers
    ensures { pair result answers.new ≡ numbered (many_outcome primitive knots.now (curve_with tail_value tail_total tail_from extrapolate) tags.now slots.now xs.now answers.old) (length xs.now) }
{
    let curve = curve_with(tail_value, tail_total, tail_from, extrapolate);
    let answered = query::many::primitives(knots, curve, tags, slots, xs, answers);
    ManyInNumbers::of(answered, xs.len())
}
