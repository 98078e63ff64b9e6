// Average prices of strips of a curve that was built.
ghost use Rattle.std.specs.Prelude.{◌≡◌, ◌-◌, length};
ghost use Rattle.numbers.specs.OneOutcome.{pair};
ghost use Rattle.query.specs.Query.{curve_with};
ghost use Rattle.query.specs.Strip.{pairs_outcome, run_outcome};
ghost use Rattle.export_many.specs.Many.{numbered};
ghost use Rattle.export_strip.specs.Asking.{strip_into};

use query::answer::ManyInNumbers;

// The average price from `a` to `b`, into the first entry of `answer`.
#[unsafe(no_mangle)]
pub extern "C" fn havgrunel_strip(
    knots: &[f64],
    tags: &[u16],
    slots: &[f64],
    tail_value: f64,
    tail_total: f64,
    tail_from: f64,
    extrapolate: bool,
    a: f64,
    b: f64,
    answer: &mut [f64],
) -> u8
    ensures { pair result answer.new ≡ strip_into knots.now (curve_with tail_value tail_total tail_from extrapolate) tags.now slots.now a b answer.old }
{
    export_strip::asking::havgrunel_strip(
        knots,
        tags,
        slots,
        tail_value,
        tail_total,
        tail_from,
        extrapolate,
        a,
        b,
        answer,
    )
}

// The average price from each of `starts` to the number beside it in `ends`, into the first entries of `answers`; where any strip is refused, so are all,
// and nothing is written. Beside the refusal comes which strip was refused first, or how many there are where none was.
#[unsafe(no_mangle)]
pub extern "C" fn havgrunel_strips(
    knots: &[f64],
    tags: &[u16],
    slots: &[f64],
    tail_value: f64,
    tail_total: f64,
    tail_from: f64,
    extrapolate: bool,
    starts: &[f64],
    ends: &[f64],
    answers: &mut [f64],
) -> ManyInNumbers
    ensures { pair result answers.new ≡ numbered (pairs_outcome knots.now (curve_with tail_value tail_total tail_from extrapolate) tags.now slots.now starts.now ends.now answers.old) (length starts.now) }
{
    export_strip::asking::havgrunel_strips(
        knots,
        tags,
        slots,
        tail_value,
        tail_total,
        tail_from,
        extrapolate,
        starts,
        ends,
        answers,
    )
}

// The average price from each of `edges` to the next, in the same way: one number less than there are edges.
#[unsafe(no_mangle)]
pub extern "C" fn havgrunel_strip_run(
    knots: &[f64],
    tags: &[u16],
    slots: &[f64],
    tail_value: f64,
    tail_total: f64,
    tail_from: f64,
    extrapolate: bool,
    edges: &[f64],
    answers: &mut [f64],
) -> ManyInNumbers
    ensures { pair result answers.new ≡ numbered (run_outcome knots.now (curve_with tail_value tail_total tail_from extrapolate) tags.now slots.now edges.now answers.old) (length edges.now - 1) }
{
    export_strip::asking::havgrunel_strip_run(
        knots,
        tags,
        slots,
        tail_value,
        tail_total,
        tail_from,
        extrapolate,
        edges,
        answers,
    )
}
