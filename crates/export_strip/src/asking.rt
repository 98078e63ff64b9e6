// Average prices of strips of a curve that was built.
ghost use Rattle.std.specs.Prelude.{◌≡◌, ◌-◌, ◌≤◌, length};
ghost use Rattle.numbers.specs.OneOutcome.{pair};
ghost use Rattle.query.specs.Query.{curve_with};
ghost use Rattle.query.specs.Strip.{pairs_outcome, run_outcome};
ghost use Rattle.export_query.specs.Asking.{left_by};
ghost use Rattle.export_many.specs.Many.{numbered};
ghost use Rattle.export_strip.specs.Asking.{strip_into};

use numbers::Marked;
use query::answer::{AnswerInNumbers, ManyInNumbers, curve_with, finite};
use query::strip::strip;
use refusal::Refusal;

// An answer in numbers, written into a slice that has room for it. What is refused, and so a number that is not finite, is not written. It is the one of
// `export_query` again: one for both would be public, and no public function may ask for room.
pub(crate) fn write_answer(asked: Result<Marked, Refusal>, answer: &mut [f64]) -> u8
    requires { 1 ≤ length answer.old }
    ensures { pair result answer.new ≡ left_by asked answer.old }
{
    match finite(asked) {
        Err(refusal) => refusal.number(),
        Ok(number) => {
            answer[0] = number;
            0
        }
    }
}

// The average price from `a` to `b`, into the first entry of `answer`.
pub fn havgrunel_strip(
    knots: &[f64],
    tags: &[u16],
    slots: &[f64],
    tail_value: f64,
    tail_total: f64,
    tail_from: f64,
    extrapolate: bool,
    a: f64,
    b: f64,
    answer: &mut [f64],
) -> u8
    ensures { pair result answer.new ≡ strip_into knots.now (curve_with tail_value tail_total tail_from extrapolate) tags.now slots.now a b answer.old }
{
    let curve = curve_with(tail_value, tail_total, tail_from, extrapolate);
    if answer.len() < 1 {
        let none: [u16; 0] = [];
        return AnswerInNumbers::from(strip(knots, curve, &none, slots, a, b)).refusal;
    }
    write_answer(strip(knots, curve, tags, slots, a, b), answer)
}

// The average price from each of `starts` to the number beside it in `ends`, into the first entries of `answers`; where any strip is refused, so are all,
// and nothing is written. Beside the refusal comes which strip was refused first, or how many there are where none was.
pub fn havgrunel_strips(
    knots: &[f64],
    tags: &[u16],
    slots: &[f64],
    tail_value: f64,
    tail_total: f64,
    tail_from: f64,
    extrapolate: bool,
    starts: &[f64],
    ends: &[f64],
    answers: &mut [f64],
) -> ManyInNumbers
    ensures { pair result answers.new ≡ numbered (pairs_outcome knots.now (curve_with tail_value tail_total tail_from extrapolate) tags.now slots.now starts.now ends.now answers.old) (length starts.now) }
{
    let curve = curve_with(tail_value, tail_total, tail_from, extrapolate);
    let answered = query::strips::strips(knots, curve, tags, slots, starts, ends, answers);
    ManyInNumbers::of(answered, starts.len())
}

// The average price from each of `edges` to the next, in the same way: one number less than there are edges.
pub fn havgrunel_strip_run(
    knots: &[f64],
    tags: &[u16],
    slots: &[f64],
    tail_value: f64,
    tail_total: f64,
    tail_from: f64,
    extrapolate: bool,
    edges: &[f64],
    answers: &mut [f64],
) -> ManyInNumbers
    ensures { pair result answers.new ≡ numbered (run_outcome knots.now (curve_with tail_value tail_total tail_from extrapolate) tags.now slots.now edges.now answers.old) (length edges.now - 1) }
{
    let curve = curve_with(tail_value, tail_total, tail_from, extrapolate);
    let answered = query::strips::run(knots, curve, tags, slots, edges, answers);
    ManyInNumbers::of(answered, edges.len().saturating_sub(1))
}
