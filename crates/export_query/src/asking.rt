// Prices and running totals of a curve that was built.
ghost use Rattle.std.specs.Prelude.{◌≡◌, ◌≤◌, length};
ghost use Rattle.numbers.specs.OneOutcome.{pair};
ghost use Rattle.section.specs.Section.{value, primitive};
ghost use Rattle.refusal.specs.Refusal.{number, first, verdict_number};
ghost use Rattle.query.specs.Query.{ask, covered_at, curve_with};
ghost use Rattle.query.specs.Many.{many_tests};
ghost use Rattle.export_query.specs.Asking.{left_by, answer_into};

use numbers::Marked;
use query::answer::{AnswerInNumbers, curve_verdict, curve_with, derivative, finite};
use refusal::Refusal;

// An answer in numbers, written into a slice that has room for it. A number that is not finite is refused, and not written.
fn write_answer(asked: Result<Marked, Refusal>, answer: &mut [f64]) -> u8
    requires { 1 ≤ length answer.old }
    ensures { pair result answer.new ≡ left_by asked answer.old }
{
    match finite(asked) {
        Err(refusal) => refusal.number(),
        Ok(number) => {
            answer[0] = number;
            0
        }
    }
}

// The refusal of a query whose answer has no room: one of the curve's own, or that of a short slice.
fn short_refusal(knots: &[f64], tags: usize, slots: usize) -> u8
    ensures { result ≡ verdict_number (first (many_tests knots.now tags slots 1 0)) }
{
    match curve_verdict(knots, tags, slots) {
        Err(refusal) => refusal.number(),
        Ok(()) => Refusal::BufferTooShort.number(),
    }
}

// The price at x, into the first entry of `answer`.
pub fn havgrunel_value(
    knots: &[f64],
    tags: &[u16],
    slots: &[f64],
    tail_value: f64,
    tail_total: f64,
    tail_from: f64,
    extrapolate: bool,
    x: f64,
    answer: &mut [f64],
) -> u8
    ensures { pair result answer.new ≡ answer_into knots.now (length tags.now) (length slots.now) (ask (λ s. value s x) (covered_at knots.now (curve_with tail_value tail_total tail_from extrapolate) tags.now slots.now x)) answer.old }
{
    if answer.len() < 1 {
        return short_refusal(knots, tags.len(), slots.len());
    }
    let curve = curve_with(tail_value, tail_total, tail_from, extrapolate);
    write_answer(query::single::value(knots, curve, tags, slots, x), answer)
}

// The total of all prices up to x, into the first entry of `answer`.
pub fn havgrunel_primitive(
    knots: &[f64],
    tags: &[u16],
    slots: &[f64],
    tail_value: f64,
    tail_total: f64,
    tail_from: f64,
    extrapolate: bool,
    x: f64,
    answer: &mut [f64],
) -> u8
    ensures { pair result answer.new ≡ answer_into knots.now (length tags.now) (length slots.now) (ask (λ s. primitive s x) (covered_at knots.now (curve_with tail_value tail_total tail_from extrapolate) tags.now slots.now x)) answer.old }
{
    if answer.len() < 1 {
        return short_refusal(knots, tags.len(), slots.len());
    }
    let curve = curve_with(tail_value, tail_total, tail_from, extrapolate);
    write_answer(
        query::single::primitive(knots, curve, tags, slots, x),
        answer,
    )
}

// The method has no derivative: whatever x is, the refusal's number comes back.
pub fn havgrunel_derivative(x: f64) -> u8
    ensures { result ≡ number Refusal.DerivativeAsked }
{
    AnswerInNumbers::from(derivative(x)).refusal
}
