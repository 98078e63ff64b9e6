// Prices and running totals of a curve that was built.
ghost use Rattle.std.specs.Prelude.{◌≡◌, length};
ghost use Rattle.numbers.specs.OneOutcome.{pair};
ghost use Rattle.section.specs.Section.{value, primitive};
ghost use Rattle.refusal.specs.Refusal.{number};
ghost use Rattle.query.specs.Query.{ask, covered_at, curve_with};
ghost use Rattle.export_query.specs.Asking.{answer_into};

use refusal::Refusal;

// The price at x, into the first entry of `answer`.
#[unsafe(no_mangle)]
pub extern "C" fn havgrunel_value(
    knots: &[f64],
    tags: &[u16],
    slots: &[f64],
    tail_value: f64,
    tail_total: f64,
    tail_from: f64,
    extrapolate: bool,
    x: f64,
    answer: &mut [f64],
) -> u8
    ensures { pair result answer.new ≡ answer_into knots.now (length tags.now) (length slots.now) (ask (λ s. value s x) (covered_at knots.now (curve_with tail_value tail_total tail_from extrapolate) tags.now slots.now x)) answer.old }
{
    export_query::asking::havgrunel_value(
        knots,
        tags,
        slots,
        tail_value,
        tail_total,
        tail_from,
        extrapolate,
        x,
        answer,
    )
}

// The total of all prices up to x, into the first entry of `answer`.
#[unsafe(no_mangle)]
pub extern "C" fn havgrunel_primitive(
    knots: &[f64],
    tags: &[u16],
    slots: &[f64],
    tail_value: f64,
    tail_total: f64,
    tail_from: f64,
    extrapolate: bool,
    x: f64,
    answer: &mut [f64],
) -> u8
    ensures { pair result answer.new ≡ answer_into knots.now (length tags.now) (length slots.now) (ask (λ s. primitive s x) (covered_at knots.now (curve_with tail_value tail_total tail_from extrapolate) tags.now slots.now x)) answer.old }
{
    export_query::asking::havgrunel_primitive(
        knots,
        tags,
        slots,
        tail_value,
        tail_total,
        tail_from,
        extrapolate,
        x,
        answer,
    )
}

// The method has no derivative: whatever x is, the refusal's number comes back.
#[unsafe(no_mangle)]
pub extern "C" fn havgrunel_derivative(x: f64) -> u8
    ensures { result ≡ number Refusal.DerivativeAsked }
{
    export_query::asking::havgrunel_derivative(x)
}
