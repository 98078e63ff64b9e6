// The price, or the running total, at one point of a curve. Knots that passed the tests rise, so strides come close to the place before it is walked to.
ghost use Rattle.std.specs.Prelude.{Ok, ◌≡◌, length};
ghost use Rattle.section.specs.Section.{value, primitive};
ghost use Rattle.refusal.specs.Refusal.{first};
ghost use Rattle.record.specs.Number.{answer_in};
ghost use Rattle.query.specs.Query.{curve_tests, covering, covered_at, ask};
ghost use Rattle.query.specs.Steps.{figure};

use crate::answer::query_verdict;
use crate::number::{Wanted, asked_of, record_number, tail_number};
use crate::place::place_of;
use curve::curve::Curve;
use numbers::{Marked, mark};
use refusal::Refusal;

// What the section that covers a query answers. From the last knot on no record is read.
pub(crate) fn covering_number(
    wanted: Wanted,
    xs: &[f64],
    curve: Curve,
    tags: &[u16],
    slots: &[f64],
    q: f64,
) -> Option<Marked>
    requires { first (curve_tests xs.now (length tags.now) (length slots.now)) ≡ Ok tt }
    ensures { result ≡ answer_in (λ s. figure wanted s q) (covering xs.now curve tags.now slots.now q) }
{
    let end = xs.len() - 1;
    if xs[end] <= q {
        return Some(mark(tail_number(curve, wanted, q)));
    }
    record_number(wanted, tags, slots, place_of(xs, q), q)
}

// What is wanted at q, or the first refusal.
fn answer_at(
    wanted: Wanted,
    xs: &[f64],
    curve: Curve,
    tags: &[u16],
    slots: &[f64],
    q: f64,
) -> Result<Marked, Refusal>
    ensures { result ≡ ask (λ s. figure wanted s q) (covered_at xs.now curve tags.now slots.now q) }
{
    query_verdict(xs, curve, tags.len(), slots.len(), q)?;
    asked_of(covering_number(wanted, xs, curve, tags, slots, q))
}

// The price at q.
pub fn value(
    xs: &[f64],
    curve: Curve,
    tags: &[u16],
    slots: &[f64],
    q: f64,
) -> Result<Marked, Refusal>
    ensures { result ≡ ask (λ s. value s q) (covered_at xs.now curve tags.now slots.now q) }
{
    answer_at(Wanted::Price, xs, curve, tags, slots, q)
}

// The total of all prices up to q.
pub fn primitive(
    xs: &[f64],
    curve: Curve,
    tags: &[u16],
    slots: &[f64],
    q: f64,
) -> Result<Marked, Refusal>
    ensures { result ≡ ask (λ s. primitive s q) (covered_at xs.now curve tags.now slots.now q) }
{
    answer_at(Wanted::Total, xs, curve, tags, slots, q)
}
