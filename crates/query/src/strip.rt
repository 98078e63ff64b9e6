// The price of a strip of a curve: what was totalled between its two ends, over its length. The knots are checked once for both ends.
ghost use Rattle.std.specs.Prelude.{Ok, ◌≡◌, length};
ghost use Rattle.refusal.specs.Refusal.{first};
ghost use Rattle.numbers.specs.Marks.{mark};
ghost use Rattle.query.specs.Query.{curve_tests};
ghost use Rattle.query.specs.Strip.{strip_of, total_to, strip_at};

use crate::answer::{curve_verdict, point_verdict};
use crate::number::{Wanted, asked_of};
use crate::single::covering_number;
use curve::curve::Curve;
use numbers::{Marked, mark};
use refusal::Refusal;

// The total up to q, of a curve that passed its tests.
fn total_to(
    xs: &[f64],
    curve: Curve,
    tags: &[u16],
    slots: &[f64],
    q: f64,
) -> Result<Marked, Refusal>
    requires { first (curve_tests xs.now (length tags.now) (length slots.now)) ≡ Ok tt }
    ensures { result ≡ total_to xs.now curve tags.now slots.now q }
{
    point_verdict(xs, curve, q)?;
    asked_of(covering_number(Wanted::Total, xs, curve, tags, slots, q))
}

// The strip by two totals that are numbers, finite or not: its own number is marked.
fn between(a: f64, b: f64, p: f64, q: f64) -> Result<Marked, Refusal>
    ensures { result ≡ strip_of a b (Ok (mark p)) (Ok (mark q)) }
{
    if a < b {
        return Ok(mark((q - p) / (b - a)));
    }
    Err(Refusal::StripEndsNotRising)
}

// The strip by the totals up to its two ends. What they are marked does not matter: its own number does.
pub(crate) fn strip_of(
    a: f64,
    b: f64,
    from: Result<Marked, Refusal>,
    to: Result<Marked, Refusal>,
) -> Result<Marked, Refusal>
    ensures { result ≡ strip_of a b from to }
{
    between(a, b, from?.number, to?.number)
}

// The average price from a to b.
pub fn strip(
    xs: &[f64],
    curve: Curve,
    tags: &[u16],
    slots: &[f64],
    a: f64,
    b: f64,
) -> Result<Marked, Refusal>
    ensures { result ≡ strip_at xs.now curve tags.now slots.now a b }
{
    curve_verdict(xs, tags.len(), slots.len())?;
    let from = total_to(xs, curve, tags, slots, a)?;
    let to = total_to(xs, curve, tags, slots, b)?;
    between(a, b, from.number, to.number)
}
