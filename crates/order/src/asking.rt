// What a query of an order is answered.
ghost use Rattle.std.specs.Prelude.{◌≡◌};
ghost use Rattle.order.specs.Answer.{refused_line, line_of};

use curve::curve::Curve;
use query::answer::finite;
use query::single::{primitive, value};
use refusal::Refusal;

// A query's refusal, or 0, and the bits of its two numbers, which are 0 where it is refused.
#[derive(Clone, Copy)]
pub(crate) struct Line {
    pub refusal: u64,
    pub value: u64,
    pub primitive: u64,
}

// No number stands beside a refusal.
fn refused(refusal: Refusal) -> Line
    ensures { result ≡ refused_line refusal }
{
    Line {
        refusal: u64::from(refusal.number()),
        value: 0,
        primitive: 0,
    }
}

// The value and the primitive, or what refuses the one or the other. Both are refused alike but for a number that is not finite: where the value is
// finite the primitive need not be, so each is asked for its own verdict.
pub(crate) fn ask(xs: &[f64], curve: Curve, tags: &[u16], slots: &[f64], q: f64) -> Line
    ensures { result ≡ line_of xs.now curve tags.now slots.now q }
{
    match finite(value(xs, curve, tags, slots, q)) {
        Err(refusal) => refused(refusal),
        Ok(price) => match finite(primitive(xs, curve, tags, slots, q)) {
            Err(refusal) => refused(refusal),
            Ok(total) => Line {
                refusal: 0,
                value: numbers::to_bits(price),
                primitive: numbers::to_bits(total),
            },
        },
    }
}
