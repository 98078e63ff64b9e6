// The number that a query asks, with its mark: of a record, worked out from its slots, and of the curve's tail. No section is put together for a record.
ghost use Rattle.std.specs.Prelude.{◌≡◌, ◌+◌, ◌*◌, ◌≤◌, ◌<◌, length};
ghost use Rattle.numbers.specs.Sizes.{slot_count};
ghost use Rattle.record.specs.Number.{answer_in};
ghost use Rattle.record.specs.Reading.{record_at};
ghost use Rattle.query.specs.Query.{tail_section};
ghost use Rattle.query.specs.Steps.{figure, asked_of};

use curve::curve::Curve;
use numbers::{Marked, SLOTS};
use record::number::{primitive_in, value_in};
use refusal::Refusal;
use section::everywhere_constant::EverywhereConstant;

// What is asked at a point.
#[derive(Clone, Copy)]
pub(crate) enum Wanted {
    Price,
    Total,
}

// What the curve's tail answers, from the last knot on.
pub(crate) fn tail_number(curve: Curve, wanted: Wanted, q: f64) -> f64
    ensures { result ≡ figure wanted (tail_section curve) q }
{
    let tail = curve.tail;
    let constant = EverywhereConstant::new(tail.value, tail.total, tail.from);
    match wanted {
        Wanted::Price => constant.value(q),
        Wanted::Total => constant.primitive(q),
    }
}

// What the record of section i answers. All who ask a record come through here: what is called from one place only is compiled into it.
pub(crate) fn record_number(
    wanted: Wanted,
    tags: &[u16],
    slots: &[f64],
    i: usize,
    q: f64,
) -> Option<Marked>
    requires { (i < length tags.now) × (slot_count * i + slot_count ≤ length slots.now) × (i < 4096) }
    ensures { result ≡ answer_in (λ s. figure wanted s q) (record_at tags.now slots.now i) }
{
    let tag = tags[i];
    let from = SLOTS * i;
    let record = &slots[from..from + SLOTS];
    match wanted {
        Wanted::Price => value_in(tag, record, q),
        Wanted::Total => primitive_in(tag, record, q),
    }
}

// What a query is answered that nothing refuses but its record. The two fields are handed on one by one: with `ok_or` the struct is copied as a whole, in
// bytes, and a price at one point takes a fifth longer.
pub(crate) fn asked_of(answer: Option<Marked>) -> Result<Marked, Refusal>
    ensures { result ≡ asked_of answer }
{
    match answer {
        Some(marked) => Ok(Marked {
            number: marked.number,
            finite: marked.finite,
        }),
        None => Err(Refusal::RecordNotLegal),
    }
}
