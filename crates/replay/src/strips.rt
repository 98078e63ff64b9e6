// Strips of a curve: the lines `p`, and a run from knot to knot.
use crate::kept::Kept;
use crate::marks::Told;
use crate::points::POINTS;
use column::between::strip_between;
use curve::curve::Curve;
use numbers::Marked;
use query::answer::{AnswerInNumbers, ManyInNumbers, number};
use query::strip::strip;
use query::strips::{run, strips};
use refusal::Refusal;

// The place of the knot with these bits.
fn place_of(xs: &[f64], bits: u64) -> Option<usize> {
    xs.iter().position(|x| numbers::to_bits(*x) == bits)
}

// The places of a strip's two ends, where both are knots.
pub(crate) fn places_of(kept: &Kept, a: u64, b: u64) -> Option<(usize, usize)> {
    let xs = kept.knots.as_slice();
    Some((place_of(xs, a)?, place_of(xs, b)?))
}

// A curve's strip from one number to another.
fn strip_of(kept: &Kept, made: Curve, a: f64, b: f64) -> Result<Marked, Refusal> {
    strip(
        kept.knots.as_slice(),
        made,
        &kept.lent.tags,
        &kept.lent.slots,
        a,
        b,
    )
}

// A curve's strip from one knot to another, by their places.
fn strip_at(kept: &Kept, i: usize, j: usize) -> Result<Marked, Refusal> {
    strip_between(kept.knots.as_slice(), &kept.lent.column, i, j)
}

// Whether so many strips are refused for this one, or answered where the refusal is 0.
fn is_told(told: ManyInNumbers, refusal: u64, strip: usize) -> bool {
    u64::from(told.refusal) == refusal && told.query == strip
}

// What three strips came to, of which the first and the last are one and the same: the first that is refused is told, and nothing is written.
fn three_agree(
    around: Result<Marked, Refusal>,
    answered: ManyInNumbers,
    out: [f64; 3],
    told: Told,
) -> bool {
    let [first, middle, last] = [
        numbers::to_bits(out[0]),
        numbers::to_bits(out[1]),
        numbers::to_bits(out[2]),
    ];
    let untouched = first == 0 && middle == 0 && last == 0;
    let before = u64::from(AnswerInNumbers::from(around).refusal);
    if before != 0 {
        return is_told(answered, before, 0) && untouched;
    }
    let refusal = told.refusal_in_numbers();
    if refusal != 0 {
        return is_told(answered, refusal, 1) && untouched;
    }
    let own = Told {
        refusal: 0,
        number: first,
    };
    is_told(answered, 0, 3) && last == first && middle == told.number && own.agrees(around)
}

// Whether the strip is as a line tells with the strip from a to b before it and after it.
fn between_two(kept: &Kept, made: Curve, around: (f64, f64), own: (f64, f64), told: Told) -> bool {
    let mut out = [0.0; 3];
    let answered = strips(
        kept.knots.as_slice(),
        made,
        &kept.lent.tags,
        &kept.lent.slots,
        &[around.0, own.0, around.0],
        &[around.1, own.1, around.1],
        &mut out,
    );
    let answered = ManyInNumbers::of(answered, 3);
    three_agree(
        strip_of(kept, made, around.0, around.1),
        answered,
        out,
        told,
    )
}

// Whether the strip is as a line tells among others too: with the whole curve's before it and after it. Where the whole curve's is not finite, it refuses
// all three, so the strip is asked among its own likes as well.
fn among_others(kept: &Kept, made: Curve, own: (f64, f64), told: Told) -> bool {
    let whole = match kept.knots.as_slice() {
        [] => return false,
        [only] => (*only, *only),
        [first, .., last] => (*first, *last),
    };
    between_two(kept, made, whole, own, told)
        && (AnswerInNumbers::from(strip_of(kept, made, whole.0, whole.1)).refusal == 0
            || between_two(kept, made, own, own, told))
}

// A line `p ALLOW A B REFUSAL PRICE`: whether the curve's strip from A to B is as it tells, alone, among others, and by the places of its ends.
pub(crate) fn agrees(kept: &Kept, made: Curve, a: u64, b: u64, told: Told) -> bool {
    let own = (numbers::of_bits(a), numbers::of_bits(b));
    if !told.agrees(strip_of(kept, made, own.0, own.1)) || !among_others(kept, made, own, told) {
        return false;
    }
    match places_of(kept, a, b) {
        None => true,
        Some((i, j)) => told.agrees(strip_at(kept, i, j)),
    }
}

// Whether a strip from knot to knot is a number, the same by its ends and by its places, and what a run wrote: this number, or nothing where the run was
// refused.
fn step_agrees(
    single: Result<Marked, Refusal>,
    between: Result<Marked, Refusal>,
    price: u64,
    refused: bool,
) -> bool {
    let number = numbers::to_bits(number(single));
    let told = Told { refusal: 0, number };
    told.agrees(single) && told.agrees(between) && price == (if refused { 0 } else { number })
}

// Whether the prices from knot to knot are those of the single strips, asked for by their ends and by their places. Where one is refused, so is the run:
// the first is told and nothing is written, and the single ones are held against each other.
fn steps_agree(kept: &Kept, made: Curve, out: &[f64], told: ManyInNumbers) -> bool {
    let xs = kept.knots.as_slice();
    if xs.is_empty() || out.len() < xs.len() {
        return false;
    }
    let last = xs.len() - 1;
    let mut first = (0, last);
    for i in 0..last {
        let price = numbers::to_bits(out[i]);
        let single = strip_of(kept, made, xs[i], xs[i + 1]);
        if !step_agrees(single, strip_at(kept, i, i + 1), price, told.refusal != 0) {
            return false;
        }
        let refusal = u64::from(AnswerInNumbers::from(single).refusal);
        if first.0 == 0 && refusal != 0 {
            first = (refusal, i);
        }
    }
    is_told(told, first.0, first.1)
}

// Whether a run was refused, and whether it is as it is to be.
#[derive(Clone, Copy)]
pub(crate) struct Run {
    pub refused: bool,
    pub agrees: bool,
}

// The strips from knot to knot, priced in one run: whether they are the single ones.
pub(crate) fn run_of(kept: &Kept, made: Curve) -> Run {
    let xs = kept.knots.as_slice();
    if xs.is_empty() {
        return Run {
            refused: false,
            agrees: false,
        };
    }
    let mut out = [0.0; POINTS];
    let told = run(xs, made, &kept.lent.tags, &kept.lent.slots, xs, &mut out);
    let told = ManyInNumbers::of(told, xs.len() - 1);
    Run {
        refused: told.refusal != 0,
        agrees: steps_agree(kept, made, &out, told),
    }
}
