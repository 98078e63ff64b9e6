// Prices, or running totals, at many points of one curve. The knots are checked once, and nothing is written where any query is refused.
ghost use Rattle.std.specs.Prelude.{Ok, ◌≡◌, true, ◌+◌, ◌≤◌, ◌<◌, length};
ghost use Rattle.section.specs.Section.{value, primitive};
ghost use Rattle.record.specs.Number.{answer_in};
ghost use Rattle.refusal.specs.Refusal.{first};
ghost use Rattle.numbers.specs.OneOutcome.{pair};
ghost use Rattle.numbers.specs.Overlay.{overlay};
ghost use Rattle.table.specs.Table.{at};
ghost use Rattle.query.specs.Query.{curve_tests, point_tests, covering};
ghost use Rattle.query.specs.Steps.{figure, answered_before};
ghost use Rattle.query.specs.Many.{ask_at, formula_at, queries_verdict, many_verdict, many_outcome};

use crate::answer::{ManyRefusal, curve_verdict, number, point_verdict, verdict};
use crate::known::are_answered;
use crate::number::{Wanted, asked_of, record_number, tail_number};
use crate::place::{least, place_from};
use curve::curve::Curve;
use numbers::{Marked, mark};
use refusal::Refusal;

// So many queries are answered at a time where it is not known beforehand that none is refused.
const BLOCK: usize = 64;

// What the section that covers a query answers, and the place where it was found.
#[derive(Clone, Copy)]
pub(crate) struct Near {
    pub answer: Option<Marked>,
    pub place: usize,
}

// What the section that covers one of many queries answers, sought from a place that it is likely to be near. From the last knot on no record is read.
pub(crate) fn number_near(
    wanted: Wanted,
    xs: &[f64],
    curve: Curve,
    tags: &[u16],
    slots: &[f64],
    near: usize,
    q: f64,
) -> Near
    requires { (first (curve_tests xs.now (length tags.now) (length slots.now)) ≡ Ok tt) × (near + 1 < length xs.now) }
    ensures answer { result.answer ≡ answer_in (λ s. figure wanted s q) (covering xs.now curve tags.now slots.now q) }
    ensures place { result.place + 1 < length xs.now }
{
    let end = xs[xs.len() - 1];
    if end <= q {
        return Near {
            answer: Some(mark(tail_number(curve, wanted, q))),
            place: near,
        };
    }
    let place = place_from(xs, q, near);
    let answer = record_number(wanted, tags, slots, place, q);
    Near { answer, place }
}

// What a query is answered, and the place where its section was found.
#[derive(Clone, Copy)]
pub(crate) struct Looked {
    pub answer: Result<Marked, Refusal>,
    pub place: usize,
}

// What one of many queries is answered, of a curve that passed its tests. `known` says that the query passes its own.
pub(crate) fn look(
    known: bool,
    wanted: Wanted,
    xs: &[f64],
    curve: Curve,
    tags: &[u16],
    slots: &[f64],
    near: usize,
    q: f64,
) -> Looked
    requires slots_value { (first (curve_tests xs.now (length tags.now) (length slots.now)) ≡ Ok tt) × (near + 1 < length xs.now) }
    requires q_value { known ≡ true → first (point_tests xs.now curve q) ≡ Ok tt }
    ensures answer { result.answer ≡ ask_at (figure wanted) xs.now curve tags.now slots.now q }
    ensures place { result.place + 1 < length xs.now }
{
    if !known {
        if let Err(refusal) = point_verdict(xs, curve, q) {
            return Looked {
                answer: Err(refusal),
                place: near,
            };
        }
    }
    let found = number_near(wanted, xs, curve, tags, slots, near, q);
    Looked {
        answer: asked_of(found.answer),
        place: found.place,
    }
}

// Answers queries up to the first that is refused, into the first entries of `out`, each found from the place of the one before it. `known` says that none
// is refused, so that none is looked at for that. All many queries come through here: what is called from one place only is compiled into it. So those who
// call this tell `known` by a knot, which is equal to itself: for a flag that is written out the compiler would make a copy, and ask records from two places.
fn fill(
    known: bool,
    wanted: Wanted,
    xs: &[f64],
    curve: Curve,
    tags: &[u16],
    slots: &[f64],
    qs: &[f64],
    out: &mut [f64],
) -> Result<(), ManyRefusal>
    requires slots_value { (first (curve_tests xs.now (length tags.now) (length slots.now)) ≡ Ok tt) × (length qs.now ≤ length out.old) }
    requires qs_value { known ≡ true → queries_verdict (figure wanted) xs.now curve tags.now slots.now qs.now ≡ Ok tt }
    ensures verdict { result ≡ queries_verdict (figure wanted) xs.now curve tags.now slots.now qs.now }
    ensures out { out.new ≡ overlay 0 (answered_before result (length qs.now)) (λ i. formula_at (figure wanted) xs.now curve tags.now slots.now (at qs.now i)) out.old }
{
    let mut place: usize = 0;
    for i in 0..qs.len() {
        let looked = look(known, wanted, xs, curve, tags, slots, place, qs[i]);
        if !known {
            if let Err(refusal) = verdict(looked.answer) {
                return Err(ManyRefusal::Query(refusal, i));
            }
        }
        out[i] = number(looked.answer);
        place = looked.place;
    }
    Ok(())
}

// The first refusal of the queries, in their order: a block of them at a time is answered into room of its own.
fn blocks_verdict(
    wanted: Wanted,
    xs: &[f64],
    curve: Curve,
    tags: &[u16],
    slots: &[f64],
    qs: &[f64],
) -> Result<(), ManyRefusal>
    requires { first (curve_tests xs.now (length tags.now) (length slots.now)) ≡ Ok tt }
    ensures { result ≡ queries_verdict (figure wanted) xs.now curve tags.now slots.now qs.now }
{
    let knot = xs[0];
    let known = knot != knot;
    let mut room = [0.0; BLOCK];
    let mut from: usize = 0;
    while from < qs.len() {
        let to = from + least(BLOCK, qs.len() - from);
        match fill(
            known,
            wanted,
            xs,
            curve,
            tags,
            slots,
            &qs[from..to],
            &mut room,
        ) {
            Ok(()) => {}
            Err(ManyRefusal::Whole(refusal)) => {
                return Err(ManyRefusal::Whole(refusal));
            }
            Err(ManyRefusal::Query(refusal, k)) => {
                return Err(ManyRefusal::Query(refusal, from + k));
            }
        }
        from = to;
    }
    Ok(())
}

// The same, with no look at each query where it is known that none is refused.
fn queries_verdict(
    wanted: Wanted,
    xs: &[f64],
    curve: Curve,
    tags: &[u16],
    slots: &[f64],
    qs: &[f64],
) -> Result<(), ManyRefusal>
    requires { first (curve_tests xs.now (length tags.now) (length slots.now)) ≡ Ok tt }
    ensures { result ≡ queries_verdict (figure wanted) xs.now curve tags.now slots.now qs.now }
{
    if are_answered(xs, curve, tags, slots, qs) {
        return Ok(());
    }
    blocks_verdict(wanted, xs, curve, tags, slots, qs)
}

fn many_verdict(
    wanted: Wanted,
    xs: &[f64],
    curve: Curve,
    tags: &[u16],
    slots: &[f64],
    qs: &[f64],
    room: usize,
) -> Result<(), ManyRefusal>
    ensures { result ≡ many_verdict (figure wanted) xs.now curve tags.now slots.now qs.now room }
{
    curve_verdict(xs, tags.len(), slots.len())?;
    if room < qs.len() {
        return Err(ManyRefusal::Whole(Refusal::BufferTooShort));
    }
    queries_verdict(wanted, xs, curve, tags, slots, qs)
}

// What is wanted at each point, into the first entries of `out`, or the first refusal.
fn answers(
    wanted: Wanted,
    xs: &[f64],
    curve: Curve,
    tags: &[u16],
    slots: &[f64],
    qs: &[f64],
    out: &mut [f64],
) -> Result<(), ManyRefusal>
    ensures { pair result out.new ≡ many_outcome (figure wanted) xs.now curve tags.now slots.now qs.now out.old }
{
    many_verdict(wanted, xs, curve, tags, slots, qs, out.len())?;
    let knot = xs[0];
    let known = knot == knot;
    fill(known, wanted, xs, curve, tags, slots, qs, out)
}

// The price at each of many points, each as `value` answers it.
pub fn values(
    xs: &[f64],
    curve: Curve,
    tags: &[u16],
    slots: &[f64],
    qs: &[f64],
    out: &mut [f64],
) -> Result<(), ManyRefusal>
    ensures { pair result out.new ≡ many_outcome value xs.now curve tags.now slots.now qs.now out.old }
{
    answers(Wanted::Price, xs, curve, tags, slots, qs, out)
}

// The total up to each of many points, each as `primitive` answers it.
pub fn primitives(
    xs: &[f64],
    curve: Curve,
    tags: &[u16],
    slots: &[f64],
    qs: &[f64],
    out: &mut [f64],
) -> Result<(), ManyRefusal>
    ensures { pair result out.new ≡ many_outcome primitive xs.now curve tags.now slots.now qs.now out.old }
{
    answers(Wanted::Total, xs, curve, tags, slots, qs, out)
}
