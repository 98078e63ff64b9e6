// Many strips of one curve. The knots are checked once, and nothing is written where any strip is refused.
ghost use Rattle.std.specs.Prelude.{Ok, ◌≡◌, true, ℕ, ◌+◌, ◌≤◌, ◌<◌, length};
ghost use Rattle.numbers.specs.OneOutcome.{pair};
ghost use Rattle.refusal.specs.Refusal.{first};
ghost use Rattle.table.specs.Table.{at};
ghost use Rattle.section.specs.Section.{primitive};
ghost use Rattle.record.specs.Number.{answer_in, or_zero};
ghost use Rattle.query.specs.Query.{curve_tests, covering};
ghost use Rattle.query.specs.Strip.{strips_verdict, strips_after, strips_outcome, pairs_outcome, run_outcome};

use crate::answer::{ManyRefusal, curve_verdict, verdict};
use crate::known::are_priced;
use crate::many::look;
use crate::number::{Wanted, record_number, tail_number};
use crate::place::place_from;
use crate::strip::strip_of;
use curve::curve::Curve;
use record::number::or_zero;
use refusal::Refusal;

// The first refusal of the strips, in their order, by what each is answered. Where each starts at the end of the one before it, that end is asked once.
fn each_verdict(
    xs: &[f64],
    curve: Curve,
    tags: &[u16],
    slots: &[f64],
    starts: &[f64],
    ends: &[f64],
    adjoining: bool,
) -> Result<(), ManyRefusal>
    requires slots_value { (first (curve_tests xs.now (length tags.now) (length slots.now)) ≡ Ok tt) × (length starts.now ≡ length ends.now) }
    requires k_value { adjoining ≡ true → (k : ℕ) → k + 1 < length starts.now → at starts.now (k + 1) ≡ at ends.now k }
    ensures { result ≡ strips_verdict xs.now curve tags.now slots.now (length starts.now) (at starts.now) (at ends.now) }
{
    let mut place: usize = 0;
    let mut before = Err(Refusal::QueryNotANumber);
    for k in 0..starts.len() {
        let start = starts[k];
        let end = ends[k];
        let asked = adjoining && 0 < k;
        if !asked {
            let since = look(false, Wanted::Total, xs, curve, tags, slots, place, start);
            before = since.answer;
            place = since.place;
        }
        let until = look(false, Wanted::Total, xs, curve, tags, slots, place, end);
        if let Err(refusal) = verdict(strip_of(start, end, before, until.answer)) {
            return Err(ManyRefusal::Query(refusal, k));
        }
        before = until.answer;
        place = until.place;
    }
    Ok(())
}

// The same, with no look at each strip where it is known that none is refused.
fn strips_verdict(
    xs: &[f64],
    curve: Curve,
    tags: &[u16],
    slots: &[f64],
    starts: &[f64],
    ends: &[f64],
    adjoining: bool,
) -> Result<(), ManyRefusal>
    requires slots_value { (first (curve_tests xs.now (length tags.now) (length slots.now)) ≡ Ok tt) × (length starts.now ≡ length ends.now) }
    requires k_value { adjoining ≡ true → (k : ℕ) → k + 1 < length starts.now → at starts.now (k + 1) ≡ at ends.now k }
    ensures { result ≡ strips_verdict xs.now curve tags.now slots.now (length starts.now) (at starts.now) (at ends.now) }
{
    if are_priced(xs, curve, tags, slots, starts, ends) {
        return Ok(());
    }
    each_verdict(xs, curve, tags, slots, starts, ends, adjoining)
}

// The total up to a place, and where the section was found that tells it.
#[derive(Clone, Copy)]
struct Total {
    number: f64,
    place: usize,
}

// The total up to q of a curve that passed its tests, +0.0 where its record is not legal, sought from a place that it is likely to be near. The number is
// taken out of the record's answer at once: what is handed on with its mark is copied in bytes, and a strip then takes a ninth longer.
fn total_near(xs: &[f64], curve: Curve, tags: &[u16], slots: &[f64], near: usize, q: f64) -> Total
    requires { (first (curve_tests xs.now (length tags.now) (length slots.now)) ≡ Ok tt) × (near + 1 < length xs.now) }
    ensures number { result.number ≡ or_zero (answer_in (λ s. primitive s q) (covering xs.now curve tags.now slots.now q)) }
    ensures place { result.place + 1 < length xs.now }
{
    let end = xs[xs.len() - 1];
    if end <= q {
        return Total {
            number: tail_number(curve, Wanted::Total, q),
            place: near,
        };
    }
    let place = place_from(xs, q, near);
    let number = or_zero(record_number(Wanted::Total, tags, slots, place, q));
    Total { number, place }
}

// Writes the prices of strips that were not refused, each end found from the place of the one before it.
fn fill(
    xs: &[f64],
    curve: Curve,
    tags: &[u16],
    slots: &[f64],
    starts: &[f64],
    ends: &[f64],
    adjoining: bool,
    out: &mut [f64],
)
    requires slots_value { (first (curve_tests xs.now (length tags.now) (length slots.now)) ≡ Ok tt) × (length starts.now ≡ length ends.now) }
    requires k_value { adjoining ≡ true → (k : ℕ) → k + 1 < length starts.now → at starts.now (k + 1) ≡ at ends.now k }
    requires ends_value { (strips_verdict xs.now curve tags.now slots.now (length starts.now) (at starts.now) (at ends.now) ≡ Ok tt) × (length starts.now ≤ length out.old) }
    ensures { out.new ≡ strips_after xs.now curve tags.now slots.now (length starts.now) (at starts.now) (at ends.now) out.old }
{
    let mut place: usize = 0;
    let mut before: f64 = 0.0;
    for k in 0..starts.len() {
        let a = starts[k];
        let b = ends[k];
        let known = adjoining && 0 < k;
        if !known {
            let from = total_near(xs, curve, tags, slots, place, a);
            before = from.number;
            place = from.place;
        }
        let to = total_near(xs, curve, tags, slots, place, b);
        out[k] = (to.number - before) / (b - a);
        place = to.place;
        before = to.number;
    }
}

// The strips from each start to the end beside it, into the first entries of `out`, or the first refusal. `adjoining` says that each starts where the
// one before it ended.
fn priced(
    xs: &[f64],
    curve: Curve,
    tags: &[u16],
    slots: &[f64],
    starts: &[f64],
    ends: &[f64],
    adjoining: bool,
    out: &mut [f64],
) -> Result<(), ManyRefusal>
    requires starts_len { length starts.now ≡ length ends.now }
    requires k_value { adjoining ≡ true → (k : ℕ) → k + 1 < length starts.now → at starts.now (k + 1) ≡ at ends.now k }
    ensures { pair result out.new ≡ strips_outcome xs.now curve tags.now slots.now (length starts.now) (at starts.now) (at ends.now) out.old }
{
    curve_verdict(xs, tags.len(), slots.len())?;
    if out.len() < starts.len() {
        return Err(ManyRefusal::Whole(Refusal::BufferTooShort));
    }
    strips_verdict(xs, curve, tags, slots, starts, ends, adjoining)?;
    fill(xs, curve, tags, slots, starts, ends, adjoining, out);
    Ok(())
}

// The average price from each start to the end beside it, each as `strip` answers it.
pub fn strips(
    xs: &[f64],
    curve: Curve,
    tags: &[u16],
    slots: &[f64],
    starts: &[f64],
    ends: &[f64],
    out: &mut [f64],
) -> Result<(), ManyRefusal>
    ensures { pair result out.new ≡ pairs_outcome xs.now curve tags.now slots.now starts.now ends.now out.old }
{
    if starts.len() != ends.len() {
        return Err(ManyRefusal::Whole(Refusal::LengthsDiffer));
    }
    priced(xs, curve, tags, slots, starts, ends, false, out)
}

// The average price from each edge to the next, as of the days of a month: each edge is asked once.
pub fn run(
    xs: &[f64],
    curve: Curve,
    tags: &[u16],
    slots: &[f64],
    edges: &[f64],
    out: &mut [f64],
) -> Result<(), ManyRefusal>
    ensures { pair result out.new ≡ run_outcome xs.now curve tags.now slots.now edges.now out.old }
{
    if edges.len() == 0 {
        return priced(xs, curve, tags, slots, edges, edges, true, out);
    }
    let count = edges.len() - 1;
    priced(
        xs,
        curve,
        tags,
        slots,
        &edges[..count],
        &edges[1..],
        true,
        out,
    )
}
