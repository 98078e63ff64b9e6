// What is known of many queries without an answer to each. A curve of ordinary size answers every point of ordinary size with a finite number, so only the
// points are left to be looked at, without a branch. What is not known so is found out query by query.
ghost use Rattle.std.specs.Prelude.{Ok, ◌≡◌, true, ◌+◌, ◌-◌, ◌*◌, ◌≤◌, ◌<◌, Float, length};
ghost use Rattle.numbers.specs.Every.{all_below};
ghost use Rattle.numbers.specs.Sizes.{slot_count};
ghost use Rattle.refusal.specs.Refusal.{first};
ghost use Rattle.table.specs.Table.{at};
ghost use Rattle.query.specs.declared.number.Wanted.{Wanted};
ghost use Rattle.query.specs.Query.{curve_tests};
ghost use Rattle.query.specs.Many.{queries_verdict};
ghost use Rattle.query.specs.Steps.{figure, ordinary_at, ordinary_tail, ordinary_curve, lowest, highest, between, apart};
ghost use Rattle.query.specs.Strip.{strips_verdict};

use curve::curve::Curve;
use numbers::{MOST_SIZE, SLOTS, is_ordinary_divisor, is_ordinary_size};
use record::legality::legal_in;
use record::ordinary::is_ordinary;

fn is_ordinary_at(tags: &[u16], slots: &[f64], i: usize) -> bool
    requires { (i < length tags.now) × (slot_count * i + slot_count ≤ length slots.now) × (i < 4096) }
    ensures { result ≡ ordinary_at tags.now slots.now i }
{
    let tag = tags[i];
    let from = SLOTS * i;
    let record = &slots[from..from + SLOTS];
    legal_in(tag, record) & is_ordinary(tag, record)
}

fn are_ordinary(tags: &[u16], slots: &[f64], sections: usize) -> bool
    requires { (sections ≤ length tags.now) × (slot_count * sections ≤ length slots.now) × (sections ≤ 4096) }
    ensures { result ≡ all_below sections (ordinary_at tags.now slots.now) }
{
    for i in 0..sections {
        if !is_ordinary_at(tags, slots, i) {
            return false;
        }
    }
    true
}

fn is_ordinary_tail(curve: Curve) -> bool
    ensures { result ≡ ordinary_tail curve }
{
    let tail = curve.tail;
    is_ordinary_size(tail.value) & (is_ordinary_size(tail.total) & is_ordinary_size(tail.from))
}

// The least and the greatest point that is answered: those of the knots, or of ordinary size where points outside the knots are allowed.
fn lowest(xs: &[f64], curve: Curve) -> f64
    requires { 2 ≤ length xs.now }
    ensures { result ≡ lowest xs.now curve }
{
    if curve.extrapolates {
        return -MOST_SIZE;
    }
    xs[0]
}

fn highest(xs: &[f64], curve: Curve) -> f64
    requires { 2 ≤ length xs.now }
    ensures { result ≡ highest xs.now curve }
{
    if curve.extrapolates {
        return MOST_SIZE;
    }
    xs[xs.len() - 1]
}

// Whether each lies from the one to the other.
fn are_between(qs: &[f64], low: f64, high: f64) -> bool
    ensures { result ≡ all_below (length qs.now) (λ i. between low high (at qs.now i)) }
{
    let mut all = true;
    for i in 0..qs.len() {
        let q = qs[i];
        all = ((low <= q) & (q <= high)) & all;
    }
    all
}

// Whether each start lies before its end, and not next to it.
fn are_apart(starts: &[f64], ends: &[f64]) -> bool
    requires { length starts.now ≡ length ends.now }
    ensures { result ≡ all_below (length starts.now) (λ k. apart (at starts.now k) (at ends.now k)) }
{
    let mut all = true;
    for k in 0..starts.len() {
        let a = starts[k];
        let b = ends[k];
        all = ((a < b) & is_ordinary_divisor(b - a)) & all;
    }
    all
}

fn is_ordinary_curve(xs: &[f64], curve: Curve, tags: &[u16], slots: &[f64]) -> bool
    requires { first (curve_tests xs.now (length tags.now) (length slots.now)) ≡ Ok tt }
    ensures { result ≡ ordinary_curve xs.now curve tags.now slots.now }
{
    if !is_ordinary_size(lowest(xs, curve)) {
        return false;
    }
    if !is_ordinary_size(highest(xs, curve)) {
        return false;
    }
    if !is_ordinary_tail(curve) {
        return false;
    }
    are_ordinary(tags, slots, xs.len() - 1)
}

// Whether it is known that no query is refused. With fewer queries than knots, answering each is less work than looking at every record.
pub(crate) fn are_answered(
    xs: &[f64],
    curve: Curve,
    tags: &[u16],
    slots: &[f64],
    qs: &[f64],
) -> bool
    requires { first (curve_tests xs.now (length tags.now) (length slots.now)) ≡ Ok tt }
    ensures { result ≡ true → (w : Wanted) → queries_verdict (figure w) xs.now curve tags.now slots.now qs.now ≡ Ok tt }
{
    if qs.len() < xs.len() {
        return false;
    }
    if !are_between(qs, lowest(xs, curve), highest(xs, curve)) {
        return false;
    }
    is_ordinary_curve(xs, curve, tags, slots)
}

// The same of strips.
pub(crate) fn are_priced(
    xs: &[f64],
    curve: Curve,
    tags: &[u16],
    slots: &[f64],
    starts: &[f64],
    ends: &[f64],
) -> bool
    requires { (first (curve_tests xs.now (length tags.now) (length slots.now)) ≡ Ok tt) × (length starts.now ≡ length ends.now) }
    ensures { result ≡ true → strips_verdict xs.now curve tags.now slots.now (length starts.now) (at starts.now) (at ends.now) ≡ Ok tt }
{
    if starts.len() < xs.len() {
        return false;
    }
    let low = lowest(xs, curve);
    let high = highest(xs, curve);
    if !are_between(starts, low, high) {
        return false;
    }
    if !are_between(ends, low, high) {
        return false;
    }
    if !are_apart(starts, ends) {
        return false;
    }
    is_ordinary_curve(xs, curve, tags, slots)
}
