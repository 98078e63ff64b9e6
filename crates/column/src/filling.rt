// The column of a curve just built. In a table of ordinary size a section gives back, at its own left knot, the total before it, which the record before it
// holds, unless a split of it is unusual: so most entries are read, and few are worked out.
ghost use Rattle.std.specs.Prelude.{◌≡◌, cond, ℕ, ◌+◌, ◌-◌, ◌*◌, ◌≤◌, ◌<◌, length, get_or};
ghost use Rattle.numbers.specs.Every.{all_below};
ghost use Rattle.numbers.specs.Overlay.{overlay};
ghost use Rattle.numbers.specs.Sizes.{slot_count};
ghost use Rattle.choice.specs.Starts.{mixing};
ghost use Rattle.assembly.specs.Starts.{price_modest, seam_modest, period_modest};
ghost use Rattle.column.specs.Column.{column_at};
ghost use Rattle.column.specs.Steps.{modest_table, readable, JustBuilt, weighed_by, total_before, start_by, number_at, entry_by, entry_at, Listed, Within, Asked};

use curve::curve::Curve;
use numbers::{SLOTS, is_finite};
use record::knots::TOTAL_AFTER;
use record::number::{or_zero, primitive_in};
use record::tag::is_split;
use record::unusual::is_unusual;
use section::everywhere_constant::EverywhereConstant;
use table::ends::Seam;
use table::method::ConvexMonotone;

// How many sections are listed at a time.
const BLOCK: usize = 64;

// What is ordinary: 2 ^ 398, 2 ^ -400, 2 ^ 150 and 1 - 2 ^ -20.
const FARTHEST_KNOT: f64 = 6.455624695217272e119;

const SHORTEST: f64 = 3.8725919148493183e-121;

const HIGHEST: f64 = 1.42724769270596e45;

const ALMOST_ONE: f64 = 0.9999990463256836;

fn is_modest_price(y: f64) -> bool
    ensures { result ≡ price_modest y }
{
    (-HIGHEST <= y) & (y <= HIGHEST)
}

fn is_modest_seam(seam: Option<Seam>) -> bool
    ensures { result ≡ seam_modest seam }
{
    match seam {
        None => true,
        Some(seam) => is_modest_price(seam.node),
    }
}

// Whether the average and the length of period i are ordinary.
fn is_modest_period(xs: &[f64], ys: &[f64], i: usize) -> bool
    requires { (i + 1 < length xs.now) × (i + 1 < length ys.now) }
    ensures { result ≡ period_modest xs.now ys.now i }
{
    let long = SHORTEST <= xs[i + 1] - xs[i];
    is_modest_price(ys[i + 1]) & long
}

// No test leaves this loop early, and it goes two periods at a time. The flags are floats, 0.0 as long as every period was ordinary: with these, and not with
// bools, the compiler makes each test of both periods at once.
#[inline(always)]
fn are_modest_periods(xs: &[f64], ys: &[f64], periods: usize) -> bool
    requires { (periods + 1 ≤ length xs.now) × (periods + 1 ≤ length ys.now) × (periods ≤ 4096) }
    ensures { result ≡ all_below periods (period_modest xs.now ys.now) }
{
    let mut even = 0.0;
    let mut odd = 0.0;
    for k in 0..periods / 2 {
        if !is_modest_period(xs, ys, 2 * k) {
            even = 1.0;
        }
        if !is_modest_period(xs, ys, 2 * k + 1) {
            odd = 1.0;
        }
    }
    let modest = (even == 0.0) & (odd == 0.0);
    let paired = 2 * (periods / 2);
    if paired == periods {
        return modest;
    }
    is_modest_period(xs, ys, paired) & modest
}

// Whether a table is of ordinary size.
#[inline(always)]
fn is_modest(xs: &[f64], ys: &[f64], method: ConvexMonotone, seam: Option<Seam>) -> bool
    requires { (2 ≤ length xs.now) × (length xs.now ≡ length ys.now) × (length xs.now ≤ 4096) }
    ensures { result ≡ modest_table xs.now ys.now method seam }
{
    let last = xs.len() - 1;
    let knots = (-FARTHEST_KNOT <= xs[0]) & (xs[last] <= FARTHEST_KNOT);
    let bend = method.monotonicity;
    let settings = (0.0 <= bend) & (bend <= ALMOST_ONE);
    let seamed = is_modest_seam(seam);
    knots & (settings & (seamed & are_modest_periods(xs, ys, last)))
}

// Whether the entries can be read off the records: the table is of ordinary size, and the total after its last period, and so every total, is finite.
#[inline(always)]
fn is_readable(
    xs: &[f64],
    ys: &[f64],
    method: ConvexMonotone,
    seam: Option<Seam>,
    slots: &[f64],
) -> bool
    requires { (2 ≤ length xs.now) × (length xs.now ≡ length ys.now) × (length xs.now ≤ 4096) × (slot_count * (length xs.now - 1) ≤ length slots.now) }
    ensures { result ≡ readable xs.now ys.now method seam slots.now }
{
    let from = SLOTS * (xs.len() - 2);
    let counted = is_finite(slots[from + TOTAL_AFTER]);
    is_modest(xs, ys, method, seam) & counted
}

// Whether these settings make sections of two parts.
fn is_mixing(method: ConvexMonotone) -> bool
    ensures { result ≡ mixing method }
{
    (0.0 < method.quadraticity) & (method.quadraticity < 1.0)
}

// What a section starts from: of two parts the total weighed against itself, which rounds. The weight of one part alone is 1.0 or 0.0, and that leaves a finite
// total as it is; so no branch asks how many parts there are, which no processor could foresee.
fn start_of(mixing: bool, weight: f64, total: f64) -> f64
    ensures { result ≡ cond mixing (weighed_by weight total) total }
{
    if mixing {
        return weight * total + (1.0 - weight) * total;
    }
    total
}

// The total before section i.
fn total_before(slots: &[f64], i: usize) -> f64
    requires { (slot_count * i ≤ length slots.now) × (i ≤ 4096) }
    ensures { result ≡ total_before slots.now i }
{
    if i == 0 {
        return 0.0;
    }
    slots[SLOTS * (i - 1) + TOTAL_AFTER]
}

// The entries of the sections from `from` to `to`, as they are without an unusual split. Each total is carried from the record before.
fn fill_starts(mixing: bool, slots: &[f64], from: usize, to: usize, column: &mut [f64])
    requires { (from ≤ to) × (slot_count * to ≤ length slots.now) × (to ≤ length column.old) × (to ≤ 4096) }
    ensures { column.new ≡ overlay from (to - from) (λ k. start_by mixing slots.now (from + k)) column.old }
{
    let mut total = total_before(slots, from);
    for i in from..to {
        let start = SLOTS * i;
        column[i] = start_of(mixing, slots[start], total);
        total = slots[start + TOTAL_AFTER];
    }
}

// Lists the split ones of the sections from `from` to `to`, and answers how many they are. Each place is written, and counted only where its section is
// split: the compiler adds the flag, so no branch depends on the tag.
fn list_splits(tags: &[u16], from: usize, to: usize, places: &mut [u16; BLOCK]) -> usize
    requires { (from ≤ to) × (to ≤ from + 64) × (to ≤ length tags.now) × (to ≤ 4096) × (length places.old ≡ 64) }
    ensures { Listed tags.now from to places.new result }
{
    let mut count = 0;
    for i in from..to {
        places[count] = i as u16;
        if is_split(tags[i]) {
            count += 1;
        }
    }
    count
}

// Asks those of the listed sections whose split is unusual for their own number; the other entries stay.
fn ask_listed(
    xs: &[f64],
    tags: &[u16],
    slots: &[f64],
    places: &[u16; BLOCK],
    count: usize,
    column: &mut [f64],
)
    requires { (count ≤ 64) × ((k : ℕ) → k < count → Within (length xs.now) (length tags.now) (length slots.now) (length column.old) (get_or places.now k 0)) }
    ensures { Asked xs.now tags.now slots.now places.now count column.old column.new }
{
    for k in 0..count {
        let i = places[k] as usize;
        let tag = tags[i];
        let from = SLOTS * i;
        if is_unusual(tag, &slots[from..from + SLOTS], xs[i]) {
            column[i] = or_zero(primitive_in(tag, &slots[from..from + SLOTS], xs[i]));
        }
    }
}

// The entries of one block. Without positivity no section is split.
fn fill_block(
    xs: &[f64],
    mixing: bool,
    positive: bool,
    tags: &[u16],
    slots: &[f64],
    from: usize,
    to: usize,
    column: &mut [f64],
)
    requires { (from ≤ to) × (to ≤ from + 64) × (to ≤ length xs.now) × (to ≤ length tags.now) × (slot_count * to ≤ length slots.now) × (to ≤ length column.old) × (to ≤ 4096) }
    ensures { column.new ≡ overlay from (to - from) (λ k. entry_by mixing positive xs.now tags.now slots.now (from + k)) column.old }
{
    fill_starts(mixing, slots, from, to, column);
    if !positive {
        return;
    }
    let mut places = [0; BLOCK];
    let count = list_splits(tags, from, to, &mut places);
    ask_listed(xs, tags, slots, &places, count, column);
}

// The entries of all sections, block after block. The last block comes first: its records were written last, and are nearest at hand.
#[inline(always)]
fn fill_sections(
    xs: &[f64],
    method: ConvexMonotone,
    tags: &[u16],
    slots: &[f64],
    sections: usize,
    column: &mut [f64],
)
    requires { (sections ≤ length xs.now) × (sections ≤ length tags.now) × (slot_count * sections ≤ length slots.now) × (sections ≤ length column.old) × (sections ≤ 4096) }
    ensures { column.new ≡ overlay 0 sections (entry_at method xs.now tags.now slots.now) column.old }
{
    let mixing = is_mixing(method);
    let positive = method.force_positive;
    let mut to = sections;
    while 0 < to {
        let mut from = 0;
        if to > BLOCK {
            from = to - BLOCK;
        }
        fill_block(xs, mixing, positive, tags, slots, from, to, column);
        to = from;
    }
}

// The same entries where they can't be read off the records: each section is asked for its own number, which stands by its bits, finite or not.
fn ask_sections(xs: &[f64], tags: &[u16], slots: &[f64], sections: usize, column: &mut [f64])
    requires { (sections ≤ length xs.now) × (sections ≤ length tags.now) × (slot_count * sections ≤ length slots.now) × (sections ≤ length column.old) × (sections ≤ 4096) }
    ensures { column.new ≡ overlay 0 sections (number_at xs.now tags.now slots.now) column.old }
{
    for i in 0..sections {
        let from = SLOTS * i;
        let answer = primitive_in(tags[i], &slots[from..from + SLOTS], xs[i]);
        column[i] = or_zero(answer);
    }
}

// Writes the column of a curve that was just built of this table. At the last knot the tail answers.
#[inline(always)]
pub(crate) fn fill(
    xs: &[f64],
    ys: &[f64],
    method: ConvexMonotone,
    seam: Option<Seam>,
    curve: Curve,
    tags: &[u16],
    slots: &[f64],
    column: &mut [f64],
)
    requires xs_in_bounds { length xs.now ≤ length column.old }
    requires just_built { JustBuilt xs.now ys.now method seam curve tags.now slots.now }
    ensures { column.new ≡ overlay 0 (length xs.now) (column_at xs.now curve tags.now slots.now) column.old }
{
    let last = xs.len() - 1;
    if is_readable(xs, ys, method, seam, slots) {
        fill_sections(xs, method, tags, slots, last, column);
    } else {
        ask_sections(xs, tags, slots, last, column);
    }
    let tail = curve.tail;
    let constant = EverywhereConstant::new(tail.value, tail.total, tail.from);
    column[last] = constant.primitive(xs[last]);
}
