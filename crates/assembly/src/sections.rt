// The sections of a table, and their records in lent buffers.
ghost use Rattle.std.specs.Prelude.{◌≡◌, ◌&&◌, ℕ, ◌+◌, ◌-◌, ◌*◌, ◌≤◌, ◌<◌, eqb, Float, length, get_or, set};
ghost use Rattle.std.specs.Float.{nan};
ghost use Rattle.numbers.specs.Overlay.{overlay};
ghost use Rattle.numbers.specs.Sizes.{field_count, slot_count};
ghost use Rattle.record.specs.Slots.{record_of};
ghost use Rattle.record.specs.Knots.{right_price, total_after};
ghost use Rattle.record.specs.Tag.{tag_of};
ghost use Rattle.section.specs.Section.{value};
ghost use Rattle.table.specs.Buffers.{buffers, outcome};
ghost use Rattle.table.specs.Sound.{Room};
ghost use Rattle.table.specs.Table.{at, node_at, total_at};
ghost use Rattle.assembly.specs.Sections.{section_at, tail_of};
ghost use Rattle.assembly.specs.Making.{tags_after, slots_after, after};

use choice::period::Period;
use numbers::{FIELDS, SLOTS};
use record::knots::{LEFT_PRICE, RIGHT_PRICE, TOTAL_AFTER, knot_prices};
use section::everywhere_constant::EverywhereConstant;
use section::section::Section;
use table::ends::Frame;

// A constant section's three numbers, as a curve keeps them for queries from the last knot on.
#[derive(Clone, Copy)]
pub struct Tail {
    pub value: f64,
    pub total: f64,
    pub from: f64,
}

fn copy(from: [f64; FIELDS], to: &mut [f64], at: usize)
    requires { (at + field_count ≤ length to.old) × (at ≤ slot_count * 4096) }
    ensures { to.new ≡ overlay at field_count (λ k. get_or from k nan) to.old }
{
    for k in 0..FIELDS {
        to[at + k] = from[k];
    }
}

// Writes the record of a period at its place: the section, its price at the two knots, and the total after it. The prices come before the copy: up to
// there the compiler still knows the section's kind from its making, and afterwards it would have to look it up.
fn put(
    section: Section,
    left: f64,
    right: f64,
    total: f64,
    i: usize,
    tags: &mut [u16],
    slots: &mut [f64],
)
    requires { (i < length tags.old) × (slot_count * i + slot_count ≤ length slots.old) × (i < 4096) }
    ensures tags { tags.new ≡ set tags.old i (tag_of section) }
    ensures slots { slots.new ≡ overlay (slot_count * i) slot_count (λ k. get_or (record_of section left right total) k nan) slots.old }
{
    tags[i] = record::tag::tag_of(section);
    let prices = knot_prices(section, left, right);
    let from = SLOTS * i;
    copy(record::slots::slots_of(section), slots, from);
    slots[from + LEFT_PRICE] = prices.left;
    slots[from + RIGHT_PRICE] = prices.right;
    slots[from + TOTAL_AFTER] = total;
}

// Whether the period after knot i is the last one, and held.
fn is_held(hold: bool, points: usize, i: usize) -> bool
    requires { 2 ≤ points }
    ensures { result ≡ (hold && eqb i (points - 2)) }
{
    hold && i == points - 2
}

// The section of period i + 1, with the nodes at hand and the total before it: constant where it is held.
fn section_at(xs: &[f64], ys: &[f64], frame: Frame, nodes: &[f64], i: usize, total: f64) -> Section
    requires i_in_bounds { (i + 1 < length xs.now) × (length xs.now ≡ length ys.now) × (length xs.now ≤ length nodes.now) × (length xs.now ≤ 4096) }
    requires by_index { (k : ℕ) → k < length xs.now → at nodes.now k ≡ node_at xs.now ys.now frame k }
    requires total_value { total ≡ total_at xs.now ys.now frame i }
    ensures { result ≡ section_at xs.now ys.now frame i }
{
    if is_held(frame.hold, xs.len(), i) {
        return Section::EverywhereConstant(EverywhereConstant::new(ys[i + 1], total, xs[i]));
    }
    let period = Period {
        x_prev: xs[i],
        x_next: xs[i + 1],
        f_prev: nodes[i],
        f_next: nodes[i + 1],
        f_average: ys[i + 1],
        prev_primitive: total,
    };
    choice::section_of(frame.method, period)
}

// Writes the record of every section; answers the total before the last period. The one place where a section is made and written: the compiler then
// takes both into the loop, and a section goes from its formulas straight into its slots. A second place would have it copied, which takes half as long again;
// so would a variable that holds the section, by a tenth.
fn put_sections(
    xs: &[f64],
    ys: &[f64],
    frame: Frame,
    nodes: &[f64],
    tags: &mut [u16],
    slots: &mut [f64],
) -> f64
    requires in_bounds { (2 ≤ length xs.now) × (length xs.now ≡ length ys.now) × Room (length xs.now) (length nodes.now) (length tags.old) (length slots.old) }
    requires by_index { (k : ℕ) → k < length xs.now → at nodes.now k ≡ node_at xs.now ys.now frame k }
    ensures total { result ≡ total_at xs.now ys.now frame (length xs.now - 2) }
    ensures tags { tags.new ≡ tags_after 0 xs.now ys.now frame tags.old }
    ensures slots { slots.new ≡ slots_after 0 xs.now ys.now frame slots.old }
{
    let count = xs.len() - 1;
    let mut total = frame.start;
    let mut before = total;
    for i in 0..count {
        let left = xs[i];
        let right = xs[i + 1];
        let next = total + ys[i + 1] * (right - left);
        put(
            section_at(xs, ys, frame, nodes, i, total),
            left,
            right,
            next,
            i,
            tags,
            slots,
        );
        before = total;
        total = next;
    }
    before
}

// The tail. Where the last period is shaped, its price and its total there are those of its record.
fn tail_of(xs: &[f64], ys: &[f64], frame: Frame, slots: &[f64], total: f64) -> Tail
    requires in_bounds { (2 ≤ length xs.now) × (length xs.now ≡ length ys.now) × (length xs.now ≤ 4096) }
    requires xs_in_bounds { slot_count * (length xs.now - 1) ≤ length slots.now }
    requires right_price_value { at slots.now (slot_count * (length xs.now - 2) + right_price) ≡ value (section_at xs.now ys.now frame (length xs.now - 2)) (at xs.now (length xs.now - 2 + 1)) }
    requires total_after_value { at slots.now (slot_count * (length xs.now - 2) + total_after) ≡ total_at xs.now ys.now frame (length xs.now - 2 + 1) }
    requires total_value { total ≡ total_at xs.now ys.now frame (length xs.now - 2) }
    ensures { result ≡ tail_of xs.now ys.now frame }
{
    let i = xs.len() - 2;
    if frame.hold {
        return Tail {
            value: ys[i + 1],
            total,
            from: xs[i],
        };
    }
    let end = xs[i + 1];
    let from = SLOTS * i;
    Tail {
        value: slots[from + RIGHT_PRICE],
        total: slots[from + TOTAL_AFTER],
        from: end,
    }
}

// Nodes, tags and slots of a table that has passed its checks; answers the tail.
pub(crate) fn put_all(
    xs: &[f64],
    ys: &[f64],
    frame: Frame,
    nodes: &mut [f64],
    tags: &mut [u16],
    slots: &mut [f64],
) -> Tail
    requires { (2 ≤ length xs.now) × (length xs.now ≡ length ys.now) × Room (length xs.now) (length nodes.old) (length tags.old) (length slots.old) }
    ensures { outcome result nodes.new tags.new slots.new ≡ record { answer = tail_of xs.now ys.now frame; buffers = after 0 xs.now ys.now frame (buffers nodes.old tags.old slots.old) } }
{
    crate::nodes::fill(xs, ys, frame, nodes);
    let total = put_sections(xs, ys, frame, nodes, tags, slots);
    tail_of(xs, ys, frame, slots, total)
}
