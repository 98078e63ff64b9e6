// One sheet of a table.
ghost use Rattle.std.specs.Prelude.{◌≡◌, ◌-◌, ◌*◌, ◌≤◌, length};
ghost use Rattle.numbers.specs.Sizes.{slot_count};
ghost use Rattle.refusal.specs.Refusal.{first};
ghost use Rattle.table.specs.Buffers.{buffers, outcome};
ghost use Rattle.assembly.specs.Making.{made_from};
ghost use Rattle.sheets.specs.Sheet.{none_given, numbers_tests, sheet_tests, no_tail, end_of, sheet_outcome, sheet_in_numbers};
ghost use Rattle.sheets.specs.Steps.{reaches, part_verdict};

use assembly::making::make;
use assembly::sections::Tail;
use numbers::SLOTS;
use refusal::Refusal;
use table::check::{average_below, room_verdict, table_verdict};
use table::ends::Frame;
use table::method::ConvexMonotone;

// The total after a sheet's last section, and the tail: three +0.0 where another sheet goes on from there.
#[derive(Clone, Copy)]
pub struct SheetEnd {
    pub total: f64,
    pub tail: Tail,
}

// The answer of a sheet in numbers: the refusal's, or 0, and what a sheet has; a refused one has nothing.
#[derive(Clone, Copy)]
pub struct SheetInNumbers {
    pub refusal: u8,
    pub total: f64,
    pub tail: Tail,
}

pub(crate) fn no_tail() -> Tail
    ensures { result ≡ no_tail }
{
    Tail {
        value: 0.0,
        total: 0.0,
        from: 0.0,
    }
}

impl From<Result<SheetEnd, Refusal>> for SheetInNumbers {
    ghost from_gives = { λ built n. n ≡ sheet_in_numbers built };

    fn from(built: Result<SheetEnd, Refusal>) -> Self {
        match built {
            Ok(end) => SheetInNumbers {
                refusal: 0,
                total: end.total,
                tail: end.tail,
            },
            Err(refusal) => SheetInNumbers {
                refusal: refusal.number(),
                total: 0.0,
                tail: no_tail(),
            },
        }
    }
}

fn none_given(left: Option<f64>, right: Option<f64>) -> bool
    ensures { result ≡ none_given left right }
{
    left.is_none() && right.is_none()
}

// Refusals 16, 1 to 7 and 29.
fn numbers_verdict(
    xs: &[f64],
    ys: &[f64],
    method: ConvexMonotone,
    left: Option<f64>,
    right: Option<f64>,
) -> Result<(), Refusal>
    ensures { result ≡ first (numbers_tests xs.now ys.now method left right) }
{
    if none_given(left, right) {
        return Err(Refusal::NoGivenNode);
    }
    table_verdict(xs, ys, method)?;
    if average_below(ys, method) {
        return Err(Refusal::AverageBelowZero);
    }
    Ok(())
}

// The slots that are left from a place on, computed without a product that could wrap.
fn slots_from(slots: usize, place: usize) -> usize
    ensures { result ≡ slots - slot_count * place }
{
    if slots / SLOTS < place {
        return 0;
    }
    slots - SLOTS * place
}

// The first refusal of a sheet, for the whole's buffers of these lengths.
pub fn sheet_verdict(
    xs: &[f64],
    ys: &[f64],
    method: ConvexMonotone,
    left: Option<f64>,
    right: Option<f64>,
    place: usize,
    nodes: usize,
    tags: usize,
    slots: usize,
) -> Result<(), Refusal>
    ensures { result ≡ first (sheet_tests xs.now ys.now method left right place nodes tags slots) }
{
    numbers_verdict(xs, ys, method, left, right)?;
    let nodes_left = nodes.saturating_sub(place);
    let tags_left = tags.saturating_sub(place);
    let slots_left = slots_from(slots, place);
    room_verdict(xs.len(), nodes_left, tags_left, slots_left)
}

// Whether a place lies within the lent buffers, computed without a product that could wrap.
fn reaches(place: usize, nodes: usize, tags: usize, slots: usize) -> bool
    ensures { result ≡ reaches place nodes tags slots }
{
    place <= nodes && place <= tags && place <= slots / SLOTS
}

// Makes a table into the parts of the buffers that start at a place.
fn make_from(
    place: usize,
    xs: &[f64],
    ys: &[f64],
    frame: Frame,
    nodes: &mut [f64],
    tags: &mut [u16],
    slots: &mut [f64],
) -> Result<Tail, Refusal>
    requires { (place ≤ length nodes.old) × (place ≤ length tags.old) × (slot_count * place ≤ length slots.old) }
    ensures { outcome result nodes.new tags.new slots.new ≡ made_from place xs.now ys.now frame (part_verdict place xs.now ys.now (buffers nodes.old tags.old slots.old)) (buffers nodes.old tags.old slots.old) }
{
    let from = SLOTS * place;
    make(
        xs,
        ys,
        frame,
        &mut nodes[place..],
        &mut tags[place..],
        &mut slots[from..],
    )
}

fn end_of(right: Option<f64>, tail: Tail) -> SheetEnd
    ensures { result ≡ end_of right tail }
{
    SheetEnd {
        total: tail.total,
        tail: if right.is_some() { no_tail() } else { tail },
    }
}

// The sections of a part of a table. A given node stands in for the one at its end, as it is; the totals go on from `start`; nodes and records are
// written from `place` on. A refusal changes no buffer.
pub fn sheet(
    xs: &[f64],
    ys: &[f64],
    method: ConvexMonotone,
    left: Option<f64>,
    right: Option<f64>,
    start: f64,
    place: usize,
    nodes: &mut [f64],
    tags: &mut [u16],
    slots: &mut [f64],
) -> Result<SheetEnd, Refusal>
    ensures { outcome result nodes.new tags.new slots.new ≡ sheet_outcome xs.now ys.now method left right start place (buffers nodes.old tags.old slots.old) }
{
    numbers_verdict(xs, ys, method, left, right)?;
    if 4096 < xs.len() {
        return Err(Refusal::TooManyPoints);
    }
    if !reaches(place, nodes.len(), tags.len(), slots.len()) {
        return Err(Refusal::BufferTooShort);
    }
    let frame = Frame {
        method,
        hold: false,
        seam: None,
        left,
        right,
        start,
    };
    let tail = make_from(place, xs, ys, frame, nodes, tags, slots)?;
    Ok(end_of(right, tail))
}
