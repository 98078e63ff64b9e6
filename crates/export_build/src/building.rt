// A table built into a curve.
ghost use Rattle.std.specs.Prelude.{◌≡◌, ◌≤◌, length};
ghost use Rattle.table.specs.Buffers.{buffers};
ghost use Rattle.curve.specs.Build.{build_outcome};
ghost use Rattle.curve.specs.Curve.{curve_in_numbers};
ghost use Rattle.export_build.specs.Building.{seam_of, across, no_answer, count_left, tail_left, in_mode};
ghost use Rattle.export_build.specs.Settings.{unknown, method_of};
ghost use Rattle.export_build.specs.Steps.{last_refusal};

use crate::settings::method_of;
use curve::build::{build, build_verdict};
use curve::curve::Curve;
use refusal::Refusal;
use table::ends::Seam;

// A seam across the boundary: whether there is one, its count and its node.
pub(crate) fn seam_of(seamed: bool, count: usize, node: f64) -> Option<Seam>
    ensures { result ≡ seam_of seamed count node }
{
    seamed.then_some(Seam { count, node })
}

// Whether there is no room for a curve's own numbers: one entry for the count of its sections, three for its tail.
pub(crate) fn no_answer(sections: usize, tail: usize) -> bool
    ensures { result ≡ no_answer sections tail }
{
    sections < 1 || tail < 3
}

// What a check says where an answer's slice is too short: its own refusal, and else that one, which comes last.
pub(crate) fn last_refusal(verdict: Result<(), Refusal>) -> u8
    ensures { result ≡ last_refusal verdict }
{
    match verdict {
        Err(own) => own.number(),
        Ok(()) => Refusal::BufferTooShort.number(),
    }
}

// A curve in numbers, its count and tail written where there is room for them.
pub(crate) fn write_answer(
    built: Result<Curve, Refusal>,
    sections: &mut [usize],
    tail: &mut [f64],
) -> u8
    requires { (1 ≤ length sections.old) × (3 ≤ length tail.old) }
    ensures refusal { result ≡ (curve_in_numbers built).refusal }
    ensures sections { sections.new ≡ count_left built sections.old }
    ensures tail { tail.new ≡ tail_left built tail.old }
{
    match built {
        Err(refusal) => refusal.number(),
        Ok(curve) => {
            sections[0] = curve.sections;
            tail[0] = curve.tail.value;
            tail[1] = curve.tail.total;
            tail[2] = curve.tail.from;
            0
        }
    }
}

// Builds the curve of a table. Nodes, tags and slots are written from the start of the lent buffers, the count of sections into `sections`, and
// its tail (value, total, from) into `tail`.
pub fn havgrunel_build(
    knots: &[f64],
    averages: &[f64],
    quadraticity: f64,
    monotonicity: f64,
    positive: bool,
    split: u8,
    hold: bool,
    seamed: bool,
    seam_count: usize,
    seam_node: f64,
    nodes: &mut [f64],
    tags: &mut [u16],
    slots: &mut [f64],
    sections: &mut [usize],
    tail: &mut [f64],
) -> u8
    ensures { across result nodes.new tags.new slots.new sections.new tail.new ≡ in_mode (unknown split) (buffers nodes.old tags.old slots.old) sections.old tail.old (build_outcome knots.now averages.now (method_of quadraticity monotonicity positive split) hold (seam_of seamed seam_count seam_node) (buffers nodes.old tags.old slots.old)) }
{
    if 2 < split {
        return Refusal::SplitUnknown.number();
    }
    let method = method_of(quadraticity, monotonicity, positive, split);
    let seam = seam_of(seamed, seam_count, seam_node);
    if no_answer(sections.len(), tail.len()) {
        return last_refusal(build_verdict(
            knots,
            averages,
            method,
            seam,
            nodes.len(),
            tags.len(),
            slots.len(),
        ));
    }
    let built = build(knots, averages, method, hold, seam, nodes, tags, slots);
    write_answer(built, sections, tail)
}
