// A table made into records, wherever its sizes and the lent buffers allow it.
ghost use Rattle.std.specs.Prelude.{◌≡◌};
ghost use Rattle.refusal.specs.Refusal.{first};
ghost use Rattle.table.specs.Buffers.{buffers, outcome};
ghost use Rattle.assembly.specs.Making.{size_tests, size_verdict, made_from};

use crate::sections::{Tail, put_all};
use refusal::Refusal;
use table::check::room_verdict;
use table::ends::Frame;

fn size_verdict(
    points: usize,
    averages: usize,
    nodes: usize,
    tags: usize,
    slots: usize,
) -> Result<(), Refusal>
    ensures { result ≡ first (size_tests points averages nodes tags slots) }
{
    if points != averages {
        return Err(Refusal::LengthsDiffer);
    }
    if points < 2 {
        return Err(Refusal::TooFewPoints);
    }
    room_verdict(points, nodes, tags, slots)
}

// Nodes, tags and slots of a table, from the start of the lent buffers. Only sizes are asked about here: what the numbers must be like is for the
// caller to ask first, and any numbers give what the formulas give. The answer is the tail.
pub fn make(
    xs: &[f64],
    ys: &[f64],
    frame: Frame,
    nodes: &mut [f64],
    tags: &mut [u16],
    slots: &mut [f64],
) -> Result<Tail, Refusal>
    ensures { outcome result nodes.new tags.new slots.new ≡ made_from 0 xs.now ys.now frame (size_verdict xs.now ys.now (buffers nodes.old tags.old slots.old)) (buffers nodes.old tags.old slots.old) }
{
    size_verdict(xs.len(), ys.len(), nodes.len(), tags.len(), slots.len())?;
    Ok(put_all(xs, ys, frame, nodes, tags, slots))
}
