// A curve grown from the one before it.
ghost use Rattle.std.specs.Prelude.{◌≡◌, length};
ghost use Rattle.refusal.specs.Refusal.{first};
ghost use Rattle.table.specs.Buffers.{buffers};
ghost use Rattle.curve.specs.Build.{build_tests};
ghost use Rattle.growth.specs.Growth.{carried_at, grow_outcome};
ghost use Rattle.export_build.specs.Building.{across, in_mode};
ghost use Rattle.export_build.specs.Growing.{previous_of};
ghost use Rattle.export_build.specs.Settings.{unknown, method_of};
ghost use Rattle.export_build.specs.Steps.{last_growth};

use crate::building::{last_refusal, no_answer, write_answer};
use crate::settings::method_of;
use assembly::sections::Tail;
use curve::build::build_verdict;
use curve::curve::Curve;
use growth::growth::{carry, grow};
use refusal::Refusal;
use table::method::ConvexMonotone;

// What growth reads of the previous curve beside its records. It asks for no price, so the tail is not needed.
pub(crate) fn previous_of(given: bool, sections: usize, held: bool) -> Option<Curve>
    ensures { result ≡ previous_of given sections held }
{
    let tail = Tail {
        value: 0.0,
        total: 0.0,
        from: 0.0,
    };
    given.then_some(Curve {
        sections,
        held,
        extrapolates: false,
        tail,
    })
}

// The first refusal of a growing table for buffers of these lengths, where its answers have no room.
pub(crate) fn refusal_of(
    knots: &[f64],
    averages: &[f64],
    method: ConvexMonotone,
    localisation: usize,
    previous: Option<Curve>,
    previous_tags: &[u16],
    previous_slots: &[f64],
    nodes: usize,
    tags: usize,
    slots: usize,
) -> u8
    ensures { result ≡ last_growth (carried_at (length knots.now) localisation previous previous_tags.now previous_slots.now) (λ s. first (build_tests knots.now averages.now method s nodes tags slots)) }
{
    match carry(
        knots.len(),
        localisation,
        previous,
        previous_tags,
        previous_slots,
    ) {
        Err(refusal) => refusal.number(),
        Ok(seam) => {
            last_refusal(build_verdict(knots, averages, method, seam, nodes, tags, slots))
        }
    }
}

// Builds the next curve of a table that grows. `grown` says whether there is a previous curve; `previous_sections` and `previous_held` are its count
// of sections and whether its last period was held.
pub fn havgrunel_grow(
    knots: &[f64],
    averages: &[f64],
    quadraticity: f64,
    monotonicity: f64,
    positive: bool,
    split: u8,
    localisation: usize,
    final_size: usize,
    grown: bool,
    previous_sections: usize,
    previous_held: bool,
    previous_tags: &[u16],
    previous_slots: &[f64],
    nodes: &mut [f64],
    tags: &mut [u16],
    slots: &mut [f64],
    sections: &mut [usize],
    tail: &mut [f64],
) -> u8
    ensures { across result nodes.new tags.new slots.new sections.new tail.new ≡ in_mode (unknown split) (buffers nodes.old tags.old slots.old) sections.old tail.old (grow_outcome knots.now averages.now (method_of quadraticity monotonicity positive split) localisation final_size (previous_of grown previous_sections previous_held) previous_tags.now previous_slots.now (buffers nodes.old tags.old slots.old)) }
{
    if 2 < split {
        return Refusal::SplitUnknown.number();
    }
    let method = method_of(quadraticity, monotonicity, positive, split);
    let previous = previous_of(grown, previous_sections, previous_held);
    if no_answer(sections.len(), tail.len()) {
        return refusal_of(
            knots,
            averages,
            method,
            localisation,
            previous,
            previous_tags,
            previous_slots,
            nodes.len(),
            tags.len(),
            slots.len(),
        );
    }
    let built = grow(
        knots,
        averages,
        method,
        localisation,
        final_size,
        previous,
        previous_tags,
        previous_slots,
        nodes,
        tags,
        slots,
    );
    write_answer(built, sections, tail)
}
