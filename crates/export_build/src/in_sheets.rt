// A table built in sheets.
ghost use Rattle.std.specs.Prelude.{None, ◌≡◌, length};
ghost use Rattle.refusal.specs.Refusal.{first};
ghost use Rattle.table.specs.Buffers.{buffers};
ghost use Rattle.curve.specs.Build.{build_tests};
ghost use Rattle.sheets.specs.Cuts.{cuts_fit};
ghost use Rattle.sheets.specs.InSheets.{in_sheets_outcome};
ghost use Rattle.export_build.specs.Building.{across, in_mode};
ghost use Rattle.export_build.specs.Settings.{unknown, method_of};
ghost use Rattle.export_build.specs.Steps.{last_cut};

use crate::building::{last_refusal, no_answer, write_answer};
use crate::settings::method_of;
use curve::build::build_verdict;
use refusal::Refusal;
use sheets::pieces::{build_in_sheets, cuts_fit};
use table::method::ConvexMonotone;

// The first refusal of a table in sheets for buffers of these lengths, where its answers have no room.
fn cut_refusal(
    knots: &[f64],
    averages: &[f64],
    method: ConvexMonotone,
    cuts: &[usize],
    nodes: usize,
    tags: usize,
    slots: usize,
) -> u8
    ensures { result ≡ last_cut (cuts_fit cuts.now (length knots.now)) (first (build_tests knots.now averages.now method None nodes tags slots)) }
{
    if !cuts_fit(cuts, knots.len()) {
        return Refusal::CutsNotInner.number();
    }
    last_refusal(build_verdict(knots, averages, method, None, nodes, tags, slots))
}

// Builds the curve of a table in sheets that end at the cuts, which are inner knots in rising order, counted from 0. All that is returned and written is
// as for `havgrunel_build` with no held period and no seam.
pub fn havgrunel_build_in_sheets(
    knots: &[f64],
    averages: &[f64],
    quadraticity: f64,
    monotonicity: f64,
    positive: bool,
    split: u8,
    cuts: &[usize],
    nodes: &mut [f64],
    tags: &mut [u16],
    slots: &mut [f64],
    sections: &mut [usize],
    tail: &mut [f64],
) -> u8
    ensures { across result nodes.new tags.new slots.new sections.new tail.new ≡ in_mode (unknown split) (buffers nodes.old tags.old slots.old) sections.old tail.old (in_sheets_outcome knots.now averages.now (method_of quadraticity monotonicity positive split) cuts.now (buffers nodes.old tags.old slots.old)) }
{
    if 2 < split {
        return Refusal::SplitUnknown.number();
    }
    let method = method_of(quadraticity, monotonicity, positive, split);
    if no_answer(sections.len(), tail.len()) {
        return cut_refusal(
            knots,
            averages,
            method,
            cuts,
            nodes.len(),
            tags.len(),
            slots.len(),
        );
    }
    let built = build_in_sheets(knots, averages, method, cuts, nodes, tags, slots);
    write_answer(built, sections, tail)
}
