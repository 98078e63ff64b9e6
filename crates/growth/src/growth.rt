// From one curve to the next: a table that has grown by a point keeps what its sections were.
ghost use Rattle.std.specs.Prelude.{◌≡◌, ◌+◌, ◌-◌, ◌*◌, ◌≤◌, ◌<◌, length};
ghost use Rattle.numbers.specs.Sizes.{slot_count};
ghost use Rattle.table.specs.Buffers.{buffers, outcome};
ghost use Rattle.growth.specs.Growth.{first_window, retained, seam_after, beyond, seam_of, carried_at, grow_outcome};

use curve::build::build;
use curve::curve::Curve;
use numbers::SLOTS;
use record::reading::read_section;
use refusal::Refusal;
use table::ends::Seam;
use table::method::ConvexMonotone;

// Whether a table of so many points lies in the first window: they are localisation + 1.
fn in_first_window(points: usize, localisation: usize) -> bool
    ensures { result ≡ first_window points localisation }
{
    points != 0 && points - 1 == localisation
}

fn is_beyond(sections: usize, tags: usize, slots: usize) -> bool
    ensures { result ≡ beyond sections tags slots }
{
    4095 < sections || tags < sections || slots < SLOTS * sections
}

fn seam_after(count: usize, tags: &[u16], slots: &[f64]) -> Result<Option<Seam>, Refusal>
    requires { (count ≤ 4095) × (count ≤ length tags.now) × (slot_count * count ≤ length slots.now) }
    ensures { result ≡ seam_after count tags.now slots.now }
{
    if count == 0 {
        return Ok(None);
    }
    let last = count - 1;
    let from = SLOTS * last;
    let section = read_section(tags[last], &slots[from..from + SLOTS]).ok_or(
        Refusal::RecordNotLegal,
    )?;
    Ok(Some(Seam {
        count,
        node: section.f_next(),
    }))
}

fn seam_of(curve: Curve, tags: &[u16], slots: &[f64]) -> Result<Option<Seam>, Refusal>
    ensures { result ≡ seam_of curve tags.now slots.now }
{
    let sections = curve.sections;
    if sections == 0 {
        return Err(Refusal::NoPreviousCurve);
    }
    if is_beyond(sections, tags.len(), slots.len()) {
        return Err(Refusal::RecordNotLegal);
    }
    if curve.held {
        return seam_after(sections - 1, tags, slots);
    }
    seam_after(sections, tags, slots)
}

// The seam of a table of so many points, or the refusal that comes before all of its own. The previous curve's tags and slots are lent beside it.
pub fn carry(
    points: usize,
    localisation: usize,
    previous: Option<Curve>,
    tags: &[u16],
    slots: &[f64],
) -> Result<Option<Seam>, Refusal>
    ensures { result ≡ carried_at points localisation previous tags.now slots.now }
{
    if in_first_window(points, localisation) {
        return Ok(None);
    }
    let curve = previous.ok_or(Refusal::NoPreviousCurve)?;
    seam_of(curve, tags, slots)
}

// The next curve of a table that grows by a point at a time, its last period held until there are `final_size` points. In the first window it stands
// alone; past it, the seam is where the sections that are kept of the previous curve ended. A refusal changes no buffer.
pub fn grow(
    xs: &[f64],
    ys: &[f64],
    method: ConvexMonotone,
    localisation: usize,
    final_size: usize,
    previous: Option<Curve>,
    previous_tags: &[u16],
    previous_slots: &[f64],
    nodes: &mut [f64],
    tags: &mut [u16],
    slots: &mut [f64],
) -> Result<Curve, Refusal>
    ensures { outcome result nodes.new tags.new slots.new ≡ grow_outcome xs.now ys.now method localisation final_size previous previous_tags.now previous_slots.now (buffers nodes.old tags.old slots.old) }
{
    let seam = carry(
        xs.len(),
        localisation,
        previous,
        previous_tags,
        previous_slots,
    )?;
    let hold = xs.len() != final_size;
    build(xs, ys, method, hold, seam, nodes, tags, slots)
}
