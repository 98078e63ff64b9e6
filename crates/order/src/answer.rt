// An order answered: its bytes go in, and the text goes into a lent buffer.
ghost use Rattle.std.specs.Prelude.{◌≡◌, [], ◌+◌, ◌-◌, ◌*◌, ◌≤◌, ◌<◌, length};
ghost use Rattle.numbers.specs.OneOutcome.{pair};
ghost use Rattle.numbers.specs.Overlay.{overlay};
ghost use Rattle.table.specs.Buffers.{buffers, outcome};
ghost use Rattle.order.specs.Form.{points, queries, knots, averages};
ghost use Rattle.order.specs.Answer.{line_byte, text_for, ordered, room, answered};

use crate::asking::ask;
use crate::form::Form;
use crate::text::{put_build, put_query};
use curve::build::build;
use curve::curve::Curve;
use numbers::SLOTS;
use refusal::Refusal;
use table::ends::Seam;

// The longest text: a line for the build and 64 for queries.
const LONGEST: usize = 2506;

// The slots of the largest table that an order can have.
const ROOM: usize = 200 * SLOTS;

// A line to each query, from the tenth byte on.
fn put_queries(form: Form, xs: &[f64], curve: Curve, tags: &[u16], slots: &[f64], out: &mut [u8])
    requires { 2506 ≤ length out.old }
    ensures { out.new ≡ overlay 10 (39 * queries form.entry.bytes.now) (line_byte form.entry.bytes.now (20 + 16 * points form.entry.bytes.now) xs.now curve tags.now slots.now) out.old }
{
    let from = 20 + 16 * form.points();
    let count = form.queries();
    for k in 0..count {
        let line = ask(xs, curve, tags, slots, form.float_at(from + 8 * k));
        put_query(out, 10 + 39 * k, line);
    }
}

// The lines of a build that was accepted or refused; answers how long they are.
fn put_answer(
    form: Form,
    xs: &[f64],
    built: Result<Curve, Refusal>,
    tags: &[u16],
    slots: &[f64],
    out: &mut [u8],
) -> usize
    requires { 2506 ≤ length out.old }
    ensures { pair result out.new ≡ text_for form.entry.bytes.now xs.now (outcome built [] tags.now slots.now) out.old }
{
    match built {
        Err(refusal) => {
            put_build(out, u64::from(refusal.number()), 0);
            10
        }
        Ok(curve) => {
            put_build(out, 0, curve.sections as u64);
            let asked = curve.with_extrapolation(form.allow());
            put_queries(form, xs, asked, tags, slots, out);
            10 + 39 * form.queries()
        }
    }
}

// The table of an order, built and asked.
fn answer_table(
    form: Form,
    xs: &[f64],
    ys: &[f64],
    nodes: &mut [f64],
    tags: &mut [u16],
    slots: &mut [f64],
    out: &mut [u8],
) -> usize
    requires { 2506 ≤ length out.old }
    ensures { pair result out.new ≡ text_for form.entry.bytes.now xs.now (ordered form.entry.bytes.now xs.now ys.now (buffers nodes.old tags.old slots.old)) out.old }
{
    let built = build(xs, ys, form.method(), form.hold(), None, nodes, tags, slots);
    put_answer(form, xs, built, tags, slots, out)
}

// The text of a well-formed order, whose table is read first; answers how long it is.
fn answer_form(form: Form, out: &mut [u8]) -> usize
    requires { 2506 ≤ length out.old }
    ensures { pair result out.new ≡ text_for form.entry.bytes.now (knots form.entry.bytes.now) (ordered form.entry.bytes.now (knots form.entry.bytes.now) (averages form.entry.bytes.now) room) out.old }
{
    let points = form.points();
    let mut knots = [0.0; 200];
    let mut averages = [0.0; 200];
    let mut nodes = [0.0; 200];
    let mut tags = [0u16; 200];
    let mut slots = [0.0; ROOM];
    form.read_floats(20, points, &mut knots);
    form.read_floats(20 + 8 * points, points, &mut averages);
    answer_table(
        form,
        &knots[..points],
        &averages[..points],
        &mut nodes,
        &mut tags,
        &mut slots,
        out,
    )
}

// Answers an order. The text is at most 2,506 bytes; a buffer that could not hold the longest is not written to. An order that is not well formed has
// its own text.
pub fn answer(order: &[u8], out: &mut [u8]) -> Result<usize, Refusal>
    ensures { pair result out.new ≡ answered order.now out.old }
{
    if out.len() < LONGEST {
        return Err(Refusal::BufferTooShort);
    }
    match Form::of(order) {
        None => {
            put_build(out, u64::from(Refusal::OrderMalformed.number()), 0);
            Ok(10)
        }
        Some(form) => Ok(answer_form(form, out)),
    }
}
