// One section's record: its slots copied out, and what it answers by itself.
ghost use Rattle.std.specs.Prelude.{Err, ◌≡◌, ◌≤◌, length};
ghost use Rattle.numbers.specs.OneOutcome.{pair};
ghost use Rattle.record.specs.Reading.{read_section};
ghost use Rattle.record.specs.Reader.{record_verdict};
ghost use Rattle.refusal.specs.Refusal.{verdict_number, and_then};
ghost use Rattle.export_section.specs.Records.{copied, copy_verdict, copied_by, answered, section_into};

use numbers::SLOTS;
use record::reader::{record_slots, record_verdict};
use record::reading::read_section;
use refusal::Refusal;

// So many numbers, from the start of one slice to the start of another.
pub(crate) fn copy(count: usize, from: &[f64], to: &mut [f64])
    requires { (count ≤ length from.now) × (count ≤ length to.old) }
    ensures { to.new ≡ copied count from.now to.old }
{
    for k in 0..count {
        to[k] = from[k];
    }
}

// The refusal of a copy that has no room: one of the curve's own, or that of a short slice. The first section's number is never past the last.
fn short_refusal(points: usize, slots: &[f64]) -> u8
    ensures { result ≡ verdict_number (and_then (record_verdict points (length slots.now) 0) (Err Refusal.BufferTooShort)) }
{
    match record_verdict(points, slots, 0) {
        Err(refusal) => refusal.number(),
        Ok(()) => Refusal::BufferTooShort.number(),
    }
}

// The slots of section `number` of a curve of `points` points, into the first entries of `into`.
pub fn havgrunel_record(points: usize, slots: &[f64], number: usize, into: &mut [f64]) -> u8
    ensures { pair result into.new ≡ copied_by points slots.now number into.old (copy_verdict points slots.now number into.old) }
{
    if into.len() < SLOTS {
        return short_refusal(points, slots);
    }
    match record_verdict(points, slots, number) {
        Err(refusal) => refusal.number(),
        Ok(()) => {
            copy(SLOTS, record_slots(points, slots, number), into);
            0
        }
    }
}

// What the section of a record answers by itself: its value and its primitive at x, and the node that it ends on, into the first three entries
// of `answer`. All three are what the formulas gave, so the first two entries of `finite` say whether the value is finite, and whether the primitive is.
pub fn havgrunel_section(
    tag: u16,
    slots: &[f64],
    x: f64,
    answer: &mut [f64],
    finite: &mut [bool],
) -> u8
    ensures { answered result answer.new finite.new ≡ section_into (read_section tag slots.now) x answer.old finite.old }
{
    if answer.len() < 3 {
        return Refusal::BufferTooShort.number();
    }
    if finite.len() < 2 {
        return Refusal::BufferTooShort.number();
    }
    match read_section(tag, slots) {
        None => Refusal::RecordNotLegal.number(),
        Some(section) => {
            let value = section.value(x);
            let primitive = section.primitive(x);
            answer[0] = value.number;
            answer[1] = primitive.number;
            answer[2] = section.f_next();
            finite[0] = value.finite;
            finite[1] = primitive.finite;
            0
        }
    }
}
