// The lines that tell a curve: `b`, a `t` and a `k` to each section, `e`, `n` and `u`, and then `a` for what it answers.
use crate::kept::{Kept, Outcome};
use crate::marks::{Told, same_bits};
use crate::records;
use curve::curve::Curve;
use query::single::{primitive, value};
use record::knots::LEFT_PRICE;
use record::reader::record_slots;

// A line `b REFUSAL SECTIONS`: whether the build or growth went as it tells.
pub(crate) fn went(outcome: Outcome, refusal: u64, sections: u64) -> bool {
    match outcome {
        Err(number) => number == refusal && sections == 0,
        Ok(made) => refusal == 0 && made.sections as u64 == sections,
    }
}

// The slots of the record at a place.
fn slots_at(kept: &Kept, at: usize) -> &[f64] {
    record_slots(kept.knots.as_slice().len(), &kept.lent.slots, at)
}

// A line `t TAG SLOT0 .. SLOT23 FNEXT`: whether the section of the record at a place is as it tells.
pub(crate) fn record_agrees(kept: &Kept, at: usize, words: &[u64; records::WORDS]) -> bool {
    match kept.lent.tags.get(at) {
        None => false,
        Some(tag) => records::agrees(*tag, slots_at(kept, at), words),
    }
}

// A line `k LEFT RIGHT TOTAL`: whether the prices at the knots and the total in the record at a place, which are its last slots, are as it tells.
pub(crate) fn knots_agree(kept: &Kept, at: usize, words: &[u64; 3]) -> bool {
    let record = slots_at(kept, at);
    LEFT_PRICE <= record.len() && same_bits(&record[LEFT_PRICE..], words)
}

// A line `e VALUE TOTAL FROM`: whether the tail is as it says.
pub(crate) fn tail_agrees(made: Curve, words: &[u64; 3]) -> bool {
    same_bits(&[made.tail.value, made.tail.total, made.tail.from], words)
}

// A line `n NODE ..` or `u TOTAL ..`: whether the floats that were written are as it tells. There is one to each knot.
pub(crate) fn list_agrees(list: &[f64], words: &[u64]) -> bool {
    words.len() <= list.len() && same_bits(&list[..words.len()], words)
}

// A line `a ALLOW X REFUSAL VALUE PRIMITIVE`: whether the curve answers as it tells. It is asked with its own knots and not the room behind them.
pub(crate) fn answers(kept: &Kept, made: Curve, x: u64, price: Told, total: Told) -> bool {
    let xs = kept.knots.as_slice();
    let tags = &kept.lent.tags;
    let slots = &kept.lent.slots;
    let q = numbers::of_bits(x);
    price.agrees(value(xs, made, tags, slots, q))
        && total.agrees(primitive(xs, made, tags, slots, q))
}
