// The one number that a query asks of a record, worked out from the slots: a section is never put together for it.
ghost use Rattle.std.specs.Prelude.{◌≡◌};
ghost use Rattle.section.specs.Section.{value, primitive};
ghost use Rattle.record.specs.Reading.{quadratic_from, other_from, read_section};
ghost use Rattle.record.specs.Number.{answer_in, or_zero};
ghost use Rattle.record.specs.Steps.{quadratic_number, other_number, together};

use crate::reading::{
    constant_in, fourth_in, fourth_min_in, gradient_in, quadratic_in, quadratic_min_in, second_in,
    third_in,
};
use crate::tag::{OtherKind, QuadraticKind, other_named, quadratic_named};
use numbers::{FIELDS, Marked, mark};

// A record's number, finite or not, and +0.0 where there is none.
pub fn or_zero(answer: Option<Marked>) -> f64
    ensures { result ≡ or_zero answer }
{
    answer.map_or(0.0, |marked| marked.number)
}

// The number of a record's other part: of a kind that stands alone, or of one that may share a section.
#[derive(Clone, Copy)]
pub enum Part {
    Absent,
    Alone(f64),
    Shared(f64),
}

// Prices and totals have a function each: nothing is left to be asked once the kind is known.
// One function over a trait of both needs sixteen methods, and one that puts the part together first takes three times as long.
#[tactic(auto, unfolding(crate::specs::Reading::quadratic_from, section::specs::Section::value))]
fn quadratic_value(kind: QuadraticKind, slots: &[f64; FIELDS], q: f64) -> Option<f64>
    ensures { result ≡ quadratic_number (λ s. value s q) (quadratic_from kind slots.now) }
{
    match kind {
        QuadraticKind::Absent => None,
        QuadraticKind::Quadratic => Some(quadratic_in(slots).value(q)),
        QuadraticKind::QuadraticMin => Some(quadratic_min_in(false, slots).value(q)),
        QuadraticKind::QuadraticMinSplit => Some(quadratic_min_in(true, slots).value(q)),
    }
}

#[tactic(auto, unfolding(crate::specs::Reading::quadratic_from, section::specs::Section::primitive))]
fn quadratic_primitive(kind: QuadraticKind, slots: &[f64; FIELDS], q: f64) -> Option<f64>
    ensures { result ≡ quadratic_number (λ s. primitive s q) (quadratic_from kind slots.now) }
{
    match kind {
        QuadraticKind::Absent => None,
        QuadraticKind::Quadratic => Some(quadratic_in(slots).primitive(q)),
        QuadraticKind::QuadraticMin => Some(quadratic_min_in(false, slots).primitive(q)),
        QuadraticKind::QuadraticMinSplit => Some(quadratic_min_in(true, slots).primitive(q)),
    }
}

#[tactic(auto, unfolding(crate::specs::Reading::other_from, crate::specs::Steps::other_number, section::specs::Section::value))]
fn other_value(kind: OtherKind, slots: &[f64; FIELDS], q: f64) -> Part
    ensures { result ≡ other_number (λ s. value s q) (other_from kind slots.now) }
{
    match kind {
        OtherKind::Absent => Part::Absent,
        OtherKind::EverywhereConstant => Part::Alone(constant_in(slots).value(q)),
        OtherKind::ConstantGrad => Part::Alone(gradient_in(slots).value(q)),
        OtherKind::ConvexMonotone2 => Part::Shared(second_in(slots).value(q)),
        OtherKind::ConvexMonotone3 => Part::Shared(third_in(slots).value(q)),
        OtherKind::ConvexMonotone4 => Part::Shared(fourth_in(slots).value(q)),
        OtherKind::ConvexMonotone4Min => Part::Shared(fourth_min_in(false, slots).value(q)),
        OtherKind::ConvexMonotone4MinSplit => Part::Shared(fourth_min_in(true, slots).value(q)),
    }
}

#[tactic(auto, unfolding(crate::specs::Reading::other_from, crate::specs::Steps::other_number, section::specs::Section::primitive))]
fn other_primitive(kind: OtherKind, slots: &[f64; FIELDS], q: f64) -> Part
    ensures { result ≡ other_number (λ s. primitive s q) (other_from kind slots.now) }
{
    match kind {
        OtherKind::Absent => Part::Absent,
        OtherKind::EverywhereConstant => Part::Alone(constant_in(slots).primitive(q)),
        OtherKind::ConstantGrad => Part::Alone(gradient_in(slots).primitive(q)),
        OtherKind::ConvexMonotone2 => Part::Shared(second_in(slots).primitive(q)),
        OtherKind::ConvexMonotone3 => Part::Shared(third_in(slots).primitive(q)),
        OtherKind::ConvexMonotone4 => Part::Shared(fourth_in(slots).primitive(q)),
        OtherKind::ConvexMonotone4Min => Part::Shared(fourth_min_in(false, slots).primitive(q)),
        OtherKind::ConvexMonotone4MinSplit => Part::Shared(fourth_min_in(true, slots).primitive(q)),
    }
}

// The two parts' numbers as one, or none where there is no such pair.
fn together(weight: f64, quadratic: Option<f64>, other: Part) -> Option<Marked>
    ensures { result ≡ together weight quadratic other }
{
    let number = match (quadratic, other) {
        (None, Part::Absent) | (Some(_), Part::Alone(_)) => return None,
        (None, Part::Alone(o) | Part::Shared(o)) => o,
        (Some(p), Part::Absent) => p,
        (Some(p), Part::Shared(o)) => weight * p + (1.0 - weight) * o,
    };
    Some(mark(number))
}

// The price at q of the section that a record of these slots holds.
#[tactic(auto, unfolding(crate::specs::Reading::read_section))]
pub fn value_in(tag: u16, slots: &[f64], q: f64) -> Option<Marked>
    ensures { result ≡ answer_in (λ s. value s q) (read_section tag slots.now) }
{
    let fields = slots.first_chunk()?;
    let quadratic = quadratic_value(quadratic_named(tag)?, fields, q);
    let other = other_value(other_named(tag)?, fields, q);
    together(fields[0], quadratic, other)
}

// The total up to q.
#[tactic(auto, unfolding(crate::specs::Reading::read_section))]
pub fn primitive_in(tag: u16, slots: &[f64], q: f64) -> Option<Marked>
    ensures { result ≡ answer_in (λ s. primitive s q) (read_section tag slots.now) }
{
    let fields = slots.first_chunk()?;
    let quadratic = quadratic_primitive(quadratic_named(tag)?, fields, q);
    let other = other_primitive(other_named(tag)?, fields, q);
    together(fields[0], quadratic, other)
}
