// A section back from its tag and its slots.
ghost use Rattle.std.specs.Prelude.{◌≡◌};
ghost use Rattle.record.specs.Reading.{quadratic_in, quadratic_min_in, constant_in, gradient_in, second_in, third_in, fourth_in, fourth_min_in, quadratic_from, other_from, joined, read_section};

use crate::tag::{OtherKind, QuadraticKind, other_named, quadratic_named};
use convex::convex_monotone2::ConvexMonotone2;
use convex::convex_monotone3::ConvexMonotone3;
use convex::convex_monotone4::ConvexMonotone4;
use convex::convex_monotone4_min::ConvexMonotone4Min;
use numbers::FIELDS;
use quadratic::quadratic::Quadratic;
use quadratic::quadratic_min::QuadraticMin;
use section::combination::Combination;
use section::constant_grad::ConstantGrad;
use section::convex_monotone_part::ConvexMonotonePart;
use section::everywhere_constant::EverywhereConstant;
use section::quadratic_part::QuadraticPart;
use section::section::Section;

// What a record holds of the other part.
#[derive(Clone, Copy)]
pub enum OtherFound {
    Absent,
    Constant(EverywhereConstant),
    Gradient(ConstantGrad),
    Convex(ConvexMonotonePart),
}

pub(crate) fn quadratic_in(slots: &[f64; FIELDS]) -> Quadratic
    ensures { result ≡ quadratic_in slots.now }
{
    Quadratic {
        x_prev: slots[1],
        x_scaling: slots[2],
        a: slots[3],
        b: slots[4],
        c: slots[5],
        f_next: slots[6],
        prev_primitive: slots[7],
    }
}

pub(crate) fn quadratic_min_in(split_region: bool, slots: &[f64; FIELDS]) -> QuadraticMin
    ensures { result ≡ quadratic_min_in split_region slots.now }
{
    QuadraticMin {
        split_region,
        x1: slots[1],
        x2: slots[2],
        x3: slots[3],
        x4: slots[4],
        a: slots[5],
        b: slots[6],
        c: slots[7],
        primitive1: slots[8],
        primitive2: slots[9],
        f_next: slots[10],
        x_scaling: slots[11],
        x_ratio: slots[12],
    }
}

pub(crate) fn constant_in(slots: &[f64; FIELDS]) -> EverywhereConstant
    ensures { result ≡ constant_in slots.now }
{
    EverywhereConstant {
        value: slots[13],
        prev_primitive: slots[14],
        x_prev: slots[15],
    }
}

pub(crate) fn gradient_in(slots: &[f64; FIELDS]) -> ConstantGrad
    ensures { result ≡ gradient_in slots.now }
{
    ConstantGrad {
        f_prev: slots[13],
        prev_primitive: slots[14],
        x_prev: slots[15],
        f_grad: slots[16],
        f_next: slots[17],
    }
}

// This kind and the next differ in their types and in the name of a field: one function for both would have to be passed how to make each.
pub(crate) fn second_in(slots: &[f64; FIELDS]) -> ConvexMonotone2
    ensures { result ≡ second_in slots.now }
{
    ConvexMonotone2 {
        x_prev: slots[13],
        x_scaling: slots[14],
        g_prev: slots[15],
        g_next: slots[16],
        f_average: slots[17],
        eta2: slots[18],
        prev_primitive: slots[19],
    }
}

pub(crate) fn third_in(slots: &[f64; FIELDS]) -> ConvexMonotone3
    ensures { result ≡ third_in slots.now }
{
    ConvexMonotone3 {
        x_prev: slots[13],
        x_scaling: slots[14],
        g_prev: slots[15],
        g_next: slots[16],
        f_average: slots[17],
        eta3: slots[18],
        prev_primitive: slots[19],
    }
}

pub(crate) fn fourth_in(slots: &[f64; FIELDS]) -> ConvexMonotone4
    ensures { result ≡ fourth_in slots.now }
{
    ConvexMonotone4 {
        x_prev: slots[13],
        x_scaling: slots[14],
        g_prev: slots[15],
        g_next: slots[16],
        f_average: slots[17],
        eta4: slots[18],
        prev_primitive: slots[19],
        a: slots[20],
    }
}

pub(crate) fn fourth_min_in(split_region: bool, slots: &[f64; FIELDS]) -> ConvexMonotone4Min
    ensures { result ≡ fourth_min_in split_region slots.now }
{
    let base = fourth_in(slots);
    ConvexMonotone4Min {
        base,
        split_region,
        x_ratio: slots[21],
        x2: slots[22],
        x3: slots[23],
    }
}

// The part of a kind, out of its slots.
#[tactic(auto, unfolding(crate::specs::Reading::quadratic_from))]
fn quadratic_from(kind: QuadraticKind, slots: &[f64; FIELDS]) -> Option<QuadraticPart>
    ensures { result ≡ quadratic_from kind slots.now }
{
    match kind {
        QuadraticKind::Absent => None,
        QuadraticKind::Quadratic => Some(QuadraticPart::Quadratic(quadratic_in(slots))),
        QuadraticKind::QuadraticMin => {
            Some(QuadraticPart::QuadraticMin(quadratic_min_in(false, slots)))
        }
        QuadraticKind::QuadraticMinSplit => {
            Some(QuadraticPart::QuadraticMin(quadratic_min_in(true, slots)))
        }
    }
}

#[tactic(auto, unfolding(crate::specs::Reading::other_from))]
fn other_from(kind: OtherKind, slots: &[f64; FIELDS]) -> OtherFound
    ensures { result ≡ other_from kind slots.now }
{
    match kind {
        OtherKind::Absent => OtherFound::Absent,
        OtherKind::EverywhereConstant => OtherFound::Constant(constant_in(slots)),
        OtherKind::ConstantGrad => OtherFound::Gradient(gradient_in(slots)),
        OtherKind::ConvexMonotone2 => {
            OtherFound::Convex(ConvexMonotonePart::ConvexMonotone2(second_in(slots)))
        }
        OtherKind::ConvexMonotone3 => {
            OtherFound::Convex(ConvexMonotonePart::ConvexMonotone3(third_in(slots)))
        }
        OtherKind::ConvexMonotone4 => {
            OtherFound::Convex(ConvexMonotonePart::ConvexMonotone4(fourth_in(slots)))
        }
        OtherKind::ConvexMonotone4Min => {
            OtherFound::Convex(ConvexMonotonePart::ConvexMonotone4Min(fourth_min_in(false, slots)))
        }
        OtherKind::ConvexMonotone4MinSplit => {
            OtherFound::Convex(ConvexMonotonePart::ConvexMonotone4Min(fourth_min_in(true, slots)))
        }
    }
}

// The two parts put together, or no section where there is no such pair.
#[tactic(auto, unfolding(crate::specs::Reading::joined))]
fn joined(weight: f64, quadratic: Option<QuadraticPart>, other: OtherFound) -> Option<Section>
    ensures { result ≡ joined weight quadratic other }
{
    match quadratic {
        None => match other {
            OtherFound::Absent => None,
            OtherFound::Constant(s) => Some(Section::EverywhereConstant(s)),
            OtherFound::Gradient(s) => Some(Section::ConstantGrad(s)),
            OtherFound::Convex(c) => Some(c.alone()),
        },
        Some(q) => match other {
            OtherFound::Absent => Some(q.alone()),
            OtherFound::Constant(_) | OtherFound::Gradient(_) => None,
            OtherFound::Convex(c) => Some(Section::Combination(Combination::new(q, c, weight))),
        },
    }
}

// The section that a record of these slots holds, or no section: an illegal tag, or too few slots, reads nothing.
#[tactic(auto, unfolding(crate::specs::Reading::read_section))]
pub fn read_section(tag: u16, slots: &[f64]) -> Option<Section>
    ensures { result ≡ read_section tag slots.now }
{
    let fields = slots.first_chunk()?;
    let quadratic = quadratic_from(quadratic_named(tag)?, fields);
    let other = other_from(other_named(tag)?, fields);
    joined(fields[0], quadratic, other)
}
