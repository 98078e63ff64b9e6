// Whether a record is legal, told by its tag: no slot is looked at.
ghost use Rattle.std.specs.Prelude.{◌≡◌};
ghost use Rattle.record.specs.Legal.{alone, beside, pairs, legal_record};

use crate::tag::{OtherKind, QuadraticKind, other_named, quadratic_named};
use numbers::FIELDS;

// Whether a part of this kind makes a section by itself.
fn alone(other: OtherKind) -> bool
    ensures { result ≡ alone other }
{
    !matches!(other, OtherKind::Absent)
}

// Whether it makes one beside a quadratic part.
fn beside(other: OtherKind) -> bool
    ensures { result ≡ beside other }
{
    !matches!(
        other,
        OtherKind::EverywhereConstant | OtherKind::ConstantGrad
    )
}

// Whether parts of these kinds make a section.
fn pairs(quadratic: QuadraticKind, other: OtherKind) -> bool
    ensures { result ≡ pairs quadratic other }
{
    match quadratic {
        QuadraticKind::Absent => alone(other),
        _ => beside(other),
    }
}

// Whether a record of this tag and these slots is legal, and so holds a section.
pub fn legal_in(tag: u16, slots: &[f64]) -> bool
    ensures { result ≡ legal_record tag slots.now }
{
    if slots.len() < FIELDS {
        return false;
    }
    match (quadratic_named(tag), other_named(tag)) {
        (Some(quadratic), Some(other)) => pairs(quadratic, other),
        _ => false,
    }
}
