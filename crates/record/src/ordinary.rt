// Whether a record is of ordinary size: its section then answers a finite number at every place of ordinary size, so that no answer of it has to be looked at.
// All records of a curve are asked before its queries are, so no test leaves the slots early: several of them are then compared at a time.
ghost use Rattle.std.specs.Prelude.{◌≡◌};
ghost use Rattle.record.specs.Ordinary.{ordinary_slots, ordinary_fourth, ordinary_quadratic, ordinary_other, ordinary_record};

use crate::tag::{OtherKind, QuadraticKind, other_named, quadratic_named};
use numbers::{FIELDS, is_ordinary_divisor, is_ordinary_size};

// The numbers of the section, those that its kinds don't use included.
#[tactic(auto, using(numbers::proofs::Every::all_and, numbers::proofs::Every::all_none))]
fn are_of_size(slots: &[f64; FIELDS]) -> bool
    ensures { result ≡ ordinary_slots slots.now }
{
    let mut all = true;
    for x in slots {
        all = is_ordinary_size(*x) & all;
    }
    all
}

// What the quadratic part divides by.
fn has_quadratic_divisors(kind: QuadraticKind, slots: &[f64; FIELDS]) -> bool
    ensures { result ≡ ordinary_quadratic kind slots.now }
{
    match kind {
        QuadraticKind::Absent => true,
        QuadraticKind::Quadratic => is_ordinary_divisor(slots[2]),
        QuadraticKind::QuadraticMin => is_ordinary_divisor(slots[4] - slots[1]),
        QuadraticKind::QuadraticMinSplit => {
            is_ordinary_divisor(slots[4] - slots[1]) & is_ordinary_divisor(slots[12])
        }
    }
}

// What the other part divides by.
fn has_fourth_divisors(slots: &[f64; FIELDS]) -> bool
    ensures { result ≡ ordinary_fourth slots.now }
{
    let eta = slots[18];
    is_ordinary_divisor(slots[14]) & (is_ordinary_divisor(eta) & is_ordinary_divisor(1.0 - eta))
}

fn has_other_divisors(kind: OtherKind, slots: &[f64; FIELDS]) -> bool
    ensures { result ≡ ordinary_other kind slots.now }
{
    match kind {
        OtherKind::Absent | OtherKind::EverywhereConstant | OtherKind::ConstantGrad => true,
        OtherKind::ConvexMonotone2 => is_ordinary_divisor(slots[14])
            & is_ordinary_divisor(1.0 - slots[18]),
        OtherKind::ConvexMonotone3 => is_ordinary_divisor(slots[14])
            & is_ordinary_divisor(slots[18]),
        OtherKind::ConvexMonotone4 | OtherKind::ConvexMonotone4Min => has_fourth_divisors(slots),
        OtherKind::ConvexMonotone4MinSplit => has_fourth_divisors(slots)
            & is_ordinary_divisor(slots[21]),
    }
}

// Whether every number of a record is of ordinary size, and every number that its section divides by is an ordinary divisor.
#[tactic(auto, unfolding(crate::specs::Ordinary::ordinary_record))]
pub fn is_ordinary(tag: u16, slots: &[f64]) -> bool
    ensures { result ≡ ordinary_record tag slots.now }
{
    let Some(fields) = slots.first_chunk() else {
        return false;
    };
    let quadratic = match quadratic_named(tag) {
        Some(kind) => has_quadratic_divisors(kind, fields),
        None => return false,
    };
    let other = match other_named(tag) {
        Some(kind) => has_other_divisors(kind, fields),
        None => return false,
    };
    are_of_size(fields) & (quadratic & other)
}
