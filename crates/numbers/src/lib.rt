// What every layer needs: of floats a test for finiteness, a mark for it, tests of their size, the absolute value and the way to their bits and back; and
// how many numbers a section and a record have.
#![tactic(auto)]

ghost use Rattle.std.specs.Prelude.{◌≡◌};
ghost use Rattle.std.specs.Float.{binary64};
ghost use Rattle.std.specs.Float.Ieee.{of_bits, to_bits};
ghost use Rattle.numbers.specs.Marks.{mark};
ghost use Rattle.numbers.specs.Words.{finite, abs, ordinary_size, ordinary_divisor};

use std::num::{f64_from_bits_with_nan, f64_to_bits_with_nan};

// The numbers of a section itself, in its record: a weight, and the fields of its two parts.
pub const FIELDS: usize = 24;

// The slots of one record: the section's numbers, its prices at the two knots of its period, and the running total after the period.
pub const SLOTS: usize = FIELDS + 3;

// In the safe mode no shape is squeezed to this part of its period or less.
pub const NARROW: f64 = 1.0e-12;

// Numbers of ordinary size are not larger than 2 ^ 80, and ordinary divisors not smaller than 2 ^ -40.
pub const MOST_SIZE: f64 = 1.2089258196146292e24;

pub const LEAST_DIVISOR: f64 = 9.094947017729282e-13;

// Whether x is neither a NaN nor an infinity. No bit pattern is looked at, so a loop of these stays plain float code.
#[tactic(auto, using(crate::proofs::Finite::std_finite))]
pub fn is_finite(x: f64) -> bool
    ensures { result ≡ finite x }
{
    x.is_finite()
}

// A number with the mark whether it is finite. Its bits are what the formula gave, so that what is stored of it stays the same: an Option would lose them.
#[derive(Clone, Copy)]
pub struct Marked {
    pub number: f64,
    pub finite: bool,
}

pub fn mark(x: f64) -> Marked
    ensures { result ≡ mark x }
{
    Marked {
        number: x,
        finite: is_finite(x),
    }
}

// With `&` and not `&&`, so that a loop of these has no branch.
pub fn is_ordinary_size(x: f64) -> bool
    ensures { result ≡ ordinary_size x }
{
    (-MOST_SIZE <= x) & (x <= MOST_SIZE)
}

pub fn is_ordinary_divisor(x: f64) -> bool
    ensures { result ≡ ordinary_divisor x }
{
    LEAST_DIVISOR <= x
}

// x without its sign; -0.0 becomes +0.0. No branch is made for the sign, which the processor could not foresee. Here and below, lemmas are named that only
// a body with a branch asks: an edit writes such a body, and is to be refused for what that answers.
#[tactic(auto, using(crate::proofs::Signs::std_abs, crate::proofs::Signs::abs_zero, crate::proofs::Signs::abs_below))]
pub fn abs(x: f64) -> f64
    ensures { result ≡ abs x }
{
    x.abs()
}

// The number with these bits; every NaN's pattern is the NaN.
#[tactic(auto, using(crate::proofs::Nan::read_as_nan, crate::proofs::Nan::read_as_number))]
pub fn of_bits(bits: u64) -> f64
    ensures { result ≡ of_bits binary64 bits }
{
    f64_from_bits_with_nan(bits)
}

// The bits of x; a NaN's are 7ff8000000000000, whatever pattern the machine holds.
#[tactic(auto, using(crate::proofs::Nan::bits_of_nan))]
pub fn to_bits(x: f64) -> u64
    ensures { result ≡ to_bits binary64 x }
{
    f64_to_bits_with_nan(x)
}
