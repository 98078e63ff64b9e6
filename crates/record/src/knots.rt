// A section's prices at the two knots of its period, and where they and the total after it stand in its record.
ghost use Rattle.std.specs.Prelude.{◌≡◌};
ghost use Rattle.section.specs.ConvexMonotonePart as convex_part;
ghost use Rattle.section.specs.QuadraticPart as quadratic_part;
ghost use Rattle.record.specs.Knots.{at_both, knot_prices};

use numbers::FIELDS;
use section::convex_monotone_part::ConvexMonotonePart;
use section::quadratic_part::QuadraticPart;
use section::section::Section;

// The slots that a record adds to its section's own.
pub const LEFT_PRICE: usize = FIELDS;

pub const RIGHT_PRICE: usize = FIELDS + 1;

pub const TOTAL_AFTER: usize = FIELDS + 2;

#[derive(Clone, Copy)]
pub struct KnotPrices {
    pub left: f64,
    pub right: f64,
}

// A closure in place of the two prices would make each call longer: `both(|x| s.value(x), left, right)`.
fn both(left: f64, right: f64) -> KnotPrices
    ensures { result ≡ record { left = left; right = right } }
{
    KnotPrices { left, right }
}

#[tactic(auto, unfolding(section::specs::QuadraticPart::value))]
fn quadratic_prices(part: QuadraticPart, left: f64, right: f64) -> KnotPrices
    ensures { result ≡ at_both (quadratic_part.value part) left right }
{
    match part {
        QuadraticPart::Quadratic(s) => both(s.value(left), s.value(right)),
        QuadraticPart::QuadraticMin(s) => both(s.value(left), s.value(right)),
    }
}

#[tactic(auto, unfolding(section::specs::ConvexMonotonePart::value))]
fn convex_prices(part: ConvexMonotonePart, left: f64, right: f64) -> KnotPrices
    ensures { result ≡ at_both (convex_part.value part) left right }
{
    match part {
        ConvexMonotonePart::ConvexMonotone2(s) => both(s.value(left), s.value(right)),
        ConvexMonotonePart::ConvexMonotone3(s) => both(s.value(left), s.value(right)),
        ConvexMonotonePart::ConvexMonotone4(s) => both(s.value(left), s.value(right)),
        ConvexMonotonePart::ConvexMonotone4Min(s) => both(s.value(left), s.value(right)),
    }
}

// The price at both knots. The kind is asked once for both: with a question for each, the compiler keeps the formulas apart, and a build takes twice as long.
#[tactic(auto, unfolding(section::specs::Section::value))]
pub fn knot_prices(section: Section, left: f64, right: f64) -> KnotPrices
    ensures { result ≡ knot_prices section left right }
{
    match section {
        Section::EverywhereConstant(s) => both(s.value(left), s.value(right)),
        Section::ConstantGrad(s) => both(s.value(left), s.value(right)),
        Section::ConvexMonotone2(s) => both(s.value(left), s.value(right)),
        Section::ConvexMonotone3(s) => both(s.value(left), s.value(right)),
        Section::ConvexMonotone4(s) => both(s.value(left), s.value(right)),
        Section::ConvexMonotone4Min(s) => both(s.value(left), s.value(right)),
        Section::Quadratic(s) => both(s.value(left), s.value(right)),
        Section::QuadraticMin(s) => both(s.value(left), s.value(right)),
        Section::Combination(s) => {
            let weight = s.quadraticity;
            let p = quadratic_prices(s.quadratic_helper, left, right);
            let o = convex_prices(s.conv_mono_helper, left, right);
            both(
                weight * p.left + (1.0 - weight) * o.left,
                weight * p.right + (1.0 - weight) * o.right,
            )
        }
    }
}
