// One section of a curve: one choice among the nine kinds. Its price and its total come with the mark whether they are finite.
ghost use Rattle.std.specs.Prelude.{◌≡◌};
ghost use Rattle.numbers.specs.Marks.{mark};
ghost use Rattle.section.specs.Section.{value, primitive, f_next};

use crate::combination::Combination;
use crate::constant_grad::ConstantGrad;
use crate::everywhere_constant::EverywhereConstant;
use convex::convex_monotone2::ConvexMonotone2;
use convex::convex_monotone3::ConvexMonotone3;
use convex::convex_monotone4::ConvexMonotone4;
use convex::convex_monotone4_min::ConvexMonotone4Min;
use numbers::{Marked, mark};
use quadratic::quadratic::Quadratic;
use quadratic::quadratic_min::QuadraticMin;

#[derive(Clone, Copy)]
pub enum Section {
    EverywhereConstant(EverywhereConstant),
    ConstantGrad(ConstantGrad),
    ConvexMonotone2(ConvexMonotone2),
    ConvexMonotone3(ConvexMonotone3),
    ConvexMonotone4(ConvexMonotone4),
    ConvexMonotone4Min(ConvexMonotone4Min),
    Quadratic(Quadratic),
    QuadraticMin(QuadraticMin),
    Combination(Combination),
}

impl Section {
    // An arm for each kind, and no trait of theirs: a trait's members and impls would be longer than the arms that they save.
    // What the formula gives, with no mark yet.
    #[tactic(auto, unfolding(crate::specs::Section::value))]
    fn formula_value(self, x: f64) -> f64
        ensures { result ≡ value self x }
    {
        match self {
            Section::EverywhereConstant(s) => s.value(x),
            Section::ConstantGrad(s) => s.value(x),
            Section::ConvexMonotone2(s) => s.value(x),
            Section::ConvexMonotone3(s) => s.value(x),
            Section::ConvexMonotone4(s) => s.value(x),
            Section::ConvexMonotone4Min(s) => s.value(x),
            Section::Quadratic(s) => s.value(x),
            Section::QuadraticMin(s) => s.value(x),
            Section::Combination(s) => s.value(x),
        }
    }

    #[tactic(auto, unfolding(crate::specs::Section::primitive))]
    fn formula_primitive(self, x: f64) -> f64
        ensures { result ≡ primitive self x }
    {
        match self {
            Section::EverywhereConstant(s) => s.primitive(x),
            Section::ConstantGrad(s) => s.primitive(x),
            Section::ConvexMonotone2(s) => s.primitive(x),
            Section::ConvexMonotone3(s) => s.primitive(x),
            Section::ConvexMonotone4(s) => s.primitive(x),
            Section::ConvexMonotone4Min(s) => s.primitive(x),
            Section::Quadratic(s) => s.primitive(x),
            Section::QuadraticMin(s) => s.primitive(x),
            Section::Combination(s) => s.primitive(x),
        }
    }

    pub fn value(self, x: f64) -> Marked
        ensures { result ≡ mark (value self x) }
    {
        mark(self.formula_value(x))
    }

    pub fn primitive(self, x: f64) -> Marked
        ensures { result ≡ mark (primitive self x) }
    {
        mark(self.formula_primitive(x))
    }

    #[tactic(auto, unfolding(crate::specs::Section::f_next))]
    pub fn f_next(self) -> f64
        ensures { result ≡ f_next self }
    {
        match self {
            Section::EverywhereConstant(s) => s.f_next(),
            Section::ConstantGrad(s) => s.f_next(),
            Section::ConvexMonotone2(s) => s.f_next(),
            Section::ConvexMonotone3(s) => s.f_next(),
            Section::ConvexMonotone4(s) => s.f_next(),
            Section::ConvexMonotone4Min(s) => s.f_next(),
            Section::Quadratic(s) => s.f_next(),
            Section::QuadraticMin(s) => s.f_next(),
            Section::Combination(s) => s.f_next(),
        }
    }
}
