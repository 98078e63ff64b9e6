// The quadratic part of a combination.
ghost use Rattle.std.specs.Prelude.{◌≡◌};
ghost use Rattle.section.specs.QuadraticPart.{value, primitive, f_next, alone};

use crate::section::Section;
use quadratic::quadratic::Quadratic;
use quadratic::quadratic_min::QuadraticMin;

#[derive(Clone, Copy)]
pub enum QuadraticPart {
    Quadratic(Quadratic),
    QuadraticMin(QuadraticMin),
}

impl QuadraticPart {
    #[tactic(auto, unfolding(crate::specs::QuadraticPart::value))]
    pub fn value(self, x: f64) -> f64
        ensures { result ≡ value self x }
    {
        match self {
            QuadraticPart::Quadratic(s) => s.value(x),
            QuadraticPart::QuadraticMin(s) => s.value(x),
        }
    }

    #[tactic(auto, unfolding(crate::specs::QuadraticPart::primitive))]
    pub fn primitive(self, x: f64) -> f64
        ensures { result ≡ primitive self x }
    {
        match self {
            QuadraticPart::Quadratic(s) => s.primitive(x),
            QuadraticPart::QuadraticMin(s) => s.primitive(x),
        }
    }

    #[tactic(auto, unfolding(crate::specs::QuadraticPart::f_next))]
    pub fn f_next(self) -> f64
        ensures { result ≡ f_next self }
    {
        match self {
            QuadraticPart::Quadratic(s) => s.f_next(),
            QuadraticPart::QuadraticMin(s) => s.f_next(),
        }
    }

    // As a section by itself, with no weight.
    pub fn alone(self) -> Section
        ensures { result ≡ alone self }
    {
        match self {
            QuadraticPart::Quadratic(s) => Section::Quadratic(s),
            QuadraticPart::QuadraticMin(s) => Section::QuadraticMin(s),
        }
    }
}
