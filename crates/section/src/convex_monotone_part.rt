// The other part of a combination.
ghost use Rattle.std.specs.Prelude.{◌≡◌};
ghost use Rattle.section.specs.ConvexMonotonePart.{value, primitive, f_next, alone};

use crate::section::Section;
use convex::convex_monotone2::ConvexMonotone2;
use convex::convex_monotone3::ConvexMonotone3;
use convex::convex_monotone4::ConvexMonotone4;
use convex::convex_monotone4_min::ConvexMonotone4Min;

#[derive(Clone, Copy)]
pub enum ConvexMonotonePart {
    ConvexMonotone2(ConvexMonotone2),
    ConvexMonotone3(ConvexMonotone3),
    ConvexMonotone4(ConvexMonotone4),
    ConvexMonotone4Min(ConvexMonotone4Min),
}

impl ConvexMonotonePart {
    #[tactic(auto, unfolding(crate::specs::ConvexMonotonePart::value))]
    pub fn value(self, x: f64) -> f64
        ensures { result ≡ value self x }
    {
        match self {
            ConvexMonotonePart::ConvexMonotone2(s) => s.value(x),
            ConvexMonotonePart::ConvexMonotone3(s) => s.value(x),
            ConvexMonotonePart::ConvexMonotone4(s) => s.value(x),
            ConvexMonotonePart::ConvexMonotone4Min(s) => s.value(x),
        }
    }

    #[tactic(auto, unfolding(crate::specs::ConvexMonotonePart::primitive))]
    pub fn primitive(self, x: f64) -> f64
        ensures { result ≡ primitive self x }
    {
        match self {
            ConvexMonotonePart::ConvexMonotone2(s) => s.primitive(x),
            ConvexMonotonePart::ConvexMonotone3(s) => s.primitive(x),
            ConvexMonotonePart::ConvexMonotone4(s) => s.primitive(x),
            ConvexMonotonePart::ConvexMonotone4Min(s) => s.primitive(x),
        }
    }

    #[tactic(auto, unfolding(crate::specs::ConvexMonotonePart::f_next))]
    pub fn f_next(self) -> f64
        ensures { result ≡ f_next self }
    {
        match self {
            ConvexMonotonePart::ConvexMonotone2(s) => s.f_next(),
            ConvexMonotonePart::ConvexMonotone3(s) => s.f_next(),
            ConvexMonotonePart::ConvexMonotone4(s) => s.f_next(),
            ConvexMonotonePart::ConvexMonotone4Min(s) => s.f_next(),
        }
    }

    // As a section by itself, with no weight.
    pub fn alone(self) -> Section
        ensures { result ≡ alone self }
    {
        match self {
            ConvexMonotonePart::ConvexMonotone2(s) => Section::ConvexMonotone2(s),
            ConvexMonotonePart::ConvexMonotone3(s) => Section::ConvexMonotone3(s),
            ConvexMonotonePart::ConvexMonotone4(s) => Section::ConvexMonotone4(s),
            ConvexMonotonePart::ConvexMonotone4Min(s) => Section::ConvexMonotone4Min(s),
        }
    }
}
