// A quadratic part and another, weighted.
ghost use Rattle.std.specs.Prelude.{◌≡◌};
ghost use Rattle.section.specs.Combination.{new, value, primitive, f_next};

use crate::convex_monotone_part::ConvexMonotonePart;
use crate::quadratic_part::QuadraticPart;

#[derive(Clone, Copy)]
pub struct Combination {
    pub quadraticity: f64,
    pub quadratic_helper: QuadraticPart,
    pub conv_mono_helper: ConvexMonotonePart,
}

impl Combination {
    pub fn new(
        quadratic_helper: QuadraticPart,
        conv_mono_helper: ConvexMonotonePart,
        quadraticity: f64,
    ) -> Self
        ensures { result ≡ new quadratic_helper conv_mono_helper quadraticity }
    {
        Self {
            quadraticity,
            quadratic_helper,
            conv_mono_helper,
        }
    }

    pub fn value(self, x: f64) -> f64
        ensures { result ≡ value self x }
    {
        let weight = self.quadraticity;
        weight * self.quadratic_helper.value(x) + (1.0 - weight) * self.conv_mono_helper.value(x)
    }

    pub fn primitive(self, x: f64) -> f64
        ensures { result ≡ primitive self x }
    {
        let weight = self.quadraticity;
        weight * self.quadratic_helper.primitive(x)
            + (1.0 - weight) * self.conv_mono_helper.primitive(x)
    }

    pub fn f_next(self) -> f64
        ensures { result ≡ f_next self }
    {
        let weight = self.quadraticity;
        weight * self.quadratic_helper.f_next() + (1.0 - weight) * self.conv_mono_helper.f_next()
    }
}
