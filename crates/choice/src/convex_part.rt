// The convex-monotone part of a period that is not in the first region.
ghost use Rattle.std.specs.Prelude.{◌≡◌};
ghost use Rattle.choice.specs.ConvexPart.{b2, b3, at_most, at_least, fourth, second, third, clamped, convex_part};

use crate::case::Case;
use convex::convex_monotone2::ConvexMonotone2;
use convex::convex_monotone3::ConvexMonotone3;
use convex::convex_monotone4::ConvexMonotone4;
use convex::convex_monotone4_min::ConvexMonotone4Min;
use section::convex_monotone_part::ConvexMonotonePart;

// Not `f64::min` and `f64::max`, which put the bound in the place of a NaN: a NaN is neither above a bound nor below it, and stays.
#[tactic(auto, unfolding(crate::specs::ConvexPart::at_most))]
fn at_most(bound: f64, eta: f64) -> f64
    ensures { result ≡ at_most bound eta }
{
    if eta > bound {
        return bound;
    }
    eta
}

#[tactic(auto, unfolding(crate::specs::ConvexPart::at_least))]
fn at_least(bound: f64, eta: f64) -> f64
    ensures { result ≡ at_least bound eta }
{
    if eta < bound {
        return bound;
    }
    eta
}

impl Case {
    // The bounds of eta: b2 from above, b3 from below.
    fn b2(self) -> f64
        ensures { result ≡ b2 self.method }
    {
        (1.0 + self.method.monotonicity) / 2.0
    }

    fn b3(self) -> f64
        ensures { result ≡ b3 self.method }
    {
        (1.0 - self.method.monotonicity) / 2.0
    }

    // The fourth kind serves all regions but the first, each with its own eta.
    #[tactic(auto, unfolding(crate::specs::ConvexPart::fourth, crate::specs::ConvexPart::fourth_min))]
    fn fourth(self, eta: f64) -> ConvexMonotonePart
        ensures { result ≡ fourth self.method self.period self.g_prev self.g_next eta }
    {
        let Case { method, period, .. } = self;
        if method.force_positive {
            return ConvexMonotonePart::ConvexMonotone4Min(ConvexMonotone4Min::in_mode(
                method.is_safe(),
                period.x_prev,
                period.x_next,
                self.g_prev,
                self.g_next,
                period.f_average,
                eta,
                period.prev_primitive,
            ));
        }
        ConvexMonotonePart::ConvexMonotone4(ConvexMonotone4::new(
            period.x_prev,
            period.x_next,
            self.g_prev,
            self.g_next,
            period.f_average,
            eta,
            period.prev_primitive,
        ))
    }

    #[tactic(auto, unfolding(crate::specs::ConvexPart::second))]
    fn second(self) -> ConvexMonotonePart
        ensures { result ≡ second self.method self.period self.g_prev self.g_next }
    {
        let Case { g_prev, g_next, .. } = self;
        let period = self.period;
        let eta = (g_next + 2.0 * g_prev) / (g_next - g_prev);
        let b2 = self.b2();
        if eta < b2 {
            return ConvexMonotonePart::ConvexMonotone2(ConvexMonotone2::new(
                period.x_prev,
                period.x_next,
                g_prev,
                g_next,
                period.f_average,
                eta,
                period.prev_primitive,
            ));
        }
        self.fourth(b2)
    }

    #[tactic(auto, unfolding(crate::specs::ConvexPart::third))]
    fn third(self) -> ConvexMonotonePart
        ensures { result ≡ third self.method self.period self.g_prev self.g_next }
    {
        let Case { g_prev, g_next, .. } = self;
        let period = self.period;
        let eta = g_next / (g_next - g_prev) * 3.0;
        let b3 = self.b3();
        if eta > b3 {
            return ConvexMonotonePart::ConvexMonotone3(ConvexMonotone3::new(
                period.x_prev,
                period.x_next,
                g_prev,
                g_next,
                period.f_average,
                eta,
                period.prev_primitive,
            ));
        }
        self.fourth(b3)
    }

    // In none of the three regions, or with a NaN.
    fn clamped(self) -> ConvexMonotonePart
        ensures { result ≡ clamped self.method self.period self.g_prev self.g_next }
    {
        let b2 = self.b2();
        let b3 = self.b3();
        let eta = self.g_next / (self.g_prev + self.g_next);
        self.fourth(at_least(b3, at_most(b2, eta)))
    }

    #[tactic(auto, unfolding(crate::specs::ConvexPart::convex_part))]
    pub(crate) fn convex_part(self) -> ConvexMonotonePart
        ensures { result ≡ convex_part self.method self.period self.g_prev self.g_next }
    {
        if self.in_second() {
            return self.second();
        }
        if self.in_third() {
            return self.third();
        }
        self.clamped()
    }
}
