// The fourth kind kept from falling below zero: where it would, it is squeezed towards the ends, with zero between x2 and x3.
ghost use Rattle.std.specs.Prelude.{◌≡◌};
ghost use Rattle.convex.specs.ConvexMonotone4Min.{new, safe, in_mode, squeezed_away, split, unsplit, of_base, value, primitive, f_next, zero_primitive};

use crate::convex_monotone4::ConvexMonotone4;
use numbers::NARROW;

#[derive(Clone, Copy)]
pub struct ConvexMonotone4Min {
    pub base: ConvexMonotone4,
    // A flag with its numbers beside it, and no Option of them: the original's fields carry over, and a record has their slots.
    pub split_region: bool,
    pub x_ratio: f64,
    pub x2: f64,
    pub x3: f64,
}

fn unsplit(base: ConvexMonotone4) -> ConvexMonotone4Min
    ensures { result ≡ unsplit base }
{
    ConvexMonotone4Min {
        base,
        split_region: false,
        x_ratio: 0.0,
        x2: 0.0,
        x3: 0.0,
    }
}

#[tactic(auto, unfolding(crate::specs::ConvexMonotone4Min::split))]
fn split(old: ConvexMonotone4) -> ConvexMonotone4Min
    ensures { result ≡ split old }
{
    let f_prev = old.g_prev + old.f_average;
    let f_next = old.g_next + old.f_average;
    let reqd_shift = (old.eta4 * f_prev + (1.0 - old.eta4) * f_next) / 3.0 - old.f_average;
    let reqd_period = reqd_shift * old.x_scaling / (old.f_average + reqd_shift);
    let x_adjust = old.x_scaling - reqd_period;
    let f_average = old.f_average + reqd_shift;
    let g_prev = f_prev - f_average;
    let g_next = f_next - f_average;
    let base = ConvexMonotone4 {
        x_prev: old.x_prev,
        x_scaling: old.x_scaling,
        g_prev,
        g_next,
        f_average,
        eta4: old.eta4,
        prev_primitive: old.prev_primitive,
        a: -(old.eta4 * g_prev + (1.0 - old.eta4) * g_next) / 2.0,
    };
    ConvexMonotone4Min {
        base,
        split_region: true,
        x_ratio: x_adjust / old.x_scaling,
        x2: old.x_prev + x_adjust * old.eta4,
        x3: old.x_prev + old.x_scaling - x_adjust * (1.0 - old.eta4),
    }
}

#[tactic(auto, unfolding(crate::specs::ConvexMonotone4Min::of_base))]
fn of_base(base: ConvexMonotone4) -> ConvexMonotone4Min
    ensures { result ≡ of_base base }
{
    if base.a + base.f_average <= 0.0 {
        return split(base);
    }
    unsplit(base)
}

// Whether next to nothing of the squeezed shape is left. An average that is lost beside its nodes makes it so, and then the ratio may be 0.
fn squeezed_away(s: ConvexMonotone4Min) -> bool
    ensures { result ≡ squeezed_away s }
{
    s.split_region && !(NARROW < s.x_ratio)
}

impl ConvexMonotone4Min {
    pub fn new(
        x_prev: f64,
        x_next: f64,
        g_prev: f64,
        g_next: f64,
        f_average: f64,
        eta4: f64,
        prev_primitive: f64,
    ) -> Self
        ensures { result ≡ new x_prev x_next g_prev g_next f_average eta4 prev_primitive }
    {
        of_base(ConvexMonotone4::new(
            x_prev,
            x_next,
            g_prev,
            g_next,
            f_average,
            eta4,
            prev_primitive,
        ))
    }

    // The same, but flat at its average where next to nothing of the squeezed shape is left: with the ratio 0 that one has no price at its left knot.
    pub fn safe(
        x_prev: f64,
        x_next: f64,
        g_prev: f64,
        g_next: f64,
        f_average: f64,
        eta4: f64,
        prev_primitive: f64,
    ) -> Self
        ensures { result ≡ safe x_prev x_next g_prev g_next f_average eta4 prev_primitive }
    {
        Self::in_mode(
            true,
            x_prev,
            x_next,
            g_prev,
            g_next,
            f_average,
            eta4,
            prev_primitive,
        )
    }

    // Either of the two, in one place: a caller that may want both makes the shape once, where its answer is to stand. Its settings' `is_safe` is the bool.
    #[tactic(auto, unfolding(crate::specs::ConvexMonotone4Min::safe))]
    pub fn in_mode(
        safe: bool,
        x_prev: f64,
        x_next: f64,
        g_prev: f64,
        g_next: f64,
        f_average: f64,
        eta4: f64,
        prev_primitive: f64,
    ) -> Self
        ensures { result ≡ in_mode safe x_prev x_next g_prev g_next f_average eta4 prev_primitive }
    {
        let made = of_base(ConvexMonotone4::new(
            x_prev,
            x_next,
            g_prev,
            g_next,
            f_average,
            eta4,
            prev_primitive,
        ));
        if safe && squeezed_away(made) {
            return unsplit(ConvexMonotone4::new(
                x_prev,
                x_next,
                0.0,
                0.0,
                f_average,
                0.5,
                prev_primitive,
            ));
        }
        made
    }

    // What has accumulated where the zero stretch begins, and all along it.
    fn zero_primitive(self) -> f64
        ensures { result ≡ zero_primitive self }
    {
        let b = self.base;
        b.prev_primitive
            + b.x_scaling
                * self.x_ratio
                * (b.f_average * b.eta4
                    + b.a * b.eta4
                    + (b.g_prev - b.a) / (b.eta4 * b.eta4) * (1.0 / 3.0 * b.eta4 * b.eta4 * b.eta4))
    }

    #[tactic(auto, unfolding(crate::specs::ConvexMonotone4Min::value))]
    pub fn value(self, x: f64) -> f64
        ensures { result ≡ value self x }
    {
        let base = self.base;
        if !self.split_region {
            return base.value(x);
        }
        let x_val = (x - base.x_prev) / base.x_scaling;
        if x <= self.x2 {
            return base.left_value(x_val / self.x_ratio);
        }
        if x < self.x3 {
            return 0.0;
        }
        base.right_value(1.0 - (1.0 - x_val) / self.x_ratio)
    }

    #[tactic(auto, unfolding(crate::specs::ConvexMonotone4Min::primitive))]
    pub fn primitive(self, x: f64) -> f64
        ensures { result ≡ primitive self x }
    {
        let base = self.base;
        if !self.split_region {
            return base.primitive(x);
        }
        let x_val = (x - base.x_prev) / base.x_scaling;
        let scaling = base.x_scaling * self.x_ratio;
        if x <= self.x2 {
            return base.left_primitive(scaling, x_val / self.x_ratio);
        }
        if x <= self.x3 {
            return self.zero_primitive();
        }
        base.right_primitive(scaling, 1.0 - (1.0 - x_val) / self.x_ratio)
    }

    pub fn f_next(self) -> f64
        ensures { result ≡ f_next self }
    {
        self.base.f_next()
    }
}
