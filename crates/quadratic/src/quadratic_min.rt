// The parabola that positivity may split. Where it splits, the section is two arms of a parabola that touches zero, with zero between x2 and x3.
// Elsewhere it is the plain parabola.
ghost use Rattle.std.specs.Prelude.{◌≡◌};
ghost use Rattle.quadratic.specs.QuadraticMin.{new, value, primitive, f_next, b_av, d_av, splits, splits_safely, under_root, turning, passes, ratio_passes, flattens, split_at, split, unsplit, careful, safe, value_at, primitive_at};

use crate::parabola::Parabola;
use numbers::NARROW;

#[derive(Clone, Copy)]
pub struct QuadraticMin {
    // A flag with its numbers beside it, and no Option of them: the original's fields carry over, and a record has their slots.
    pub split_region: bool,
    pub x1: f64,
    pub x2: f64,
    pub x3: f64,
    pub x4: f64,
    pub a: f64,
    pub b: f64,
    pub c: f64,
    pub primitive1: f64,
    pub primitive2: f64,
    pub f_next: f64,
    pub x_scaling: f64,
    pub x_ratio: f64,
}

// The discriminant of a parabola with these ends is a quadratic in its average: 36.0, b_av and the coefficient in d_av, which is the
// discriminant of that one.
fn b_av(f_prev: f64, f_next: f64) -> f64
    ensures { result ≡ b_av f_prev f_next }
{
    -24.0 * (f_prev + f_next)
}

fn d_av(f_prev: f64, f_next: f64) -> f64
    ensures { result ≡ d_av f_prev f_next }
{
    let b = b_av(f_prev, f_next);
    let c_av = 4.0 * (f_prev * f_prev + f_prev * f_next + f_next * f_next);
    b * b - 4.0 * 36.0 * c_av
}

// The original's test: it has two zeros, and one with these ends can touch zero. It does not ask where the zeros lie: ends 4 and 1 with average 3 split,
// although that parabola never goes below 1.
#[tactic(auto, unfolding(crate::specs::QuadraticMin::splits))]
fn splits(f_prev: f64, f_next: f64, f_average: f64) -> bool
    ensures { result ≡ splits f_prev f_next f_average }
{
    let discriminant = Parabola::through(f_prev, f_next, f_average).discriminant();
    discriminant > 0.0 && d_av(f_prev, f_next) >= 0.0
}

// The safe rule's test: ends at or above 0 can always touch it, but d_av rounds below 0 where an end is 0. A discriminant that is too large for a float is
// a NaN, and passes.
#[tactic(auto, unfolding(crate::specs::QuadraticMin::splits_safely))]
fn splits_safely(f_prev: f64, f_next: f64, f_average: f64) -> bool
    ensures { result ≡ splits_safely f_prev f_next f_average }
{
    let discriminant = Parabola::through(f_prev, f_next, f_average).discriminant();
    !(discriminant <= 0.0) && 0.0 <= f_prev && 0.0 <= f_next
}

// When a parabola is split: by the rule of `new`, which is the original's, by that of `careful` or by that of `safe`.
#[derive(Clone, Copy)]
enum Rule {
    Original,
    Careful,
    Safe,
}

impl Rule {
    // What the root is taken of: in exact arithmetic d_av is 576 times the product of the ends.
    fn under_root(self, f_prev: f64, f_next: f64) -> f64
        ensures { result ≡ under_root self f_prev f_next }
    {
        match self {
            Rule::Original | Rule::Careful => d_av(f_prev, f_next),
            Rule::Safe => f_prev * f_next,
        }
    }

    // The lower of the two averages at which a parabola with these ends touches zero.
    fn turning(self, f_prev: f64, f_next: f64) -> f64
        ensures { result ≡ turning self f_prev f_next }
    {
        let root = root::sqrt(self.under_root(f_prev, f_next));
        match self {
            Rule::Original | Rule::Careful => (-b_av(f_prev, f_next) - root) / (2.0 * 36.0),
            Rule::Safe => (f_prev + f_next - root) / 3.0,
        }
    }

    // Whether a parabola passes the tests before the ratio.
    fn passes(self, f_prev: f64, f_next: f64, f_average: f64) -> bool
        ensures { result ≡ passes self f_prev f_next f_average }
    {
        match self {
            Rule::Original | Rule::Careful => splits(f_prev, f_next, f_average),
            Rule::Safe => splits_safely(f_prev, f_next, f_average),
        }
    }

    // Whether a parabola that passes the tests is split at this ratio: at any; where it is then no longer than its period; or where it is moreover not squeezed
    // to next to nothing. A NaN is above nothing.
    #[tactic(auto, unfolding(crate::specs::QuadraticMin::in_period, crate::specs::QuadraticMin::in_sight))]
    fn ratio_passes(self, x_ratio: f64) -> bool
        ensures { result ≡ ratio_passes self x_ratio }
    {
        match self {
            Rule::Original => true,
            Rule::Careful => 0.0 < x_ratio && x_ratio <= 1.0,
            Rule::Safe => NARROW < x_ratio && x_ratio <= 1.0,
        }
    }

    // Whether the parabola would be squeezed to next to nothing, and the rule makes it flat then.
    fn flattens(self, x_ratio: f64) -> bool
        ensures { result ≡ flattens self x_ratio }
    {
        match self {
            Rule::Original | Rule::Careful => false,
            Rule::Safe => x_ratio <= NARROW,
        }
    }
}

impl QuadraticMin {
    // The original's rule: split wherever both tests pass.
    #[tactic(auto, unfolding(crate::specs::QuadraticMin::new, crate::specs::QuadraticMin::split_at))]
    pub fn new(
        x_prev: f64,
        x_next: f64,
        f_prev: f64,
        f_next: f64,
        f_average: f64,
        prev_primitive: f64,
    ) -> Self
        ensures { result ≡ new x_prev x_next f_prev f_next f_average prev_primitive }
    {
        Self::by_rule(
            Rule::Original,
            x_prev,
            x_next,
            f_prev,
            f_next,
            f_average,
            prev_primitive,
        )
    }

    // The careful split: only a parabola that is then no longer than its period, because a longer one loses the average.
    #[tactic(auto, unfolding(crate::specs::QuadraticMin::careful, crate::specs::QuadraticMin::split_at))]
    pub fn careful(
        x_prev: f64,
        x_next: f64,
        f_prev: f64,
        f_next: f64,
        f_average: f64,
        prev_primitive: f64,
    ) -> Self
        ensures { result ≡ careful x_prev x_next f_prev f_next f_average prev_primitive }
    {
        Self::by_rule(
            Rule::Careful,
            x_prev,
            x_next,
            f_prev,
            f_next,
            f_average,
            prev_primitive,
        )
    }

    // The safe split: as the careful one, but its tests decide as exact arithmetic would. A parabola that would be squeezed to next to nothing is flat at its
    // average.
    #[tactic(auto, unfolding(crate::specs::QuadraticMin::safe, crate::specs::QuadraticMin::split_at))]
    pub fn safe(
        x_prev: f64,
        x_next: f64,
        f_prev: f64,
        f_next: f64,
        f_average: f64,
        prev_primitive: f64,
    ) -> Self
        ensures { result ≡ safe x_prev x_next f_prev f_next f_average prev_primitive }
    {
        Self::by_rule(
            Rule::Safe,
            x_prev,
            x_next,
            f_prev,
            f_next,
            f_average,
            prev_primitive,
        )
    }

    // All rules in one place, so that the root is there once: it is long, and the compiler puts it in line only where it has one caller.
    #[tactic(auto, unfolding(crate::specs::QuadraticMin::split_at))]
    fn by_rule(
        rule: Rule,
        x_prev: f64,
        x_next: f64,
        f_prev: f64,
        f_next: f64,
        f_average: f64,
        prev_primitive: f64,
    ) -> Self
        ensures { result ≡ split_at rule x_prev x_next f_prev f_next f_average prev_primitive }
    {
        if rule.passes(f_prev, f_next, f_average) {
            let touching = rule.turning(f_prev, f_next);
            let x_ratio = f_average / touching;
            if rule.ratio_passes(x_ratio) {
                return Self::split(
                    x_prev,
                    x_next,
                    f_prev,
                    f_next,
                    f_average,
                    prev_primitive,
                    touching,
                );
            }
            if rule.flattens(x_ratio) {
                return Self::unsplit(
                    x_prev,
                    x_next,
                    f_average,
                    f_average,
                    f_average,
                    prev_primitive,
                );
            }
        }
        Self::unsplit(x_prev, x_next, f_prev, f_next, f_average, prev_primitive)
    }

    fn unsplit(
        x_prev: f64,
        x_next: f64,
        f_prev: f64,
        f_next: f64,
        f_average: f64,
        prev_primitive: f64,
    ) -> Self
        ensures { result ≡ unsplit x_prev x_next f_prev f_next f_average prev_primitive }
    {
        let Parabola { a, b, c } = Parabola::through(f_prev, f_next, f_average);
        Self {
            split_region: false,
            x1: x_prev,
            x2: 0.0,
            x3: 0.0,
            x4: x_next,
            a,
            b,
            c,
            primitive1: prev_primitive,
            primitive2: 0.0,
            f_next,
            x_scaling: x_next - x_prev,
            x_ratio: 1.0,
        }
    }

    // The parabola with the average av_root, which touches zero at x_root, its length scaled by x_ratio.
    #[tactic(auto, unfolding(crate::specs::QuadraticMin::split))]
    fn split(
        x_prev: f64,
        x_next: f64,
        f_prev: f64,
        f_next: f64,
        f_average: f64,
        prev_primitive: f64,
        av_root: f64,
    ) -> Self
        ensures { result ≡ split x_prev x_next f_prev f_next f_average prev_primitive av_root }
    {
        let x_ratio = f_average / av_root;
        let x_scaling = (x_next - x_prev) * x_ratio;
        let parabola = Parabola::through(f_prev, f_next, av_root);
        let Parabola { a, b, c } = parabola;
        let x_root = -b / (2.0 * a);
        Self {
            split_region: true,
            x1: x_prev,
            x2: x_prev + x_ratio * (x_next - x_prev) * x_root,
            x3: x_next - x_ratio * (x_next - x_prev) * (1.0 - x_root),
            x4: x_next,
            a,
            b,
            c,
            primitive1: prev_primitive,
            primitive2: parabola.under(prev_primitive, x_scaling, x_root),
            f_next,
            x_scaling,
            x_ratio,
        }
    }

    fn value_at(self, v: f64) -> f64
        ensures { result ≡ value_at self v }
    {
        self.c + self.b * v + self.a * v * v
    }

    fn primitive_at(self, v: f64) -> f64
        ensures { result ≡ primitive_at self v }
    {
        let parabola = Parabola {
            a: self.a,
            b: self.b,
            c: self.c,
        };
        parabola.under(self.primitive1, self.x_scaling, v)
    }

    #[tactic(auto, unfolding(crate::specs::QuadraticMin::value))]
    pub fn value(self, x: f64) -> f64
        ensures { result ≡ value self x }
    {
        let x_val = (x - self.x1) / (self.x4 - self.x1);
        if self.split_region {
            if x <= self.x2 {
                return self.value_at(x_val / self.x_ratio);
            }
            if x < self.x3 {
                return 0.0;
            }
            return self.value_at(1.0 - (1.0 - x_val) / self.x_ratio);
        }
        self.value_at(x_val)
    }

    #[tactic(auto, unfolding(crate::specs::QuadraticMin::primitive))]
    pub fn primitive(self, x: f64) -> f64
        ensures { result ≡ primitive self x }
    {
        let x_val = (x - self.x1) / (self.x4 - self.x1);
        if self.split_region {
            if x < self.x2 {
                return self.primitive_at(x_val / self.x_ratio);
            }
            if x < self.x3 {
                return self.primitive2;
            }
            return self.primitive_at(1.0 - (1.0 - x_val) / self.x_ratio);
        }
        self.primitive_at(x_val)
    }

    pub fn f_next(self) -> f64
        ensures { result ≡ f_next self }
    {
        self.f_next
    }
}
