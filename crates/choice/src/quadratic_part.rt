// The quadratic part of a period: the parabola through both nodes that keeps the average.
ghost use Rattle.std.specs.Prelude.{◌≡◌};
ghost use Rattle.quadratic.specs.Quadratic.{new};
ghost use Rattle.section.specs.QuadraticPart.{alone};
ghost use Rattle.choice.specs.QuadraticPart.{min_of, made, min_kind, quadratic_part};

use crate::case::Case;
use crate::period::Period;
use quadratic::quadratic::Quadratic;
use quadratic::quadratic_min::QuadraticMin;
use section::quadratic_part::QuadraticPart;
use section::section::Section;
use table::method::{ConvexMonotone, Split};

// The Min kind, split by the rule that the settings ask for.
fn min_of(method: ConvexMonotone, period: Period) -> QuadraticMin
    ensures { result ≡ min_of period method.split }
{
    let split = method.split;
    match split {
        Split::Original => QuadraticMin::new(
            period.x_prev,
            period.x_next,
            period.f_prev,
            period.f_next,
            period.f_average,
            period.prev_primitive,
        ),
        Split::Careful => QuadraticMin::careful(
            period.x_prev,
            period.x_next,
            period.f_prev,
            period.f_next,
            period.f_average,
            period.prev_primitive,
        ),
        Split::Safe => QuadraticMin::safe(
            period.x_prev,
            period.x_next,
            period.f_prev,
            period.f_next,
            period.f_average,
            period.prev_primitive,
        ),
    }
}

fn plain_of(period: Period) -> Quadratic
    ensures { result ≡ new period.x_prev period.x_next period.f_prev period.f_next period.f_average period.prev_primitive }
{
    Quadratic::new(
        period.x_prev,
        period.x_next,
        period.f_prev,
        period.f_next,
        period.f_average,
        period.prev_primitive,
    )
}

impl Case {
    // Made as the Min kind or as the plain one.
    fn made(self, min: bool) -> QuadraticPart
        ensures { result ≡ made self.period self.method.split min }
    {
        if min {
            return QuadraticPart::QuadraticMin(min_of(self.method, self.period));
        }
        QuadraticPart::Quadratic(plain_of(self.period))
    }

    // The same as a section by itself. It is made in its place: a part that is made first and then turned into a section would be copied.
    pub(crate) fn made_alone(self, min: bool) -> Section
        ensures { result ≡ alone (made self.period self.method.split min) }
    {
        if min {
            return Section::QuadraticMin(min_of(self.method, self.period));
        }
        Section::Quadratic(plain_of(self.period))
    }

    #[tactic(auto, unfolding(crate::specs::QuadraticPart::min_kind))]
    pub(crate) fn min_kind(self) -> bool
        ensures { result ≡ min_kind self.method self.g_prev self.g_next }
    {
        self.method.force_positive && self.min_fits()
    }

    pub(crate) fn quadratic_part(self) -> QuadraticPart
        ensures { result ≡ quadratic_part self.method self.period self.g_prev self.g_next }
    {
        self.made(self.min_kind())
    }
}
