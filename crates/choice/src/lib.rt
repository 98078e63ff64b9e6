// Which section covers a period: the four steps of the choice, each part made only where the answer holds it.
#![tactic(auto)]

mod case;
mod convex_part;
pub mod period;
mod quadratic_part;
mod regions;

ghost use Rattle.std.specs.Prelude.{◌≡◌};
ghost use Rattle.choice.specs.Choice.{section_of, at_zero, shaped, mixed};
ghost use Rattle.choice.specs.Steps.{first_kind, is_alone, alone_kind};

use crate::case::Case;
use crate::period::Period;
use section::combination::Combination;
use section::constant_grad::ConstantGrad;
use section::everywhere_constant::EverywhereConstant;
use section::section::Section;
use table::method::ConvexMonotone;

// Any settings are taken. Those outside [0, 1] a build refuses beforehand, so for them the original has no answer to match: a
// quadraticity below 0.0 counts as 0.0, and one above 1.0 or a NaN as 1.0.
#[tactic(auto, unfolding(crate::specs::Choice::section_of, crate::specs::Choice::by_steps))]
pub fn section_of(method: ConvexMonotone, period: Period) -> Section
    ensures { result ≡ section_of method period }
{
    if at_zero(method, period) {
        return Section::EverywhereConstant(EverywhereConstant::new(
            0.0,
            period.prev_primitive,
            period.x_prev,
        ));
    }
    let g_prev = period.f_prev - period.f_average;
    let g_next = period.f_next - period.f_average;
    let case = Case {
        method,
        period,
        g_prev,
        g_next,
    };
    if case.is_flat() {
        return Section::ConstantGrad(ConstantGrad::new(
            period.f_prev,
            period.prev_primitive,
            period.x_prev,
            period.x_next,
            period.f_next,
        ));
    }
    case.shaped()
}

// Whether the safe mode asks for a period that is 0 everywhere.
fn at_zero(method: ConvexMonotone, period: Period) -> bool
    ensures { result ≡ at_zero method period }
{
    method.is_safe() && period.f_average == 0.0
}

impl Case {
    fn shaped(self) -> Section
        ensures { result ≡ shaped self.method self.period self.g_prev self.g_next }
    {
        if self.is_alone() {
            return self.made_alone(self.alone_kind());
        }
        self.mixed()
    }

    // Whether the quadratic part is all of the section. Both cases are made in one place, so that the compiler puts the making in line.
    #[tactic(auto, unfolding(crate::specs::Steps::is_alone))]
    fn is_alone(self) -> bool
        ensures { result ≡ is_alone self.method self.g_prev self.g_next }
    {
        if self.method.quadraticity < 1.0 {
            return self.in_first();
        }
        true
    }

    #[tactic(auto, unfolding(crate::specs::Steps::alone_kind))]
    fn alone_kind(self) -> bool
        ensures { result ≡ alone_kind self.method self.g_prev self.g_next }
    {
        let weight = self.method.quadraticity;
        if weight < 1.0 {
            return self.first_kind();
        }
        self.min_kind()
    }

    // In the first region the quadratic part is all of the section. Step 2 has picked its kind, unless there was none to make: then
    // positivity picks it by itself.
    #[tactic(auto, unfolding(crate::specs::Steps::first_kind))]
    fn first_kind(self) -> bool
        ensures { result ≡ first_kind self.method self.g_prev self.g_next }
    {
        if self.method.quadraticity > 0.0 {
            return self.min_kind();
        }
        self.method.force_positive
    }

    // Outside the first region. A single part keeps its own numbers: a weight of 0.0 for the other would not do the same to a NaN.
    #[tactic(auto, unfolding(crate::specs::Choice::mixed))]
    fn mixed(self) -> Section
        ensures { result ≡ mixed self.method self.period self.g_prev self.g_next }
    {
        let weight = self.method.quadraticity;
        let other = self.convex_part();
        if weight > 0.0 {
            let quadratic = self.quadratic_part();
            return Section::Combination(Combination::new(quadratic, other, weight));
        }
        other.alone()
    }
}
