// The slots of a record: the weight, then the quadratic part's fields, then the other part's.
ghost use Rattle.std.specs.Prelude.{◌≡◌};
ghost use Rattle.record.specs.Slots.{layout, quadratic_slots, convex_slots, slots_of};

use numbers::FIELDS;
use section::convex_monotone_part::ConvexMonotonePart;
use section::quadratic_part::QuadraticPart;
use section::section::Section;

#[tactic(auto, unfolding(crate::specs::Slots::quadratic_slots))]
fn quadratic_slots(part: QuadraticPart) -> [f64; 12]
    ensures { result ≡ quadratic_slots part }
{
    match part {
        QuadraticPart::Quadratic(s) => [
            s.x_prev,
            s.x_scaling,
            s.a,
            s.b,
            s.c,
            s.f_next,
            s.prev_primitive,
            0.0,
            0.0,
            0.0,
            0.0,
            0.0,
        ],
        QuadraticPart::QuadraticMin(s) => [
            s.x1,
            s.x2,
            s.x3,
            s.x4,
            s.a,
            s.b,
            s.c,
            s.primitive1,
            s.primitive2,
            s.f_next,
            s.x_scaling,
            s.x_ratio,
        ],
    }
}

#[tactic(auto, unfolding(crate::specs::Slots::convex_slots))]
fn convex_slots(part: ConvexMonotonePart) -> [f64; 11]
    ensures { result ≡ convex_slots part }
{
    match part {
        ConvexMonotonePart::ConvexMonotone2(s) => [
            s.x_prev,
            s.x_scaling,
            s.g_prev,
            s.g_next,
            s.f_average,
            s.eta2,
            s.prev_primitive,
            0.0,
            0.0,
            0.0,
            0.0,
        ],
        ConvexMonotonePart::ConvexMonotone3(s) => [
            s.x_prev,
            s.x_scaling,
            s.g_prev,
            s.g_next,
            s.f_average,
            s.eta3,
            s.prev_primitive,
            0.0,
            0.0,
            0.0,
            0.0,
        ],
        ConvexMonotonePart::ConvexMonotone4(s) => [
            s.x_prev,
            s.x_scaling,
            s.g_prev,
            s.g_next,
            s.f_average,
            s.eta4,
            s.prev_primitive,
            s.a,
            0.0,
            0.0,
            0.0,
        ],
        ConvexMonotonePart::ConvexMonotone4Min(s) => [
            s.base.x_prev,
            s.base.x_scaling,
            s.base.g_prev,
            s.base.g_next,
            s.base.f_average,
            s.base.eta4,
            s.base.prev_primitive,
            s.base.a,
            s.x_ratio,
            s.x2,
            s.x3,
        ],
    }
}

fn laid_out(weight: f64, q: [f64; 12], o: [f64; 11]) -> [f64; FIELDS]
    ensures { result ≡ layout weight q o }
{
    [
        weight, q[0], q[1], q[2], q[3], q[4], q[5], q[6], q[7], q[8], q[9], q[10], q[11], o[0],
        o[1], o[2], o[3], o[4], o[5], o[6], o[7], o[8], o[9], o[10],
    ]
}

// The slots of a section's record; those that its kinds don't use hold +0.0.
// A kind is wrapped as a part, since each kind's slots are written once, for a section of that kind alone and for a part of a combination.
#[tactic(auto, unfolding(crate::specs::Slots::slots_of))]
pub fn slots_of(section: Section) -> [f64; FIELDS]
    ensures { result ≡ slots_of section }
{
    let none = [0.0; 12];
    match section {
        Section::EverywhereConstant(s) => {
            let other = [
                s.value,
                s.prev_primitive,
                s.x_prev,
                0.0,
                0.0,
                0.0,
                0.0,
                0.0,
                0.0,
                0.0,
                0.0,
            ];
            laid_out(0.0, none, other)
        }
        Section::ConstantGrad(s) => {
            let other = [
                s.f_prev,
                s.prev_primitive,
                s.x_prev,
                s.f_grad,
                s.f_next,
                0.0,
                0.0,
                0.0,
                0.0,
                0.0,
                0.0,
            ];
            laid_out(0.0, none, other)
        }
        Section::ConvexMonotone2(s) => {
            laid_out(
                0.0,
                none,
                convex_slots(ConvexMonotonePart::ConvexMonotone2(s)),
            )
        }
        Section::ConvexMonotone3(s) => {
            laid_out(
                0.0,
                none,
                convex_slots(ConvexMonotonePart::ConvexMonotone3(s)),
            )
        }
        Section::ConvexMonotone4(s) => {
            laid_out(
                0.0,
                none,
                convex_slots(ConvexMonotonePart::ConvexMonotone4(s)),
            )
        }
        Section::ConvexMonotone4Min(s) => {
            laid_out(
                0.0,
                none,
                convex_slots(ConvexMonotonePart::ConvexMonotone4Min(s)),
            )
        }
        Section::Quadratic(s) => {
            laid_out(1.0, quadratic_slots(QuadraticPart::Quadratic(s)), [0.0; 11])
        }
        Section::QuadraticMin(s) => {
            laid_out(
                1.0,
                quadratic_slots(QuadraticPart::QuadraticMin(s)),
                [0.0; 11],
            )
        }
        Section::Combination(s) => {
            laid_out(
                s.quadraticity,
                quadratic_slots(s.quadratic_helper),
                convex_slots(s.conv_mono_helper),
            )
        }
    }
}
