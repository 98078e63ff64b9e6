// A single section of each kind, made from its own numbers into a tag and its fields.
ghost use Rattle.std.specs.Prelude.{◌≡◌};
ghost use Rattle.export_section.specs.Kinds.{across, section_across, constant, gradient, second, third, fourth, fourth_min, fourth_min_safe, quadratic, quadratic_min, quadratic_min_careful, quadratic_min_safe};

use crate::records::copy;
use convex::convex_monotone2::ConvexMonotone2;
use convex::convex_monotone3::ConvexMonotone3;
use convex::convex_monotone4::ConvexMonotone4;
use convex::convex_monotone4_min::ConvexMonotone4Min;
use numbers::FIELDS;
use quadratic::quadratic::Quadratic;
use quadratic::quadratic_min::QuadraticMin;
use record::slots::slots_of;
use record::tag::tag_of;
use refusal::Refusal;
use section::constant_grad::ConstantGrad;
use section::everywhere_constant::EverywhereConstant;
use section::section::Section;

// Writes a section: its tag into the first entry of `tag`, its fields into the first entries of `slots`.
fn put(section: Section, tag: &mut [u16], slots: &mut [f64]) -> u8
    ensures { across result tag.new slots.new ≡ section_across section tag.old slots.old }
{
    if tag.len() < 1 {
        return Refusal::BufferTooShort.number();
    }
    if slots.len() < FIELDS {
        return Refusal::BufferTooShort.number();
    }
    tag[0] = tag_of(section);
    let numbers = slots_of(section);
    copy(FIELDS, &numbers, slots);
    0
}

// A constant section: its value everywhere.
pub fn havgrunel_everywhere_constant(
    value: f64,
    prev_primitive: f64,
    x_prev: f64,
    tag: &mut [u16],
    slots: &mut [f64],
) -> u8
    ensures { across result tag.new slots.new ≡ section_across (constant value prev_primitive x_prev) tag.old slots.old }
{
    let section = EverywhereConstant::new(value, prev_primitive, x_prev);
    put(Section::EverywhereConstant(section), tag, slots)
}

// A straight line from one node to the next.
pub fn havgrunel_constant_grad(
    f_prev: f64,
    prev_primitive: f64,
    x_prev: f64,
    x_next: f64,
    f_next: f64,
    tag: &mut [u16],
    slots: &mut [f64],
) -> u8
    ensures { across result tag.new slots.new ≡ section_across (gradient f_prev prev_primitive x_prev x_next f_next) tag.old slots.old }
{
    let section = ConstantGrad::new(f_prev, prev_primitive, x_prev, x_next, f_next);
    put(Section::ConstantGrad(section), tag, slots)
}

// Level, then a parabola.
pub fn havgrunel_convex_monotone2(
    x_prev: f64,
    x_next: f64,
    g_prev: f64,
    g_next: f64,
    f_average: f64,
    eta2: f64,
    prev_primitive: f64,
    tag: &mut [u16],
    slots: &mut [f64],
) -> u8
    ensures { across result tag.new slots.new ≡ section_across (second x_prev x_next g_prev g_next f_average eta2 prev_primitive) tag.old slots.old }
{
    let section = ConvexMonotone2::new(
        x_prev,
        x_next,
        g_prev,
        g_next,
        f_average,
        eta2,
        prev_primitive,
    );
    put(Section::ConvexMonotone2(section), tag, slots)
}

// A parabola, then level.
pub fn havgrunel_convex_monotone3(
    x_prev: f64,
    x_next: f64,
    g_prev: f64,
    g_next: f64,
    f_average: f64,
    eta3: f64,
    prev_primitive: f64,
    tag: &mut [u16],
    slots: &mut [f64],
) -> u8
    ensures { across result tag.new slots.new ≡ section_across (third x_prev x_next g_prev g_next f_average eta3 prev_primitive) tag.old slots.old }
{
    let section = ConvexMonotone3::new(
        x_prev,
        x_next,
        g_prev,
        g_next,
        f_average,
        eta3,
        prev_primitive,
    );
    put(Section::ConvexMonotone3(section), tag, slots)
}

// Two parabolas that meet.
pub fn havgrunel_convex_monotone4(
    x_prev: f64,
    x_next: f64,
    g_prev: f64,
    g_next: f64,
    f_average: f64,
    eta4: f64,
    prev_primitive: f64,
    tag: &mut [u16],
    slots: &mut [f64],
) -> u8
    ensures { across result tag.new slots.new ≡ section_across (fourth x_prev x_next g_prev g_next f_average eta4 prev_primitive) tag.old slots.old }
{
    let section = ConvexMonotone4::new(
        x_prev,
        x_next,
        g_prev,
        g_next,
        f_average,
        eta4,
        prev_primitive,
    );
    put(Section::ConvexMonotone4(section), tag, slots)
}

// The same, split where it would fall below zero.
pub fn havgrunel_convex_monotone4_min(
    x_prev: f64,
    x_next: f64,
    g_prev: f64,
    g_next: f64,
    f_average: f64,
    eta4: f64,
    prev_primitive: f64,
    tag: &mut [u16],
    slots: &mut [f64],
) -> u8
    ensures { across result tag.new slots.new ≡ section_across (fourth_min x_prev x_next g_prev g_next f_average eta4 prev_primitive) tag.old slots.old }
{
    let section = ConvexMonotone4Min::new(
        x_prev,
        x_next,
        g_prev,
        g_next,
        f_average,
        eta4,
        prev_primitive,
    );
    put(Section::ConvexMonotone4Min(section), tag, slots)
}

// The same, flat at its average where it would be squeezed to next to nothing.
pub fn havgrunel_convex_monotone4_min_safe(
    x_prev: f64,
    x_next: f64,
    g_prev: f64,
    g_next: f64,
    f_average: f64,
    eta4: f64,
    prev_primitive: f64,
    tag: &mut [u16],
    slots: &mut [f64],
) -> u8
    ensures { across result tag.new slots.new ≡ section_across (fourth_min_safe x_prev x_next g_prev g_next f_average eta4 prev_primitive) tag.old slots.old }
{
    let section = ConvexMonotone4Min::safe(
        x_prev,
        x_next,
        g_prev,
        g_next,
        f_average,
        eta4,
        prev_primitive,
    );
    put(Section::ConvexMonotone4Min(section), tag, slots)
}

// The parabola through two nodes with the average.
pub fn havgrunel_quadratic(
    x_prev: f64,
    x_next: f64,
    f_prev: f64,
    f_next: f64,
    f_average: f64,
    prev_primitive: f64,
    tag: &mut [u16],
    slots: &mut [f64],
) -> u8
    ensures { across result tag.new slots.new ≡ section_across (quadratic x_prev x_next f_prev f_next f_average prev_primitive) tag.old slots.old }
{
    let section = Quadratic::new(x_prev, x_next, f_prev, f_next, f_average, prev_primitive);
    put(Section::Quadratic(section), tag, slots)
}

// The same, shortened and split where both tests of the original's rule pass.
pub fn havgrunel_quadratic_min(
    x_prev: f64,
    x_next: f64,
    f_prev: f64,
    f_next: f64,
    f_average: f64,
    prev_primitive: f64,
    tag: &mut [u16],
    slots: &mut [f64],
) -> u8
    ensures { across result tag.new slots.new ≡ section_across (quadratic_min x_prev x_next f_prev f_next f_average prev_primitive) tag.old slots.old }
{
    let section = QuadraticMin::new(x_prev, x_next, f_prev, f_next, f_average, prev_primitive);
    put(Section::QuadraticMin(section), tag, slots)
}

// The same, split only where its ratio is above 0 and at most 1, too.
pub fn havgrunel_quadratic_min_careful(
    x_prev: f64,
    x_next: f64,
    f_prev: f64,
    f_next: f64,
    f_average: f64,
    prev_primitive: f64,
    tag: &mut [u16],
    slots: &mut [f64],
) -> u8
    ensures { across result tag.new slots.new ≡ section_across (quadratic_min_careful x_prev x_next f_prev f_next f_average prev_primitive) tag.old slots.old }
{
    let section = QuadraticMin::careful(x_prev, x_next, f_prev, f_next, f_average, prev_primitive);
    put(Section::QuadraticMin(section), tag, slots)
}

// The same by the safe rule.
pub fn havgrunel_quadratic_min_safe(
    x_prev: f64,
    x_next: f64,
    f_prev: f64,
    f_next: f64,
    f_average: f64,
    prev_primitive: f64,
    tag: &mut [u16],
    slots: &mut [f64],
) -> u8
    ensures { across result tag.new slots.new ≡ section_across (quadratic_min_safe x_prev x_next f_prev f_next f_average prev_primitive) tag.old slots.old }
{
    let section = QuadraticMin::safe(x_prev, x_next, f_prev, f_next, f_average, prev_primitive);
    put(Section::QuadraticMin(section), tag, slots)
}
