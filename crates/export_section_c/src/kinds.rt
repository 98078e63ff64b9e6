// A single section of each kind, made from its own numbers into a tag and its fields.
ghost use Rattle.std.specs.Prelude.{◌≡◌};
ghost use Rattle.export_section.specs.Kinds.{across, section_across, constant, gradient, second, third, fourth, fourth_min, fourth_min_safe, quadratic, quadratic_min, quadratic_min_careful, quadratic_min_safe};

// A constant section: its value everywhere.
#[unsafe(no_mangle)]
pub extern "C" fn havgrunel_everywhere_constant(
    value: f64,
    prev_primitive: f64,
    x_prev: f64,
    tag: &mut [u16],
    slots: &mut [f64],
) -> u8
    ensures { across result tag.new slots.new ≡ section_across (constant value prev_primitive x_prev) tag.old slots.old }
{
    export_section::kinds::havgrunel_everywhere_constant(value, prev_primitive, x_prev, tag, slots)
}

// A straight line from one node to the next.
#[unsafe(no_mangle)]
pub extern "C" fn havgrunel_constant_grad(
    f_prev: f64,
    prev_primitive: f64,
    x_prev: f64,
    x_next: f64,
    f_next: f64,
    tag: &mut [u16],
    slots: &mut [f64],
) -> u8
    ensures { across result tag.new slots.new ≡ section_across (gradient f_prev prev_primitive x_prev x_next f_next) tag.old slots.old }
{
    export_section::kinds::havgrunel_constant_grad(
        f_prev,
        prev_primitive,
        x_prev,
        x_next,
        f_next,
        tag,
        slots,
    )
}

// Level, then a parabola.
#[unsafe(no_mangle)]
pub extern "C" fn havgrunel_convex_monotone2(
    x_prev: f64,
    x_next: f64,
    g_prev: f64,
    g_next: f64,
    f_average: f64,
    eta2: f64,
    prev_primitive: f64,
    tag: &mut [u16],
    slots: &mut [f64],
) -> u8
    ensures { across result tag.new slots.new ≡ section_across (second x_prev x_next g_prev g_next f_average eta2 prev_primitive) tag.old slots.old }
{
    export_section::kinds::havgrunel_convex_monotone2(
        x_prev,
        x_next,
        g_prev,
        g_next,
        f_average,
        eta2,
        prev_primitive,
        tag,
        slots,
    )
}

// A parabola, then level.
#[unsafe(no_mangle)]
pub extern "C" fn havgrunel_convex_monotone3(
    x_prev: f64,
    x_next: f64,
    g_prev: f64,
    g_next: f64,
    f_average: f64,
    eta3: f64,
    prev_primitive: f64,
    tag: &mut [u16],
    slots: &mut [f64],
) -> u8
    ensures { across result tag.new slots.new ≡ section_across (third x_prev x_next g_prev g_next f_average eta3 prev_primitive) tag.old slots.old }
{
    export_section::kinds::havgrunel_convex_monotone3(
        x_prev,
        x_next,
        g_prev,
        g_next,
        f_average,
        eta3,
        prev_primitive,
        tag,
        slots,
    )
}

// Two parabolas that meet.
#[unsafe(no_mangle)]
pub extern "C" fn havgrunel_convex_monotone4(
    x_prev: f64,
    x_next: f64,
    g_prev: f64,
    g_next: f64,
    f_average: f64,
    eta4: f64,
    prev_primitive: f64,
    tag: &mut [u16],
    slots: &mut [f64],
) -> u8
    ensures { across result tag.new slots.new ≡ section_across (fourth x_prev x_next g_prev g_next f_average eta4 prev_primitive) tag.old slots.old }
{
    export_section::kinds::havgrunel_convex_monotone4(
        x_prev,
        x_next,
        g_prev,
        g_next,
        f_average,
        eta4,
        prev_primitive,
        tag,
        slots,
    )
}

// The same, split where it would fall below zero.
#[unsafe(no_mangle)]
pub extern "C" fn havgrunel_convex_monotone4_min(
    x_prev: f64,
    x_next: f64,
    g_prev: f64,
    g_next: f64,
    f_average: f64,
    eta4: f64,
    prev_primitive: f64,
    tag: &mut [u16],
    slots: &mut [f64],
) -> u8
    ensures { across result tag.new slots.new ≡ section_across (fourth_min x_prev x_next g_prev g_next f_average eta4 prev_primitive) tag.old slots.old }
{
    export_section::kinds::havgrunel_convex_monotone4_min(
        x_prev,
        x_next,
        g_prev,
        g_next,
        f_average,
        eta4,
        prev_primitive,
        tag,
        slots,
    )
}

// The same, flat at its average where it would be squeezed to next to nothing.
#[unsafe(no_mangle)]
pub extern "C" fn havgrunel_convex_monotone4_min_safe(
    x_prev: f64,
    x_next: f64,
    g_prev: f64,
    g_next: f64,
    f_average: f64,
    eta4: f64,
    prev_primitive: f64,
    tag: &mut [u16],
    slots: &mut [f64],
) -> u8
    ensures { across result tag.new slots.new ≡ section_across (fourth_min_safe x_prev x_next g_prev g_next f_average eta4 prev_primitive) tag.old slots.old }
{
    export_section::kinds::havgrunel_convex_monotone4_min_safe(
        x_prev,
        x_next,
        g_prev,
        g_next,
        f_average,
        eta4,
        prev_primitive,
        tag,
        slots,
    )
}

// The parabola through two nodes with the average.
#[unsafe(no_mangle)]
pub extern "C" fn havgrunel_quadratic(
    x_prev: f64,
    x_next: f64,
    f_prev: f64,
    f_next: f64,
    f_average: f64,
    prev_primitive: f64,
    tag: &mut [u16],
    slots: &mut [f64],
) -> u8
    ensures { across result tag.new slots.new ≡ section_across (quadratic x_prev x_next f_prev f_next f_average prev_primitive) tag.old slots.old }
{
    export_section::kinds::havgrunel_quadratic(
        x_prev,
        x_next,
        f_prev,
        f_next,
        f_average,
        prev_primitive,
        tag,
        slots,
    )
}

// The same, shortened and split where both tests of the original's rule pass.
#[unsafe(no_mangle)]
pub extern "C" fn havgrunel_quadratic_min(
    x_prev: f64,
    x_next: f64,
    f_prev: f64,
    f_next: f64,
    f_average: f64,
    prev_primitive: f64,
    tag: &mut [u16],
    slots: &mut [f64],
) -> u8
    ensures { across result tag.new slots.new ≡ section_across (quadratic_min x_prev x_next f_prev f_next f_average prev_primitive) tag.old slots.old }
{
    export_section::kinds::havgrunel_quadratic_min(
        x_prev,
        x_next,
        f_prev,
        f_next,
        f_average,
        prev_primitive,
        tag,
        slots,
    )
}

// The same, split only where its ratio is above 0 and at most 1, too.
#[unsafe(no_mangle)]
pub extern "C" fn havgrunel_quadratic_min_careful(
    x_prev: f64,
    x_next: f64,
    f_prev: f64,
    f_next: f64,
    f_average: f64,
    prev_primitive: f64,
    tag: &mut [u16],
    slots: &mut [f64],
) -> u8
    ensures { across result tag.new slots.new ≡ section_across (quadratic_min_careful x_prev x_next f_prev f_next f_average prev_primitive) tag.old slots.old }
{
    export_section::kinds::havgrunel_quadratic_min_careful(
        x_prev,
        x_next,
        f_prev,
        f_next,
        f_average,
        prev_primitive,
        tag,
        slots,
    )
}

// The same by the safe rule.
#[unsafe(no_mangle)]
pub extern "C" fn havgrunel_quadratic_min_safe(
    x_prev: f64,
    x_next: f64,
    f_prev: f64,
    f_next: f64,
    f_average: f64,
    prev_primitive: f64,
    tag: &mut [u16],
    slots: &mut [f64],
) -> u8
    ensures { across result tag.new slots.new ≡ section_across (quadratic_min_safe x_prev x_next f_prev f_next f_average prev_primitive) tag.old slots.old }
{
    export_section::kinds::havgrunel_quadratic_min_safe(
        x_prev,
        x_next,
        f_prev,
        f_next,
        f_average,
        prev_primitive,
        tag,
        slots,
    )
}
