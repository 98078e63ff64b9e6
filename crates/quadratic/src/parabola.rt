// What the two quadratic kinds share.
ghost use Rattle.std.specs.Prelude.{◌≡◌};
ghost use Rattle.quadratic.specs.Parabola.{a_of, b_of, under, discriminant};

// The coefficients of a parabola, the leading one first.
#[derive(Clone, Copy)]
pub(crate) struct Parabola {
    pub a: f64,
    pub b: f64,
    pub c: f64,
}

impl Parabola {
    // The one with these ends and this average.
    pub(crate) fn through(f_prev: f64, f_next: f64, f_average: f64) -> Self
        ensures { result ≡ record { a = a_of f_prev f_next f_average; b = b_of f_prev f_next f_average; c = f_prev } }
    {
        Self {
            a: 3.0 * f_prev + 3.0 * f_next - 6.0 * f_average,
            b: -(4.0 * f_prev + 2.0 * f_next - 6.0 * f_average),
            c: f_prev,
        }
    }

    // Above 0 where it has two zeros, in the period or outside it.
    pub(crate) fn discriminant(self) -> f64
        ensures { result ≡ discriminant self.a self.b self.c }
    {
        self.b * self.b - 4.0 * self.a * self.c
    }

    // What has accumulated at the place v.
    pub(crate) fn under(self, prev_primitive: f64, x_scaling: f64, v: f64) -> f64
        ensures { result ≡ under prev_primitive x_scaling self.a self.b self.c v }
    {
        prev_primitive + x_scaling * (self.a / 3.0 * v * v + self.b / 2.0 * v + self.c) * v
    }
}
