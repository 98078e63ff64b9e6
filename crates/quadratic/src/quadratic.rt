// A parabola with the two ends and the average of its period.
ghost use Rattle.std.specs.Prelude.{◌≡◌};
ghost use Rattle.quadratic.specs.Quadratic.{new, value, primitive, f_next};

use crate::parabola::Parabola;

#[derive(Clone, Copy)]
pub struct Quadratic {
    pub x_prev: f64,
    pub x_scaling: f64,
    pub a: f64,
    pub b: f64,
    pub c: f64,
    pub f_next: f64,
    pub prev_primitive: f64,
}

impl Quadratic {
    pub fn new(
        x_prev: f64,
        x_next: f64,
        f_prev: f64,
        f_next: f64,
        f_average: f64,
        prev_primitive: f64,
    ) -> Self
        ensures { result ≡ new x_prev x_next f_prev f_next f_average prev_primitive }
    {
        let Parabola { a, b, c } = Parabola::through(f_prev, f_next, f_average);
        Self {
            x_prev,
            x_scaling: x_next - x_prev,
            a,
            b,
            c,
            f_next,
            prev_primitive,
        }
    }

    pub fn value(self, x: f64) -> f64
        ensures { result ≡ value self x }
    {
        let x_val = (x - self.x_prev) / self.x_scaling;
        self.a * x_val * x_val + self.b * x_val + self.c
    }

    pub fn primitive(self, x: f64) -> f64
        ensures { result ≡ primitive self x }
    {
        let x_val = (x - self.x_prev) / self.x_scaling;
        let parabola = Parabola {
            a: self.a,
            b: self.b,
            c: self.c,
        };
        parabola.under(self.prev_primitive, self.x_scaling, x_val)
    }

    pub fn f_next(self) -> f64
        ensures { result ≡ f_next self }
    {
        self.f_next
    }
}
